// Reading a rule sheet to its table (document 01's questions 1 to 11), and which tables some sheet gives (question 31).
#![tactic(auto)]

pub mod build;
mod closing;
pub mod empty;
mod given;
mod line;
mod questions;
mod ranges;

ghost use Rattle.std.specs.Prelude.{◌≡◌, length, Err};
ghost use Rattle.aldlf.specs.declared.Table.{Table};
ghost use Rattle.packing.specs.Numbers.{places};
ghost use Rattle.packing.specs.Packed.{Packed};
ghost use Rattle.sheet.specs.Questions.{read_sheet, refused_by, refused};
ghost use Rattle.sheet.specs.Outcomes.{question_number, stop_by, answer_of};
ghost use Rattle.sheet.specs.Given.{well_formed};

use aldlf::Table;
use build::{added_to, start_reading};
use closing::finish_of;
use line::parse_line;
use questions::question_of;
use ranges::Stop;

// The questions of document 01 that a sheet is asked, each with its number there.
#[derive(Clone, Copy, PartialEq, Eq)]
pub enum SheetQuestion {
    // A sheet has at most so many bytes, and ends in LF.
    Bytes = 1,
    LastByte = 2,
    // A line has a letter of the table and that letter's number of fields; the other fields are numbers.
    Known = 3,
    Numbers = 4,
    // There is room for one more node, automaton or edge.
    Room = 5,
    // The line before a G or E line is M, G or E.
    Inside = 6,
    // Question 7 by the kind of the field that is out of range.
    Fact = 71,
    Node = 72,
    Automaton = 73,
    State = 74,
    Direction = 75,
    Count = 76,
    // A state accepts once.
    Accepting = 8,
    // The node of an edge ahead or back is built on no D or B.
    Plain = 9,
    // Each state stands on an edge of its automaton.
    Whole = 10,
    // The last line is a node.
    LastLine = 11,
}

impl SheetQuestion {
    // The question's number.
    pub fn number(self) -> u8
        ensures { result ≡ question_number self }
    {
        self as u8
    }
}

// Why a sheet is refused: the first question that gets a no, the line that it is about (counted from 1; 0 where it is about none),
// and the field (71 to 76: the leftmost that is out of range, the letter being field 1; else 0).
#[derive(Clone, Copy, PartialEq, Eq)]
pub struct SheetRefusal {
    pub question: SheetQuestion,
    pub line: u16,
    pub field: u8,
}

// The sheet's table, or the first question that gets a no, and the line and the field it is about.
// The text is read in one pass: a line is asked and added before the next is looked at, and where the next starts is known only then.
pub fn read_sheet(text: &[u8]) -> Result<Table, SheetRefusal>
    ensures { answer_of result ≡ read_sheet text.now }
{
    if text::BYTES < text.len() {
        return Err(refusal(SheetQuestion::Bytes, 0));
    }
    if !text::ends_in_lf(text) {
        return Err(refusal(SheetQuestion::LastByte, 0));
    }
    let mut r = start_reading();
    let mut k: u16 = 0;
    let mut at: usize = 0;
    while at < text.len() {
        let line = text::line_at(text, at);
        let l = parse_line(line);
        k += 1;
        if let Err(stop) = question_of(&r, l) {
            return Err(refusal_by(stop, k));
        }
        r = added_to(r, k, l);
        at += line.len() + 1;
    }
    finish_of(r, k)
}

// Whether some sheet gives the table: every table is answered, also one with numbers out of range.
pub fn is_given(table: Table) -> bool
    ensures { result ≡ well_formed table }
{
    let mut numbers = [0u32; packing::places::PLACES];
    packing::writing::pack(table, &mut numbers);
    is_given_packed(&numbers)
}

// The same of a table that is lent as numbers. A room of the checker: its other crates call it, users do not.
pub fn is_given_packed(numbers: &[u32]) -> bool
    requires { length numbers.now ≡ places }
    ensures { (t : Table) → Packed t numbers.now → result ≡ well_formed t }
{
    given::well_formed(numbers)
}

// The refusal of a line by a question that is about no field.
pub(crate) fn refusal(question: SheetQuestion, line: u16) -> SheetRefusal
    ensures { answer_of (Err result) ≡ refused (question_number question) line }
{
    SheetRefusal {
        question,
        line,
        field: 0,
    }
}

// The refusal of a line by what stops the reading there.
fn refusal_by(stop: Stop, line: u16) -> SheetRefusal
    ensures { answer_of (Err result) ≡ refused_by (stop_by stop) line }
{
    SheetRefusal {
        question: stop.question,
        line,
        field: stop.field,
    }
}
