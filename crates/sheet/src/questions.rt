// Questions 3 to 9, one function each (7 in ranges.rt), in the paper's order; `question_of` asks them all.
ghost use Rattle.std.specs.Prelude.{◌≡◌, true, false, not, cond, ◌≤◌, get_or};
ghost use Rattle.aldlf.specs.Constants.{automaton_limit};
ghost use Rattle.aldlf.specs.Sheet.{bit};
ghost use Rattle.sheet.specs.Questions.{arity, known_line, all_numbers, room_left, belongs, last, newly_accepting, plain_node, plains, plain_step, question};
ghost use Rattle.sheet.specs.Ranges.{going_on, stop_at};
ghost use Rattle.sheet.specs.Outcomes.{question_number, stop_of};

use super::SheetQuestion;
use super::build::Reading;
use super::line::{Line, NOT_NUMBER};
use super::ranges::{Stop, out_of_range};
use aldlf::{Automaton, NodeLine, Table, Used};

// The first of questions 3 to 9 that gets a no, if one does.
pub(crate) fn question_of(r: &Reading, l: Line) -> Result<(), Stop>
    requires { r.now.table.used.automata ≤ automaton_limit }
    ensures { stop_of result ≡ question r.now l }
{
    let used = r.table.used;
    let x = last_of(&r.table);
    ask(known_line(l), SheetQuestion::Known)?;
    ask(all_numbers(l), SheetQuestion::Numbers)?;
    ask(room_left(used, l), SheetQuestion::Room)?;
    ask(belongs_here(r.inside, l), SheetQuestion::Inside)?;
    out_of_range(used, x, l)?;
    ask(newly_accepting(x, l), SheetQuestion::Accepting)?;
    ask(plain_step(&r.table.nodes, l), SheetQuestion::Plain)
}

// A question about the line as a whole: a no stops the reading.
fn ask(yes: bool, question: SheetQuestion) -> Result<(), Stop>
    ensures { stop_of result ≡ cond yes going_on (stop_at (question_number question) 0) }
{
    if yes {
        return Ok(());
    }
    Err(Stop { question, field: 0 })
}

// Question 3.
fn known_line(l: Line) -> bool
    ensures { result ≡ known_line l }
{
    l.count == arity_of(l.letter)
}

// How many fields follow a letter; 9 for what is none.
fn arity_of(l: u8) -> u8
    ensures { result ≡ arity l }
{
    match l {
        b'T' | b'F' => 0,
        b'P' | b'N' | b'G' => 1,
        b'A' | b'O' | b'D' => 2,
        b'B' | b'M' => 2,
        b'E' => 4,
        _ => 9,
    }
}

// Question 4.
fn all_numbers(l: Line) -> bool
    ensures { result ≡ all_numbers l }
{
    (l.a < NOT_NUMBER) & (l.b < NOT_NUMBER) & (l.c < NOT_NUMBER) & (l.d < NOT_NUMBER)
}

// Question 5.
fn room_left(u: Used, l: Line) -> bool
    ensures { result ≡ room_left u l }
{
    let c = l.letter;
    match c {
        b'M' => (u.automata as usize) < aldlf::AUTOMATA,
        b'G' => true,
        b'E' => (u.edges as usize) < aldlf::EDGES,
        _ => (u.nodes as usize) < aldlf::NODES,
    }
}

// Question 6.
fn belongs_here(inside: bool, l: Line) -> bool
    ensures { result ≡ belongs inside l }
{
    let c = l.letter;
    match c {
        b'G' | b'E' => inside,
        _ => true,
    }
}

// The automaton of the last M line.
pub(crate) fn last_of(t: &Table) -> Automaton
    requires { t.now.used.automata ≤ automaton_limit }
    ensures { result ≡ last t.now }
{
    t.automata[t.used.automata.saturating_sub(1) as usize]
}

// Question 8.
fn newly_accepting(x: Automaton, l: Line) -> bool
    ensures { result ≡ newly_accepting x l }
{
    let c = l.letter;
    match c {
        b'G' => is_clear(x.accepting, l.a),
        _ => true,
    }
}

// Whether bit `a` of `w` is clear.
fn is_clear(w: u16, a: u16) -> bool
    ensures { result ≡ not (bit w a) }
{
    if 16 <= a {
        return true;
    }
    (w >> a) % 2 != 1
}

// Question 9.
fn plain_step(nodes: &[NodeLine; aldlf::NODES], l: Line) -> bool
    ensures { result ≡ plain_step nodes.now l }
{
    if l.letter != b'E' || l.b == 0 {
        return true;
    }
    flag_at(&plains_of(nodes), l.c)
}

// Of each node, whether it is neither D nor B and built on none.
fn plains_of(nodes: &[NodeLine; aldlf::NODES]) -> [bool; aldlf::NODES]
    ensures { result ≡ plains nodes.now }
{
    let mut p = [false; aldlf::NODES];
    for (i, x) in nodes.iter().enumerate() {
        p[i] = plain_node(&p, *x);
    }
    p
}

pub(crate) fn plain_node(p: &[bool], x: NodeLine) -> bool
    ensures { result ≡ plain_node p.now x }
{
    let c = x.kind;
    match c {
        b'T' | b'F' | b'P' => true,
        b'N' => flag_at(p, x.a as u16),
        b'A' | b'O' => flag_at(p, x.a as u16) & flag_at(p, x.b as u16),
        _ => false,
    }
}

// The flag of node k; false where there is none.
pub(crate) fn flag_at(p: &[bool], k: u16) -> bool
    ensures { result ≡ get_or p.now k false }
{
    p.get(k as usize).copied().unwrap_or(false)
}
