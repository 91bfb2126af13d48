// Question 7: each number on a line is in the range of its field's kind; the leftmost that is not decides.
ghost use Rattle.std.specs.Prelude.{◌≡◌, cond};
ghost use Rattle.sheet.specs.Ranges.{is_fact, is_node, is_automaton, is_state, is_direction, is_count, going_on, stop_at, out_of_range};
ghost use Rattle.sheet.specs.Outcomes.{question_number, stop_of};
ghost use Rattle.sheet.specs.Room.{after_state};

use super::SheetQuestion;
use super::line::Line;
use aldlf::{Automaton, Used};

// What stops the reading at a line: a question that gets a no, and the field it is about (the letter is field 1; 0 where it is
// about none).
#[derive(Clone, Copy)]
pub(crate) struct Stop {
    pub(crate) question: SheetQuestion,
    pub(crate) field: u8,
}

// For each letter its fields from left to right.
pub(crate) fn out_of_range(u: Used, x: Automaton, l: Line) -> Result<(), Stop>
    ensures { stop_of result ≡ out_of_range u x l }
{
    let q = x.states as u16;
    match l.letter {
        b'P' => check(is_fact(l.a), SheetQuestion::Fact, 2),
        b'N' => check(is_node(u, l.a), SheetQuestion::Node, 2),
        b'A' | b'O' => {
            check(is_node(u, l.a), SheetQuestion::Node, 2)?;
            check(is_node(u, l.b), SheetQuestion::Node, 3)
        }
        b'D' | b'B' => {
            check(is_automaton(u, l.a), SheetQuestion::Automaton, 2)?;
            check(is_node(u, l.b), SheetQuestion::Node, 3)
        }
        b'M' => {
            check(is_count(l.a), SheetQuestion::Count, 2)?;
            check(is_state(l.a, l.b), SheetQuestion::State, 3)
        }
        b'G' => check(is_state(q, l.a), SheetQuestion::State, 2),
        b'E' => {
            check(is_state(q, l.a), SheetQuestion::State, 2)?;
            after_state(u, q, l)
        }
        _ => Ok(()),
    }
}

// The fields of an E line after the first state, of q states.
fn after_state(u: Used, q: u16, l: Line) -> Result<(), Stop>
    ensures { stop_of result ≡ after_state u q l }
{
    check(is_direction(l.b), SheetQuestion::Direction, 3)?;
    check(is_node(u, l.c), SheetQuestion::Node, 4)?;
    check(is_state(q, l.d), SheetQuestion::State, 5)
}

// A field that does not fit stops the reading by the question of its kind.
fn check(fits: bool, question: SheetQuestion, field: u8) -> Result<(), Stop>
    ensures { stop_of result ≡ cond fits going_on (stop_at (question_number question) field) }
{
    if fits {
        return Ok(());
    }
    Err(Stop { question, field })
}

fn is_fact(n: u16) -> bool
    ensures { result ≡ is_fact n }
{
    (n as usize) < aldlf::FACTS
}

fn is_node(u: Used, n: u16) -> bool
    ensures { result ≡ is_node u n }
{
    n < u.nodes as u16
}

fn is_automaton(u: Used, n: u16) -> bool
    ensures { result ≡ is_automaton u n }
{
    n < u.automata as u16
}

fn is_state(q: u16, n: u16) -> bool
    ensures { result ≡ is_state q n }
{
    n < q
}

fn is_direction(n: u16) -> bool
    ensures { result ≡ is_direction n }
{
    n < 3
}

fn is_count(n: u16) -> bool
    ensures { result ≡ is_count n }
{
    (1 <= n) & (n as usize <= aldlf::STATES)
}
