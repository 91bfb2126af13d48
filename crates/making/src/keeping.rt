// The instructions that keep something: `,`, `!`, `:`, and `{`, where a path begins.
ghost use Rattle.std.specs.Prelude.{◌≡◌, Some, List, ◌+◌, ◌<◌, ltb, length};
ghost use Rattle.aldlf.specs.Constants.{edge_limit};
ghost use Rattle.aldlf.specs.declared.NodeLine.{NodeLine};
ghost use Rattle.aldlf.specs.declared.Automaton.{Automaton};
ghost use Rattle.aldlf.specs.declared.Edge.{Edge};
ghost use Rattle.making.specs.Run.{keeps, kept_by, kept_on, begun_on};
ghost use Rattle.making.specs.Numbers.{work_in, Sized, KeptMore};

use super::counts::Counts;
use super::stack::{Kept, push};
use aldlf::State;

// Whether an instruction only keeps something.
pub(crate) fn keeps_something(op: u8) -> bool
    ensures { result ≡ keeps op }
{
    matches!(op, b',' | b'!' | b':')
}

// What `,`, `!` and `:` keep: the last node, a negation, the last part of the path.
fn kept_by(op: u8, c: Counts) -> Kept
    ensures { (ns : List NodeLine) (ms : List Automaton) (es ks : List Edge) → result ≡ kept_by op (work_in c ns ms es ks) }
{
    match op {
        b',' => Kept {
            a: c.newest(),
            b: 0,
            c: 0,
            d: 0,
        },
        b'!' => Kept {
            a: b'N',
            b: 0,
            c: 0,
            d: 0,
        },
        _ => Kept {
            a: c.entry.0,
            b: c.exit.0,
            c: 0,
            d: 0,
        },
    }
}

// What it keeps is on the stack then.
pub(crate) fn keep(op: u8, stack: &mut [u32], c: Counts) -> Counts
    requires { (c.top < length stack.old) × Sized c }
    ensures { KeptMore (kept_on op) c (Some result) stack.old stack.new }
{
    let top = c.top;
    let k = kept_by(op, c);
    push(stack, top, k);
    c.with_top(top + 1)
}

// Whether there is room for an edge: the table's edges and all open links count.
pub(crate) fn link_room(c: Counts) -> bool
    requires { Sized c }
    ensures { result ≡ ltb (c.edges + c.links) edge_limit }
{
    ((c.edges + c.links) as usize) < aldlf::EDGES
}

// A path begins, and the outer one is put aside.
pub(crate) fn begin(stack: &mut [u32], c: Counts) -> Option<Counts>
    requires { (c.top < length stack.old) × Sized c }
    ensures { KeptMore begun_on c result stack.old stack.new }
{
    if link_room(c) {
        let top = c.top;
        let frame = Kept {
            a: c.entry.0,
            b: c.exit.0,
            c: c.states,
            d: c.base,
        };
        push(stack, top, frame);
        return Some(Counts {
            states: 0,
            base: c.links as u8,
            entry: State(0),
            exit: State(0),
            top: top + 1,
            ..c
        });
    }
    None
}
