// The instructions that end a path, `>` and `]`: its automaton is made, and its mark is kept for the formula behind it.
ghost use Rattle.std.specs.Prelude.{◌≡◌, true, ◌+◌, ◌≤◌, ◌<◌, length, take, drop};
ghost use Rattle.std.proofs.lemmas.List.Edits.{sets};
ghost use Rattle.aldlf.specs.Constants.{edge_limit};
ghost use Rattle.making.specs.Run.{ends_path, letter_of, emitted_on};
ghost use Rattle.making.specs.Numbers.{Sized, room_in, automaton_in, resumed_in, PathEnded};

use super::counts::Counts;
use super::stack::{Kept, below, last_kept, push};
use aldlf::{Automaton, State};
use sheet::build::power;

// Whether an instruction ends a path.
pub(crate) fn ends_path(op: u8) -> bool
    ensures { result ≡ ends_path op }
{
    matches!(op, b'>' | b']')
}

// The letter of a path's mark.
fn letter_of(op: u8) -> u8
    ensures { result ≡ letter_of op }
{
    if op == b'>' { b'D' } else { b'B' }
}

// Whether the path in hand can end: there is room for an automaton, and its end and its base are in range.
fn has_room(c: Counts) -> bool
    ensures { result ≡ room_in c }
{
    ((c.automata as usize) < aldlf::AUTOMATA)
        & ((c.exit.0 as usize) < aldlf::STATES)
        & ((c.base as u16) <= c.links)
}

// The automaton of the path in hand: its end is the one state that accepts.
fn automaton_of(c: Counts) -> Automaton
    requires { room_in c ≡ true }
    ensures { result ≡ automaton_in c }
{
    Automaton {
        states: c.states,
        start: c.entry,
        accepting: power(c.exit.0 as u16),
        first: c.edges,
        count: c.links - c.base as u16,
        before: c.nodes,
    }
}

// The path's own links, from `base` on, become edges of the table.
fn move_links(
    links: &[u32; aldlf::EDGES],
    edges: &mut [u32; aldlf::EDGES],
    first: usize,
    base: usize,
    n: usize,
)
    requires { (first + n ≤ edge_limit) × (base + n ≤ edge_limit) × (length links.now ≡ edge_limit) }
    ensures { edges.new ≡ sets edges.old first (take n (drop base links.now)) }
{
    edges[first..first + n].copy_from_slice(&links[base..base + n]);
}

// The counts behind the path's end: the outer path is in hand again, as it was put aside.
fn resumed(c: Counts, frame: Kept, top: usize) -> Counts
    requires { (room_in c ≡ true) × Sized c }
    ensures { result ≡ resumed_in frame top c }
{
    Counts {
        automata: c.automata + 1,
        edges: c.edges + (c.links - c.base as u16),
        links: c.base as u16,
        states: frame.c,
        base: frame.d,
        entry: State(frame.a),
        exit: State(frame.b),
        top,
        ..c
    }
}

// The counts, and the automaton to be put at its place.
#[derive(Clone, Copy)]
pub(crate) struct Ended {
    pub(crate) counts: Counts,
    pub(crate) automaton: Automaton,
}

// The path in hand ends.
pub(crate) fn end_path(
    op: u8,
    stack: &mut [u32],
    links: &[u32; aldlf::EDGES],
    edges: &mut [u32; aldlf::EDGES],
    c: Counts,
) -> Option<Ended>
    requires { (c.top < length stack.old) × Sized c × (length links.now ≡ edge_limit) }
    ensures { PathEnded (emitted_on op) c result links.now stack.old stack.new edges.old edges.new }
{
    if has_room(c) {
        let top = c.top;
        let frame = last_kept(stack, top);
        let rest = below(top);
        let base = c.base as usize;
        move_links(
            links,
            edges,
            c.edges as usize,
            base,
            c.links as usize - base,
        );
        let mark = Kept {
            a: letter_of(op),
            b: c.automata,
            c: 0,
            d: 0,
        };
        push(stack, rest, mark);
        let automaton = automaton_of(c);
        let counts = resumed(c, frame, rest + 1);
        return Some(Ended { counts, automaton });
    }
    None
}
