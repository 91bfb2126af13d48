// The reading of the lines so far, and the same with one line more. Other crates of the checker call `power`, and nothing else here.
ghost use Rattle.std.specs.Prelude.{◌≡◌, ◌<◌, ◌^◌};
ghost use Rattle.aldlf.specs.Constants.{state_limit};
ghost use Rattle.sheet.specs.Questions.{start, with_node, with_automaton, with_accepting, with_edge, with_line, opens, added};
ghost use Rattle.sheet.specs.Room.{NodeRoom, AutomatonRoom, AcceptingRoom, EdgeRoom, LineRoom};

use super::empty::empty_table;
use super::line::Line;
use aldlf::{Automaton, Edge, Node, NodeLine, State, Table};

// The table so far, whether the line before is M, G or E, and the line number of each M line.
#[derive(Clone, Copy)]
pub(crate) struct Reading {
    pub(crate) table: Table,
    pub(crate) inside: bool,
    pub(crate) mlines: [u16; aldlf::AUTOMATA],
}

// The reading before the first line.
pub(crate) fn start_reading() -> Reading
    ensures { result ≡ start }
{
    Reading {
        table: empty_table(),
        inside: false,
        mlines: [0; aldlf::AUTOMATA],
    }
}

// The reading after line k, which is l.
pub(crate) fn added_to(mut r: Reading, k: u16, l: Line) -> Reading
    requires { LineRoom r.table l }
    ensures { result ≡ added r k l }
{
    if l.letter == b'M' {
        r.mlines[r.table.used.automata as usize] = k;
    }
    r.table = with_line(r.table, l);
    r.inside = opens_automaton(l.letter);
    r
}

// Whether the letter is M, G or E.
fn opens_automaton(c: u8) -> bool
    ensures { result ≡ opens c }
{
    matches!(c, b'M' | b'G' | b'E')
}

fn with_line(t: Table, l: Line) -> Table
    requires { LineRoom t l }
    ensures { result ≡ with_line t l }
{
    match l.letter {
        b'M' => with_automaton(t, l),
        b'G' => with_accepting(t, l),
        b'E' => with_edge(t, l),
        _ => with_node(t, l),
    }
}

fn with_node(mut t: Table, l: Line) -> Table
    requires { NodeRoom t l }
    ensures { result ≡ with_node t l }
{
    t.nodes[t.used.nodes as usize] = NodeLine {
        kind: l.letter,
        a: l.a as u8,
        b: l.b as u8,
    };
    t.used.nodes += 1;
    t
}

fn with_automaton(mut t: Table, l: Line) -> Table
    requires { AutomatonRoom t l }
    ensures { result ≡ with_automaton t l }
{
    t.automata[t.used.automata as usize] = Automaton {
        states: l.a as u8,
        start: State(l.b as u8),
        accepting: 0,
        first: t.used.edges,
        count: 0,
        before: t.used.nodes,
    };
    t.used.automata += 1;
    t
}

fn with_accepting(mut t: Table, l: Line) -> Table
    requires { AcceptingRoom t l }
    ensures { result ≡ with_accepting t l }
{
    t.automata[(t.used.automata - 1) as usize].accepting += power(l.a);
    t
}

// The word that has only bit `a` set.
pub fn power(a: u16) -> u16
    requires { a < state_limit }
    ensures { result ≡ 2 ^ a }
{
    1 << a
}

fn with_edge(mut t: Table, l: Line) -> Table
    requires { EdgeRoom t l }
    ensures { result ≡ with_edge t l }
{
    t.automata[(t.used.automata - 1) as usize].count += 1;
    t.edges[t.used.edges as usize] = Edge {
        from: State(l.a as u8),
        dir: l.b as u8,
        test: Node(l.c as u8),
        to: State(l.d as u8),
    };
    t.used.edges += 1;
    t
}
