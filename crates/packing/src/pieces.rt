// An edge, a node line and an automaton as numbers, and back.
ghost use Rattle.std.specs.Prelude.{◌≡◌};
ghost use Rattle.packing.specs.Numbers.{packed_of, edge_in, line_in, automaton_in};

use aldlf::{Automaton, Edge, Node, NodeLine, State};

// The three numbers of an automaton: its states, start and accepting states; its edges; the nodes above it.
#[derive(Clone, Copy)]
pub(crate) struct Head {
    pub(crate) states: u32,
    pub(crate) range: u32,
    pub(crate) before: u32,
}

// An edge as one number.
pub fn packed_edge(e: Edge) -> u32
    ensures { (result ≡ packed_of e) × (edge_in result ≡ e) }
{
    (e.from.0 as u32)
        + 256 * (e.dir as u32)
        + 65536 * (e.test.0 as u32)
        + 16777216 * (e.to.0 as u32)
}

// The edge in a number.
pub fn edge_in(p: u32) -> Edge
    ensures { result ≡ edge_in p }
{
    Edge {
        from: State((p % 256) as u8),
        dir: (p / 256 % 256) as u8,
        test: Node((p / 65536 % 256) as u8),
        to: State((p / 16777216 % 256) as u8),
    }
}

// A node line as one number.
pub fn packed_line(x: NodeLine) -> u32
    ensures { line_in result ≡ x }
{
    (x.kind as u32) + 256 * (x.a as u32) + 65536 * (x.b as u32)
}

// The node line in a number.
pub fn line_in(p: u32) -> NodeLine
    ensures { result ≡ line_in p }
{
    NodeLine {
        kind: (p % 256) as u8,
        a: (p / 256 % 256) as u8,
        b: (p / 65536 % 256) as u8,
    }
}

// An automaton as three numbers.
pub(crate) fn packed_automaton(x: Automaton) -> Head
    ensures { automaton_in result.states result.range result.before ≡ x }
{
    Head {
        states: (x.states as u32) + 256 * (x.start.0 as u32) + 65536 * (x.accepting as u32),
        range: (x.first as u32) + 65536 * (x.count as u32),
        before: x.before as u32,
    }
}

// The automaton in three numbers.
pub(crate) fn automaton_in(h: Head) -> Automaton
    ensures { result ≡ automaton_in h.states h.range h.before }
{
    Automaton {
        states: (h.states % 256) as u8,
        start: State((h.states / 256 % 256) as u8),
        accepting: (h.states / 65536 % 65536) as u16,
        first: (h.range % 65536) as u16,
        count: (h.range / 65536 % 65536) as u16,
        before: (h.before % 256) as u8,
    }
}
