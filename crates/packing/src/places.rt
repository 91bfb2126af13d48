// What a table's numbers have at their places: edge e at e, node line k at LINES + k, automaton m at HEADS + m, RANGES + m and BEFORE + m, then the counts in use.
ghost use Rattle.std.specs.Prelude.{◌≡◌, ◌<◌, length};
ghost use Rattle.aldlf.specs.Constants.{node_limit, automaton_limit, edge_limit};
ghost use Rattle.packing.specs.Numbers.{places, lent_edge, lent_line, lent_automaton, lent_used};

use super::pieces::{Head, automaton_in, edge_in, line_in};
use aldlf::{Automaton, Edge, Node, NodeLine, Used};

// Where the numbers of the node lines, of the automata and of the counts start, and how many numbers there are.
pub const LINES: usize = aldlf::EDGES;

pub const HEADS: usize = LINES + aldlf::NODES;

pub const RANGES: usize = HEADS + aldlf::AUTOMATA;

pub const BEFORE: usize = RANGES + aldlf::AUTOMATA;

pub const USED: usize = BEFORE + aldlf::AUTOMATA;

pub const PLACES: usize = USED + 3;

// Edge e.
pub fn edge_at(numbers: &[u32], e: u16) -> Edge
    requires { (length numbers.now ≡ places) × (e < edge_limit) }
    ensures { result ≡ lent_edge numbers.now e }
{
    edge_in(numbers[e as usize])
}

// A node's line.
pub fn line_at(numbers: &[u32], node: Node) -> NodeLine
    requires { (length numbers.now ≡ places) × (node.0 < node_limit) }
    ensures { result ≡ lent_line numbers.now node.0 }
{
    line_in(numbers[LINES + node.0 as usize])
}

// Automaton m.
pub fn automaton_at(numbers: &[u32], m: u8) -> Automaton
    requires { (length numbers.now ≡ places) × (m < automaton_limit) }
    ensures { result ≡ lent_automaton numbers.now m }
{
    let i = m as usize;
    automaton_in(Head {
        states: numbers[HEADS + i],
        range: numbers[RANGES + i],
        before: numbers[BEFORE + i],
    })
}

// The counts in use.
pub fn used_in(numbers: &[u32]) -> Used
    requires { length numbers.now ≡ places }
    ensures { result ≡ lent_used numbers.now }
{
    Used {
        nodes: (numbers[USED] % 256) as u8,
        automata: (numbers[USED + 1] % 256) as u8,
        edges: (numbers[USED + 2] % 65536) as u16,
    }
}
