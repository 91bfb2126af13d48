// What stands at a place not in use: all zeros. A room of the checker: its other crates call it, users do not.
ghost use Rattle.std.specs.Prelude.{◌≡◌};
ghost use Rattle.aldlf.specs.Sheet.{no_line, no_edge, no_automaton};
ghost use Rattle.sheet.specs.Questions.{empty_table};

use aldlf::{Automaton, Edge, NodeLine, Table, Used};

pub fn no_line() -> NodeLine
    ensures { result ≡ no_line }
{
    NodeLine::default()
}

pub fn no_automaton() -> Automaton
    ensures { result ≡ no_automaton }
{
    Automaton::default()
}

pub fn no_edge() -> Edge
    ensures { result ≡ no_edge }
{
    Edge::default()
}

pub fn empty_table() -> Table
    ensures { result ≡ empty_table }
{
    Table {
        nodes: [no_line(); aldlf::NODES],
        automata: [no_automaton(); aldlf::AUTOMATA],
        edges: [no_edge(); aldlf::EDGES],
        used: Used::default(),
    }
}
