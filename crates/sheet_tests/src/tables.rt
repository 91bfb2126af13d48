// Question 31 tried: tables that sheets give, and tables that none gives. What a changed table's line has after its sheet:
// node: its place, letter, a, b; edge: its place, from, direction, test, to; counts: a node as above, then how many nodes, automata, edges;
// automaton: its place, states, start, accepting, first, count, before.
use aldlf::{Automaton, Edge, Node, NodeLine, State, Table, Used};
use sheet::empty::empty_table;
use std::io;

// Prints whether some sheet gives a sheet's table, or that table with a change; of one that is read also what it holds.
pub(crate) fn tried(rt: &impl Print, line: &[u8]) -> io::Result<()> {
    let t = super::answer(line).unwrap_or(empty_table());
    if cases::letter(line) == b'r' {
        super::used(rt, &t)?;
        let x = t.nodes[0];
        print!(rt; " node 0 {},{},{}", x.kind, x.a, x.b)?;
    }
    if sheet::is_given(changed(line, t)) {
        rt.write_all(b" given")
    } else {
        rt.write_all(b" not given")
    }
}

// The table with the change that a line asks for: a node, an edge, an automaton, or a node and the counts; or one all of the greatest numbers.
fn changed(line: &[u8], t: Table) -> Table {
    match cases::letter(line) {
        b'n' => with_node(t, line),
        b'e' => with_edge(t, line),
        b'a' => with_automaton(t, line),
        b'c' => with_counts(t, line),
        b'g' => greatest(),
        _ => t,
    }
}

fn with_node(mut t: Table, line: &[u8]) -> Table {
    if let Some(place) = t.nodes.get_mut(cases::number_at(line, 3)) {
        *place = node(line);
    }
    t
}

fn with_edge(mut t: Table, line: &[u8]) -> Table {
    if let Some(place) = t.edges.get_mut(cases::number_at(line, 3)) {
        *place = edge(line);
    }
    t
}

fn with_automaton(mut t: Table, line: &[u8]) -> Table {
    if let Some(place) = t.automata.get_mut(cases::number_at(line, 3)) {
        *place = automaton(line);
    }
    t
}

// A node and the counts.
fn with_counts(t: Table, line: &[u8]) -> Table {
    let mut changed = with_node(t, line);
    changed.used = counts(line);
    changed
}

fn node(line: &[u8]) -> NodeLine {
    NodeLine {
        kind: cases::letter(cases::field(line, 4)),
        a: cases::byte(line, 5),
        b: cases::byte(line, 6),
    }
}

fn edge(line: &[u8]) -> Edge {
    Edge {
        from: State(cases::byte(line, 4)),
        dir: cases::byte(line, 5),
        test: Node(cases::byte(line, 6)),
        to: State(cases::byte(line, 7)),
    }
}

fn automaton(line: &[u8]) -> Automaton {
    Automaton {
        states: cases::byte(line, 4),
        start: State(cases::byte(line, 5)),
        accepting: cases::half(line, 6),
        first: cases::half(line, 7),
        count: cases::half(line, 8),
        before: cases::byte(line, 9),
    }
}

fn counts(line: &[u8]) -> Used {
    Used {
        nodes: cases::byte(line, 7),
        automata: cases::byte(line, 8),
        edges: cases::half(line, 9),
    }
}

fn greatest() -> Table {
    Table {
        nodes: [GREATEST_NODE; aldlf::NODES],
        automata: [GREATEST_AUTOMATON; aldlf::AUTOMATA],
        edges: [GREATEST_EDGE; aldlf::EDGES],
        used: GREATEST_COUNTS,
    }
}

const GREATEST_NODE: NodeLine = NodeLine {
    kind: 255,
    a: 255,
    b: 255,
};

const GREATEST_AUTOMATON: Automaton = Automaton {
    states: 255,
    start: State(255),
    accepting: 65535,
    first: 65535,
    count: 65535,
    before: 255,
};

const GREATEST_EDGE: Edge = Edge {
    from: State(255),
    dir: 255,
    test: Node(255),
    to: State(255),
};

const GREATEST_COUNTS: Used = Used {
    nodes: 255,
    automata: 255,
    edges: 65535,
};
