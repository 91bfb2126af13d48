// The sheet that gives a table, printed. A table does not say where the G lines stood among the E lines: they come first, and their states rise.
use aldlf::{Automaton, NodeLine, Table};
use std::io;

// The node lines, each below the automata that stand directly above it.
pub fn sheet(rt: &impl Print, t: Table) -> io::Result<()> {
    let n = usize::from(t.used.nodes);
    for (k, &x) in t.nodes.iter().enumerate().take(n) {
        automata(rt, t, k)?;
        node(rt, x)?;
    }
    Ok(())
}

// The automata that stand directly above node k.
fn automata(rt: &impl Print, t: Table, k: usize) -> io::Result<()> {
    let n = usize::from(t.used.automata);
    for &x in t.automata.iter().take(n) {
        if usize::from(x.before) == k {
            automaton(rt, t, x)?;
        }
    }
    Ok(())
}

fn automaton(rt: &impl Print, t: Table, x: Automaton) -> io::Result<()> {
    print!(rt; " M,{},{}", x.states, x.start.0)?;
    accepting(rt, x.accepting)?;
    edges(rt, t, x)
}

// The states that accept.
fn accepting(rt: &impl Print, bits: u16) -> io::Result<()> {
    for s in 0..aldlf::STATES {
        if bits >> s & 1 == 1 {
            print!(rt; " G,{s}")?;
        }
    }
    Ok(())
}

// An automaton's edges.
fn edges(rt: &impl Print, t: Table, x: Automaton) -> io::Result<()> {
    let first = usize::from(x.first);
    let count = usize::from(x.count);
    for e in t.edges.iter().skip(first).take(count) {
        print!(rt; " E,{},{},{},{}", e.from.0, e.dir, e.test.0, e.to.0)?;
    }
    Ok(())
}

fn node(rt: &impl Print, x: NodeLine) -> io::Result<()> {
    rt.write_all(&[b' ', x.kind])?;
    match x.kind {
        b'T' | b'F' => Ok(()),
        b'P' | b'N' => print!(rt; ",{}", x.a),
        _ => print!(rt; ",{},{}", x.a, x.b),
    }
}
