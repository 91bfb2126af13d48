// The longest walk that document 01 allows: 8,191 edges, one to each of the 16 times 512 configurations but the first.
// State 0 of the case's sheet sweeps ahead to the last entry, a test edge leads to state 1 there, state 1 sweeps back to the first
// entry, and so on: the sweep of state s is edge 2s and the test edge after it 2s + 1. State 15 accepts, and the first entry is the
// goal. No configuration has two ways on.
use super::calls;
use std::io;

// Asks for it in the first places of 8,192. Fact 0 is at the first entry and fact 1 at the last.
// Shows how many places hold the walk's edge, and how many are as lent.
pub(crate) fn walk(rt: &impl Print, line: &[u8]) -> io::Result<()> {
    let mut log = [0u32; aldlf::ENTRIES];
    log[0] = 1;
    log[511] = 2;
    let mut edges = [999u16; 8192];
    calls::walk_in(rt, line, &log, &mut edges)?;
    println!(rt; ", right {}, as lent {}", right(&edges), kept(&edges))
}

// How many places hold the edge that the walk has there: 511 sweeping edges and a test edge for each state.
fn right(edges: &[u16]) -> usize {
    edges
        .iter()
        .enumerate()
        .filter(|(i, e)| usize::from(**e) == edge_at(*i))
        .count()
}

// The edge at a place of the walk.
fn edge_at(i: usize) -> usize {
    if i % 512 < 511 {
        i / 512 * 2
    } else {
        i / 512 * 2 + 1
    }
}

// How many places are as lent.
fn kept(edges: &[u16]) -> usize {
    edges.iter().filter(|e| **e == 999).count()
}
