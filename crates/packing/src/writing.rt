// The numbers of a table, written to their places.
ghost use Rattle.std.specs.Prelude.{◌≡◌, ℕ, ◌<◌, length, get_or};
ghost use Rattle.aldlf.specs.Constants.{node_limit, automaton_limit, edge_limit};
ghost use Rattle.aldlf.specs.Sheet.{no_line, no_edge};
ghost use Rattle.packing.specs.Numbers.{lines_place, places, edge_in, line_in};
ghost use Rattle.packing.specs.Packed.{Packed, Put, HeadPut, HeadsPut, UsedPut};

use super::pieces::{packed_automaton, packed_edge, packed_line};
use super::places::{BEFORE, HEADS, LINES, RANGES, USED};
use aldlf::{Automaton, Edge, NodeLine, Table, Used};

// A table's numbers, which take the whole slice.
pub fn pack(table: Table, numbers: &mut [u32])
    requires { length numbers.old ≡ places }
    ensures { Packed table numbers.new }
{
    put_edges(&table.edges, numbers);
    put_lines(&table.nodes, numbers);
    put_automata(&table.automata, numbers);
    put_used(table.used, numbers);
}

// Two loops alike, for edges and for node lines: a trait for what packs into one number is longer than the loop that it would save.
fn put_edges(edges: &[Edge; aldlf::EDGES], numbers: &mut [u32])
    requires { length numbers.old ≡ places }
    ensures { Put (λ (e p : ℕ). edge_in p ≡ get_or edges.now e no_edge) 0 edge_limit numbers.old numbers.new }
{
    for (e, x) in edges.iter().enumerate() {
        numbers[e] = packed_edge(*x);
    }
}

fn put_lines(nodes: &[NodeLine; aldlf::NODES], numbers: &mut [u32])
    requires { length numbers.old ≡ places }
    ensures { Put (λ (k p : ℕ). line_in p ≡ get_or nodes.now k no_line) lines_place node_limit numbers.old numbers.new }
{
    for (k, x) in nodes.iter().enumerate() {
        numbers[LINES + k] = packed_line(*x);
    }
}

fn put_automata(automata: &[Automaton; aldlf::AUTOMATA], numbers: &mut [u32])
    requires { length numbers.old ≡ places }
    ensures { HeadsPut automata.now automaton_limit numbers.old numbers.new }
{
    for (m, x) in automata.iter().enumerate() {
        put_automaton(*x, m, numbers);
    }
}

fn put_automaton(x: Automaton, m: usize, numbers: &mut [u32])
    requires { (length numbers.old ≡ places) × (m < automaton_limit) }
    ensures { HeadPut x m numbers.old numbers.new }
{
    let h = packed_automaton(x);
    numbers[HEADS + m] = h.states;
    numbers[RANGES + m] = h.range;
    numbers[BEFORE + m] = h.before;
}

fn put_used(u: Used, numbers: &mut [u32])
    requires { length numbers.old ≡ places }
    ensures { UsedPut u numbers.old numbers.new }
{
    numbers[USED] = u.nodes as u32;
    numbers[USED + 1] = u.automata as u32;
    numbers[USED + 2] = u.edges as u32;
}
