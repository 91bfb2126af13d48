// The instructions run one after the other, over numbers that are lent, and the table put together at the end.
ghost use Rattle.std.specs.Prelude.{◌≡◌, List, ◌≤◌, length, replicate};
ghost use Rattle.aldlf.specs.declared.Edge.{Edge};
ghost use Rattle.aldlf.specs.Constants.{node_limit, automaton_limit, edge_limit, letter_t};
ghost use Rattle.aldlf.specs.Sheet.{no_automaton};
ghost use Rattle.making.specs.Work.{grown};
ghost use Rattle.making.specs.Run.{run, first_bench, making_of, making_by};
ghost use Rattle.making.specs.Numbers.{lines_in, edges_in, table_in, no_counts, Lined};

use super::counts::Counts;
use super::drawing::{draw, draws_path};
use super::ending::{end_path, ends_path};
use super::keeping::{begin, keep, keeps_something};
use super::nodes::{make_node, makes_node, put_line};
use aldlf::{Automaton, Edge, NodeLine, Table, Used};
use packing::pieces::{edge_in, line_in};
use sheet::empty::{no_automaton, no_edge, no_line};

// The counts with node 0, which is T.
fn first_counts(lines: &mut [u32; aldlf::NODES]) -> Option<Counts>
    ensures { Lined (grown letter_t 0 0) no_counts result lines.old lines.new }
{
    let x = NodeLine {
        kind: b'T',
        a: 0,
        b: 0,
    };
    put_line(lines, Counts::default(), x)
}

// No place has an automaton yet.
fn no_automata() -> [Automaton; aldlf::AUTOMATA]
    ensures { result ≡ replicate automaton_limit no_automaton }
{
    [no_automaton(); aldlf::AUTOMATA]
}

// The node lines in the numbers.
fn lines_of(lines: &[u32; aldlf::NODES]) -> [NodeLine; aldlf::NODES]
    requires { length lines.now ≡ node_limit }
    ensures { result ≡ lines_in lines.now }
{
    let mut r = [no_line(); aldlf::NODES];
    for (i, &p) in lines.iter().enumerate() {
        r[i] = line_in(p);
    }
    r
}

// The edges in the numbers, by a loop like that of the lines. An array's `map` was tried for both, and reading a short formula took nearly twice as long.
fn edges_of(edges: &[u32; aldlf::EDGES]) -> [Edge; aldlf::EDGES]
    requires { length edges.now ≡ edge_limit }
    ensures { result ≡ edges_in edges.now }
{
    let mut r = [no_edge(); aldlf::EDGES];
    for (i, &p) in edges.iter().enumerate() {
        r[i] = edge_in(p);
    }
    r
}

// What the instructions came to.
fn finished(
    c: Counts,
    lines: &[u32; aldlf::NODES],
    automata: [Automaton; aldlf::AUTOMATA],
    edges: &[u32; aldlf::EDGES],
) -> Table
    requires { (length lines.now ≡ node_limit) × (length edges.now ≡ edge_limit) }
    ensures { result ≡ table_in c (lines_in lines.now) automata (edges_in edges.now) }
{
    Table {
        nodes: lines_of(lines),
        automata,
        edges: edges_of(edges),
        used: Used {
            nodes: c.nodes,
            automata: c.automata,
            edges: c.edges,
        },
    }
}

// What the instructions come to, on a stack with a place for each of them: each keeps at most one thing.
// Only the arrays of this function hold the table, and each instruction is lent those that it changes: no table goes by value until the end.
pub(crate) fn run_code(code: &[u8], stack: &mut [u32]) -> Option<Table>
    requires { length code.now ≤ length stack.old }
    ensures { making_by result ≡ making_of (run code.now first_bench).made }
{
    let mut lines = [0u32; aldlf::NODES];
    let mut links = [0u32; aldlf::EDGES];
    let mut edges = [0u32; aldlf::EDGES];
    let mut automata = no_automata();
    let mut c = first_counts(&mut lines)?;
    // Groups of instructions, each by its own test: a `match` on patterns was tried, and what a range leaves to the later arms was not proved.
    for &op in code {
        if makes_node(op) {
            c = make_node(op, stack, &mut lines, c)?;
        } else if keeps_something(op) {
            c = keep(op, stack, c);
        } else if op == b'{' {
            c = begin(stack, c)?;
        } else if draws_path(op) {
            c = draw(op, stack, &mut links, c)?;
        } else if ends_path(op) {
            let k = c.automata as usize;
            let x = end_path(op, stack, &links, &mut edges, c)?;
            c = x.counts;
            automata[k] = x.automaton;
        }
    }
    Some(finished(c, &lines, automata, &edges))
}
