// An automaton's edges as numbers, chained once for a search by the state that they enter and by the state that they leave: the search then meets
// only edges that matter to a configuration, and no table is copied at each step.
ghost use Rattle.std.specs.Prelude.{◌≡◌, ℕ, ◌+◌, ◌%◌, ◌≤◌, ◌<◌, length};
ghost use Rattle.aldlf.specs.Constants.{state_limit, edge_limit};
ghost use Rattle.aldlf.specs.declared.Table.{Table};
ghost use Rattle.packing.specs.Numbers.{places, lent_edge};
ghost use Rattle.packing.specs.Packed.{Packed};
ghost use Rattle.graph.specs.Graph.{at};
ghost use Rattle.graph.specs.Arcs.{none, unpacked_of, into_of, out_of, Arc, Linked, Chained};
ghost use Rattle.graph.specs.Configurations.{EdgeFits};

use aldlf::{Automaton, Edge, Node, State};
use packing::pieces::packed_edge;
use packing::places::edge_at;

// The places of a search's edges: each edge at its number, then for each state its first edge in, then its first edge out.
pub const ARCS: usize = 288;

// No edge: all ones, so that places are cleared at once. Of the 16 bits that are looked at it has a number beyond every edge's.
// A number and no option: an edge and its two links are packed into one place of fixed memory.
pub const NONE: u64 = 18446744073709551615;

const INTO: usize = 256;

const OUT: usize = 272;

// The edge that is packed into a number. Not by `edge_in` of its low 32 bits: that is no plainer, and asks a fact on remainders of each field.
pub fn unpacked(p: u64) -> Edge
    ensures { result ≡ unpacked_of p }
{
    Edge {
        from: State((p % 256) as u8),
        dir: (p / 256 % 256) as u8,
        test: Node((p / 65536 % 256) as u8),
        to: State((p / 16777216 % 256) as u8),
    }
}

// The next edge into the state that an edge enters.
pub fn into(p: u64) -> u16
    ensures { result ≡ into_of p }
{
    (p / 4294967296 % 65536) as u16
}

// The next edge out of the state that an edge leaves.
pub fn out(p: u64) -> u16
    ensures { result ≡ out_of p }
{
    (p / 281474976710656 % 65536) as u16
}

// The first edge into a state.
pub fn first_into(arcs: &[u64], s: State) -> u16
    requires { (s.0 < state_limit) × (288 ≤ length arcs.now) }
    ensures { result ≡ at arcs.now (256 + s.0) % 65536 }
{
    (arcs[INTO + (s.0 as usize)] % 65536) as u16
}

// The first edge out of a state.
pub fn first_out(arcs: &[u64], s: State) -> u16
    requires { (s.0 < state_limit) × (288 ≤ length arcs.now) }
    ensures { result ≡ at arcs.now (272 + s.0) % 65536 }
{
    (arcs[OUT + (s.0 as usize)] % 65536) as u16
}

// The number of an edge with its two links, each the lowest 16 bits of a number.
fn arc(x: Edge, into: u64, out: u64) -> u64
    requires { EdgeFits state_limit x }
    ensures { Arc x (into % 65536) (out % 65536) result }
{
    (packed_edge(x) as u64) + 4294967296 * (into % 65536) + 281474976710656 * (out % 65536)
}

// Put edge e at the head of its two chains.
fn link(x: Edge, e: u16, arcs: &mut [u64])
    requires edge_fits { EdgeFits state_limit x }
    requires e_lt_edge_limit { (e < edge_limit) × (288 ≤ length arcs.old) }
    ensures { Linked x e arcs.old arcs.new }
{
    let to = INTO + (x.to.0 as usize);
    let from = OUT + (x.from.0 as usize);
    let p = arc(x, arcs[to], arcs[from]);
    arcs[to] = e as u64;
    arcs[from] = e as u64;
    arcs[e as usize] = p;
}

// Chain the edges of the automaton q, from the last one down, so that each chain rises. No chain has an edge yet.
pub fn chain_edges(numbers: &[u32], q: Automaton, arcs: &mut [u64])
    requires numbers_len { (length numbers.now ≡ places) × (q.first + q.count ≤ edge_limit) × (288 ≤ length arcs.old) × ((i : ℕ) → 256 ≤ i → i < 288 → at arcs.old i ≡ none) }
    requires by_index { (e : ℕ) → q.first ≤ e → e < q.first + q.count → EdgeFits state_limit (lent_edge numbers.now e) }
    ensures { (t : Table) → Packed t numbers.now → Chained t.edges q.first (q.first + q.count) arcs.new }
{
    for e in (q.first..q.first + q.count).rev() {
        link(edge_at(numbers, e), e, arcs);
    }
}
