// The steps of a whole log: its first numbers are the places of its entries' columns. Entries that agree on the nodes that the edges test share them.
ghost use Rattle.std.specs.Prelude.{◌≡◌, ℕ, ◌+◌, ◌*◌, ◌≤◌, ◌<◌, true, length};
ghost use Rattle.std.specs.Int.Bits.{bit_and};
ghost use Rattle.aldlf.specs.Constants.{entry_limit, node_limit};
ghost use Rattle.aldlf.specs.Sheet.{bit};
ghost use Rattle.reach.specs.Marks.{at, paired, EdgesFit};
ghost use Rattle.reach.specs.Columns.{Told, Placed, Filled, Filling};
ghost use Rattle.reach.specs.Tests.{in_set, Tested, With};

use super::steps::{group_of, make, one_bit};
use aldlf::Node;

// By what an entry is told apart from others, before they are compared: a remainder.
const SLOTS: usize = 251;

// Some nodes, by the bits of two words, as an entry has its verdicts.
#[derive(Clone, Copy, Default, PartialEq, Eq)]
pub(crate) struct NodeSet {
    pub(crate) low: u64,
    pub(crate) high: u64,
}

impl NodeSet {
    // The nodes of the set that hold at entry i.
    fn holding(self, words: &[u64], i: usize) -> NodeSet
        requires { 2 * i + 1 < length words.now }
        ensures { (result.low ≡ bit_and (at words.now (2 * i)) self.low) × (result.high ≡ bit_and (at words.now (2 * i + 1)) self.high) }
    {
        NodeSet {
            low: words[2 * i] & self.low,
            high: words[2 * i + 1] & self.high,
        }
    }

    // The nodes, and one more.
    fn with(self, node: Node) -> NodeSet
        requires { node.0 < node_limit }
        ensures { With self node.0 result }
    {
        let k = node.0;
        if k < aldlf::WORD_BITS {
            NodeSet {
                low: self.low | 1 << k,
                ..self
            }
        } else {
            NodeSet {
                high: self.high | 1 << (k - aldlf::WORD_BITS),
                ..self
            }
        }
    }

    // Where an entry is remembered at which just these nodes hold, of those that are tested.
    fn slot(self) -> usize
        ensures { result < 251 }
    {
        ((self.low ^ self.high) % (SLOTS as u64)) as usize
    }
}

// What is known of an automaton's edges: a bit of `looks` for each group of directions, and the nodes that they test.
#[derive(Clone, Copy)]
pub(crate) struct Traits {
    pub(crate) looks: u16,
    pub(crate) tested: NodeSet,
}

// An entry, and one that may be like it.
#[derive(Clone, Copy)]
pub(crate) struct Pair {
    pub(crate) entry: usize,
    pub(crate) like: usize,
}

// The steps of an automaton's edges at all entries of a log; which ways the edges go.
pub fn fill(edges: &[u32], words: &[u64], steps: &mut [u16]) -> u16
    requires edges_fit { EdgesFit edges.now }
    requires steps_len { (length steps.old ≡ 49 * length (paired words.now)) × (length (paired words.now) ≤ entry_limit) }
    ensures told { Told edges.now result (length edges.now) }
    ensures placed { Placed (length (paired words.now)) steps.new }
    ensures filled { Filled edges.now (paired words.now) (length (paired words.now)) steps.new }
{
    let traits = traits_of(edges);
    let mut seen = [0u16; SLOTS];
    for i in 0..words.len() / 2 {
        let slot = traits.tested.holding(words, i).slot();
        let pair = Pair {
            entry: i,
            like: usize::from(seen[slot]),
        };
        place_entry(edges, words, traits.tested, pair, steps);
        seen[slot] = i as u16;
    }
    traits.looks
}

// The columns of one more entry: those of the entry that may be like it, where it is, or its own.
fn place_entry(edges: &[u32], words: &[u64], tested: NodeSet, pair: Pair, steps: &mut [u16])
    requires edges_fit { EdgesFit edges.now }
    requires tested { Tested edges.now tested (length edges.now) }
    requires words_len_bound { (length (paired words.now) ≤ entry_limit) × (pair.entry < length (paired words.now)) }
    requires filling { Filling edges.now (paired words.now) (length (paired words.now)) pair.entry steps.old }
    ensures { Filling edges.now (paired words.now) (length (paired words.now)) (pair.entry + 1) steps.new }
{
    let i = pair.entry;
    let j = pair.like;
    if alike(words, tested, i, j) {
        steps[i] = steps[j];
        return;
    }
    let place = words.len() / 2 + 48 * i;
    steps[i] = place as u16;
    make(edges, words, i, place, steps);
}

// Whether entry j is before entry i and agrees with it on the tested nodes.
fn alike(words: &[u64], tested: NodeSet, i: usize, j: usize) -> bool
    requires { 2 * i + 1 < length words.now }
    ensures { result ≡ true → (j < i) × ((k : ℕ) → k < node_limit → in_set tested k ≡ true → bit (at (paired words.now) i) k ≡ bit (at (paired words.now) j) k) }
{
    j < i && tested.holding(words, i) == tested.holding(words, j)
}

// Which ways the edges go, and which nodes they test.
fn traits_of(edges: &[u32]) -> Traits
    requires { EdgesFit edges.now }
    ensures { Told edges.now result.looks (length edges.now) × Tested edges.now result.tested (length edges.now) }
{
    let mut looks: u16 = 0;
    let mut tested = NodeSet::default();
    for &p in edges {
        looks |= one_bit(group_of((p / 256 % 256) as u8));
        tested = tested.with(Node((p / 65536 % 256) as u8));
    }
    Traits { looks, tested }
}
