// Steps as columns of bits: at each entry 48 masks, for three groups of directions and 16 target states, of the states that have a step there. Made
// once for an automaton, they serve all the nodes that name it.
ghost use Rattle.std.specs.Prelude.{◌≡◌, ℕ, ◌+◌, ◌*◌, ◌^◌, ◌≤◌, ◌<◌, length, set};
ghost use Rattle.std.specs.Int.Bits.{bit_or};
ghost use Rattle.aldlf.specs.Constants.{state_limit};
ghost use Rattle.aldlf.specs.Sheet.{«bit» as bit_of};
ghost use Rattle.reach.specs.Marks.{at, pick, paired, test_of, from_of, EdgeFits, EdgesFit};
ghost use Rattle.reach.specs.Columns.{group_of, column_of, Pulled, Held, Apart, Pivoted, Joined, Columns};

use super::verdict;
use aldlf::Node;

// The states with a step into the mask, by the 16 columns from a place on. Most automata have few states: then four columns are enough.
pub(crate) fn pull(steps: &[u16], place: usize, mask: u16) -> u16
    requires { place + state_limit ≤ length steps.now }
    ensures { Pulled steps.now place mask state_limit result }
{
    if mask < 16 {
        pull_first::<4>(steps, place, mask)
    } else {
        pull_first::<16>(steps, place, mask)
    }
}

// The same by the first N columns alone. A column that leads to no state of the mask is not read: where few states are marked, most do not, and that
// is faster than to read all.
fn pull_first<const N: u16>(steps: &[u16], place: usize, mask: u16) -> u16
    requires count { N ≤ state_limit }
    requires in_bounds { place + state_limit ≤ length steps.now }
    ensures { Pulled steps.now place mask N result }
{
    if mask == 0 {
        return 0;
    }
    let mut found: u16 = 0;
    for t in 0..N {
        if has(mask, t) {
            found |= steps[place + t as usize];
        }
    }
    found
}

// Bit s of a mask.
pub(crate) fn has(mask: u16, s: u16) -> bool
    requires { s < state_limit }
    ensures { result ≡ bit_of mask s }
{
    (mask >> s) % 2 == 1
}

// The mask of bit s alone.
pub(crate) fn one_bit(s: u16) -> u16
    requires { s < state_limit }
    ensures { result ≡ 2 ^ s }
{
    1 << s
}

// The 48 columns from a place on, at entry i; the other places keep their content.
pub(crate) fn make(edges: &[u32], words: &[u64], i: usize, place: usize, steps: &mut [u16])
    requires edges_fit { EdgesFit edges.now }
    requires i_in_bounds { (i < length (paired words.now)) × (place + 48 ≤ length steps.old) }
    ensures apart { Apart place (place + 48) steps.old steps.new }
    ensures columns { Columns edges.now (at (paired words.now) i) steps.new place }
{
    clear(place, steps);
    add_edges(edges, words, i, place, steps);
    join(place, steps);
}

// No steps.
fn clear(place: usize, steps: &mut [u16])
    requires { place + 48 ≤ length steps.old }
    ensures apart { Apart place (place + 48) steps.old steps.new }
    ensures by_index { (c : ℕ) → c < 48 → at steps.new (place + c) ≡ 0 }
{
    steps[place..place + 48].fill(0);
}

// The steps of all edges at the entry, where there were none.
fn add_edges(edges: &[u32], words: &[u64], i: usize, place: usize, steps: &mut [u16])
    requires edges_fit { EdgesFit edges.now }
    requires i_in_bounds { (i < length (paired words.now)) × (place + 48 ≤ length steps.old) }
    requires by_index { (c : ℕ) → c < 48 → at steps.old (place + c) ≡ 0 }
    ensures apart { Apart place (place + 48) steps.old steps.new }
    ensures held { Held edges.now (at (paired words.now) i) (length edges.now) steps.new place }
{
    for &p in edges {
        add_edge(p, words, i, place, steps);
    }
}

// The step of edge p, where its node holds.
fn add_edge(p: u32, words: &[u64], i: usize, place: usize, steps: &mut [u16])
    requires edge_fits { EdgeFits p }
    requires i_in_bounds { (i < length (paired words.now)) × (place + 48 ≤ length steps.old) }
    ensures { steps.new ≡ set steps.old (place + column_of p)
        (pick (bit_of (at (paired words.now) i) (test_of p)) (bit_or (at steps.old (place + column_of p)) (2 ^ from_of p)) (at steps.old (place + column_of p))) }
{
    let c = place + column_of(p);
    let from = one_bit((p % 256) as u16);
    let on = verdict(words, i, Node((p / 65536 % 256) as u8));
    let old = steps[c];
    steps[c] = if on { old | from } else { old };
}

// The column of edge p among its entry's 48.
fn column_of(p: u32) -> usize
    requires { EdgeFits p }
    ensures { (result ≡ column_of p) × (result < 48) }
{
    let to = (p / 16777216 % 256) as usize;
    let dir = (p / 256 % 256) as u8;
    16 * (group_of(dir) as usize) + to
}

// The group of a direction: 0 stays, 1 goes ahead, 2 goes back.
pub(crate) fn group_of(dir: u8) -> u16
    ensures { (result ≡ group_of dir) × (result < 3) }
{
    match dir {
        0 => 0,
        1 => 1,
        _ => 2,
    }
}

// Several steps that stay, as one.
fn join(place: usize, steps: &mut [u16])
    requires { place + state_limit ≤ length steps.old }
    ensures { Joined steps.old place state_limit steps.new }
{
    for k in 0..16 {
        pivot(k, place, steps);
    }
}

// Steps by way of state k, as one.
fn pivot(k: u16, place: usize, steps: &mut [u16])
    requires { (k < state_limit) × (place + state_limit ≤ length steps.old) }
    ensures { Pivoted steps.old place k state_limit steps.new }
{
    let into = steps[place + k as usize];
    if into == 0 {
        return;
    }
    for u in place..place + 16 {
        let x = steps[u];
        steps[u] = if has(x, k) { x | into } else { x };
    }
}
