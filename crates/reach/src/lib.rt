// Marks, for each entry of a log or a part, the states from which a walk of an automaton reaches a goal or an exit.
// One code for whole logs (no exits) and for parts (exits by the row beside them), for D and for B, and for both directions.
#![tactic(auto)]

mod closing;
pub mod filling;
mod spreading;
mod steps;

ghost use Rattle.std.specs.Prelude.{◌≡◌, List, ℕ, ◌+◌, ◌*◌, ◌^◌, ◌/◌, ◌≤◌, ◌<◌, length, set};
ghost use Rattle.aldlf.specs.Sheet.{«bit» as bit_of};
ghost use Rattle.aldlf.specs.Verdict.{«facing» as facingOf};
ghost use Rattle.aldlf.specs.Outcomes.{verdict_at};
ghost use Rattle.aldlf.specs.Constants.{node_limit, entry_limit, word_bits};
ghost use Rattle.reach.specs.Marks.{at, paired, verdict_added, EdgesFit, Reaching};
ghost use Rattle.reach.specs.Columns.{Told, Placed, Filled};
ghost use Rattle.reach.specs.Steps.{Seeded};

use aldlf::Node;
use spreading::{rise, sweep};
use steps::has;

// What a walk is to reach: an accepting state (a bit of `accepting`) at an entry where `node` holds (`want`) or fails, or,
// by an edge that leaves the log or the part, a state of `exits`. `looks` has a bit for each group of directions that edges go.
#[derive(Clone, Copy)]
pub struct Goal {
    pub accepting: u16,
    pub node: Node,
    pub want: bool,
    pub exits: u16,
    pub looks: u16,
}

// The configurations from which the goal is reached: for each entry a mask of states, by the steps that `fill` makes of an
// automaton's edges. Internal.
pub fn mark(goal: Goal, words: &[u64], steps: &[u16], masks: &mut [u16])
    requires placed { Placed (length (paired words.now)) steps.now }
    requires node_lt_node_limit { (goal.node.0 < node_limit) × (length masks.old ≡ length (paired words.now)) × (length (paired words.now) ≤ entry_limit) }
    ensures { (E : List ℕ) → EdgesFit E → Told E goal.looks (length E) → Filled E (paired words.now) (length (paired words.now)) steps.now
        → Reaching E goal (paired words.now) masks.new }
{
    seed(goal, words, masks);
    sweep(goal.exits, goal.looks, steps, masks);
    if has(goal.looks, 2) {
        rise(goal.exits, goal.looks, steps, masks);
    }
}

// The verdict on a node at an entry, from verdict words, two for each entry. Internal: single verdicts are read here and written by `put_verdict`
// alone; `filling` compares whole words.
pub fn verdict(words: &[u64], entry: usize, node: Node) -> bool
    requires { (node.0 < node_limit) × (2 * entry + 1 < length words.now) }
    ensures { result ≡ verdict_at words.now entry node.0 }
{
    bit(words[word_of(entry, node)], node.0 % aldlf::WORD_BITS)
}

// The verdict on a node at an entry whose words have those on the nodes below it alone. Internal.
pub fn put_verdict(words: &mut [u64], entry: usize, node: Node, on: bool)
    requires { (node.0 < node_limit) × (2 * entry + 1 < length words.old) × (at (paired words.old) entry < 2 ^ node.0) }
    ensures { paired words.new ≡ set (paired words.old) entry (verdict_added (at (paired words.old) entry) node.0 on) }
{
    let place = word_of(entry, node);
    words[place] = with_verdict(words[place], node.0 % aldlf::WORD_BITS, on);
}

// Which word has the verdict on a node at an entry: the entry's first for nodes below 64, its second for the others.
fn word_of(entry: usize, node: Node) -> usize
    requires { (node.0 < node_limit) × (2 * entry + 1 < 2 ^ 64) }
    ensures { result ≡ 2 * entry + node.0 / word_bits }
{
    2 * entry + (node.0 / aldlf::WORD_BITS) as usize
}

// A word without bits from bit k on, with bit k where it is on.
fn with_verdict(word: u64, k: u8, on: bool) -> u64
    requires { (k < word_bits) × (word < 2 ^ k) }
    ensures { result ≡ verdict_added word k on }
{
    if on { word + (1 << k) } else { word }
}

// Bit k of w. Internal.
pub fn bit(w: u64, k: u8) -> bool
    requires { k < word_bits }
    ensures { result ≡ bit_of w k }
{
    (w >> k) % 2 == 1
}

// A yes as it is, or turned round where it is not wanted. Internal.
pub fn facing(want: bool, found: bool) -> bool
    ensures { result ≡ facingOf want found }
{
    if want { found } else { !found }
}

// The accepting states where the node is as wanted.
fn seed(goal: Goal, words: &[u64], masks: &mut [u16])
    requires { (goal.node.0 < node_limit) × (length masks.old ≡ length (paired words.now)) }
    ensures { Seeded goal (paired words.now) (length (paired words.now)) masks.new }
{
    for (i, mask) in masks.iter_mut().enumerate() {
        let found = verdict(words, i, goal.node);
        *mask = if facing(goal.want, found) {
            goal.accepting
        } else {
            0
        };
    }
}
