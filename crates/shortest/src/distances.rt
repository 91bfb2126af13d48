// The distances of configurations to the goals, breadth first from the goals backward, until the walk's start is reached. Each configuration enters
// the queue once, and only the edges into its state are looked at.
ghost use Rattle.std.specs.Prelude.{◌≡◌, List, ℕ, ◌+◌, ◌*◌, ◌≤◌, ◌<◌, length};
ghost use Rattle.reach.specs.Marks.{paired};
ghost use Rattle.graph.specs.Graph.{at, far};
ghost use Rattle.graph.specs.Configurations.{graph_of, start_of, reciprocal_of, Ready};
ghost use Rattle.shortest.specs.Progress.{Progress, Relaxed, zero_in};
ghost use Rattle.shortest.specs.Goals.{GoalAt, Asked};
ghost use Rattle.shortest.specs.Descent.{Distances};

use super::seeds::seed;
use super::{FAR, Query, start_of};
use aldlf::Automaton;
use graph::edges::{first_into, into, unpacked};
use graph::moves::{numbered, prior, reciprocal};

// A turn of the search: the queue's place to take, its first free place, and what stands for the count of states in `numbered`.
#[derive(Clone, Copy)]
pub(crate) struct Turn {
    pub(crate) head: u16,
    pub(crate) tail: u16,
    pub(crate) reciprocal: u32,
}

// What a search begins with: the configuration to be reached, and how many goals the queue has.
#[derive(Clone, Copy)]
pub(crate) struct Begun {
    pub(crate) start: u16,
    pub(crate) tail: u16,
}

// Mark the configuration p at distance d where it is not reached yet; the queue's new tail.
fn relax(p: u16, d: u16, tail: u16, dist: &mut [u16], queue: &mut [u16]) -> u16
    requires { (p < length dist.old) × (at dist.old p ≡ far → (tail < length queue.old) × (tail < 8192)) }
    ensures { Relaxed dist.old queue.old p d tail dist.new queue.new result }
{
    let at = p as usize;
    if dist[at] != FAR {
        return tail;
    }
    dist[at] = d;
    queue[tail as usize] = p;
    tail + 1
}

// Mark all configurations one edge before the queue's head; the queue's new tail.
fn relax_edges(
    arcs: &[u64],
    words: &[u64],
    q: Automaton,
    turn: Turn,
    dist: &mut [u16],
    queue: &mut [u16],
) -> u16
    requires ready { Ready arcs.now q (paired words.now) }
    requires head_lt_tail { (turn.head < turn.tail) × (turn.reciprocal ≡ reciprocal_of q.states) }
    requires by_index { (G : List ℕ) × Progress (graph_of arcs.now q (paired words.now)) (zero_in G) dist.old queue.old turn.head q.first turn.tail }
    ensures lower_bound { turn.head < result }
    ensures by_index_2 { (G : List ℕ) →
        Progress (graph_of arcs.now q (paired words.now)) (zero_in G) dist.old queue.old turn.head q.first turn.tail →
        Progress (graph_of arcs.now q (paired words.now)) (zero_in G) dist.new queue.new turn.head (q.first + q.count) result }
{
    let states = q.states as u16;
    let head = turn.head;
    let c = queue[head as usize];
    let here = numbered(c, states, turn.reciprocal);
    let d = dist[c as usize] + 1;
    let last = q.first + q.count;
    let mut tail = turn.tail;
    let mut k = first_into(arcs, here.state);
    // A `while`: each edge names the next of its chain.
    while k < last {
        let x = arcs[k as usize];
        if let Some(p) = prior(words, unpacked(x), q.states, here.entry) {
            tail = relax(p, d, tail, dist, queue);
        }
        k = into(x);
    }
    tail
}

// The distance of the start and of what is nearer, from the goals in the queue's first places.
fn spread(
    arcs: &[u64],
    words: &[u64],
    q: Automaton,
    begun: Begun,
    dist: &mut [u16],
    queue: &mut [u16],
)
    requires ready { Ready arcs.now q (paired words.now) }
    requires start_in_bounds { begun.start < length dist.old }
    requires progress { Progress (graph_of arcs.now q (paired words.now)) (zero_in dist.old) dist.old queue.old 0 q.first begun.tail }
    ensures { Distances (graph_of arcs.now q (paired words.now)) (zero_in dist.old) dist.new begun.start }
{
    let start = begun.start as usize;
    let by = reciprocal(q.states as u16);
    let mut head: u16 = 0;
    let mut tail = begun.tail;
    // A `while`: the queue grows while it is read.
    while head < tail {
        if dist[start] != FAR {
            return;
        }
        let turn = Turn {
            head,
            tail,
            reciprocal: by,
        };
        tail = relax_edges(arcs, words, q, turn, dist, queue);
        head += 1;
    }
}

// The distance of the query's start to its goals, and of every configuration that is nearer; FAR where there is no walk. No configuration is marked yet.
pub fn distances(arcs: &[u64], words: &[u64], query: Query, dist: &mut [u16], queue: &mut [u16])
    requires ready { Ready arcs.now query.automaton (paired words.now) }
    requires asked { Asked query (length (paired words.now)) }
    requires dist_len { (length dist.old ≡ length (paired words.now) * query.automaton.states) × (length dist.old ≤ length queue.old) }
    requires by_index { (i : ℕ) → i < length dist.old → at dist.old i ≡ far }
    ensures { Distances (graph_of arcs.now query.automaton (paired words.now)) (GoalAt (paired words.now) query.automaton query.goal)
        dist.new (start_of query.automaton query.entry.0) }
{
    let q = query.automaton;
    let goal = query.goal;
    let start = start_of(query);
    let tail = seed(words, q, goal, dist, queue);
    spread(arcs, words, q, Begun { start, tail }, dist, queue);
}
