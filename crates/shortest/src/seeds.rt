// The goals, where the search begins: entry by entry, each with its accepting states, so that no configuration's number is divided.
ghost use Rattle.std.specs.Prelude.{◌≡◌, Bool, ℕ, ◌+◌, ◌*◌, ◌≤◌, ◌<◌, length};
ghost use Rattle.aldlf.specs.Constants.{node_limit, state_limit};
ghost use Rattle.aldlf.specs.Sheet.{bit};
ghost use Rattle.reach.specs.Marks.{paired};
ghost use Rattle.graph.specs.Graph.{at, far};
ghost use Rattle.shortest.specs.Goals.{goal_at, goals_in};
ghost use Rattle.shortest.specs.Progress.{Seeded};

use super::Goal;
use aldlf::Automaton;

// The states that are goals at an entry: the accepting ones where the node is as wanted, else none.
fn goals_in(words: &[u64], entry: usize, accepting: u16, goal: Goal) -> u16
    requires { (goal.node.0 < node_limit) × (entry < length (paired words.now)) }
    ensures { result ≡ goals_in (at (paired words.now) entry) accepting goal }
{
    let found = reach::verdict(words, entry, goal.node);
    if found == goal.want { accepting } else { 0 }
}

// Mark the goals of an entry whose configurations start at `base`; the queue's new tail.
fn seed_entry(
    goals: u16,
    states: u16,
    base: u16,
    tail: u16,
    dist: &mut [u16],
    queue: &mut [u16],
) -> u16
    requires { (states ≤ state_limit) × (base + states ≤ length dist.old) × (length dist.old ≤ 8192) × (length dist.old ≤ length queue.old) × (tail ≤ base) }
    ensures { (goal : ℕ → Bool) → ((s : ℕ) → s < states → goal (base + s) ≡ bit goals s) →
        Seeded goal dist.old queue.old base tail → Seeded goal dist.new queue.new (base + states) result }
{
    if goals == 0 {
        return tail;
    }
    let mut end = tail;
    for s in 0..states {
        if (goals >> s) % 2 == 1 {
            dist[(base + s) as usize] = 0;
            queue[end as usize] = base + s;
            end += 1;
        }
    }
    end
}

// Mark every goal, where no configuration is marked yet; how many goals there are.
pub(crate) fn seed(
    words: &[u64],
    q: Automaton,
    goal: Goal,
    dist: &mut [u16],
    queue: &mut [u16],
) -> u16
    requires states_nonzero { (0 < q.states) × (q.states ≤ state_limit) × (goal.node.0 < node_limit) }
    requires dist_len { (length dist.old ≡ length (paired words.now) * q.states) × (length dist.old ≤ 8192) × (length dist.old ≤ length queue.old) }
    requires by_index { (i : ℕ) → i < length dist.old → at dist.old i ≡ far }
    ensures { Seeded (goal_at (paired words.now) q goal) dist.new queue.new (length dist.old) result }
{
    let states = q.states as u16;
    let mut tail: u16 = 0;
    let mut base: u16 = 0;
    for j in 0..words.len() / 2 {
        let goals = goals_in(words, j, q.accepting, goal);
        tail = seed_entry(goals, states, base, tail, dist, queue);
        base += states;
    }
    tail
}
