// Breadth-first distances of configurations to a goal, and the shortest walk with the lowest edges.
// A room of the checker: its other crates call it, users do not.
#![tactic(auto)]

pub mod distances;
mod seeds;
pub mod trace;

ghost use Rattle.std.specs.Prelude.{◌≡◌, ◌≤◌, ◌<◌};
ghost use Rattle.aldlf.specs.Constants.{state_limit, entry_limit};
ghost use Rattle.graph.specs.Configurations.{start_of};

use aldlf::{Automaton, Entry, Node};

// As a distance, not reached. The search's memory is fixed: distances as options would take twice as much.
pub const FAR: u16 = 65535;

// Where a walk is to end: in an accepting state at an entry where the node's verdict is `want`.
#[derive(Clone, Copy)]
pub struct Goal {
    pub node: Node,
    pub want: bool,
}

// A walk that is sought: of this automaton, from its start at this entry, to this goal.
#[derive(Clone, Copy)]
pub struct Query {
    pub automaton: Automaton,
    pub goal: Goal,
    pub entry: Entry,
}

// The configuration in which the walk starts.
pub fn start_of(query: Query) -> u16
    requires { (query.automaton.start.0 < query.automaton.states) × (query.automaton.states ≤ state_limit) × (query.entry.0 < entry_limit) }
    ensures { (result ≡ start_of query.automaton query.entry.0) × (result < 8192) }
{
    let q = query.automaton;
    query.entry.0 * (q.states as u16) + (q.start.0 as u16)
}
