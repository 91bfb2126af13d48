// The graph of configurations of an automaton over a log: its edges chained by state, and where an edge leads from and to.
// A room of the checker: its other crates call it, users do not.
#![tactic(auto)]

pub mod edges;
pub mod moves;
