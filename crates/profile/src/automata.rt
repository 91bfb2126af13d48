// The automata and edges of the profile, each in its place.
ghost use Rattle.std.specs.Prelude.{◌≡◌, map, ◌*◌, ◌<◌};
ghost use Rattle.aldlf.specs.Constants.{node_limit};
ghost use Rattle.aldlf.specs.declared.Table.{Table};
ghost use Rattle.profile.specs.Profile.{kept_automaton, kept_edge};
ghost use Rattle.profile.specs.Room.{ProfileRoom};

use aldlf::{Automaton, Edge, Node};
use packing::places::{automaton_at, edge_at};

// The automata, their M lines between the new lines as they stood between the old ones.
pub(crate) fn kept_automata(numbers: &[u32]) -> [Automaton; aldlf::AUTOMATA]
    requires { (t : Table) × ProfileRoom t numbers.now }
    ensures { (t : Table) → ProfileRoom t numbers.now → result ≡ map kept_automaton t.automata }
{
    let mut out = [Automaton::default(); aldlf::AUTOMATA];
    for (m, x) in out.iter_mut().enumerate() {
        *x = kept_automaton(automaton_at(numbers, m as u8));
    }
    out
}

// The automaton whose M line has twice the nodes above it.
fn kept_automaton(x: Automaton) -> Automaton
    requires { 2 * x.before < node_limit }
    ensures { result ≡ kept_automaton x }
{
    Automaton {
        before: 2 * x.before,
        ..x
    }
}

// The edges, each naming 2a for a: a loop like that of the automata, for `array::from_fn` was tried for both, and its proof didn't close.
pub(crate) fn kept_edges(numbers: &[u32]) -> [Edge; aldlf::EDGES]
    requires { (t : Table) × ProfileRoom t numbers.now }
    ensures { (t : Table) → ProfileRoom t numbers.now → result ≡ map kept_edge t.edges }
{
    let mut out = [Edge::default(); aldlf::EDGES];
    for (e, x) in out.iter_mut().enumerate() {
        *x = kept_edge(edge_at(numbers, e as u16));
    }
    out
}

// The edge that names 2a for a.
fn kept_edge(x: Edge) -> Edge
    requires { 2 * x.test.0 < node_limit }
    ensures { result ≡ kept_edge x }
{
    Edge {
        test: Node(2 * x.test.0),
        ..x
    }
}
