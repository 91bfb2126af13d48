// The walk along falling distances: at each step the lowest edge whose target is one nearer, of the edges that leave the state.
ghost use Rattle.std.specs.Prelude.{◌≡◌, ℕ, ◌+◌, ◌*◌, ◌≤◌, ◌<◌, length, IfSome};
ghost use Rattle.aldlf.specs.Constants.{state_limit, entry_limit};
ghost use Rattle.reach.specs.Marks.{paired};
ghost use Rattle.graph.specs.Graph.{at, far, Step};
ghost use Rattle.graph.specs.Configurations.{entry_or_far, graph_of, EdgeFits, Ready};
ghost use Rattle.shortest.specs.Descent.{Nearer, Lowest, Descends, Written, Inside, number_of};

use aldlf::{Automaton, Edge, Entry};
use graph::edges::{first_out, out, unpacked};
use graph::moves::{Configuration, arrival};

// An edge and the configuration that it leads to.
#[derive(Clone, Copy)]
pub(crate) struct Move {
    pub(crate) edge: u16,
    pub(crate) to: Configuration,
}

// A configuration, and a distance: its own, or the one that the next is to have.
#[derive(Clone, Copy)]
pub struct Wanted {
    pub from: Configuration,
    pub distance: u16,
}

// The entry at which e arrives in a configuration at the wanted distance.
fn nearer(words: &[u64], dist: &[u16], e: Edge, states: u8, wanted: Wanted) -> Option<Entry>
    requires edge_fits { EdgeFits states e }
    requires states_le_state_limit { (states ≤ state_limit) × (length (paired words.now) ≤ entry_limit) × (length dist.now ≡ length (paired words.now) * states) }
    requires inside { Inside states (length (paired words.now)) wanted.from × (e.from.0 ≡ wanted.from.state.0) }
    ensures { Nearer (paired words.now) dist.now e states (number_of states wanted.from) wanted.distance (entry_or_far result)
        × IfSome result (λ j. j.0 < length (paired words.now)) }
{
    let j = arrival(words, e, wanted.from.entry)?;
    let c = j.0 * (states as u16) + (e.to.0 as u16);
    if dist[c as usize] == wanted.distance {
        Some(j)
    } else {
        None
    }
}

// The lowest edge from a configuration to one at the wanted distance.
fn lowest_edge(arcs: &[u64], words: &[u64], q: Automaton, dist: &[u16], wanted: Wanted) -> Move
    requires ready { Ready arcs.now q (paired words.now) }
    requires dist_len { (length dist.now ≡ length (paired words.now) * q.states) × Inside q.states (length (paired words.now)) wanted.from }
    requires by_index { (e : ℕ) × (r : ℕ) × Step (graph_of arcs.now q (paired words.now)) (number_of q.states wanted.from) e r × (at dist.now r ≡ wanted.distance) }
    ensures lowest { Lowest (graph_of arcs.now q (paired words.now)) dist.now (number_of q.states wanted.from) wanted.distance
        result.edge (number_of q.states result.to) }
    ensures inside { Inside q.states (length (paired words.now)) result.to }
{
    let mut k = first_out(arcs, wanted.from.state);
    // No test for a chain's end: what is required says that one of its edges is found.
    loop {
        let x = arcs[k as usize];
        let e = unpacked(x);
        if let Some(entry) = nearer(words, dist, e, q.states, wanted) {
            return Move {
                edge: k,
                to: Configuration { state: e.to, entry },
            };
        }
        k = out(x);
    }
}

// Write the walk from a configuration at its distance into the first places of `out`, an edge for each step of the distance.
pub fn trace(
    arcs: &[u64],
    words: &[u64],
    q: Automaton,
    dist: &[u16],
    start: Wanted,
    out: &mut [u16],
)
    requires ready { Ready arcs.now q (paired words.now) }
    requires descends { Descends (graph_of arcs.now q (paired words.now)) dist.now (number_of q.states start.from) }
    requires inside { Inside q.states (length (paired words.now)) start.from }
    requires distance_value { (start.distance ≡ at dist.now (number_of q.states start.from)) × (start.distance < far) × (start.distance ≤ length out.old) }
    ensures { Written (graph_of arcs.now q (paired words.now)) dist.now (number_of q.states start.from) out.old out.new
        start.distance }
{
    let mut here = start.from;
    for k in 0..start.distance {
        let wanted = Wanted {
            from: here,
            distance: start.distance - k - 1,
        };
        let m = lowest_edge(arcs, words, q, dist, wanted);
        out[k as usize] = m.edge;
        here = m.to;
    }
}
