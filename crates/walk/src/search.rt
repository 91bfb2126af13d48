// The search for one walk: the distance of its start and of what is nearer, then the walk, or the question that gets a no.
ghost use Rattle.std.specs.Prelude.{◌≡◌, ℕ, ◌*◌, ◌≤◌, ◌<◌, length};
ghost use Rattle.reach.specs.Marks.{paired};
ghost use Rattle.graph.specs.Graph.{at, far};
ghost use Rattle.graph.specs.Configurations.{graph_of, start_of, Ready};
ghost use Rattle.shortest.specs.Goals.{GoalAt, Asked};
ghost use Rattle.shortest.specs.Descent.{Descends};
ghost use Rattle.walk.specs.Search.{Answered, Found, query_of};

use aldlf::{Automaton, Entry, Node, NodeLine, Refusal};
use graph::moves::Configuration;
use shortest::distances::distances;
use shortest::trace::{Wanted, trace};
use shortest::{FAR, Goal, Query, start_of};

// A search of so many configurations is in small room.
const FEW: usize = 512;

// As many configurations as there can be.
const ALL: usize = 8192;

// Questions 39 and 40, and the walk along the distances.
fn show(
    arcs: &[u64],
    words: &[u64],
    query: Query,
    dist: &[u16],
    out: &mut [u16],
) -> Result<usize, Refusal>
    requires ready { Ready arcs.now query.automaton (paired words.now) }
    requires asked { Asked query (length (paired words.now)) }
    requires descends { Descends (graph_of arcs.now query.automaton (paired words.now)) dist.now (start_of query.automaton query.entry.0) }
    ensures { Answered (graph_of arcs.now query.automaton (paired words.now)) dist.now
        (start_of query.automaton query.entry.0) out.old out.new result }
{
    let q = query.automaton;
    let c = start_of(query);
    let total = dist[c as usize];
    if total == FAR {
        return Err(Refusal::NoWalk);
    }
    let count = total as usize;
    if out.len() < count {
        return Err(Refusal::WalkRoom);
    }
    let from = Configuration {
        state: q.start,
        entry: query.entry,
    };
    let start = Wanted {
        from,
        distance: total,
    };
    trace(arcs, words, q, dist, start, out);
    Ok(count)
}

// The distances in room for N configurations, none of them marked yet, then the walk.
fn search<const N: usize>(
    arcs: &[u64],
    words: &[u64],
    query: Query,
    out: &mut [u16],
) -> Result<usize, Refusal>
    requires ready { Ready arcs.now query.automaton (paired words.now) }
    requires asked { Asked query (length (paired words.now)) }
    requires size_in_bounds { (length (paired words.now) * query.automaton.states ≤ N) × (N ≤ 8192) }
    ensures { Found (graph_of arcs.now query.automaton (paired words.now)) (GoalAt (paired words.now) query.automaton query.goal)
        (start_of query.automaton query.entry.0) out.old out.new result }
{
    let mut room = [FAR; N];
    let dist = &mut room[..configurations(words, query)];
    let mut queue = [0u16; N];
    distances(arcs, words, query, dist, &mut queue);
    show(arcs, words, query, &*dist, out)
}

// How many configurations a search has.
fn configurations(words: &[u64], query: Query) -> usize
    requires { length (paired words.now) * query.automaton.states ≤ 8192 }
    ensures { result ≡ length (paired words.now) * query.automaton.states }
{
    words.len() / 2 * (query.automaton.states as usize)
}

// A search in no more room than it needs: clearing the larger room would take longer than the search of a short log.
pub(crate) fn find(
    arcs: &[u64],
    words: &[u64],
    query: Query,
    out: &mut [u16],
) -> Result<usize, Refusal>
    requires ready { Ready arcs.now query.automaton (paired words.now) }
    requires asked { Asked query (length (paired words.now)) }
    ensures { Found (graph_of arcs.now query.automaton (paired words.now)) (GoalAt (paired words.now) query.automaton query.goal)
        (start_of query.automaton query.entry.0) out.old out.new result }
{
    if configurations(words, query) <= FEW {
        search::<FEW>(arcs, words, query, out)
    } else {
        search::<ALL>(arcs, words, query, out)
    }
}

// The walk that a D or B line asks for at an entry: of the line's automaton, to an end where the line's node holds (D) or fails (B).
pub(crate) fn query_of(q: Automaton, line: NodeLine, entry: Entry) -> Query
    ensures { result ≡ query_of q line entry }
{
    Query {
        automaton: q,
        goal: Goal {
            node: Node(line.b),
            want: line.kind == b'D',
        },
        entry,
    }
}
