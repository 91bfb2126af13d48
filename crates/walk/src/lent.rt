// The walk by a table that is lent as numbers. A room of the checker: its other crates call it, users do not.
ghost use Rattle.std.specs.Prelude.{◌≡◌, true, List, ℕ, ◌*◌, ◌≤◌, length};
ghost use Rattle.aldlf.specs.Constants.{entry_limit};
ghost use Rattle.aldlf.specs.Sheet.{sheet_of};
ghost use Rattle.aldlf.specs.Walks.{walk_outcome};
ghost use Rattle.aldlf.specs.declared.Table.{Table};
ghost use Rattle.packing.specs.Packed.{Packed};
ghost use Rattle.reach.specs.Marks.{paired};
ghost use Rattle.sheet.specs.Given.{well_formed};
ghost use Rattle.walk.specs.Answer.{answer_of};
ghost use Rattle.walk.specs.Search.{LentLog};

use super::search::{find, query_of};
use aldlf::{Entry, Node, Refusal};
use graph::edges::{ARCS, NONE, chain_edges};
use judge::lent::judge_lent;
use packing::places::{automaton_at, line_at, used_in};
use stands::lent::is_modal;

// A log of so many entries is judged in small scratch.
const FEW: usize = 32;

// The scratch that judging takes, two words an entry: for a few entries, and for as many as a log may have.
const FEW_WORDS: usize = 2 * FEW;

const ALL_WORDS: usize = 2 * aldlf::ENTRIES;

// The walk, as `walk` gives it. Judging asks questions 31 and 32; its scratch is small where the log is, so that a short log pays for clearing no large one.
pub fn walk_lent(
    numbers: &[u32],
    log: &[u32],
    node: Node,
    entry: Entry,
    edges: &mut [u16],
) -> Result<usize, Refusal>
    requires { (t : Table) × Packed t numbers.now }
    ensures { (t : Table) → Packed t numbers.now
        → answer_of result edges.new ≡ walk_outcome (well_formed t) (sheet_of t) log.now node.0 entry.0 edges.old }
{
    if log.len() <= FEW {
        walk_in::<FEW_WORDS>(numbers, log, node, entry, edges)
    } else {
        walk_in::<ALL_WORDS>(numbers, log, node, entry, edges)
    }
}

// The same in scratch of W words: judging puts the log's verdict words in its first places.
fn walk_in<const W: usize>(
    numbers: &[u32],
    log: &[u32],
    node: Node,
    entry: Entry,
    edges: &mut [u16],
) -> Result<usize, Refusal>
    requires packed { (t : Table) × Packed t numbers.now }
    requires log_in_bounds { (length log.now ≤ entry_limit → 2 * length log.now ≤ W) × (W ≤ 1024) }
    ensures { (t : Table) → Packed t numbers.now
        → answer_of result edges.new ≡ walk_outcome (well_formed t) (sheet_of t) log.now node.0 entry.0 edges.old }
{
    let mut words = [0u64; W];
    judge_lent(numbers, log, &mut words)?;
    walk_judged(numbers, node, entry, &words[..2 * log.len()], edges)
}

// The walk at an accepted table and log, from the log's verdict words: questions 36 to 40.
fn walk_judged(
    numbers: &[u32],
    node: Node,
    entry: Entry,
    words: &[u64],
    edges: &mut [u16],
) -> Result<usize, Refusal>
    requires { (t : Table) × (log : List ℕ) × LentLog t numbers.now (paired words.now) log }
    ensures { (t : Table) (log : List ℕ) → LentLog t numbers.now (paired words.now) log
        → answer_of result edges.new ≡ walk_outcome true (sheet_of t) log node.0 entry.0 edges.old }
{
    let k = node.0;
    let i = entry.0 as usize;
    let count = used_in(numbers).nodes;
    if count <= k {
        return Err(Refusal::NoNode);
    }
    if words.len() / 2 <= i {
        return Err(Refusal::NoEntry);
    }
    let line = line_at(numbers, node);
    if !is_modal(line.kind) {
        return Err(Refusal::NotModal);
    }
    let q = automaton_at(numbers, line.a);
    let mut arcs = [NONE; ARCS];
    chain_edges(numbers, q, &mut arcs);
    find(&arcs, words, query_of(q, line, entry), edges)
}
