// The walk that shows a verdict: by which steps through the log a D node holds or a B node fails.
#![tactic(auto)]

pub mod lent;
mod search;

ghost use Rattle.std.specs.Prelude.{◌≡◌};
ghost use Rattle.aldlf.specs.Sheet.{sheet_of};
ghost use Rattle.aldlf.specs.Walks.{walk_outcome};
ghost use Rattle.sheet.specs.Given.{well_formed};
ghost use Rattle.walk.specs.Answer.{answer_of, shorter_of};

use aldlf::{Entry, Node, Refusal, Table};
use lent::walk_lent;
use packing::places::PLACES;
use packing::writing::pack;

// The walk that shows the verdict on a D or B node at an entry: the edges of the shortest walk that ends in an accepting state where
// the node's own node holds (D) or fails (B), of equally short ones the one with the smallest edge where they first differ.
// Its edges take the first places of `edges`, and their count is answered; the rest keeps its content. A refusal, by the first question
// that gets a no, alters nothing. Judging asks questions 31 and 32.
pub fn walk(
    table: Table,
    log: &[u32],
    node: Node,
    entry: Entry,
    edges: &mut [u16],
) -> Result<usize, Refusal>
    ensures { answer_of result edges.new ≡ walk_outcome (well_formed table) (sheet_of table) log.now node.0 entry.0 edges.old }
{
    let mut numbers = [0u32; PLACES];
    pack(table, &mut numbers);
    walk_lent(&numbers, log, node, entry, edges)
}

// The shorter of two lent walks, handed back as the caller's own part; the first where they are equally long.
pub fn shorter<'a>(a: &'a [u16], b: &'a [u16]) -> &'a [u16]
    ensures { result ≡ shorter_of a.entry b.entry }
{
    if a.len() <= b.len() { a } else { b }
}
