// What a sheet's rule stands on, through nodes, edges and tests: which ways the rule looks, and the table in which every other node is false.
#![tactic(auto)]

pub mod lent;
mod looking;
mod marking;
mod trimming;

ghost use Rattle.std.specs.Prelude.{◌≡◌};
ghost use Rattle.stands.specs.Answers.{looks_answer, rule_looks_of};

use aldlf::{Refusal, Table};
use lent::rule_looks_lent;
use packing::places::PLACES;
use packing::writing::pack;

// Which ways edges go: whether any goes ahead, and whether any goes back. Of a sheet's rule these are the edges that it stands on:
// a log may be cut looking ahead where the rule does not look back, and looking back where it does not look ahead.
#[derive(Clone, Copy, Default, PartialEq, Eq)]
pub struct Looks {
    pub ahead: bool,
    pub back: bool,
}

// Which ways the rule of a table looks. A table that no sheet gives is refused (31).
pub fn rule_looks(table: Table) -> Result<Looks, Refusal>
    ensures { looks_answer result ≡ rule_looks_of table }
{
    let mut numbers = [0u32; PLACES];
    pack(table, &mut numbers);
    rule_looks_lent(&numbers)
}
