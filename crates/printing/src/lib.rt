// The rule of a sheet as text (document 02, S-7): each node in full brackets, automata as `m` and their number, down to the facts.
#![tactic(auto)]

pub mod lent;
mod measuring;
mod pieces;
mod writing;

ghost use Rattle.std.specs.Prelude.{◌≡◌};
ghost use Rattle.aldlf.specs.Sheet.{sheet_of};
ghost use Rattle.sheet.specs.Given.{well_formed};
ghost use Rattle.printing.specs.Print.{printed_of, print_outcome};

use aldlf::{Refusal, Table};
use lent::print_rule_lent;
use packing::places::PLACES;
use packing::writing::pack;

// The rule's text in the first places of `out`, the rest of `out` as lent, and how many bytes it has. A refusal alters nothing. NotGiven:
// no sheet gives the table. TextRoom: the text is longer than `out`; it can be exponentially longer than the sheet, since a node that is named twice is printed twice.
pub fn print_rule(table: Table, out: &mut [u8]) -> Result<usize, Refusal>
    ensures { printed_of result out.new ≡ print_outcome (well_formed table) (sheet_of table) out.old }
{
    let mut numbers = [0u32; PLACES];
    pack(table, &mut numbers);
    print_rule_lent(&numbers, out)
}
