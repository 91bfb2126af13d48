// The same by a table that is lent as numbers. A room of the checker: its other crates call it, users do not.
ghost use Rattle.std.specs.Prelude.{◌≡◌};
ghost use Rattle.aldlf.specs.Sheet.{sheet_of};
ghost use Rattle.aldlf.specs.declared.Table.{Table};
ghost use Rattle.packing.specs.Packed.{Packed};
ghost use Rattle.sheet.specs.Given.{well_formed};
ghost use Rattle.printing.specs.Print.{printed_of, print_outcome};

use super::measuring::rule_fits;
use super::writing::put_node;
use aldlf::{Node, Refusal};
use packing::places::used_in;

// The rule's text, as `print_rule` writes it. Nothing is written before all of it is known to fit.
pub fn print_rule_lent(numbers: &[u32], out: &mut [u8]) -> Result<usize, Refusal>
    requires { (t : Table) × Packed t numbers.now }
    ensures { (t : Table) → Packed t numbers.now → printed_of result out.new ≡ print_outcome (well_formed t) (sheet_of t) out.old }
{
    if !sheet::is_given_packed(numbers) {
        return Err(Refusal::NotGiven);
    }
    if !rule_fits(numbers, out.len()) {
        return Err(Refusal::TextRoom);
    }
    let rule = Node(used_in(numbers).nodes - 1);
    Ok(put_node(numbers, rule, out, 0))
}
