// The calls for C and Rust on rules as text.
ghost use Rattle.std.specs.Prelude.{◌≡◌};
ghost use Rattle.exports.specs.Answers.{outcome};
ghost use Rattle.exports.specs.RuleTexts.{rule_printed};

use super::answer::length_code;
use crossing::lending::lend_table;
use packing::places::PLACES;
use printing::lent::print_rule_lent;

// The greatest length that an answer can say.
const LONGEST: usize = 281474976710655;

// Prints a table's rule as text in the first places of a slice, and says its length. A refusal alters nothing. Of a slice with more
// places than the greatest length, the others are kept.
#[unsafe(no_mangle)]
pub extern "C" fn rozsvelen_print_rule(table: &[u16], text: &mut [u8]) -> u64
    ensures { outcome result text.new ≡ rule_printed table.now text.old }
{
    let mut numbers = [0u32; PLACES];
    lend_table(table, &mut numbers);
    let room = LONGEST.min(text.len());
    match print_rule_lent(&numbers, &mut text[..room]) {
        Ok(bytes) => length_code(0, bytes),
        Err(why) => length_code(why.number(), 0),
    }
}
