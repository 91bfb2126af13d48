// The call for C and Rust that reads a rule as one line of text.
ghost use Rattle.std.specs.Prelude.{◌≡◌};
ghost use Rattle.exports.specs.Answers.{outcome};
ghost use Rattle.exports.specs.FormulaTexts.{formula_read};

use super::LENGTH;
use super::answer::code;
use crossing::pack::{TABLE, put_table};

// Reads a formula's text into the table of its sheet. Besides, a refusal gives its place; it alters nothing.
#[unsafe(no_mangle)]
pub extern "C" fn rozsvelen_read_formula(text: &[u8], table: &mut [u16]) -> u64
    ensures { outcome result table.new ≡ formula_read text.now table.old }
{
    if table.len() != TABLE {
        return code(LENGTH, 0, 0, 0);
    }
    match compile::read_formula(text) {
        Ok(t) => {
            put_table(t, table);
            code(0, 0, 0, 0)
        }
        Err(r) => code(r.number(), 0, 0, r.place()),
    }
}
