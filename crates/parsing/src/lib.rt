// A formula's text to the list of instructions that its sheet is made from (document 02, S-7): refusals 50, 51, 52 and 54.
// A room of the checker: its other crates call it, users do not (they call `compile`).
#![tactic(auto)]

mod answers;
mod parse;
mod refusal;
mod signs;
mod writing;

ghost use Rattle.std.specs.Prelude.{◌≡◌, Err, List, ℕ, ◌≤◌, ◌<◌, length};
ghost use Rattle.formula.specs.Limits.{formula_limit};
ghost use Rattle.parsing.specs.Build.{place_of, seen_of, got_of};
ghost use Rattle.parsing.specs.Written.{code_limit, coded_of, text_code, finished};

use answers::{Parse, ParseError};
pub use refusal::FormulaRefusal;
use writing::Writing;

// How many instructions a text of at most 4,096 bytes has at most: two for each byte.
pub const CODE: usize = 8192;

// Levels of formulas and paths: the text itself, and one for each mark that may be open.
const LEVELS: u8 = formula::DEPTH as u8 + 1;

// How many of the lent bytes are the instructions of the formula that the text writes, from the first on; or the first of refusals 50, 51
// and 52, 54, and then what was lent holds anything.
pub fn write_code(text: &[u8], out: &mut [u8]) -> Result<usize, FormulaRefusal>
    requires { length out.old ≡ code_limit }
    ensures { coded_of result out.new ≡ text_code text.now }
{
    if formula::FORMULA < text.len() {
        return Err(FormulaRefusal::TooLong);
    }
    let w = Writing {
        length: 0,
        modal: 0,
        stray: 0,
    };
    finish(text.len(), parse::formula(text, 0, LEVELS, w, out))
}

// What was read, if it ends where the text does; then 54.
fn finish(length: usize, p: Parse) -> Result<usize, FormulaRefusal>
    requires { place_of p ≤ formula_limit }
    ensures { (out : List ℕ) → coded_of result out ≡ finished length (got_of (seen_of p out)) }
{
    let p = p.map_err(refusal_of)?;
    if p.at != length {
        return Err(FormulaRefusal::NoFormula(p.at as u16));
    }
    if p.writing.stray != 0 {
        return Err(FormulaRefusal::PathInStep);
    }
    Ok(p.writing.length)
}

// The refusal of what the parser could not read.
fn refusal_of(e: ParseError) -> FormulaRefusal
    requires { place_of (Err e) ≤ formula_limit }
    ensures { (n : ℕ) (out : List ℕ) → coded_of (Err result) out ≡ finished n (got_of (seen_of (Err e) out)) }
{
    match e {
        ParseError::NoFormula(at) => FormulaRefusal::NoFormula(at as u16),
        ParseError::TooDeep(_) => FormulaRefusal::TooDeep,
    }
}
