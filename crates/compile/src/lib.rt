// A formula's text, as people write rules, to the table of its sheet (document 02, S-7).
#![tactic(auto)]

ghost use Rattle.std.specs.Prelude.{◌≡◌};
ghost use Rattle.compile.specs.Answers.{answer_by, formula_answer};

use aldlf::Table;
pub use parsing::FormulaRefusal;

// The table of the formula's sheet, or the first of refusals 50, 51 and 52, 54, 53. The text is read to instructions first: a table that
// goes from function to function would be copied each time.
pub fn read_formula(text: &[u8]) -> Result<Table, FormulaRefusal>
    ensures { answer_by result ≡ formula_answer text.now }
{
    let mut code = [0u8; parsing::CODE];
    let n = parsing::write_code(text, &mut code)?;
    // What is written is within the lent bytes.
    let n = n.min(parsing::CODE);
    making::make_table(&code[..n]).ok_or(FormulaRefusal::TooLarge)
}
