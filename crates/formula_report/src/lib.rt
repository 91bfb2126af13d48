// The printed page by a rule that is one line of text: the formula is read, then its sheet's page is printed as any sheet's.
#![tactic(auto)]

ghost use Rattle.std.specs.Prelude.{◌≡◌};
ghost use Rattle.appending.specs.Placed.{placed};
ghost use Rattle.lines.specs.Lines.{refusal_line};
ghost use Rattle.report.specs.Page.{printed_of};
ghost use Rattle.compile.specs.Refusals.{refusal_number, refusal_place};
ghost use Rattle.formula_report.specs.FormulaPage.{formula_page_outcome};

use aldlf::Refusal;
use compile::FormulaRefusal;
use lines::put_refusal;
use report::{hand_over, rule_page};

// The page in the first places of `out`, the rest of `out` as lent, and how many bytes it has; a page that is longer than `out` is
// refused (PageRoom), and alters nothing. Every text and every log has a page: that of a refused formula is the one line
// `refused,number,place`.
pub fn formula_page(rule: &[u8], steps: &[u8], out: &mut [u8]) -> Result<usize, Refusal>
    ensures { printed_of result out.new ≡ formula_page_outcome rule.now steps.now out.old }
{
    match compile::read_formula(rule) {
        Ok(t) => rule_page(t, steps, out),
        Err(r) => refused_page(r, out),
    }
}

// The page of a refused formula, its one line by way of a buffer that takes every such line.
fn refused_page(r: FormulaRefusal, out: &mut [u8]) -> Result<usize, Refusal>
    ensures { printed_of result out.new ≡ placed 44 (refusal_line (refusal_number r) (refusal_place r)) out.old }
{
    let mut buffer = [0u8; report::REFUSAL];
    let n = put_refusal(&mut buffer, 0, r.number(), r.place() as usize);
    hand_over(&buffer[..n], out)
}
