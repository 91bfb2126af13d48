// The same by a table that is lent as numbers. A room of the checker: its other crates call it, users do not.
ghost use Rattle.std.specs.Prelude.{◌≡◌, ◌||◌, length, IfErr, OnOk, is_ok, ◌==◌};
ghost use Rattle.aldlf.specs.Constants.{letter_b, letter_d};
ghost use Rattle.aldlf.specs.declared.Refusal.TheVariants.{NotGiven};
ghost use Rattle.aldlf.specs.declared.Table.{Table};
ghost use Rattle.packing.specs.Numbers.{places};
ghost use Rattle.packing.specs.Packed.{Packed};
ghost use Rattle.sheet.specs.Facts.{Lent};
ghost use Rattle.sheet.specs.Given.{well_formed};
ghost use Rattle.stands.specs.Answers.{looks_answer, rule_looks_of};
ghost use Rattle.stands.specs.Looking.{RuleWays};
ghost use Rattle.stands.specs.Trimmed.{rule_table};

use super::Looks;
use super::looking::looks_in;
use super::marking::nodes_of_rule;
use super::trimming::drop_lines;
use aldlf::Refusal;
use packing::places::PLACES;

// Which ways the rule looks, as `rule_looks` says it.
pub fn rule_looks_lent(numbers: &[u32]) -> Result<Looks, Refusal>
    requires { (t : Table) × Packed t numbers.now }
    ensures { (t : Table) → Packed t numbers.now → looks_answer result ≡ rule_looks_of t }
{
    let mut own = [0u32; PLACES];
    given_rule_numbers(numbers, &mut own)?;
    Ok(rule_ways(&own))
}

// The numbers that `rule_numbers` gives, of a table that some sheet gives; any other is refused (31).
pub fn given_rule_numbers(numbers: &[u32], own: &mut [u32]) -> Result<(), Refusal>
    requires packed { (t : Table) × Packed t numbers.now }
    requires own_len { length own.old ≡ places }
    ensures asked { (t : Table) → Packed t numbers.now → is_ok result ≡ well_formed t }
    ensures refused { IfErr result (λ r. r ≡ NotGiven) }
    ensures lent { (t : Table) → Packed t numbers.now → OnOk result (Lent (rule_table t) own.new) }
{
    if !sheet::is_given_packed(numbers) {
        return Err(Refusal::NotGiven);
    }
    rule_numbers(numbers, own);
    Ok(())
}

// The numbers of the table in which every node that the rule does not stand on is false, which take the whole of `own`.
pub fn rule_numbers(numbers: &[u32], own: &mut [u32])
    requires lent { (t : Table) × Lent t numbers.now }
    requires own_len { length own.old ≡ places }
    ensures { (t : Table) → Lent t numbers.now → Lent (rule_table t) own.new }
{
    let flags = nodes_of_rule(numbers);
    own.copy_from_slice(numbers);
    drop_lines(&flags, own);
}

// Which ways the rule looks, by the numbers of that table.
pub fn rule_ways(own: &[u32]) -> Looks
    requires { (t : Table) × Lent (rule_table t) own.now }
    ensures { (t : Table) → Lent (rule_table t) own.now → RuleWays t result }
{
    looks_in(own)
}

// Whether a line with this letter is a D or B.
pub fn is_modal(kind: u8) -> bool
    ensures { result ≡ (kind == letter_d || kind == letter_b) }
{
    kind == b'D' || kind == b'B'
}
