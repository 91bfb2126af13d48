// Judging by a table that is lent as numbers, made once for many logs or for what comes after judging. A room of the checker: its other crates call it, users do not.
ghost use Rattle.std.specs.Prelude.{◌≡◌, ◌*◌, ◌≤◌, ◌++◌, length, drop, ◌==◌};
ghost use Rattle.aldlf.specs.Constants.{entry_limit};
ghost use Rattle.aldlf.specs.Sheet.{sheet_of};
ghost use Rattle.aldlf.specs.Outcomes.{log_words, held_in, plain_row, whole_number, whole_outcome, part_outcome};
ghost use Rattle.aldlf.specs.declared.Table.{Table};
ghost use Rattle.packing.specs.Packed.{Packed};
ghost use Rattle.sheet.specs.Given.{well_formed};
ghost use Rattle.judge.specs.Answers.{whole_of, is_held, part_of, row_answer, plain_answer_of};
ghost use Rattle.sheet.specs.Facts.{Lent};
ghost use Rattle.judge.specs.Prepared.{Prepared};

use super::engine::{Part, judge_core};
use super::questions::{part_question, whole_question};
use super::rows::end_row;
use aldlf::{Refusal, Row, Way};
use packing::places::PLACES;
use stands::lent::{given_rule_numbers, rule_ways};

// Judges a whole log, as `judge` does.
pub fn judge_lent(numbers: &[u32], log: &[u32], verdicts: &mut [u64]) -> Result<usize, Refusal>
    requires { (t : Table) × Packed t numbers.now }
    ensures verdicts_after { (t : Table) → Packed t numbers.now → whole_of result verdicts.new ≡ whole_outcome (well_formed t) (sheet_of t) log.now verdicts.old }
    ensures result_value { (t : Table) → Packed t numbers.now → is_held result ≡ (whole_number (well_formed t) log.now verdicts.old == 0) }
{
    let n = log.len();
    whole_question(numbers, n, verdicts.len())?;
    let row = end_row(numbers);
    let part = Part {
        way: Way::Ahead,
        row,
    };
    let a = judge_core(part, numbers, log, verdicts);
    Ok(a.held)
}

// Judges a part, as `judge_part` does: by the table in which every node that the rule does not stand on is false.
pub fn part_lent(
    numbers: &[u32],
    way: Way,
    row: Row,
    words: &[u32],
    verdicts: &mut [u64],
) -> Result<Row, Refusal>
    requires { (t : Table) × Packed t numbers.now }
    ensures { (t : Table) → Packed t numbers.now → part_of result verdicts.new ≡ part_outcome (well_formed t) way (sheet_of t) row words.now verdicts.old }
{
    let mut own = [0u32; PLACES];
    given_rule_numbers(numbers, &mut own)?;
    part_question(rule_ways(&own), way, words.len(), verdicts.len())?;
    let part = Part { way, row };
    let a = judge_core(part, &own, words, verdicts);
    Ok(a.row)
}

// The plain row, as `plain_row` gives it.
pub fn plain_row_lent(numbers: &[u32]) -> Result<Row, Refusal>
    requires { (t : Table) × Packed t numbers.now }
    ensures { (t : Table) → Packed t numbers.now → row_answer result ≡ plain_answer_of t }
{
    let mut own = [0u32; PLACES];
    given_rule_numbers(numbers, &mut own)?;
    Ok(end_row(&own))
}

// The plain row of a table that some sheet gives, of all its nodes: a whole log is judged with it.
pub fn plain_of(numbers: &[u32]) -> Row
    requires { (t : Table) × Lent t numbers.now }
    ensures { (t : Table) → Lent t numbers.now → result ≡ plain_row (sheet_of t) }
{
    end_row(numbers)
}

// A whole log: its verdict words in the first places of `verdicts`, the rest as lent, and the count of entries at which the rule holds.
pub fn judge_log(plain: Row, numbers: &[u32], log: &[u32], verdicts: &mut [u64]) -> usize
    requires prepared { (t : Table) × Prepared t plain numbers.now }
    requires log_in_bounds { (2 * length log.now ≤ length verdicts.old) × (length log.now ≤ entry_limit) }
    ensures value { (t : Table) → Prepared t plain numbers.now → result ≡ held_in (sheet_of t) log.now }
    ensures verdicts_after { (t : Table) → Prepared t plain numbers.now
        → verdicts.new ≡ log_words (sheet_of t) log.now ++ drop (2 * length log.now) verdicts.old }
{
    let part = Part {
        way: Way::Ahead,
        row: plain,
    };
    let a = judge_core(part, numbers, log, verdicts);
    a.held
}
