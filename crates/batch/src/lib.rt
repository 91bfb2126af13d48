// Judging a list of logs of one sheet in one call. Every question is asked before the first log is judged. That each log is judged
// as by itself is the theorem `each_judged` of proofs/Each.antt.
#![tactic(auto)]

mod logs;
mod questions;

ghost use Rattle.std.specs.Prelude.{◌≡◌};
ghost use Rattle.aldlf.specs.Sheet.{sheet_of};
ghost use Rattle.aldlf.specs.declared.Table.{Table};
ghost use Rattle.packing.specs.Packed.{Packed};
ghost use Rattle.sheet.specs.Given.{well_formed};
ghost use Rattle.batch.specs.Batch.{batch_answer, batch_ends, batch_outcome};

use aldlf::{Refusal, Table};
use judge::lent::plain_of;
use logs::judge_each;
use packing::places::PLACES;
use packing::writing::pack;
use questions::asked;

// Why a list is refused: the first question that gets a no (31, 32, 33), and which log it is about, counted from 1 (0: about no log).
#[derive(Clone, Copy, PartialEq, Eq)]
pub struct ListRefusal {
    pub question: Refusal,
    pub log: usize,
}

// Judges logs whose words stand one after the other, log j's as many as `lengths[j]`: the verdict words likewise, two for each
// entry, in the first places of `verdicts`, each log's count held in those of `held`; the rest keep their content. A refusal
// alters nothing.
pub fn judge_logs(
    table: Table,
    words: &[u32],
    lengths: &[u16],
    verdicts: &mut [u64],
    held: &mut [u16],
) -> Result<(), ListRefusal>
    ensures { batch_ends (batch_answer result) verdicts.new held.new ≡ batch_outcome (well_formed table) (sheet_of table) words.now lengths.now verdicts.old held.old }
{
    let mut numbers = [0u32; PLACES];
    pack(table, &mut numbers);
    logs_lent(&numbers, words, lengths, verdicts, held)
}

// The same by a table that is lent as numbers. A room of the checker: its other crates call it, users do not.
pub fn logs_lent(
    numbers: &[u32],
    words: &[u32],
    lengths: &[u16],
    verdicts: &mut [u64],
    held: &mut [u16],
) -> Result<(), ListRefusal>
    requires { (t : Table) × Packed t numbers.now }
    ensures { (t : Table) → Packed t numbers.now
        → batch_ends (batch_answer result) verdicts.new held.new ≡ batch_outcome (well_formed t) (sheet_of t) words.now lengths.now verdicts.old held.old }
{
    let n = words.len();
    asked(numbers, n, lengths, verdicts.len(), held.len())?;
    let plain = plain_of(numbers);
    judge_each(plain, numbers, words, lengths, verdicts, held);
    Ok(())
}
