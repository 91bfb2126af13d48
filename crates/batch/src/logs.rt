// The logs of a list judged, one after the other.
ghost use Rattle.std.specs.Prelude.{◌≡◌, ◌*◌, ◌≤◌, length};
ghost use Rattle.aldlf.specs.Constants.{entry_limit};
ghost use Rattle.aldlf.specs.Sheet.{sheet_of};
ghost use Rattle.aldlf.specs.Outcomes.{log_words, held_in};
ghost use Rattle.aldlf.specs.declared.Table.{Table};
ghost use Rattle.judge.specs.Prepared.{Prepared};
ghost use Rattle.batch.specs.Batch.{misfit, roomless, verdicts_after, held_after};

use aldlf::Row;
use judge::lent::judge_log;

// Every log at its place: its verdict words at twice the place of its words, its count where its length stands.
pub(crate) fn judge_each(
    plain: Row,
    numbers: &[u32],
    words: &[u32],
    lengths: &[u16],
    verdicts: &mut [u64],
    held: &mut [u16],
)
    requires prepared { (t : Table) × Prepared t plain numbers.now }
    requires lengths_value { misfit (length words.now) lengths.now ≡ 0 }
    requires lengths_value_2 { roomless (length verdicts.old) (length held.old) lengths.now ≡ 0 }
    ensures verdicts_after { (t : Table) → Prepared t plain numbers.now → verdicts.new ≡ verdicts_after (sheet_of t) words.now lengths.now verdicts.old }
    ensures held_after { (t : Table) → Prepared t plain numbers.now → held.new ≡ held_after (sheet_of t) words.now lengths.now held.old }
{
    let mut at: usize = 0;
    for (k, length) in lengths.iter().enumerate() {
        let end = at + usize::from(*length);
        let n = judge_one(
            plain,
            numbers,
            &words[at..end],
            &mut verdicts[2 * at..2 * end],
        );
        held[k] = n as u16;
        at = end;
    }
}

// One log that all questions are answered of: its verdict words, and the count of entries at which the rule holds.
fn judge_one(plain: Row, numbers: &[u32], log: &[u32], verdicts: &mut [u64]) -> usize
    requires prepared { (t : Table) × Prepared t plain numbers.now }
    requires log_len_bound { (length log.now ≤ entry_limit) × (length verdicts.old ≡ 2 * length log.now) }
    ensures verdicts_after { (t : Table) → Prepared t plain numbers.now → verdicts.new ≡ log_words (sheet_of t) log.now }
    ensures value { (t : Table) → Prepared t plain numbers.now → result ≡ held_in (sheet_of t) log.now }
{
    judge_log(plain, numbers, log, verdicts)
}
