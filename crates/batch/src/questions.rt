// The questions of judging a list of logs, in document 01's order.
ghost use Rattle.std.specs.Prelude.{◌≡◌, ◌*◌, ◌^◌, ◌≤◌, ◌<◌, length, IfSome};
ghost use Rattle.aldlf.specs.declared.Table.{Table};
ghost use Rattle.packing.specs.Numbers.{places};
ghost use Rattle.packing.specs.Packed.{Packed};
ghost use Rattle.sheet.specs.Given.{well_formed};
ghost use Rattle.batch.specs.Batch.{answer_to, batch_answer, fits, has_room, log_of, misfit, roomless};

use super::ListRefusal;
use aldlf::Refusal;

// At most so many logs in a list.
const LOGS: usize = 65535;

// Questions 31, 32 and 33 of a list, given how many words there are and how many places are lent for verdicts and counts.
pub(crate) fn asked(
    numbers: &[u32],
    words: usize,
    lengths: &[u16],
    verdicts: usize,
    held: usize,
) -> Result<(), ListRefusal>
    requires { length numbers.now ≡ places }
    ensures { (t : Table) → Packed t numbers.now → batch_answer result ≡ answer_to (well_formed t) words lengths.now verdicts held }
{
    if !sheet::is_given_packed(numbers) {
        return Err(ListRefusal {
            question: Refusal::NotGiven,
            log: 0,
        });
    }
    if let Some(k) = first_misfit(words, lengths) {
        return Err(ListRefusal {
            question: Refusal::Entries,
            log: k + 1,
        });
    }
    if let Some(k) = first_without_room(lengths, verdicts, held) {
        return Err(ListRefusal {
            question: Refusal::Room,
            log: k + 1,
        });
    }
    Ok(())
}

// Question 32: the first log that is not as it should be, or the log after the last where words are left over; logs are counted from 0.
fn first_misfit(words: usize, lengths: &[u16]) -> Option<usize>
    ensures found { log_of result ≡ misfit words lengths.now }
    ensures in_list { IfSome result (λ k. k ≤ length lengths.now) }
{
    let mut at: usize = 0;
    for (k, length) in lengths.iter().enumerate() {
        let n = usize::from(*length);
        if !fits_here(words, k, at, n) {
            return Some(k);
        }
        at += n;
    }
    if at < words {
        return Some(lengths.len());
    }
    None
}

// Whether log k, of n entries from place `at` on, is there.
fn fits_here(words: usize, k: usize, at: usize, n: usize) -> bool
    requires { at ≤ words }
    ensures { result ≡ fits words k at n }
{
    k < LOGS && 1 <= n && n <= aldlf::ENTRIES && n <= words - at
}

// Question 33: the first log that has no room for its verdict words or its count; logs are counted from 0.
fn first_without_room(lengths: &[u16], verdicts: usize, held: usize) -> Option<usize>
    ensures found { log_of result ≡ roomless verdicts held lengths.now }
    ensures in_list { IfSome result (λ k. k ≤ length lengths.now) }
{
    let mut at: usize = 0;
    for (k, length) in lengths.iter().enumerate() {
        let n = usize::from(*length);
        if !room_here(verdicts, held, k, at, n) {
            return Some(k);
        }
        at += n;
    }
    None
}

// Whether log k, of n entries from place `at` on, has its room: two verdict words for each entry.
fn room_here(verdicts: usize, held: usize, k: usize, at: usize, n: usize) -> bool
    requires { (2 * at ≤ verdicts) × (n < 2 ^ 16) }
    ensures { result ≡ has_room verdicts held k at n }
{
    2 * n <= verdicts - 2 * at && k < held
}
