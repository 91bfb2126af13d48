// The call, on a case's line. The places that are lent hold 170 and 999, which are no verdict word and no count of any case.
ghost use Rattle.files.specs.Counts.{IsPrefixLen};

use super::show;
use std::io;

// One entry more than two logs may have.
const WORDS: usize = 2 * aldlf::ENTRIES + 1;

// One verdict word more than two logs may have.
const VERDICTS: usize = 4 * aldlf::ENTRIES + 1;

// No list of a case has more logs.
const LOGS: usize = 4;

// Judges the case's list. Of its words as many are lent as the case says, also beyond those that it gives.
pub(crate) fn list(rt: &impl Print, line: &[u8]) -> io::Result<()> {
    let mut words = [0u32; WORDS];
    let mut lengths = [0u16; LOGS];
    let _ = cases::read_log(line, 2, &mut words);
    let n = cases::number_at(line, 3).min(WORDS);
    let k = lengths_of(line, &mut lengths);
    list_of(rt, line, &words[..n], &lengths[..k])
}

// The same with its words and lengths.
fn list_of(rt: &impl Print, line: &[u8], words: &[u32], lengths: &[u16]) -> io::Result<()> {
    let mut verdicts = [170u64; VERDICTS];
    let mut held = [999u16; LOGS];
    let verdicts = &mut verdicts[..cases::number_at(line, 5).min(VERDICTS)];
    let held = &mut held[..cases::number_at(line, 6).min(LOGS)];
    let table = cases::table(line, 1);
    show::answer(rt, batch::judge_logs(table, words, lengths, verdicts, held))?;
    show::words(rt, verdicts, cases::number_at(line, 7))?;
    show::counts(rt, held)
}

// Reads the lengths, and says how many there are.
fn lengths_of(line: &[u8], lengths: &mut [u16]) -> usize
    ensures { IsPrefixLen result lengths.new }
{
    let mut bytes = [0u8; cases::TEXT];
    let n = cases::text_of(line, 4, &mut bytes);
    put_lengths(&bytes[..n], lengths)
}

// A line's number in each place, as far as there are lines and places; how many.
fn put_lengths(lines: &[u8], lengths: &mut [u16]) -> usize
    ensures { IsPrefixLen result lengths.new }
{
    let mut n: usize = 0;
    for line in lines.split_inclusive(|&b| b == b'\n') {
        if n == lengths.len() {
            return n;
        }
        lengths[n] = (cases::number(text::line_at(line, 0)) % 65536) as u16;
        n += 1;
    }
    n
}
