// The calls, each on a case's line. The places that are lent hold 170, which is no verdict word of any case.
use super::show;
use aldlf::{Refusal, Row, Way};
use cases::show::counted;
use std::io;

// One entry more than a log may have.
const MOST: usize = aldlf::ENTRIES + 1;

// One place more than the verdict words of a log.
const PLACES: usize = 2 * aldlf::ENTRIES + 1;

pub(crate) const NO_BITS: Row = Row {
    bits: [0; aldlf::NODES],
};

const ALL_BITS: Row = Row {
    bits: [65535; aldlf::NODES],
};

// Judges a whole log.
pub(crate) fn whole(rt: &impl Print, line: &[u8]) -> io::Result<()> {
    let mut log = [0u32; MOST];
    let mut verdicts = [170u64; PLACES];
    let n = cases::words_of(line, 3, &mut log);
    let lent = &mut verdicts[..cases::number_at(line, 4).min(PLACES)];
    let table = cases::table(line, 2);
    counted(rt, "held", judge::judge(table, &log[..n], lent))?;
    show::words(rt, lent, cases::number_at(line, 5))
}

// Judges a part that is given the row in hand.
pub(crate) fn part(rt: &impl Print, line: &[u8], way: Way, row: &mut Row) -> io::Result<()> {
    let mut words = [0u32; MOST];
    let mut verdicts = [170u64; PLACES];
    let n = cases::words_of(line, 3, &mut words);
    let lent = &mut verdicts[..cases::number_at(line, 4).min(PLACES)];
    let table = cases::table(line, 2);
    let answer = judge::judge_part(table, way, *row, &words[..n], lent);
    answered(rt, answer, row)?;
    show::words(rt, lent, cases::number_at(line, 5))
}

// The plain row, put in hand.
pub(crate) fn plain(rt: &impl Print, line: &[u8], row: &mut Row) -> io::Result<()> {
    answered(rt, judge::plain_row(cases::table(line, 2)), row)
}

// Which ways the rule looks.
pub(crate) fn looks(rt: &impl Print, line: &[u8]) -> io::Result<()> {
    show::looks(rt, stands::rule_looks(cases::table(line, 2)))
}

// A row with all its bits set.
pub(crate) fn full(rt: &impl Print, row: &mut Row) -> io::Result<()> {
    *row = ALL_BITS;
    show::row(rt, row)
}

// Shows an answer's number and row, which is put in hand; a refusal leaves the row in hand, and no bits stand beside its number.
fn answered(rt: &impl Print, answer: Result<Row, Refusal>, row: &mut Row) -> io::Result<()> {
    match answer {
        Ok(next) => {
            *row = next;
            rt.write_all(b" 0")?;
            show::row(rt, row)
        }
        Err(r) => {
            print!(rt; " {}", r.number())?;
            show::row(rt, &NO_BITS)
        }
    }
}
