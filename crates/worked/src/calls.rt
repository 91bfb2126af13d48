// The calls, each on a job's line. Buffers are lent as nines.
use super::show;
use aldlf::{Entry, Node, Refusal, Row, Way};
use cases::show::numbers;
use std::io;

// The longest log that is judged has so many entries.
const MOST: usize = 5;

pub(crate) const NO_BITS: Row = Row {
    bits: [0; aldlf::NODES],
};

// Reads the sheet.
pub(crate) fn sheet_read(rt: &impl Print, line: &[u8]) -> io::Result<()> {
    match cases::read_sheet::<{ cases::TEXT }>(line, 2) {
        Ok(_) => show::read(rt),
        Err(r) => print!(rt;
            " refused {} at line {}, field {}",
            r.question.number(),
            r.line,
            r.field
        ),
    }
}

// Reads the log.
pub(crate) fn log_read(rt: &impl Print, line: &[u8]) -> io::Result<()> {
    let mut words = [9u32; aldlf::ENTRIES];
    match cases::read_log(line, 3, &mut words) {
        Ok(_) => show::read(rt),
        Err(r) => print!(rt; " refused {} at line {}", r.question.number(), r.line),
    }
}

// Judges the log; shows the node's verdict at each entry.
pub(crate) fn verdicts(rt: &impl Print, line: &[u8]) -> io::Result<()> {
    let mut words = [9u32; MOST];
    let mut bits = [9u64; 2 * MOST];
    let n = cases::read_log(line, 3, &mut words).unwrap_or(0).min(MOST);
    match judge::judge(cases::table(line, 2), &words[..n], &mut bits) {
        Ok(_) => show::column(rt, &bits, n, cases::number_at(line, 4)),
        Err(r) => refused(rt, r),
    }
}

// Shows the walk of the node at the entry.
pub(crate) fn walk(rt: &impl Print, line: &[u8]) -> io::Result<()> {
    let mut words = [9u32; MOST];
    let mut edges = [9u16; 8];
    let n = cases::read_log(line, 3, &mut words).unwrap_or(0).min(MOST);
    match walk_of(line, &words[..n], &mut edges) {
        Ok(count) => {
            rt.write_all(b" walk")?;
            numbers(rt, edges.get(..count).unwrap_or(&edges))
        }
        Err(r) => refused(rt, r),
    }
}

// The answer, with the walk in `edges`.
fn walk_of(line: &[u8], log: &[u32], edges: &mut [u16]) -> Result<usize, Refusal> {
    let node = Node(cases::byte(line, 4));
    let entry = Entry(cases::half(line, 5));
    walk::walk(cases::table(line, 2), log, node, entry, edges)
}

// Judges a part that is given the plain row; one with no bits where the sheet is refused.
pub(crate) fn first_part(rt: &impl Print, line: &[u8], row: &mut Row) -> io::Result<()> {
    *row = judge::plain_row(cases::table(line, 2)).unwrap_or(NO_BITS);
    part(rt, line, row)
}

// Judges a part looking ahead; shows node 2's verdicts and bit 0 of its number in the row. That row is in hand then, and none of its
// bits after a refusal.
pub(crate) fn part(rt: &impl Print, line: &[u8], row: &mut Row) -> io::Result<()> {
    let mut words = [9u32; MOST];
    let mut bits = [9u64; 2 * MOST];
    let n = cases::read_log(line, 3, &mut words).unwrap_or(0).min(MOST);
    let table = cases::table(line, 2);
    let answer = judge::judge_part(table, Way::Ahead, *row, &words[..n], &mut bits);
    *row = answer.unwrap_or(NO_BITS);
    match answer {
        Ok(next) => {
            show::column(rt, &bits, n, 2)?;
            print!(rt; ", bit 0 of number 2: {}", next.bits[2] % 2)
        }
        Err(r) => refused(rt, r),
    }
}

// A refusal's number.
fn refused(rt: &impl Print, r: Refusal) -> io::Result<()> {
    print!(rt; " refused {}", r.number())
}
