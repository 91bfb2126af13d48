// What is printed of an outcome.
use aldlf::{Refusal, Row};
use cases::show::numbers;
use stands::Looks;
use std::io;

// Which ways a rule looks, or a refusal's number.
pub(crate) fn looks(rt: &impl Print, a: Result<Looks, Refusal>) -> io::Result<()> {
    match a {
        Ok(l) => print!(rt; " 0 ahead {} back {}", yes(l.ahead), yes(l.back)),
        Err(r) => print!(rt; " {} ahead no back no", r.number()),
    }
}

fn yes(on: bool) -> &'static str {
    if on { "yes" } else { "no" }
}

// The numbers of a row's first four nodes and of its last.
pub(crate) fn row(rt: &impl Print, row: &Row) -> io::Result<()> {
    rt.write_all(b" row")?;
    numbers(rt, &row.bits[..4])?;
    print!(rt; " .. {}", row.bits[aldlf::NODES - 1])
}

// The words from a place on.
pub(crate) fn words(rt: &impl Print, words: &[u64], from: usize) -> io::Result<()> {
    rt.write_all(b" words")?;
    numbers(rt, words.get(from..).unwrap_or(&[]))
}
