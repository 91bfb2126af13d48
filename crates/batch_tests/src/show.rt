// What is printed of an outcome.
use batch::ListRefusal;
use cases::show::numbers;
use std::io;

// Whether the list was judged, or the number of a refusal; and the log.
pub(crate) fn answer(rt: &impl Print, a: Result<(), ListRefusal>) -> io::Result<()> {
    match a {
        Ok(()) => rt.write_all(b" judged, log 0"),
        Err(r) => print!(rt; " refused {}, log {}", r.question.number(), r.log),
    }
}

// The verdict words from a place on.
pub(crate) fn words(rt: &impl Print, words: &[u64], from: usize) -> io::Result<()> {
    rt.write_all(b", words")?;
    numbers(rt, words.get(from..).unwrap_or(&[]))
}

// The logs' counts.
pub(crate) fn counts(rt: &impl Print, held: &[u16]) -> io::Result<()> {
    rt.write_all(b", held")?;
    numbers(rt, held)
}
