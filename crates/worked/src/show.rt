// What is printed of an outcome.
use std::io;

// A text was read.
pub(crate) fn read(rt: &impl Print) -> io::Result<()> {
    rt.write_all(b" read")
}

// A verdict word has so many bits.
const BITS: usize = aldlf::WORD_BITS as usize;

// Node k's verdict at each of the first entries, which have two words each.
pub(crate) fn column(rt: &impl Print, words: &[u64], count: usize, k: usize) -> io::Result<()> {
    for entry in words.chunks(2).take(count) {
        if let Some(word) = entry.get(k / BITS) {
            print!(rt; " {}", word >> (k % BITS) & 1)?;
        }
    }
    Ok(())
}
