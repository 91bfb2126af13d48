// Appending to a lent buffer: what does not fit is left out, and the rest of the buffer keeps its content.
// A room of the checker: called by its other crates, not by users.
#![tactic(auto)]

ghost use Rattle.std.specs.Prelude.{[], ◌∷◌};
ghost use Rattle.appending.specs.Appending.{decimal, Appends};

// One byte at a place, where there is room; the place after it.
pub fn put(out: &mut [u8], at: usize, byte: u8) -> usize
    ensures { Appends (byte ∷ []) out.old at out.new result }
{
    if at < out.len() {
        out[at] = byte;
        return at + 1;
    }
    at
}

// All bytes of a slice.
pub fn put_bytes(out: &mut [u8], at: usize, bytes: &[u8]) -> usize
    ensures { Appends bytes.now out.old at out.new result }
{
    let mut next = at;
    for &byte in bytes {
        next = put(out, next, byte);
    }
    next
}

// A number in decimal: the digits before the last one first.
pub fn put_number(out: &mut [u8], at: usize, n: usize) -> usize
    ensures { Appends (decimal n) out.old at out.new result }
{
    if n < 10 {
        return put(out, at, b'0' + n as u8);
    }
    let next = put_number(out, at, n / 10);
    put(out, next, b'0' + (n % 10) as u8)
}
