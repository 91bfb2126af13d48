// What is printed of an outcome.
use cases::show::numbers;
use std::io;

// The numbers of a slice, and the line's end.
pub(crate) fn places(rt: &impl Print, edges: &[u16]) -> io::Result<()> {
    numbers(rt, edges)?;
    rt.write_all(b"\n")
}
