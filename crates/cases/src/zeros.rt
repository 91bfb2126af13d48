// What is printed where a refusal gives no table.
use std::io;

// The counts and the first line's numbers of a table of zeros, and that all its other places are zeros.
pub fn zeros(rt: &impl Print) -> io::Result<()> {
    rt.write_all(b" used 0 0 0 first 0 0 0 rest zeros")
}
