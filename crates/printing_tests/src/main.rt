// Rules printed. `stdin` has the cases, one line each: the case's name, the sheet, and how many places are lent. `stdout` has what
// document 02 gives, worked by hand: the number, the length, and all places that were lent. Before the call they hold `.`, which
// stands in no text.
#![tactic(auto)]

use std::io;

// No case lends more places.
const MOST: usize = 400;

fn main(rt: HostRuntime) -> io::Result<()> {
    cases::each(&rt, |line| case(&rt, line))
}

// A case's name and its outcome: the answer, and the places lent as they are after it.
fn case(rt: &impl Print, line: &[u8]) -> io::Result<()> {
    rt.write_all(cases::field(line, 0))?;
    let mut out = [b'.'; MOST];
    let lent = &mut out[..cases::number_at(line, 2).min(MOST)];
    match printing::print_rule(cases::table(line, 1), lent) {
        Ok(bytes) => print!(rt; " 0 {bytes} \"")?,
        Err(r) => print!(rt; " {} 0 \"", r.number())?,
    }
    rt.write_all(lent)?;
    rt.write_all(b"\"\n")
}
