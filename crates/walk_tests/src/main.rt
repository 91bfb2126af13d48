// Walks shown and refused. `stdin` has the cases, one line each: the call, the case's name, the sheet, the log, the node, the entry
// and how many places are lent. Each prints the answer and the whole buffer; `stdout` has what document 01 gives.
#![tactic(auto)]

mod calls;
mod longest;
mod show;

use std::io;

fn main(rt: HostRuntime) -> io::Result<()> {
    cases::each(&rt, |line| case(&rt, line))?;
    calls::shorter(&rt)
}

// A case's name and its outcome: a walk, or the longest one.
fn case(rt: &impl Print, line: &[u8]) -> io::Result<()> {
    rt.write_all(cases::field(line, 1))?;
    if cases::letter(line) == b'w' {
        calls::walk(rt, line)
    } else {
        longest::walk(rt, line)
    }
}
