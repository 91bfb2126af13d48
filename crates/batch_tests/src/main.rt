// Lists of logs judged. `stdin` has the cases, one line each: the case's name, the sheet, the words of all logs, how many words are
// lent, the logs' lengths, how many places are lent for verdicts and for counts, and from which place on the verdicts are shown.
// `stdout` has what document 01 gives, worked by hand.
#![tactic(auto)]

mod calls;
mod show;

use std::io;

fn main(rt: HostRuntime) -> io::Result<()> {
    cases::each(&rt, |line| case(&rt, line))
}

// A case's name and its outcome.
fn case(rt: &impl Print, line: &[u8]) -> io::Result<()> {
    rt.write_all(cases::field(line, 0))?;
    calls::list(rt, line)?;
    rt.write_all(b"\n")
}
