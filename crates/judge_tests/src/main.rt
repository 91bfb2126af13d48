// Logs and parts judged. `stdin` has the cases, one line each: the call, the case's name, the sheet, the log, how many places are
// lent and from which place on they are shown. `stdout` has what document 01 gives, worked by hand.
#![tactic(auto)]

mod calls;
mod show;

use aldlf::{Row, Way};
use std::io;

// The cases in order, from no bits set in the row in hand.
fn main(rt: HostRuntime) -> io::Result<()> {
    let mut row = calls::NO_BITS;
    cases::each(&rt, |line| case(&rt, line, &mut row))
}

// A case's name and its outcome.
fn case(rt: &impl Print, line: &[u8], row: &mut Row) -> io::Result<()> {
    rt.write_all(cases::field(line, 1))?;
    call(rt, line, row)?;
    rt.write_all(b"\n")
}

// The call: a whole log judged, a part looking ahead or back, the plain row or one with all its bits set put in hand, or which ways the
// rule looks.
fn call(rt: &impl Print, line: &[u8], row: &mut Row) -> io::Result<()> {
    match cases::letter(line) {
        b'a' => calls::part(rt, line, Way::Ahead, row),
        b'b' => calls::part(rt, line, Way::Back, row),
        b'p' => calls::plain(rt, line, row),
        b'f' => calls::full(rt, row),
        b'l' => calls::looks(rt, line),
        _ => calls::whole(rt, line),
    }
}
