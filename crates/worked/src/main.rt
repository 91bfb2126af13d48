// Every job that document 01 works by hand, run on the calls. `stdin` has the jobs, one line each: the call, the job's name, the
// sheet, the log, the node and the entry. What is printed is compared with what was written by hand.
#![tactic(auto)]

mod calls;
mod show;

use aldlf::Row;
use std::io;

// The jobs in order. A part is given the row in hand.
fn main(rt: HostRuntime) -> io::Result<()> {
    let mut row = calls::NO_BITS;
    cases::each(&rt, |line| job(&rt, line, &mut row))
}

// A job's name and its outcome.
fn job(rt: &impl Print, line: &[u8], row: &mut Row) -> io::Result<()> {
    rt.write_all(cases::field(line, 1))?;
    call(rt, line, row)?;
    rt.write_all(b"\n")
}

// The call: a sheet or a log read, verdicts, a walk, the part judged first or next.
fn call(rt: &impl Print, line: &[u8], row: &mut Row) -> io::Result<()> {
    match cases::letter(line) {
        b'p' => calls::first_part(rt, line, row),
        b'n' => calls::part(rt, line, row),
        b's' => calls::sheet_read(rt, line),
        b'l' => calls::log_read(rt, line),
        b'v' => calls::verdicts(rt, line),
        _ => calls::walk(rt, line),
    }
}
