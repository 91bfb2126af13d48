// Profiles made and asked for. `stdin` has the cases, one line each: what is tried, the case's name, the sheet; for judge the log,
// for node the line that is put in the table (its place, letter, a, b) and how many nodes are in use. `stdout` has what document 02
// gives, worked by hand: a profile as the sheet that gives it, its lines parted by spaces.
#![tactic(auto)]

mod calls;
mod tables;

use std::io;

fn main(rt: HostRuntime) -> io::Result<()> {
    cases::each(&rt, |line| case(&rt, line))
}

// A case's name and its outcome.
fn case(rt: &impl Print, line: &[u8]) -> io::Result<()> {
    rt.write_all(cases::field(line, 1))?;
    tried(rt, line)?;
    rt.write_all(b"\n")
}

// What is tried: the profile, of a changed table too, the profile of the profile, the profile judged; else whether the sheet is in it.
fn tried(rt: &impl Print, line: &[u8]) -> io::Result<()> {
    let t = cases::table(line, 2);
    match cases::letter(line) {
        b'm' => calls::made(rt, t),
        b'n' => calls::changed(rt, tables::changed(t, line)),
        b't' => calls::made(rt, calls::profile_of(t)),
        b'j' => calls::judged(rt, calls::profile_of(t), line),
        _ => calls::asked(rt, t),
    }
}
