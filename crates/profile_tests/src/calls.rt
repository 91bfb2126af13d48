// The calls, each on a table.
use aldlf::{Refusal, Table};
use cases::sheets::sheet;
use cases::show::{counted, numbers};
use cases::zeros::zeros;
use sheet::empty::empty_table;
use std::io;

// No log of a case has more entries.
const MOST: usize = 5;

// Makes the profile, and shows it; beside a refusal, the zeros that stand for it.
pub(crate) fn made(rt: &impl Print, t: Table) -> io::Result<()> {
    match profile::to_profile(t) {
        Ok(made) => {
            rt.write_all(b" 0")?;
            sheet(rt, made)
        }
        Err(r) => {
            print!(rt; " {}", r.number())?;
            zeros(rt)
        }
    }
}

// Both calls, on a table that was changed.
pub(crate) fn changed(rt: &impl Print, t: Table) -> io::Result<()> {
    made(rt, t)?;
    rt.write_all(b", asked")?;
    asked(rt, t)
}

// Whether a table is in the profile, and whether its profile is.
pub(crate) fn asked(rt: &impl Print, t: Table) -> io::Result<()> {
    answered(rt, profile::is_in_profile(t))?;
    rt.write_all(b", its profile")?;
    answered(rt, profile::is_in_profile(profile_of(t)))
}

fn answered(rt: &impl Print, a: Result<bool, Refusal>) -> io::Result<()> {
    match a {
        Ok(true) => rt.write_all(b" 0 yes"),
        Ok(false) => rt.write_all(b" 0 no"),
        Err(r) => print!(rt; " {} no", r.number()),
    }
}

// The profile, or all zeros where there is none.
pub(crate) fn profile_of(t: Table) -> Table {
    profile::to_profile(t).unwrap_or(empty_table())
}

// Judges the case's log. The places that are lent hold 170, which is no verdict word of any case.
pub(crate) fn judged(rt: &impl Print, t: Table, line: &[u8]) -> io::Result<()> {
    let mut log = [0u32; MOST];
    let mut verdicts = [170u64; 2 * MOST];
    let n = cases::read_log(line, 3, &mut log).unwrap_or(0).min(MOST);
    counted(rt, "held", judge::judge(t, &log[..n], &mut verdicts))?;
    rt.write_all(b" words")?;
    numbers(rt, &verdicts)
}
