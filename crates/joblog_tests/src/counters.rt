// What is printed of counters: a log that bears them, the steps between two, and the entry that bears one.
use joblog::counters::{Counter, entry_bearing, steps_between};
use joblog::{Counted, LogRefusal};
use std::io;

pub(crate) fn said(rt: &impl Print, a: Result<Counted, LogRefusal>) -> io::Result<()> {
    match a {
        Ok(c) => print!(rt; ": read,{},first,{}", c.entries, c.first.0),
        Err(r) => super::refused(rt, r),
    }
}

pub(crate) fn stepped(rt: &impl Print, line: &[u8]) -> io::Result<()> {
    print!(rt;
        ": steps,{}",
        steps_between(counter(line, 2), counter(line, 3))
    )
}

pub(crate) fn looked(rt: &impl Print, line: &[u8]) -> io::Result<()> {
    match entry_bearing(
        counter(line, 2),
        cases::number_at(line, 3),
        counter(line, 4),
    ) {
        Ok(e) => print!(rt; ": entry,{}", e.0),
        Err(r) => print!(rt; ": refused,{}", r.number()),
    }
}

// The counter in a line's field.
fn counter(line: &[u8], k: usize) -> Counter {
    Counter(cases::half(line, k))
}
