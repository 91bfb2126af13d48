// Logs tried, without and with counters, and counters: `stdin` has the cases, one to a line, and `stdout` what documents 01 and 02 give for each.
// A line's first two fields are the call's letter and the case's name. `l` and `c` read a log of the first and of the second form: its text, how many
// words are lent, all 7 before the call, and from which one they are shown. `s` counts the steps from one counter to another. `e` finds an entry: the
// first counter, the number of entries, and the counter.
#![tactic(auto)]

mod counters;

use joblog::LogRefusal;
use std::io;

// Two words more than a log has entries.
const WORDS: usize = aldlf::ENTRIES + 2;

fn main(rt: HostRuntime) -> io::Result<()> {
    cases::each(&rt, |line| tried(&rt, line))
}

fn tried(rt: &impl Print, line: &[u8]) -> io::Result<()> {
    rt.write_all(cases::field(line, 1))?;
    match cases::letter(line) {
        b's' => counters::stepped(rt, line)?,
        b'e' => counters::looked(rt, line)?,
        call => lending(rt, line, call == b'c')?,
    }
    rt.write_all(b"\n")
}

// Reads a case's log, in either form: prints what is answered and the words of the lent buffer after the call.
fn lending(rt: &impl Print, line: &[u8], counted: bool) -> io::Result<()> {
    let mut text = [0u8; cases::INPUT];
    let mut words = [7u32; WORDS];
    let n = cases::text_of(line, 2, &mut text);
    let lent = cases::number_at(line, 3).min(WORDS);
    read(rt, &text[..n], counted, &mut words[..lent])?;
    rt.write_all(b"; words")?;
    for w in words[..lent].iter().skip(cases::number_at(line, 4)) {
        print!(rt; ",{w}")?;
    }
    Ok(())
}

fn read(rt: &impl Print, text: &[u8], counted: bool, words: &mut [u32]) -> io::Result<()> {
    if counted {
        return counters::said(rt, joblog::read_counted(text, words));
    }
    match joblog::read_log(text, words) {
        Ok(n) => print!(rt; ": read,{n}"),
        Err(r) => refused(rt, r),
    }
}

fn refused(rt: &impl Print, r: LogRefusal) -> io::Result<()> {
    print!(rt; ": refused,{},{}", r.question.number(), r.line)
}
