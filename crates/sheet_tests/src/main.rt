// Sheets read and tables checked: `stdin` has the cases, one to a line, and `stdout` what documents 01 and 02 give for each.
// A line's fields: what is tried, the case's name, its sheet, and for a changed table the numbers that are put there.
#![tactic(auto)]

mod tables;

use aldlf::Table;
use sheet::SheetRefusal;
use std::io;

fn main(rt: HostRuntime) -> io::Result<()> {
    cases::each(&rt, |line| tried(&rt, line))
}

// Prints a case's name and its outcome.
fn tried(rt: &impl Print, line: &[u8]) -> io::Result<()> {
    rt.write_all(cases::field(line, 1))?;
    rt.write_all(b":")?;
    if cases::letter(line) == b's' {
        said(rt, answer(line))?;
    } else {
        tables::tried(rt, line)?;
    }
    rt.write_all(b"\n")
}

// What reading a case's sheet answers.
fn answer(line: &[u8]) -> Result<Table, SheetRefusal> {
    cases::read_sheet::<{ cases::INPUT }>(line, 2)
}

// Prints a refusal's number, line and field; else zeros and the table's counts.
fn said(rt: &impl Print, a: Result<Table, SheetRefusal>) -> io::Result<()> {
    match a {
        Ok(t) => {
            rt.write_all(b" 0,0,0")?;
            used(rt, &t)
        }
        Err(r) => print!(rt; " {},{},{}", r.question.number(), r.line, r.field),
    }
}

fn used(rt: &impl Print, t: &Table) -> io::Result<()> {
    let n = t.used;
    print!(rt;
        " nodes {} automata {} edges {}",
        n.nodes, n.automata, n.edges
    )
}
