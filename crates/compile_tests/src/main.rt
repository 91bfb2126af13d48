// Formulas read. `stdin` has the cases, one line each: the whole line is the formula's text. `stdout` has what docs/FORMULAS.md
// gives, worked by hand: the text, the number and the place, then the sheet that gives the table, its lines parted by spaces, or
// beside a refusal the zeros that stand for the table that it doesn't give. Of a long text its length and its start stand for it.
#![tactic(auto)]

use aldlf::Table;
use cases::sheets::sheet;
use cases::zeros::zeros;
use compile::FormulaRefusal;
use std::io;

// A text up to so long is printed whole, and of a longer one so many bytes.
const WHOLE: usize = 80;

const START: usize = 20;

fn main(rt: HostRuntime) -> io::Result<()> {
    cases::each(&rt, |line| case(&rt, line))
}

// A case's text and its outcome.
fn case(rt: &impl Print, formula: &[u8]) -> io::Result<()> {
    shown(rt, formula)?;
    answered(rt, compile::read_formula(formula))?;
    rt.write_all(b"\n")
}

// The text, or its length and its start.
fn shown(rt: &impl Print, formula: &[u8]) -> io::Result<()> {
    if formula.len() <= WHOLE {
        return rt.write_all(formula);
    }
    print!(rt; "{} ", formula.len())?;
    rt.write_all(&formula[..START])
}

// The number and the place, and what the table holds; beside a refusal, the zeros that stand for it.
fn answered(rt: &impl Print, a: Result<Table, FormulaRefusal>) -> io::Result<()> {
    match a {
        Ok(table) => {
            rt.write_all(b" 0 0")?;
            sheet(rt, table)
        }
        Err(r) => {
            print!(rt; " {} {}", r.number(), r.place())?;
            zeros(rt)
        }
    }
}
