// Prints the page of the formula `rule.txt` and the log `steps.txt` in the folder that it runs in, once both have been read to their ends.
// A failure to read or to write is one line on standard error, and the status is then 1.
#![tactic(auto)]

ghost use Rattle.std.specs.Prelude.{◌≡◌};
ghost use Rattle.formula_page.specs.Rule.{formula_bytes};

use files::read_two;
use formula_report::formula_page;
use std::io;
use std::process::ExitCode;

// A byte more than a formula may have, and one for the LF at its end: a longer file is then refused by its number.
const RULE_ROOM: usize = formula::FORMULA + 2;

// One byte more than a log may have, for the same reason.
const STEPS_ROOM: usize = text::BYTES + 1;

// As the main of `page`, with files, rooms and a page of its own: one function of both would take all of these, and be longer than this one.
fn main(rt: HostRuntime) -> ExitCode {
    let mut rule = [0u8; RULE_ROOM];
    let mut steps = [0u8; STEPS_ROOM];
    let Some((n, m)) = read_two(&rt, b"rule.txt", &mut rule, b"steps.txt", &mut steps) else {
        return ExitCode::FAILURE;
    };
    match print_page(&rt, &rule[..n], &steps[..m]) {
        Ok(()) => ExitCode::SUCCESS,
        Err(e) => {
            files::fail(&rt, "standard output", &e);
            ExitCode::FAILURE
        }
    }
}

// Prints the page. No page is longer than `out`, so that none is refused.
fn print_page(rt: &impl Print, rule: &[u8], steps: &[u8]) -> io::Result<()> {
    let mut out = [0u8; report::BYTES];
    let k = formula_bytes(rule);
    let n = formula_page(&rule[..k], steps, &mut out).unwrap();
    rt.write_all(&out[..n])
}

// How many bytes of a rule's file are the formula's. A formula has no LF; the one that editors put at a file's end is left out.
fn formula_bytes(rule: &[u8]) -> usize
    ensures { result ≡ formula_bytes rule.now }
{
    if text::ends_in_lf(rule) {
        rule.len() - 1
    } else {
        rule.len()
    }
}
