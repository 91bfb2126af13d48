// Prints the page of the sheet `rules.txt` and the log `steps.txt` in the folder that it runs in, once both have been read to their ends.
// A failure to read or to write is one line on standard error, and the status is then 1.
#![tactic(auto)]

use files::read_two;
use std::io;
use std::process::ExitCode;

// One byte more than a text may have: a longer file is then refused by its number.
const ROOM: usize = text::BYTES + 1;

fn main(rt: HostRuntime) -> ExitCode {
    let mut rules = [0u8; ROOM];
    let mut steps = [0u8; ROOM];
    let Some((n, m)) = read_two(&rt, b"rules.txt", &mut rules, b"steps.txt", &mut steps) else {
        return ExitCode::FAILURE;
    };
    match print_page(&rt, &rules[..n], &steps[..m]) {
        Ok(()) => ExitCode::SUCCESS,
        Err(e) => {
            files::fail(&rt, "standard output", &e);
            ExitCode::FAILURE
        }
    }
}

// Prints the page. No page is longer than `out`, so that none is refused.
fn print_page(rt: &impl Print, rules: &[u8], steps: &[u8]) -> io::Result<()> {
    let mut out = [0u8; report::BYTES];
    let n = report::page(rules, steps, &mut out).unwrap();
    rt.write_all(&out[..n])
}
