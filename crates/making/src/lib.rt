// From the instructions of a formula to the table of its sheet. A room of the checker: its other crates call it, users do not.
#![tactic(auto)]

mod counts;
mod drawing;
mod ending;
mod keeping;
mod nodes;
mod running;
mod stack;

ghost use Rattle.std.specs.Prelude.{◌≡◌, ◌≤◌, length};
ghost use Rattle.making.specs.Run.{run, first_bench, making_of, making_by};

use aldlf::Table;
use running::run_code;

// Instructions that are no more than so many need only a small stack.
const SHORT: usize = 256;

// There are at most so many instructions.
const LONG: usize = 8192;

// The instructions run one after the other: the table of the sheet, or nothing where a sheet limit is passed. A short list of
// instructions clears no large stack.
pub fn make_table(code: &[u8]) -> Option<Table>
    requires { length code.now ≤ 8192 }
    ensures { making_by result ≡ making_of (run code.now first_bench).made }
{
    if code.len() <= SHORT {
        make_on::<SHORT>(code)
    } else {
        make_on::<LONG>(code)
    }
}

// The same on a stack of so many places.
fn make_on<const N: usize>(code: &[u8]) -> Option<Table>
    requires { (length code.now ≤ N) × (N ≤ 8192) }
    ensures { making_by result ≡ making_of (run code.now first_bench).made }
{
    let mut stack = [0u32; N];
    run_code(code, &mut stack)
}
