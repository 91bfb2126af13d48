// One entry: the states from which its edges lead to its own mask or to the masks beside it, by its columns of steps.
ghost use Rattle.std.specs.Prelude.{◌≡◌, List, ℕ, ◌+◌, ◌^◌, ◌≤◌, ◌<◌, not, ◌&&◌, ◌||◌, eqb, length};
ghost use Rattle.aldlf.specs.Constants.{state_limit};
ghost use Rattle.aldlf.specs.Sheet.{bit};
ghost use Rattle.reach.specs.Marks.{EdgesFit};
ghost use Rattle.reach.specs.Columns.{Told, Columns};
ghost use Rattle.reach.specs.Steps.{Closed, Beside, Stayed};

use super::spreading::Visit;
use super::steps::{has, pull};

// The masks of the entries ahead of an entry and behind it.
#[derive(Clone, Copy)]
pub(crate) struct Around {
    pub(crate) ahead: u16,
    pub(crate) behind: u16,
}

// The mask with all states from which edges lead to it within the entry, or to the masks beside. The entry's columns start at `place`; only edges of
// directions that are due are looked at, and those that stay where the mask grew.
pub(crate) fn close(steps: &[u16], place: usize, around: Around, v: Visit, start: u16) -> u16
    requires { place + 48 ≤ length steps.now }
    ensures lower_bound { (start ≤ result) × (result < 2 ^ state_limit) }
    ensures by_index { (E : List ℕ) (word : ℕ) → EdgesFit E → Told E v.looks (length E) → Columns E word steps.now place
        → Closed E word around.ahead around.behind v.due start result }
{
    let ahead = beside(has(v.due, 1), steps, place + 16, around.ahead);
    let behind = beside(has(v.due, 2), steps, place + 32, around.behind);
    within(steps, place, v, start, start | ahead | behind)
}

// The states with a step into the mask beside, if they are asked for.
fn beside(on: bool, steps: &[u16], place: usize, mask: u16) -> u16
    requires { place + state_limit ≤ length steps.now }
    ensures { Beside on steps.now place mask result }
{
    if on { pull(steps, place, mask) } else { 0 }
}

// The mask `grown` from `start`, with all states from which edges that stay lead to it.
fn within(steps: &[u16], place: usize, v: Visit, start: u16, grown: u16) -> u16
    requires { place + state_limit ≤ length steps.now }
    ensures { Stayed v steps.now place start grown result }
{
    if asked(v, start, grown) {
        grown | pull(steps, place, grown)
    } else {
        grown
    }
}

// Whether the edges that stay are looked at: there are some, and they are due or the mask has grown.
fn asked(v: Visit, start: u16, grown: u16) -> bool
    ensures { result ≡ bit v.looks 0 && (bit v.due 0 || not (eqb grown start)) }
{
    has(v.looks, 0) & (has(v.due, 0) | (grown != start))
}
