// All entries: a sweep against the edges that go ahead; then, where edges go back, a cursor over the entries that are due.
ghost use Rattle.std.specs.Prelude.{◌≡◌, true, ℕ, ◌^◌, ◌≤◌, ◌<◌, length};
ghost use Rattle.aldlf.specs.Constants.{entry_limit, state_limit};
ghost use Rattle.reach.specs.Marks.{at};
ghost use Rattle.reach.specs.Columns.{Placed};
ghost use Rattle.reach.specs.Steps.{ahead_of, behind_of, Visited, Raised, Touched, Moves, all_due, swept_to, none_due, Turned};

use super::closing::{Around, close};
use super::steps::has;

// Flags of edges that are due: those that stay and those that go ahead; those that go ahead; those that go back.
const NEAR: u16 = 3;

const AHEAD: u16 = 2;

const BACK: u16 = 4;

// A visit to an entry of a log that has these exits: which ways edges go, and which of them are due.
#[derive(Clone, Copy)]
pub(crate) struct Visit {
    pub(crate) exits: u16,
    pub(crate) looks: u16,
    pub(crate) due: u16,
    pub(crate) entry: usize,
}

// The masks grown from their seeds by the edges that stay or go ahead, from the last entry down: each entry is visited once.
pub(crate) fn sweep(exits: u16, looks: u16, steps: &[u16], masks: &mut [u16])
    requires { Placed (length masks.old) steps.now }
    ensures masks_len_unchanged { length masks.new ≡ length masks.old }
    ensures moves { Moves exits looks steps.now masks.old masks.new all_due (swept_to 0) }
{
    for i in (0..masks.len()).rev() {
        let v = Visit {
            exits,
            looks,
            due: NEAR,
            entry: i,
        };
        visit_entry(v, steps, masks);
    }
}

// The masks grown further by edges that go back, from the first entry up. After a change that edges ahead can carry on, the cursor steps back.
pub(crate) fn rise(exits: u16, looks: u16, steps: &[u16], masks: &mut [u16])
    requires placed { Placed (length masks.old) steps.now }
    requires masks_len_bound { length masks.old ≤ entry_limit }
    ensures masks_len_unchanged { length masks.new ≡ length masks.old }
    ensures moves { Moves exits looks steps.now masks.old masks.new (swept_to 0) none_due }
{
    let n = masks.len();
    let mut todo = [BACK; aldlf::ENTRIES];
    // Nothing is due at the entries before `j`. A `while`, since the cursor also steps back.
    let mut j: usize = 0;
    while j < n {
        let v = Visit {
            exits,
            looks,
            due: 0,
            entry: j,
        };
        let again = turn(v, steps, masks, &mut todo);
        j = if again { j.saturating_sub(1) } else { j + 1 };
    }
}

// One entry's turn: visited for what is due; whether the entry before it is due again.
fn turn(v: Visit, steps: &[u16], masks: &mut [u16], todo: &mut [u16]) -> bool
    requires placed { Placed (length masks.old) steps.now }
    requires v_in_bounds { (v.entry < length masks.old) × (length masks.old ≤ length todo.old) }
    ensures { Turned v.exits v.looks steps.now v.entry masks.old todo.old masks.new todo.new result }
{
    let i = v.entry;
    let due = todo[i];
    if due == 0 {
        return false;
    }
    todo[i] = 0;
    if !visit_entry(Visit { due, ..v }, steps, masks) {
        return false;
    }
    let ahead = has(v.looks, 1);
    touch(ahead, todo, i);
    ahead
}

// The entry closed; whether its mask changed. The hint: with a call of its own for each entry, judging a zigzag took a fifth more.
#[inline(always)]
fn visit_entry(v: Visit, steps: &[u16], masks: &mut [u16]) -> bool
    requires placed { Placed (length masks.old) steps.now }
    requires v_in_bounds { v.entry < length masks.old }
    ensures { Visited v steps.now masks.old masks.new result }
{
    let i = v.entry;
    let around = Around {
        ahead: ahead_of(&*masks, v.exits, i),
        behind: behind_of(&*masks, v.exits, i),
    };
    let old = masks[i];
    let new = close(steps, steps[i] as usize, around, v, old);
    masks[i] = new;
    new != old
}

// The mask of the entry after i, or the exits.
fn ahead_of(masks: &[u16], exits: u16, i: usize) -> u16
    requires { i < length masks.now }
    ensures { result ≡ ahead_of masks.now exits i }
{
    masks.get(i + 1).copied().unwrap_or(exits)
}

// The mask of the entry before i, or the exits.
fn behind_of(masks: &[u16], exits: u16, i: usize) -> u16
    requires { i < length masks.now }
    ensures { result ≡ behind_of masks.now exits i }
{
    if i == 0 { exits } else { masks[i - 1] }
}

// The edges that lead to entry i from the entries beside it are due there.
fn touch(ahead: bool, todo: &mut [u16], i: usize)
    requires { i < length todo.old }
    ensures { Touched ahead i todo.old todo.new }
{
    raise(BACK, todo, i + 1);
    if ahead && 0 < i {
        raise(AHEAD, todo, i - 1);
    }
}

// A flag of entry j is set, if it is there.
fn raise(flag: u16, todo: &mut [u16], j: usize)
    ensures { (g : ℕ) → g < state_limit → flag ≡ 2 ^ g → Raised g j todo.old todo.new }
{
    if j < todo.len() {
        todo[j] |= flag;
    }
}
