// One node at all entries: its bits added to the words and counted as they are set, and its number in the row.
ghost use Rattle.std.specs.Prelude.{◌≡◌, ℕ, ◌+◌, ◌*◌, ◌^◌, ◌<◌, ◌≤◌, true, List, length};
ghost use Rattle.aldlf.specs.Constants.{node_limit, entry_limit, word_bits};
ghost use Rattle.aldlf.specs.Sheet.{line_of, «bit» as bit_of};
ghost use Rattle.aldlf.specs.Verdict.{facing};
ghost use Rattle.aldlf.specs.Outcomes.{one};
ghost use Rattle.aldlf.specs.declared.Table.{Table};
ghost use Rattle.aldlf.specs.declared.Row.{Row};
ghost use Rattle.reach.specs.Marks.{at, paired, EdgesFit};
ghost use Rattle.reach.specs.Columns.{Placed};
ghost use Rattle.judge.specs.Nodes.{modal_kind, says_now, PlainFits, Added, ModalFits, ModalDone, Known, Stepped, Kept, Ready};

use super::lines::plain_line;
use super::rows::{facing_mask, row_number};
use aldlf::{Automaton, Node, NodeLine, Way};
use reach::Goal;

// A D or B to judge: its number and line, the automaton that its line names, its number in the row that is given, and the way
// that parts are cut.
#[derive(Clone, Copy)]
pub(crate) struct Job {
    pub(crate) number: Node,
    pub(crate) line: NodeLine,
    pub(crate) automaton: Automaton,
    pub(crate) given: u16,
    pub(crate) way: Way,
}

// A node's number in the row that the part gives, and at how many entries it holds.
#[derive(Clone, Copy)]
pub(crate) struct NodeAnswer {
    pub(crate) number: u16,
    pub(crate) held: usize,
}

// The steps at hand: the automaton that they are of, and which ways its edges go.
#[derive(Clone, Copy)]
pub(crate) struct Have {
    pub(crate) automaton: u8,
    pub(crate) looks: u16,
}

// The steps made ready for a D or B: where none are at hand, or those of another automaton, they are filled anew.
pub(crate) fn ready(
    job: Job,
    have: Option<Have>,
    edges: &[u32],
    words: &[u64],
    steps: &mut [u16],
) -> Have
    requires modal { modal_kind job.line.kind ≡ true }
    requires by_index { (t : Table) × (row : Row) × (log : List ℕ) × Known t row job log edges.now (paired words.now) }
    requires steps_len { (length steps.old ≡ 49 * length (paired words.now)) × (length (paired words.now) ≤ entry_limit) }
    ensures { (t : Table) (row : Row) (log : List ℕ) → Known t row job log edges.now (paired words.now)
        → Kept t edges.now (paired words.now) job.number.0 have steps.old → Ready t job edges.now (paired words.now) result steps.new }
{
    let automaton = job.line.a;
    if let Some(have) = have {
        if have.automaton == automaton {
            return have;
        }
    }
    let first = job.automaton.first as usize;
    let last = first + (job.automaton.count as usize);
    let looks = reach::filling::fill(&edges[first..last], words, steps);
    Have { automaton, looks }
}

// A line that is no D or B: its bits, and how many of them it set.
pub(crate) fn judge_plain(line: NodeLine, number: Node, log: &[u32], words: &mut [u64]) -> usize
    requires plain_fits { PlainFits line }
    requires number_lt_node_limit { (number.0 < node_limit) × (length (paired words.old) ≡ length log.now) × ((i : ℕ) → i < length (paired words.old) → at (paired words.old) i < 2 ^ number.0) }
    ensures { Added number.0 (λ i. says_now (line_of line.kind line.a line.b) (at log.now i) (at (paired words.old) i))
        (length (paired words.old)) (paired words.old) (paired words.new) result }
{
    let mut held: usize = 0;
    for (i, facts) in log.iter().enumerate() {
        let on = plain_line(line, *facts, &*words, i);
        reach::put_verdict(words, i, number, on);
        held += usize::from(on);
    }
    held
}

// A D or B line, by the steps of its automaton.
pub(crate) fn judge_modal(
    job: Job,
    looks: u16,
    words: &mut [u64],
    steps: &[u16],
    masks: &mut [u16],
) -> NodeAnswer
    requires placed { Placed (length (paired words.old)) steps.now }
    requires modal_fits { ModalFits job }
    requires masks_len { (length masks.old ≡ length (paired words.old)) × (length (paired words.old) ≤ entry_limit) × ((i : ℕ) → i < length (paired words.old) → at (paired words.old) i < 2 ^ job.number.0) }
    ensures { (E : List ℕ) → EdgesFit E → Stepped E (paired words.old) looks steps.now → ModalDone E job (paired words.old) (paired words.new) result }
{
    let want = job.line.kind == b'D';
    let goal = Goal {
        accepting: job.automaton.accepting,
        node: Node(job.line.b),
        want,
        exits: facing_mask(job.given, want),
        looks,
    };
    reach::mark(goal, &*words, steps, masks);
    let held = write_modal(job, want, &*masks, words);
    let number = row_number(job, want, &*masks);
    NodeAnswer { number, held }
}

// A D or B node's bits, from the masks at its automaton's start, and how many of them it set.
fn write_modal(job: Job, want: bool, masks: &[u16], words: &mut [u64]) -> usize
    requires { (job.automaton.start.0 < word_bits) × (job.number.0 < node_limit) × (length (paired words.old) ≡ length masks.now) × ((i : ℕ) → i < length (paired words.old) → at (paired words.old) i < 2 ^ job.number.0) }
    ensures { Added job.number.0 (λ i. facing want (bit_of (at masks.now i) job.automaton.start.0)) (length (paired words.old)) (paired words.old) (paired words.new) result }
{
    let mut set: usize = 0;
    for (i, mask) in masks.iter().enumerate() {
        let at_start = reach::bit(u64::from(*mask), job.automaton.start.0);
        let on = reach::facing(want, at_start);
        reach::put_verdict(words, i, job.number, on);
        set += usize::from(on);
    }
    set
}
