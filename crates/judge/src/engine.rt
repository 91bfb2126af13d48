// One core for whole logs and parts: node by node, the words of all entries, the row and the count held.
ghost use Rattle.std.specs.Prelude.{◌≡◌, ℕ, ◌*◌, ◌<◌, ◌≤◌, true, false, ◌++◌, length, drop};
ghost use Rattle.aldlf.specs.Constants.{entry_limit};
ghost use Rattle.aldlf.specs.declared.Table.{Table};
ghost use Rattle.reach.specs.Marks.{at};
ghost use Rattle.judge.specs.Nodes.{CoreDone, CorePut};
ghost use Rattle.sheet.specs.Facts.{Lent};

use super::nodes::{Have, Job, judge_modal, judge_plain, ready};
use aldlf::{Node, Row, Way};
use packing::places::{automaton_at, line_at, used_in};
use stands::lent::is_modal;

// A log of so many entries is judged in small scratch.
const FEW: usize = 32;

// A log or a part to judge, beside the table: the way that parts are cut, and the row of the entry beside it.
#[derive(Clone, Copy)]
pub(crate) struct Part {
    pub(crate) way: Way,
    pub(crate) row: Row,
}

// The row that a part gives, and at how many entries the last node holds.
#[derive(Clone, Copy)]
pub(crate) struct CoreAnswer {
    pub(crate) row: Row,
    pub(crate) held: usize,
}

// The verdict words of a log or a part, two for each entry, in the first places of `verdicts`, the row that it gives and the count held. The table is lent as numbers: no
// step copies it. Scratch is small where the log is, so that a short log pays for no large one.
pub(crate) fn judge_core(
    part: Part,
    numbers: &[u32],
    log: &[u32],
    verdicts: &mut [u64],
) -> CoreAnswer
    requires lent { (t : Table) × Lent t numbers.now }
    requires log_in_bounds { (2 * length log.now ≤ length verdicts.old) × (length log.now ≤ entry_limit) }
    ensures { (t : Table) → Lent t numbers.now → CorePut t part log.now verdicts.old verdicts.new result }
{
    if log.len() <= FEW {
        let mut words = [0u64; 2 * FEW];
        let mut steps = [0u16; 49 * FEW];
        let mut masks = [0u16; FEW];
        return judge_in(
            part, numbers, log, verdicts, &mut words, &mut steps, &mut masks,
        );
    }
    let mut words = [0u64; 2 * aldlf::ENTRIES];
    let mut steps = [0u16; 49 * aldlf::ENTRIES];
    let mut masks = [0u16; aldlf::ENTRIES];
    judge_in(
        part, numbers, log, verdicts, &mut words, &mut steps, &mut masks,
    )
}

// The same in lent scratch, of which as much is used as the log is long; its words are 0 at first.
fn judge_in(
    part: Part,
    numbers: &[u32],
    log: &[u32],
    verdicts: &mut [u64],
    words: &mut [u64],
    steps: &mut [u16],
    masks: &mut [u16],
) -> CoreAnswer
    requires lent { (t : Table) × Lent t numbers.now }
    requires log_in_bounds { (2 * length log.now ≤ length verdicts.old) × (length log.now ≤ entry_limit) }
    requires log_in_bounds_2 { (2 * length log.now ≤ length words.old) × (49 * length log.now ≤ length steps.old) × (length log.now ≤ length masks.old) }
    requires by_index { (i : ℕ) → at words.old i ≡ 0 }
    ensures { (t : Table) → Lent t numbers.now → CorePut t part log.now verdicts.old verdicts.new result }
{
    let n = log.len();
    let a = judge_nodes(
        part,
        numbers,
        log,
        &mut words[..2 * n],
        &mut steps[..49 * n],
        &mut masks[..n],
    );
    verdicts[..2 * n].copy_from_slice(&words[..2 * n]);
    a
}

// The nodes in order, each from the words of those before it; at first all words are 0.
fn judge_nodes(
    part: Part,
    numbers: &[u32],
    log: &[u32],
    words: &mut [u64],
    steps: &mut [u16],
    masks: &mut [u16],
) -> CoreAnswer
    requires lent { (t : Table) × Lent t numbers.now }
    requires words_len { (length words.old ≡ 2 * length log.now) × (length steps.old ≡ 49 * length log.now) × (length masks.old ≡ length log.now) × (length log.now ≤ entry_limit) }
    requires by_index { (i : ℕ) → at words.old i ≡ 0 }
    ensures { (t : Table) → Lent t numbers.now → CoreDone t part log.now words.new result }
{
    let mut out = [0u16; aldlf::NODES];
    let mut held: usize = 0;
    let row = part.row;
    let way = part.way;
    let count = used_in(numbers).nodes;
    let mut have: Option<Have> = None;
    for k in 0..count {
        let number = Node(k);
        let line = line_at(numbers, number);
        if is_modal(line.kind) {
            let automaton = automaton_at(numbers, line.a);
            let given = row.bits[k as usize];
            let job = Job {
                number,
                line,
                automaton,
                given,
                way,
            };
            let now = ready(job, have, numbers, &*words, steps);
            let a = judge_modal(job, now.looks, words, &*steps, masks);
            out[k as usize] = a.number;
            held = a.held;
            have = Some(now);
        } else {
            held = judge_plain(line, number, log, words);
        }
    }
    CoreAnswer {
        row: Row { bits: out },
        held,
    }
}
