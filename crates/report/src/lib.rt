// The printed page as bytes: the sheet is read, then the log, then the log is judged, then the rule's walk is shown.
#![tactic(auto)]

ghost use Rattle.std.specs.Prelude.{◌≡◌, ◌≤◌, ◌<◌, length};
ghost use Rattle.aldlf.specs.Constants.{entry_limit};
ghost use Rattle.aldlf.specs.Refusals.{refusal_number};
ghost use Rattle.aldlf.specs.declared.Table.{Table};
ghost use Rattle.packing.specs.Packed.{Packed};
ghost use Rattle.sheet.specs.Outcomes.{question_number};
ghost use Rattle.joblog.specs.Log.{read_log};
ghost use Rattle.report.specs.Page.{rule_of, refused_walk, walk_page, table_page, log_page, rule_page, printed_of, page_outcome};
ghost use Rattle.lines.specs.Lines.{sheet_refusal_line};
ghost use Rattle.appending.specs.Appending.{Stored, Appends};
ghost use Rattle.appending.specs.Placed.{placed};

use aldlf::{Entry, Node, Refusal, Table};
use judge::lent::judge_lent;
use lines::{put_no_walk, put_refusal, put_sheet_refusal, put_verdicts, put_walk};
use packing::places::{PLACES, used_in};
use packing::writing::pack;
use sheet::SheetRefusal;
use walk::lent::walk_lent;

// No page is longer, so that a buffer of so many bytes takes every page.
pub const BYTES: usize = 40000;

// The longest shortest walk has so many edges: it meets no state twice at an entry.
const WALK: usize = aldlf::STATES * aldlf::ENTRIES - 1;

// A buffer for a page that is to fit in fewer bytes: a short log's page costs no pass over BYTES places.
const SHORT: usize = 1024;

// No line of a refused sheet or formula has more bytes.
pub const REFUSAL: usize = 22;

// The page in the first places of `out`, the rest of `out` as lent, and how many bytes it has; a page that is longer than `out` is
// refused (PageRoom), and alters nothing. Every sheet and every log has a page: a refused text has a page of one line.
pub fn page(rules: &[u8], steps: &[u8], out: &mut [u8]) -> Result<usize, Refusal>
    ensures { printed_of result out.new ≡ page_outcome rules.now steps.now out.old }
{
    match sheet::read_sheet(rules) {
        Ok(table) => rule_page(table, steps, out),
        Err(refusal) => refused_page(refusal, out),
    }
}

// The page of a refused sheet, its one line by way of a buffer that takes every such line.
fn refused_page(refusal: SheetRefusal, out: &mut [u8]) -> Result<usize, Refusal>
    ensures { printed_of result out.new ≡ placed 44 (sheet_refusal_line (question_number refusal.question) refusal.line refusal.field) out.old }
{
    let mut buffer = [0u8; REFUSAL];
    let number = refusal.question.number();
    let n = put_sheet_refusal(&mut buffer, 0, number, refusal.line as usize, refusal.field);
    hand_over(&buffer[..n], out)
}

// The page by a rule that was read to a table, from whatever text. A room of the checker: its other crates call it, users do not.
pub fn rule_page(table: Table, steps: &[u8], out: &mut [u8]) -> Result<usize, Refusal>
    ensures { printed_of result out.new ≡ placed 44 (rule_page table steps.now) out.old }
{
    if BYTES <= out.len() {
        Ok(put_page(out, table, steps))
    } else if out.len() < SHORT {
        page_by_way_of::<SHORT>(table, steps, out)
    } else {
        page_by_way_of::<BYTES>(table, steps, out)
    }
}

// By way of a buffer of N bytes: of a page that does not fit there, more bytes are known than `out` has.
fn page_by_way_of<const N: usize>(
    table: Table,
    steps: &[u8],
    out: &mut [u8],
) -> Result<usize, Refusal>
    requires smaller { length out.old < N }
    requires size { N ≤ 40000 }
    ensures { printed_of result out.new ≡ placed 44 (rule_page table steps.now) out.old }
{
    let mut buffer = [0u8; N];
    let n = put_page(&mut buffer, table, steps);
    hand_over(&buffer[..n], out)
}

// A page copied to `out`, or refused. A room of the checker, as above.
pub fn hand_over(page: &[u8], out: &mut [u8]) -> Result<usize, Refusal>
    ensures { printed_of result out.new ≡ placed 44 page.now out.old }
{
    let n = page.len();
    if n <= out.len() {
        out[..n].copy_from_slice(page);
        Ok(n)
    } else {
        Err(Refusal::PageRoom)
    }
}

// As many bytes of the page as fit in the first places of `out`, and how many those are.
fn put_page(out: &mut [u8], table: Table, steps: &[u8]) -> usize
    ensures { Stored (rule_page table steps.now) out.old out.new result }
{
    let mut numbers = [0u32; PLACES];
    pack(table, &mut numbers);
    put_log_page(out, &numbers, steps)
}

// The page of a table, which is lent as numbers, and a log's text.
fn put_log_page(out: &mut [u8], numbers: &[u32], steps: &[u8]) -> usize
    requires { (t : Table) × Packed t numbers.now }
    ensures { (t : Table) → Packed t numbers.now → Appends (log_page t (read_log steps.now entry_limit)) out.old 0 out.new result }
{
    let mut words = [0u32; aldlf::ENTRIES];
    match joblog::read_log(steps, &mut words) {
        Ok(n) => put_table_page(out, numbers, &words[..n]),
        Err(refusal) => put_refusal(out, 0, refusal.question.number(), refusal.line),
    }
}

// The page of a table and a log.
fn put_table_page(out: &mut [u8], numbers: &[u32], log: &[u32]) -> usize
    requires { (t : Table) × Packed t numbers.now }
    ensures { (t : Table) → Packed t numbers.now → Appends (table_page t log.now) out.old 0 out.new result }
{
    let mut verdicts = [0u64; 2 * aldlf::ENTRIES];
    let n = log.len();
    match judge_lent(numbers, log, &mut verdicts) {
        Ok(held) => {
            let rule = rule_of(numbers);
            let next = put_verdicts(out, 0, &verdicts[..2 * n], rule, held);
            put_walk_page(out, next, numbers, log)
        }
        Err(why) => put_refusal(out, 0, why.number(), 0),
    }
}

// The last node.
fn rule_of(numbers: &[u32]) -> Node
    requires { (t : Table) × Packed t numbers.now }
    ensures { (t : Table) → Packed t numbers.now → result.0 ≡ rule_of t }
{
    Node(used_in(numbers).nodes.saturating_sub(1))
}

// The line of the rule's walk at entry 0.
fn put_walk_page(out: &mut [u8], at: usize, numbers: &[u32], log: &[u32]) -> usize
    requires { (t : Table) × Packed t numbers.now }
    ensures { (t : Table) → Packed t numbers.now → Appends (walk_page t log.now) out.old at out.new result }
{
    let mut edges = [0u16; WALK];
    let rule = rule_of(numbers);
    match walk_lent(numbers, log, rule, Entry(0), &mut edges) {
        Ok(n) => put_walk(out, at, &edges[..n]),
        Err(refusal) => put_refused_walk(out, at, refusal),
    }
}

// The line where no walk is shown: `walk,none` if 38 or 39 applies.
fn put_refused_walk(out: &mut [u8], at: usize, refusal: Refusal) -> usize
    ensures { Appends (refused_walk (refusal_number refusal)) out.old at out.new result }
{
    match refusal {
        Refusal::NotModal | Refusal::NoWalk => put_no_walk(out, at),
        _ => put_refusal(out, at, refusal.number(), 0),
    }
}
