// The calls for C and Rust: numbers and slices. Each answers one number (specs/Answers.antt, `answer_code`; a list of logs:
// specs/Lists.antt, `list_code`; a length: specs/RuleTexts.antt, `length_code`); a table crosses as 1,507 numbers and a row as 128 (crossing's specs/Numbers.antt).
#![tactic(auto)]

mod answer;
mod formulas;
mod rules;

ghost use Rattle.std.specs.Prelude.{◌≡◌, min};
ghost use Rattle.exports.specs.Answers.{accepted, outcome, sheet_outcome, profile_made, profile_asked, looks_asked, log_outcome, counted_log_outcome, looked_up};
ghost use Rattle.joblog.specs.Counted.{steps_between, entry_bearing};
ghost use Rattle.exports.specs.Judging.{part_ends, judge_outcome, plain_outcome, judge_part_outcome, is_way, way_of};
ghost use Rattle.exports.specs.Lists.{list_ends, judge_logs_outcome};
ghost use Rattle.exports.specs.Showing.{walk_shown, page_printed};

use aldlf::{Entry, Node, Way};
use answer::{code, list_code, one};
use crossing::lending::lend_table;
use crossing::pack::{TABLE, put_table};
use crossing::rows::{put_row, row_of};
use joblog::counters::{Counter, entry_bearing, steps_between};
use judge::lent::{judge_lent, part_lent, plain_row_lent};
use packing::places::PLACES;
use profile::lent::{is_in_profile_lent, to_profile_lent};
use stands::lent::rule_looks_lent;
use walk::lent::walk_lent;

// The boundary's own question, a number as all are for C: a lent table or row has its fixed length.
const LENGTH: u8 = 35;

// The other one: the number of a way is 1 or 2.
const WAY: u8 = 43;

// Reads a sheet's text into a table. Besides, a refusal gives its field; it alters nothing.
#[unsafe(no_mangle)]
pub extern "C" fn rozsvelen_read_sheet(text: &[u8], table: &mut [u16]) -> u64
    ensures { outcome result table.new ≡ sheet_outcome text.now table.old }
{
    if table.len() != TABLE {
        return code(LENGTH, 0, 0, 0);
    }
    match sheet::read_sheet(text) {
        Ok(t) => {
            put_table(t, table);
            code(0, 0, 0, 0)
        }
        Err(r) => code(r.question.number(), r.line as usize, 0, r.field as u16),
    }
}

// Puts the table in the plain profile that a table gives into another. A refusal alters nothing.
#[unsafe(no_mangle)]
pub extern "C" fn rozsvelen_profile(table: &[u16], out: &mut [u16]) -> u64
    ensures { outcome result out.new ≡ profile_made table.now out.old }
{
    if out.len() != TABLE {
        return code(LENGTH, 0, 0, 0);
    }
    let mut numbers = [0u32; PLACES];
    lend_table(table, &mut numbers);
    match to_profile_lent(&numbers) {
        Ok(made) => {
            put_table(made, out);
            code(0, 0, 0, 0)
        }
        Err(why) => code(why.number(), 0, 0, 0),
    }
}

// Whether a table is in the plain profile: a yes counts 1.
#[unsafe(no_mangle)]
pub extern "C" fn rozsvelen_in_profile(table: &[u16]) -> u64
    ensures { result ≡ profile_asked table.now }
{
    let mut numbers = [0u32; PLACES];
    lend_table(table, &mut numbers);
    match is_in_profile_lent(&numbers) {
        Ok(yes) => code(0, 0, one(yes), 0),
        Err(why) => code(why.number(), 0, 0, 0),
    }
}

// Which ways a table's rule looks: ahead counts 1 and back 2, as the ways are numbered.
#[unsafe(no_mangle)]
pub extern "C" fn rozsvelen_rule_looks(table: &[u16]) -> u64
    ensures { result ≡ looks_asked table.now }
{
    let mut numbers = [0u32; PLACES];
    lend_table(table, &mut numbers);
    match rule_looks_lent(&numbers) {
        Ok(looks) => code(0, 0, one(looks.ahead) + 2 * one(looks.back), 0),
        Err(why) => code(why.number(), 0, 0, 0),
    }
}

// Reads a log's text into words and counts its entries. A refusal alters nothing.
#[unsafe(no_mangle)]
pub extern "C" fn rozsvelen_read_log(text: &[u8], words: &mut [u32]) -> u64
    ensures { outcome result words.new ≡ log_outcome text.now words.old }
{
    match joblog::read_log(text, words) {
        Ok(entries) => code(0, 0, entries, 0),
        Err(refusal) => code(refusal.question.number(), refusal.line, 0, 0),
    }
}

// Reads the text of a log with counters into words and counts its entries; besides, the answer gives the first counter. A refusal
// alters nothing.
#[unsafe(no_mangle)]
pub extern "C" fn rozsvelen_read_counted(text: &[u8], words: &mut [u32]) -> u64
    ensures { outcome result words.new ≡ counted_log_outcome text.now words.old }
{
    match joblog::read_counted(text, words) {
        Ok(log) => code(0, 0, log.entries, log.first.0),
        Err(refused) => code(refused.question.number(), refused.line, 0, 0),
    }
}

// Counts the steps from the earlier counter to the later one.
#[unsafe(no_mangle)]
pub extern "C" fn rozsvelen_steps_between(earlier: u16, later: u16) -> u64
    ensures { result ≡ accepted (steps_between earlier later) }
{
    let n = steps_between(Counter(earlier), Counter(later));
    code(0, 0, usize::from(n), 0)
}

// The entry that bears a counter, of a log of so many entries whose first bears `first`, where a count stands.
#[unsafe(no_mangle)]
pub extern "C" fn rozsvelen_entry_bearing(first: u16, entries: usize, counter: u16) -> u64
    ensures { result ≡ looked_up (entry_bearing first entries counter) }
{
    match entry_bearing(Counter(first), entries, Counter(counter)) {
        Ok(entry) => code(0, 0, usize::from(entry.0), 0),
        Err(missing) => code(missing.number(), 0, 0, 0),
    }
}

// Judges a whole log, and counts the entries at which the rule holds. A refusal alters nothing.
#[unsafe(no_mangle)]
pub extern "C" fn rozsvelen_judge(table: &[u16], log: &[u32], verdicts: &mut [u64]) -> u64
    ensures { outcome result verdicts.new ≡ judge_outcome table.now log.now verdicts.old }
{
    let mut numbers = [0u32; PLACES];
    lend_table(table, &mut numbers);
    match judge_lent(&numbers, log, verdicts) {
        Ok(held) => code(0, 0, held, 0),
        Err(refusal) => code(refusal.number(), 0, 0, 0),
    }
}

// Judges a list of logs of one sheet, whose words stand one after the other: the verdict words likewise, and each log's count of
// entries at which the rule holds. A refusal says the log that it is about, from 1; it alters nothing.
#[unsafe(no_mangle)]
pub extern "C" fn rozsvelen_judge_logs(
    table: &[u16],
    words: &[u32],
    lengths: &[u16],
    verdicts: &mut [u64],
    held: &mut [u16],
) -> u64
    ensures { list_ends result verdicts.new held.new ≡ judge_logs_outcome table.now words.now lengths.now verdicts.old held.old }
{
    let mut numbers = [0u32; PLACES];
    lend_table(table, &mut numbers);
    match batch::logs_lent(&numbers, words, lengths, verdicts, held) {
        Ok(()) => list_code(0, 0),
        Err(why) => list_code(why.question.number(), why.log),
    }
}

// Puts the plain row, from which a run starts, into a row. A refusal alters nothing.
#[unsafe(no_mangle)]
pub extern "C" fn rozsvelen_plain_row(table: &[u16], row: &mut [u16]) -> u64
    ensures { outcome result row.new ≡ plain_outcome table.now row.old }
{
    if row.len() != aldlf::NODES {
        return code(LENGTH, 0, 0, 0);
    }
    let mut numbers = [0u32; PLACES];
    lend_table(table, &mut numbers);
    match plain_row_lent(&numbers) {
        Ok(plain) => {
            put_row(plain, row);
            code(0, 0, 0, 0)
        }
        Err(why) => code(why.number(), 0, 0, 0),
    }
}

// Judges a part, given the row of the entry just outside it, and puts the row for the next part in its place. A refusal alters
// nothing. way: 1 is ahead, 2 back.
#[unsafe(no_mangle)]
pub extern "C" fn rozsvelen_judge_part(
    table: &[u16],
    way: u32,
    row: &mut [u16],
    words: &[u32],
    verdicts: &mut [u64],
) -> u64
    ensures { part_ends result row.new verdicts.new ≡ judge_part_outcome table.now way row.old words.now verdicts.old }
{
    if row.len() != aldlf::NODES {
        return code(LENGTH, 0, 0, 0);
    }
    if !is_way(way) {
        return code(WAY, 0, 0, 0);
    }
    let mut numbers = [0u32; PLACES];
    lend_table(table, &mut numbers);
    let w = way_of(way);
    let given = row_of(row);
    match part_lent(&numbers, w, given, words, verdicts) {
        Ok(next) => {
            put_row(next, row);
            code(0, 0, 0, 0)
        }
        Err(why) => code(why.number(), 0, 0, 0),
    }
}

// Whether a number names a way.
fn is_way(way: u32) -> bool
    ensures { result ≡ is_way way }
{
    (way == 1) | (way == 2)
}

// The way that a number names.
fn way_of(way: u32) -> Way
    ensures { result ≡ way_of way }
{
    if way == 1 {
        return Way::Ahead;
    }
    Way::Back
}

// The walk that shows a node at an entry, and the count of its edges. A refusal alters nothing. Both numbers are wider than a node's
// and an entry's own, so that none is taken for another.
#[unsafe(no_mangle)]
pub extern "C" fn rozsvelen_walk(
    table: &[u16],
    log: &[u32],
    node: u32,
    entry: u32,
    edges: &mut [u16],
) -> u64
    ensures { outcome result edges.new ≡ walk_shown table.now log.now node entry edges.old }
{
    let mut numbers = [0u32; PLACES];
    lend_table(table, &mut numbers);
    match walk_lent(&numbers, log, node_of(node), entry_of(entry), edges) {
        Ok(length) => code(0, 0, length, 0),
        Err(why) => code(why.number(), 0, 0, 0),
    }
}

// A node's number, or the largest that a node can have: no sheet has that one.
fn node_of(node: u32) -> Node
    ensures { result.0 ≡ min node 255 }
{
    Node(node.min(255) as u8)
}

// An entry's number, or the largest that an entry can have: no log has that one.
fn entry_of(entry: u32) -> Entry
    ensures { result.0 ≡ min entry 65535 }
{
    Entry(entry.min(65535) as u16)
}

// The page of a sheet and a log in the first places of a slice, and the count of its bytes. A page that is longer than the slice
// is refused, and alters nothing. A refused sheet or log has a page of one line.
#[unsafe(no_mangle)]
pub extern "C" fn rozsvelen_page(rules: &[u8], steps: &[u8], page: &mut [u8]) -> u64
    ensures { outcome result page.new ≡ page_printed rules.now steps.now page.old }
{
    match report::page(rules, steps, page) {
        Ok(bytes) => code(0, 0, bytes, 0),
        Err(why) => code(why.number(), 0, 0, 0),
    }
}
