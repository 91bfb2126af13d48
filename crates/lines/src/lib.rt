// The lines of the page, each appended to the buffer from a place on; the place after it is the answer.
// A room of the checker: called by its other crates, not by users.
#![tactic(auto)]

ghost use Rattle.std.specs.Prelude.{◌≡◌, length};
ghost use Rattle.lines.specs.Lines.{refused_at, refusal_line, sheet_refusal_line, entries_in, verdict_digit, entry_line, entries_below, rule_line, verdict_lines, edges_below, walk_line, no_walk_line};
ghost use Rattle.appending.specs.Appending.{Appends};

use aldlf::Node;
use appending::{put, put_bytes, put_number};

// `refused,number,line`
pub fn put_refusal(out: &mut [u8], at: usize, number: u8, line: usize) -> usize
    ensures { Appends (refusal_line number line) out.old at out.new result }
{
    let end_at = put_refused(out, at, number, line);
    put(out, end_at, b'\n')
}

// `refused,number,line,field`, as a sheet's refusal has it
pub fn put_sheet_refusal(out: &mut [u8], at: usize, number: u8, line: usize, field: u8) -> usize
    ensures { Appends (sheet_refusal_line number line field) out.old at out.new result }
{
    let comma_at = put_refused(out, at, number, line);
    let field_at = put(out, comma_at, b',');
    let end_at = put_number(out, field_at, field as usize);
    put(out, end_at, b'\n')
}

// A refusal's number and line, the end of the line to follow.
fn put_refused(out: &mut [u8], at: usize, number: u8, line: usize) -> usize
    ensures { Appends (refused_at number line) out.old at out.new result }
{
    let number_at = put_bytes(out, at, b"refused,");
    let comma_at = put_number(out, number_at, number as usize);
    let line_at = put(out, comma_at, b',');
    put_number(out, line_at, line)
}

// The verdict on a node at an entry, as a digit: 1 where it holds, 0 where it fails, and where there is no such node or entry.
fn verdict_digit(words: &[u64], entry: usize, node: Node) -> usize
    ensures { result ≡ verdict_digit words.now entry node.0 }
{
    if aldlf::NODES <= usize::from(node.0) || words.len() / 2 <= entry {
        0
    } else {
        usize::from(reach::verdict(words, entry, node))
    }
}

// The number of an entry and the rule's verdict there.
fn put_entry(out: &mut [u8], at: usize, entry: usize, verdict: usize) -> usize
    ensures { Appends (entry_line entry verdict) out.old at out.new result }
{
    let comma_at = put_number(out, at, entry);
    let verdict_at = put(out, comma_at, b',');
    let end_at = put_number(out, verdict_at, verdict);
    put(out, end_at, b'\n')
}

// A line for each entry.
fn put_entries(out: &mut [u8], at: usize, words: &[u64], rule: Node) -> usize
    ensures { Appends (entries_below rule.0 words.now (entries_in words.now)) out.old at out.new result }
{
    let mut next = at;
    for i in 0..words.len() / 2 {
        next = put_entry(out, next, i, verdict_digit(words, i, rule));
    }
    next
}

// The verdict at entry 0, at how many entries the rule holds, and how many there are.
fn put_rule(out: &mut [u8], at: usize, verdict: usize, held: usize, entries: usize) -> usize
    ensures { Appends (rule_line verdict held entries) out.old at out.new result }
{
    let verdict_at = put_bytes(out, at, b"rule,");
    let held_at = put_number(out, verdict_at, verdict);
    let count_at = put_bytes(out, held_at, b",held,");
    let of_at = put_number(out, count_at, held);
    let length_at = put_bytes(out, of_at, b",of,");
    let end_at = put_number(out, length_at, entries);
    put(out, end_at, b'\n')
}

// A line for each entry, by its two verdict words, then that of the rule.
pub fn put_verdicts(out: &mut [u8], at: usize, words: &[u64], rule: Node, held: usize) -> usize
    ensures { Appends (verdict_lines rule.0 held words.now) out.old at out.new result }
{
    let rule_at = put_entries(out, at, words, rule);
    let verdict = verdict_digit(words, 0, rule);
    put_rule(out, rule_at, verdict, held, words.len() / 2)
}

// The edges of a walk, each after a comma.
fn put_edges(out: &mut [u8], at: usize, edges: &[u16]) -> usize
    ensures { Appends (edges_below edges.now (length edges.now)) out.old at out.new result }
{
    let mut next = at;
    for &edge in edges {
        let edge_at = put(out, next, b',');
        next = put_number(out, edge_at, usize::from(edge));
    }
    next
}

// A walk: its length and its edges.
pub fn put_walk(out: &mut [u8], at: usize, edges: &[u16]) -> usize
    ensures { Appends (walk_line edges.now) out.old at out.new result }
{
    let length_at = put_bytes(out, at, b"walk,");
    let edges_at = put_number(out, length_at, edges.len());
    let end_at = put_edges(out, edges_at, edges);
    put(out, end_at, b'\n')
}

// `walk,none`
pub fn put_no_walk(out: &mut [u8], at: usize) -> usize
    ensures { Appends no_walk_line out.old at out.new result }
{
    put_bytes(out, at, b"walk,none\n")
}
