// The table that a slice of numbers gives, as numbers that can be lent (crate `packing`).
// Every number is cut to its field and written, with no way out of a loop, so that the machine does many places at a time; what does not fit is cleared at the end.
ghost use Rattle.std.specs.Prelude.{◌≡◌, true, ℕ, ◌+◌, ◌*◌, ◌-◌, ◌%◌, ◌≤◌, ◌<◌, length, get_or};
ghost use Rattle.aldlf.specs.Constants.{node_limit, automaton_limit, edge_limit};
ghost use Rattle.aldlf.specs.Sheet.{no_line, no_edge};
ghost use Rattle.sheet.specs.Questions.{empty_table};
ghost use Rattle.packing.specs.Numbers.{lines_place, places, edge_in, line_in};
ghost use Rattle.packing.specs.Packed.{Packed, Put, HeadPut, HeadsPut, UsedPut};
ghost use Rattle.crossing.specs.Numbers.{line_size, automaton_size, edge_size, used_place, table_size, line_at, automaton_at, edge_at, used_at, lines_in, automata_in, edges_in, line_fits, automaton_fits, edge_fits, used_fits, all_of, fields_in, table_fits, table_of};
ghost use Rattle.crossing.specs.Steps.{edge_bytes, first_lines, NoLinesFrom, line_cut, automaton_cut, cut_in, EdgesCut};

use super::pack::{AUTOMATA_PLACE, AUTOMATON, EDGE, EDGES_PLACE, LINE, TABLE, USED_PLACE};
use packing::places::{BEFORE, HEADS, LINES, RANGES, USED};

// How many bytes the edges take.
const EDGE_BYTES: usize = EDGE * aldlf::EDGES;

// The table that the numbers give, as lent numbers; all zeros where they are not as many as a table's, or one is too large for its field.
pub fn lend_table(xs: &[u16], numbers: &mut [u32])
    requires { length numbers.old ≡ places }
    ensures { Packed (table_of xs.now) numbers.new }
{
    if xs.len() != TABLE || !lend_fields(xs, numbers) {
        clear(numbers);
    }
}

// The lent numbers of the table all zeros.
fn clear(numbers: &mut [u32])
    requires { length numbers.old ≡ places }
    ensures { Packed empty_table numbers.new }
{
    numbers.fill(0);
}

// The fields that stand in the numbers, each cut to its size, and whether none was too large.
fn lend_fields(xs: &[u16], numbers: &mut [u32]) -> bool
    requires { (length xs.now ≡ table_size) × (length numbers.old ≡ places) }
    ensures { (result ≡ table_fits (fields_in xs.now)) × Packed (cut_in xs.now) numbers.new }
{
    let e = lend_edges(xs, numbers);
    let l = lend_lines(xs, numbers);
    let a = lend_automata(xs, numbers);
    let u = lend_used(xs, numbers);
    l & a & e & u
}

// The edges: first each number cut to a byte, all in a row, then four bytes to a number, which is how they already lie.
fn lend_edges(xs: &[u16], numbers: &mut [u32]) -> bool
    requires { (length xs.now ≡ table_size) × (length numbers.old ≡ places) }
    ensures { (result ≡ all_of edge_fits (edges_in xs.now)) × Put (λ (e p : ℕ). edge_in p ≡ get_or (cut_in xs.now).edges e no_edge) 0 edge_limit numbers.old numbers.new }
{
    let mut bytes = [0u8; EDGE_BYTES];
    let fit = cut_edges(xs, &mut bytes);
    put_edges(&bytes, numbers);
    fit
}

fn cut_edges(xs: &[u16], bytes: &mut [u8]) -> bool
    requires { (length xs.now ≡ table_size) × (length bytes.old ≡ edge_bytes) }
    ensures { (result ≡ all_of edge_fits (edges_in xs.now)) × EdgesCut xs.now bytes.new }
{
    let mut fit = true;
    for (k, byte) in bytes.iter_mut().enumerate() {
        let x = xs[EDGES_PLACE + k];
        fit &= x < 256;
        *byte = (x % 256) as u8;
    }
    fit
}

fn put_edges(bytes: &[u8], numbers: &mut [u32])
    requires { (length bytes.now ≡ edge_bytes) × (length numbers.old ≡ places) }
    ensures { Put (λ (e p : ℕ). edge_in p ≡ edge_at bytes.now (edge_size * e)) 0 edge_limit numbers.old numbers.new }
{
    for k in 0..aldlf::EDGES {
        numbers[k] = edge_number(bytes, EDGE * k);
    }
}

// The node lines. Those past the nodes in use are most often all zeros: they are cleared and not converted, so that a small sheet does not pay for the limit.
fn lend_lines(xs: &[u16], numbers: &mut [u32]) -> bool
    requires { (length xs.now ≡ table_size) × (length numbers.old ≡ places) }
    ensures { (result ≡ all_of line_fits (lines_in xs.now)) × Put (λ (k p : ℕ). line_in p ≡ get_or (cut_in xs.now).nodes k no_line) lines_place node_limit numbers.old numbers.new }
{
    let n = lines_to_lend(xs);
    let fit = lend_first_lines(n, xs, numbers);
    clear_lines(n, numbers);
    fit
}

// How many node lines are to be converted: those in use, or all where a number stands past them.
fn lines_to_lend(xs: &[u16]) -> usize
    requires { length xs.now ≡ table_size }
    ensures { (result ≤ node_limit) × NoLinesFrom xs.now result }
{
    let used = usize::from(xs[USED_PLACE]);
    if used < aldlf::NODES && no_lines_from(xs, used) {
        used
    } else {
        aldlf::NODES
    }
}

// Whether the numbers of the node lines from n on are all zeros; with no way out of the loop, so that the machine does many places at a time.
fn no_lines_from(xs: &[u16], n: usize) -> bool
    requires { (length xs.now ≡ table_size) × (n ≤ node_limit) }
    ensures { result ≡ true → NoLinesFrom xs.now n }
{
    let mut rest: u16 = 0;
    for &x in &xs[LINE * n..LINE * aldlf::NODES] {
        rest |= x;
    }
    rest == 0
}

// The first n node lines, each cut, and whether none of their numbers was too large.
fn lend_first_lines(n: usize, xs: &[u16], numbers: &mut [u32]) -> bool
    requires { (n ≤ node_limit) × (length xs.now ≡ table_size) × (length numbers.old ≡ places) }
    ensures { (result ≡ all_of line_fits (first_lines xs.now n)) × Put (λ (k p : ℕ). line_in p ≡ get_or (cut_in xs.now).nodes k no_line) lines_place n numbers.old numbers.new }
{
    let mut fit = true;
    for k in 0..n {
        let p = LINE * k;
        fit &= line_fits(xs, p);
        numbers[LINES + k] = line_number(xs, p);
    }
    fit
}

// The lent numbers of the node lines from n on, all zeros: what was lent before is not to be read there.
fn clear_lines(n: usize, numbers: &mut [u32])
    requires { (n ≤ node_limit) × (length numbers.old ≡ places) }
    ensures { Put (λ (k p : ℕ). p ≡ 0) (lines_place + n) (node_limit - n) numbers.old numbers.new }
{
    numbers[LINES + n..LINES + aldlf::NODES].fill(0);
}

fn lend_automata(xs: &[u16], numbers: &mut [u32]) -> bool
    requires { (length xs.now ≡ table_size) × (length numbers.old ≡ places) }
    ensures { (result ≡ all_of automaton_fits (automata_in xs.now)) × HeadsPut (cut_in xs.now).automata automaton_limit numbers.old numbers.new }
{
    let mut fit = true;
    for k in 0..aldlf::AUTOMATA {
        let p = AUTOMATA_PLACE + AUTOMATON * k;
        fit &= automaton_fits(xs, p);
        lend_automaton(xs, p, k, numbers);
    }
    fit
}

// Automaton m, whose numbers start at place p.
fn lend_automaton(xs: &[u16], p: usize, m: usize, numbers: &mut [u32])
    requires { (p + automaton_size ≤ length xs.now) × (length numbers.old ≡ places) × (m < automaton_limit) }
    ensures { HeadPut (automaton_cut (automaton_at xs.now p)) m numbers.old numbers.new }
{
    numbers[HEADS + m] = u32::from(xs[p] % 256)
        + 256 * u32::from(xs[p + 1] % 256)
        + 65536 * u32::from(xs[p + 2]);
    numbers[RANGES + m] = u32::from(xs[p + 3]) + 65536 * u32::from(xs[p + 4]);
    numbers[BEFORE + m] = u32::from(xs[p + 5] % 256);
}

fn lend_used(xs: &[u16], numbers: &mut [u32]) -> bool
    requires { (length xs.now ≡ table_size) × (length numbers.old ≡ places) }
    ensures { (result ≡ used_fits (used_at xs.now used_place)) × UsedPut (cut_in xs.now).used numbers.old numbers.new }
{
    numbers[USED] = u32::from(xs[USED_PLACE] % 256);
    numbers[USED + 1] = u32::from(xs[USED_PLACE + 1] % 256);
    numbers[USED + 2] = u32::from(xs[USED_PLACE + 2]);
    (xs[USED_PLACE] < 256) & (xs[USED_PLACE + 1] < 256)
}

// The edge whose bytes start at place p as one number.
fn edge_number(bytes: &[u8], p: usize) -> u32
    requires { p + edge_size ≤ length bytes.now }
    ensures { edge_in result ≡ edge_at bytes.now p }
{
    u32::from(bytes[p])
        + 256 * u32::from(bytes[p + 1])
        + 65536 * u32::from(bytes[p + 2])
        + 16777216 * u32::from(bytes[p + 3])
}

// The node line at place p as one number.
fn line_number(xs: &[u16], p: usize) -> u32
    requires { p + line_size ≤ length xs.now }
    ensures { line_in result ≡ line_cut (line_at xs.now p) }
{
    u32::from(xs[p] % 256) + 256 * u32::from(xs[p + 1] % 256) + 65536 * u32::from(xs[p + 2] % 256)
}

// Whether the numbers of one byte hold bytes: of the node line, of the automaton at place p.
fn line_fits(xs: &[u16], p: usize) -> bool
    requires { p + line_size ≤ length xs.now }
    ensures { result ≡ line_fits (line_at xs.now p) }
{
    (xs[p] < 256) & (xs[p + 1] < 256) & (xs[p + 2] < 256)
}

fn automaton_fits(xs: &[u16], p: usize) -> bool
    requires { p + automaton_size ≤ length xs.now }
    ensures { result ≡ automaton_fits (automaton_at xs.now p) }
{
    (xs[p] < 256) & (xs[p + 1] < 256) & (xs[p + 5] < 256)
}
