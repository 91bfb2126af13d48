// The pieces of a node line's text beside the texts of the nodes that it names.
ghost use Rattle.std.specs.Prelude.{◌≡◌, ◌≤◌, ◌<◌, length};
ghost use Rattle.appending.specs.Appending.{decimal, Appends};
ghost use Rattle.printing.specs.Print.{marked};
ghost use Rattle.printing.specs.Pieces.{leaf_text, prefix_text, operand_of, operator_of};

use aldlf::{Node, NodeLine};
use appending::{put, put_bytes, put_number};

// A line that names no node: `true`, `f3`, `false`.
pub(crate) fn put_leaf(out: &mut [u8], at: usize, line: NodeLine) -> usize
    ensures { Appends (leaf_text line) out.old at out.new result }
{
    match line.kind {
        b'T' => put_bytes(out, at, b"true"),
        b'P' => {
            let next = put(out, at, b'f');
            put_number(out, next, line.a as usize)
        }
        _ => put_bytes(out, at, b"false"),
    }
}

// How many bytes these are.
pub(crate) fn leaf_bytes(line: NodeLine) -> usize
    ensures { (result ≡ length (leaf_text line)) × (1 ≤ result) }
{
    match line.kind {
        b'T' => 4,
        b'P' => 1 + digits(line.a),
        _ => 5,
    }
}

// What stands before the node of an N, D or B: `!`, `<m3>`, `[m3]`.
pub(crate) fn put_prefix(out: &mut [u8], at: usize, line: NodeLine) -> usize
    ensures { Appends (prefix_text line) out.old at out.new result }
{
    match line.kind {
        b'N' => put(out, at, b'!'),
        b'D' => put_marked(out, at, b'<', line.a, b'>'),
        _ => put_marked(out, at, b'[', line.a, b']'),
    }
}

// How many bytes these are.
pub(crate) fn prefix_bytes(line: NodeLine) -> usize
    ensures { (result ≡ length (prefix_text line)) × (result < 7) }
{
    if line.kind == b'N' {
        1
    } else {
        3 + digits(line.a)
    }
}

// An automaton, `m` and its number, between the marks of a path.
fn put_marked(out: &mut [u8], at: usize, left: u8, m: u8, right: u8) -> usize
    ensures { Appends (marked left m right) out.old at out.new result }
{
    let opened = put(out, at, left);
    let letter = put(out, opened, b'm');
    let number = put_number(out, letter, m as usize);
    put(out, number, right)
}

// How many digits a number has.
fn digits(n: u8) -> usize
    ensures { (result ≡ length (decimal n)) × (result < 4) }
{
    if n < 10 {
        1
    } else if n < 100 {
        2
    } else {
        3
    }
}

// The node of an N, D or B.
pub(crate) fn operand(line: NodeLine) -> Node
    ensures { result.0 ≡ operand_of line }
{
    if line.kind == b'N' {
        Node(line.a)
    } else {
        Node(line.b)
    }
}

// What stands between the nodes of an A or O.
pub(crate) fn operator(line: NodeLine) -> u8
    ensures { result ≡ operator_of line }
{
    if line.kind == b'A' { b'&' } else { b'|' }
}
