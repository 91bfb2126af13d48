// The instructions that make a node: facts, `T`, `&`, `|` and `.`.
ghost use Rattle.std.specs.Prelude.{◌≡◌, ◌≤◌, length};
ghost use Rattle.making.specs.Work.{grown, under};
ghost use Rattle.making.specs.Run.{makes_node, node_on};
ghost use Rattle.making.specs.Numbers.{Lined, NodeMade};

use super::counts::Counts;
use super::stack::{Kept, below, last_kept};
use aldlf::{Node, NodeLine};
use packing::pieces::packed_line;

// Whether an instruction makes a node. A number below 32 is a fact.
pub(crate) fn makes_node(op: u8) -> bool
    ensures { result ≡ makes_node op }
{
    matches!(op, 0..=31 | b'T' | b'&' | b'|' | b'.')
}

// One node line more, where there is room.
pub(crate) fn put_line(lines: &mut [u32; aldlf::NODES], c: Counts, x: NodeLine) -> Option<Counts>
    ensures { Lined (grown x.kind x.a x.b) c result lines.old lines.new }
{
    let n = c.nodes as usize;
    if n < aldlf::NODES {
        lines[n] = packed_line(x);
        return Some(Counts {
            nodes: c.nodes + 1,
            ..c
        });
    }
    None
}

// The node of a fact, or of `true`.
fn put_leaf(lines: &mut [u32; aldlf::NODES], c: Counts, kind: u8, a: u8) -> Option<Counts>
    ensures { Lined (grown kind a 0) c result lines.old lines.new }
{
    put_line(lines, c, NodeLine { kind, a, b: 0 })
}

// The node of a letter on what was kept and the last node.
fn put_pair(lines: &mut [u32; aldlf::NODES], c: Counts, kind: u8, a: u8, b: Node) -> Option<Counts>
    ensures { Lined (grown kind a b.0) c result lines.old lines.new }
{
    put_line(lines, c, NodeLine { kind, a, b: b.0 })
}

// The node of a mark on the last node: N takes only that one.
fn put_under(lines: &mut [u32; aldlf::NODES], c: Counts, k: Kept) -> Option<Counts>
    ensures { Lined (under k.a k.b) c result lines.old lines.new }
{
    let n = c.newest();
    if k.a == b'N' {
        return put_leaf(lines, c, k.a, n);
    }
    put_pair(lines, c, k.a, k.b, Node(n))
}

// An instruction that makes a node.
pub(crate) fn make_node(
    op: u8,
    stack: &[u32],
    lines: &mut [u32; aldlf::NODES],
    c: Counts,
) -> Option<Counts>
    requires { c.top ≤ length stack.now }
    ensures { NodeMade (node_on op) c result stack.now lines.old lines.new }
{
    if op < 32 {
        return put_leaf(lines, c, b'P', op);
    }
    if op == b'T' {
        return put_leaf(lines, c, b'T', 0);
    }
    let top = c.top;
    let k = last_kept(stack, top);
    let d = c.with_top(below(top));
    let n = Node(c.newest());
    if op == b'&' {
        return put_pair(lines, d, b'A', k.a, n);
    }
    if op == b'|' {
        return put_pair(lines, d, b'O', k.a, n);
    }
    put_under(lines, d, k)
}
