// A node's text, appended to a buffer.
ghost use Rattle.std.specs.Prelude.{◌<◌};
ghost use Rattle.aldlf.specs.Sheet.{sheet_of};
ghost use Rattle.aldlf.specs.declared.Table.{Table};
ghost use Rattle.packing.specs.Numbers.{lent_used};
ghost use Rattle.sheet.specs.Facts.{Lent};
ghost use Rattle.appending.specs.Appending.{Appends};
ghost use Rattle.printing.specs.Print.{node_text};

use super::pieces::{operand, operator, put_leaf, put_prefix};
use aldlf::Node;
use appending::put;
use packing::places::line_at;

// The text of a node: it calls itself on the nodes that the node names, whose numbers are lower.
pub(crate) fn put_node(numbers: &[u32], node: Node, out: &mut [u8], at: usize) -> usize
    requires lent { (t : Table) × Lent t numbers.now }
    requires node_bound { node.0 < (lent_used numbers.now).nodes }
    ensures { (t : Table) → Lent t numbers.now → Appends (node_text (sheet_of t) node.0) out.old at out.new result }
{
    let line = line_at(numbers, node);
    match line.kind {
        b'A' | b'O' => {
            let opened = put(out, at, b'(');
            let left = put_node(numbers, Node(line.a), out, opened);
            let parted = put(out, left, operator(line));
            let right = put_node(numbers, Node(line.b), out, parted);
            put(out, right, b')')
        }
        b'N' | b'D' | b'B' => {
            let opened = put(out, at, b'(');
            let marked = put_prefix(out, opened, line);
            let next = put_node(numbers, operand(line), out, marked);
            put(out, next, b')')
        }
        _ => put_leaf(out, at, line),
    }
}
