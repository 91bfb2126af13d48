// Whether the rule's text fits in a buffer, without writing it: how far each node's text goes, once, from those of the nodes that it names.
ghost use Rattle.std.specs.Prelude.{◌≡◌, ◌+◌, ◌≤◌, ◌<◌, min, leb, length};
ghost use Rattle.aldlf.specs.Sheet.{sheet_of};
ghost use Rattle.aldlf.specs.declared.Table.{Table};
ghost use Rattle.packing.specs.Numbers.{lent_used};
ghost use Rattle.sheet.specs.Facts.{Lent};
ghost use Rattle.printing.specs.Print.{node_text, rule_text};
ghost use Rattle.printing.specs.Measure.{last_place, Measured};

use super::pieces::{leaf_bytes, operand, prefix_bytes};
use aldlf::Node;
use packing::places::{line_at, used_in};

// Whether the rule's text is no longer than the room.
pub(crate) fn rule_fits(numbers: &[u32], room: usize) -> bool
    requires { (t : Table) × Lent t numbers.now }
    ensures { (t : Table) → Lent t numbers.now → result ≡ leb (length (rule_text (sheet_of t))) room }
{
    let mut lasts = [0usize; aldlf::NODES];
    let count = used_in(numbers).nodes;
    for k in 0..count {
        lasts[usize::from(k)] = last_place(numbers, Node(k), &lasts, room);
    }
    lasts[usize::from(count - 1)] < room
}

// The place of the last byte of a node's text; the room where that is no place of the buffer.
fn last_place(numbers: &[u32], node: Node, lasts: &[usize], room: usize) -> usize
    requires lent { (t : Table) × Lent t numbers.now × Measured (sheet_of t) room node.0 lasts.now }
    requires node_bound { node.0 < (lent_used numbers.now).nodes }
    ensures { (t : Table) → Lent t numbers.now → Measured (sheet_of t) room node.0 lasts.now → result ≡ last_place room (node_text (sheet_of t) node.0) }
{
    let line = line_at(numbers, node);
    match line.kind {
        b'A' | b'O' => {
            let both = further(lasts[line.a as usize], lasts[line.b as usize], room);
            further(both, 4, room)
        }
        b'N' | b'D' | b'B' => {
            let under = operand(line);
            further(lasts[under.0 as usize], prefix_bytes(line) + 2, room)
        }
        _ => further(0, leaf_bytes(line) - 1, room),
    }
}

// So many places further, but not past the room: no sum overflows, however long a text is.
fn further(place: usize, more: usize, room: usize) -> usize
    requires { place ≤ room }
    ensures { result ≡ min (place + more) room }
{
    place + more.min(room - place)
}
