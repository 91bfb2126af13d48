// Which ways the edges of the automata go that the D and B lines of a table name.
ghost use Rattle.std.specs.Prelude.{◌≡◌, ◌+◌, ◌≤◌, ◌<◌, length};
ghost use Rattle.aldlf.specs.Constants.{automaton_limit, edge_limit};
ghost use Rattle.aldlf.specs.Sheet.{sheet_of};
ghost use Rattle.aldlf.specs.declared.Table.{Table};
ghost use Rattle.packing.specs.Numbers.{places, lent_used};
ghost use Rattle.packing.specs.Packed.{Packed};
ghost use Rattle.sheet.specs.Facts.{Lent};
ghost use Rattle.stands.specs.Looking.{SheetLooks, WithLine, WithEdges, Asked};

use super::Looks;
use super::lent::is_modal;
use aldlf::{Automaton, Node};
use packing::places::{automaton_at, edge_at, line_at, used_in};

// The ways of all lines.
pub(crate) fn looks_in(numbers: &[u32]) -> Looks
    requires { (t : Table) × Lent t numbers.now }
    ensures { (t : Table) → Lent t numbers.now → SheetLooks (sheet_of t) t.used.nodes result }
{
    let mut asked = [false; aldlf::AUTOMATA];
    let count = used_in(numbers).nodes;
    let mut looks = Looks::default();
    for k in 0..count {
        looks = with_line(numbers, Node(k), looks, &mut asked);
    }
    looks
}

// These ways, and those of a node's line. An automaton's edges are looked at once, however many lines name it.
fn with_line(numbers: &[u32], node: Node, looks: Looks, asked: &mut [bool]) -> Looks
    requires lent { (t : Table) × Lent t numbers.now }
    requires asked_len { (length asked.old ≡ automaton_limit) × (node.0 < (lent_used numbers.now).nodes) }
    requires asked { (t : Table) → Lent t numbers.now → Asked (sheet_of t) looks asked.old }
    ensures { (t : Table) → Lent t numbers.now → WithLine (sheet_of t) ((sheet_of t).line node.0) looks result × Asked (sheet_of t) result asked.new }
{
    let line = line_at(numbers, node);
    let m = line.a;
    if !is_modal(line.kind) {
        return looks;
    }
    if asked[m as usize] {
        return looks;
    }
    asked[m as usize] = true;
    with_edges(numbers, automaton_at(numbers, m), looks)
}

// These ways, and those of an automaton's edges.
fn with_edges(numbers: &[u32], x: Automaton, looks: Looks) -> Looks
    requires { (length numbers.now ≡ places) × (x.first + x.count ≤ edge_limit) }
    ensures { (t : Table) → Packed t numbers.now → WithEdges (sheet_of t) x.first x.count looks result }
{
    let mut ahead = looks.ahead;
    let mut back = looks.back;
    for c in 0..x.count {
        let e = edge_at(numbers, x.first + c);
        ahead |= e.dir == 1;
        back |= 1 < e.dir;
    }
    Looks { ahead, back }
}
