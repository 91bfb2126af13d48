// The nodes that the rule stands on: marked by one pass from the last node down, for a line names only earlier nodes.
ghost use Rattle.std.specs.Prelude.{◌≡◌, ◌<◌, length};
ghost use Rattle.aldlf.specs.Constants.{node_limit, automaton_limit};
ghost use Rattle.aldlf.specs.Sheet.{sheet_of};
ghost use Rattle.aldlf.specs.Stands.{mark_tests, mark_line, stands_from, stands_of};
ghost use Rattle.aldlf.specs.declared.Table.{Table};
ghost use Rattle.packing.specs.Numbers.{lent_used};
ghost use Rattle.packing.specs.Packed.{Packed};
ghost use Rattle.sheet.specs.Facts.{Lent};
ghost use Rattle.stands.specs.Marking.{Taken, Marked, turned, TestsIn};

use aldlf::{Automaton, Node};
use packing::places::{automaton_at, edge_at, line_at, used_in};

// Which nodes the rule stands on.
pub(crate) fn nodes_of_rule(numbers: &[u32]) -> [bool; aldlf::NODES]
    requires { (t : Table) × Lent t numbers.now }
    ensures { (t : Table) → Lent t numbers.now → result ≡ stands_of (sheet_of t) }
{
    let mut flags = [false; aldlf::NODES];
    let mut taken = [false; aldlf::AUTOMATA];
    let last = (used_in(numbers).nodes - 1) as usize;
    flags[last] = true;
    mark_all(numbers, &mut flags, &mut taken);
    flags
}

// The nodes that marked nodes name are marked, from the last node down.
fn mark_all(numbers: &[u32], flags: &mut [bool], taken: &mut [bool])
    requires lent { (t : Table) × Lent t numbers.now }
    requires flags_len { (length flags.old ≡ node_limit) × (length taken.old ≡ automaton_limit) }
    requires taken { (t : Table) → Lent t numbers.now → Taken (sheet_of t) flags.old taken.old }
    ensures { (t : Table) → Lent t numbers.now → flags.new ≡ stands_from (sheet_of t) t.used.nodes flags.old }
{
    for k in (0..used_in(numbers).nodes).rev() {
        mark_turn(numbers, Node(k), flags, taken);
    }
}

// The nodes that a node names are marked, where it is marked itself.
fn mark_turn(numbers: &[u32], node: Node, flags: &mut [bool], taken: &mut [bool])
    requires lent { (t : Table) × Lent t numbers.now }
    requires flags_len { (length flags.old ≡ node_limit) × (length taken.old ≡ automaton_limit) × (node.0 < (lent_used numbers.now).nodes) }
    requires taken { (t : Table) → Lent t numbers.now → Taken (sheet_of t) flags.old taken.old }
    ensures { (t : Table) → Lent t numbers.now → Marked (sheet_of t) (turned (sheet_of t) node.0 flags.old) flags.new taken.new }
{
    if flags[node.0 as usize] {
        mark_line(numbers, node, flags, taken);
    }
}

// The nodes that a node's line names are marked.
fn mark_line(numbers: &[u32], node: Node, flags: &mut [bool], taken: &mut [bool])
    requires lent { (t : Table) × Lent t numbers.now }
    requires flags_len { (length flags.old ≡ node_limit) × (length taken.old ≡ automaton_limit) × (node.0 < (lent_used numbers.now).nodes) }
    requires taken { (t : Table) → Lent t numbers.now → Taken (sheet_of t) flags.old taken.old }
    ensures { (t : Table) → Lent t numbers.now → Marked (sheet_of t) (mark_line (sheet_of t) ((sheet_of t).line node.0) flags.old) flags.new taken.new }
{
    let line = line_at(numbers, node);
    match line.kind {
        b'N' => flags[line.a as usize] = true,
        b'A' | b'O' => {
            flags[line.a as usize] = true;
            flags[line.b as usize] = true;
        }
        b'D' | b'B' => {
            flags[line.b as usize] = true;
            mark_automaton(numbers, line.a, flags, taken);
        }
        _ => {}
    }
}

// The nodes that the edges of automaton m test are marked: once, however many lines name the automaton.
fn mark_automaton(numbers: &[u32], m: u8, flags: &mut [bool], taken: &mut [bool])
    requires lent { (t : Table) × Lent t numbers.now }
    requires flags_len { (length flags.old ≡ node_limit) × (length taken.old ≡ automaton_limit) × (m < (lent_used numbers.now).automata) }
    requires taken { (t : Table) → Lent t numbers.now → Taken (sheet_of t) flags.old taken.old }
    ensures { (t : Table) → Lent t numbers.now
        → Marked (sheet_of t) (mark_tests (sheet_of t) ((sheet_of t).automaton m).first ((sheet_of t).automaton m).count flags.old) flags.new taken.new }
{
    if taken[m as usize] {
        return;
    }
    taken[m as usize] = true;
    mark_tests(numbers, automaton_at(numbers, m), flags);
}

// The nodes that the edges of an automaton of the table test are marked.
fn mark_tests(numbers: &[u32], x: Automaton, flags: &mut [bool])
    requires { TestsIn numbers.now x × (length flags.old ≡ node_limit) }
    ensures { (t : Table) → Packed t numbers.now → flags.new ≡ mark_tests (sheet_of t) x.first x.count flags.old }
{
    for c in 0..x.count {
        let e = edge_at(numbers, x.first + c);
        flags[e.test.0 as usize] = true;
    }
}
