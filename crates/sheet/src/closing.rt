// Questions 10 and 11, asked after the last line.
ghost use Rattle.std.specs.Prelude.{◌≡◌, ◌≤◌, length};
ghost use Rattle.aldlf.specs.Constants.{automaton_limit};
ghost use Rattle.aldlf.specs.declared.Table.{Table};
ghost use Rattle.packing.specs.Numbers.{places, lent_used};
ghost use Rattle.packing.specs.Packed.{Packed};
ghost use Rattle.sheet.specs.Questions.{stands_on, some_edge, edges_of, each_state, whole_of, finish};
ghost use Rattle.sheet.specs.Outcomes.{answer_of};

use super::build::Reading;
use super::{SheetQuestion, SheetRefusal, refusal};
use aldlf::{Automaton, Edge, Table};
use packing::places::{automaton_at, edge_at, used_in};

// The answer after the last line, which is line k.
pub(crate) fn finish_of(r: Reading, k: u16) -> Result<Table, SheetRefusal>
    requires { r.table.used.automata ≤ automaton_limit }
    ensures { answer_of result ≡ finish r k }
{
    let t = r.table;
    let mut numbers = [0u32; packing::places::PLACES];
    packing::writing::pack(t, &mut numbers);
    let w = whole_of(&numbers);
    if w < t.used.automata {
        return Err(refusal(SheetQuestion::Whole, r.mlines[w as usize]));
    }
    if r.inside {
        return Err(refusal(SheetQuestion::LastLine, k));
    }
    Ok(t)
}

// How many automata stand before the first one that has a state on no edge of its own.
pub(crate) fn whole_of(numbers: &[u32]) -> u8
    requires { (length numbers.now ≡ places) × ((lent_used numbers.now).automata ≤ automaton_limit) }
    ensures { ((t : Table) → Packed t numbers.now → result ≡ whole_of t) × (result ≤ automaton_limit) }
{
    let used = used_in(numbers);
    for m in 0..used.automata {
        if !each_state(numbers, automaton_at(numbers, m)) {
            return m;
        }
    }
    used.automata
}

// Whether each state of the automaton stands on one of its edges.
fn each_state(numbers: &[u32], x: Automaton) -> bool
    requires { length numbers.now ≡ places }
    ensures { (t : Table) → Packed t numbers.now → result ≡ each_state (edges_of t.edges x) x.states }
{
    for s in 0..x.states {
        if !some_edge(numbers, x, s) {
            return false;
        }
    }
    true
}

// Whether state s stands on one of the automaton's edges.
fn some_edge(numbers: &[u32], x: Automaton, s: u8) -> bool
    requires { length numbers.now ≡ places }
    ensures { (t : Table) → Packed t numbers.now → result ≡ some_edge s (edges_of t.edges x) }
{
    let end = x.first as usize + x.count as usize;
    for i in x.first as usize..end.min(aldlf::EDGES) {
        if stands_on(s, edge_at(numbers, i as u16)) {
            return true;
        }
    }
    false
}

fn stands_on(s: u8, e: Edge) -> bool
    ensures { result ≡ stands_on s e }
{
    let from = e.from;
    let to = e.to;
    (from.0 == s) | (to.0 == s)
}
