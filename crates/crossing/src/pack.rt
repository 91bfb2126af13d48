// The numbers of a table, written to a slice of numbers.
ghost use Rattle.std.specs.Prelude.{◌≡◌, refl, ℕ, List, ◌+◌, ◌*◌, ◌≤◌, length};
ghost use Rattle.std.proofs.lemmas.List.Edits.{sets};
ghost use Rattle.crossing.specs.Numbers.{line_size, automaton_size, edge_size, used_place, table_size, line_numbers, automaton_numbers, edge_numbers, used_numbers, numbers_of, table_numbers};

use aldlf::{Automaton, Edge, NodeLine, Table, Used};

// How many numbers a node line, an automaton, an edge and a table take, and where the later ones start.
pub const LINE: usize = 3;

pub const AUTOMATON: usize = 6;

pub const EDGE: usize = 4;

pub const AUTOMATA_PLACE: usize = LINE * aldlf::NODES;

pub const EDGES_PLACE: usize = AUTOMATA_PLACE + AUTOMATON * aldlf::AUTOMATA;

pub const USED_PLACE: usize = EDGES_PLACE + EDGE * aldlf::EDGES;

pub const TABLE: usize = USED_PLACE + 3;

// A piece of a table, which takes as many numbers as any other of its kind.
trait Piece: Copy {
    const SIZE: usize;

    ghost SIZE: { ℕ };

    ghost numbers: { Self → List ℕ };

    // The piece's numbers, from place p on.
    fn put(self, p: usize, out: &mut [u16])
        requires { p + SIZE ≤ length out.old }
        ensures { out.new ≡ sets out.old p (numbers self) };

    ghost sized: { (x : Self) → length (numbers x) ≡ SIZE };
}

impl Piece for NodeLine {
    const SIZE: usize = LINE;

    ghost SIZE = { line_size };

    ghost numbers = { line_numbers };

    ghost sized = { λ x. refl };

    fn put(self, p: usize, out: &mut [u16]) {
        out[p] = self.kind as u16;
        out[p + 1] = self.a as u16;
        out[p + 2] = self.b as u16;
    }
}

impl Piece for Automaton {
    const SIZE: usize = AUTOMATON;

    ghost SIZE = { automaton_size };

    ghost numbers = { automaton_numbers };

    ghost sized = { λ x. refl };

    fn put(self, p: usize, out: &mut [u16]) {
        out[p] = self.states as u16;
        out[p + 1] = self.start.0 as u16;
        out[p + 2] = self.accepting;
        out[p + 3] = self.first;
        out[p + 4] = self.count;
        out[p + 5] = self.before as u16;
    }
}

impl Piece for Edge {
    const SIZE: usize = EDGE;

    ghost SIZE = { edge_size };

    ghost numbers = { edge_numbers };

    ghost sized = { λ x. refl };

    fn put(self, p: usize, out: &mut [u16]) {
        out[p] = self.from.0 as u16;
        out[p + 1] = self.dir as u16;
        out[p + 2] = self.test.0 as u16;
        out[p + 3] = self.to.0 as u16;
    }
}

// The numbers of a table, which take the whole slice.
pub fn put_table(t: Table, out: &mut [u16])
    requires { length out.old ≡ table_size }
    ensures { out.new ≡ table_numbers t }
{
    put_all(&t.nodes, 0, out);
    put_all(&t.automata, AUTOMATA_PLACE, out);
    put_all(&t.edges, EDGES_PLACE, out);
    put_used(t.used, out);
}

// The numbers of pieces of one kind, one after the other, from a place on.
fn put_all<T: Piece>(pieces: &[T], place: usize, out: &mut [u16])
    requires { place + T.SIZE * length pieces.now ≤ length out.old }
    ensures { out.new ≡ sets out.old place (numbers_of T.numbers pieces.now) }
{
    for (k, piece) in pieces.iter().enumerate() {
        piece.put(place + T::SIZE * k, out);
    }
}

fn put_used(u: Used, out: &mut [u16])
    requires { length out.old ≡ table_size }
    ensures { out.new ≡ sets out.old used_place (used_numbers u) }
{
    out[USED_PLACE] = u.nodes as u16;
    out[USED_PLACE + 1] = u.automata as u16;
    out[USED_PLACE + 2] = u.edges;
}
