// What is kept for later, four bytes in a number, on a lent stack.
ghost use Rattle.std.specs.Prelude.{◌≡◌, List, ◌∷◌, ℕ, ◌+◌, ◌≤◌, ◌<◌, length};
ghost use Rattle.making.specs.Run.{last_of, rest_of};
ghost use Rattle.making.specs.Numbers.{kept_in, kept_of};

use aldlf::{Edge, Node, State};
use packing::pieces::{edge_in, packed_edge};

// A node (a); a letter and an automaton (a, b); the ends of a part (a, b); or an outer path's ends, states and base.
#[derive(Clone, Copy)]
pub(crate) struct Kept {
    pub(crate) a: u8,
    pub(crate) b: u8,
    pub(crate) c: u8,
    pub(crate) d: u8,
}

// Four bytes as one number, in the places of an edge's.
fn packed_kept(k: Kept) -> u32
    ensures { kept_in result ≡ k }
{
    packed_edge(Edge {
        from: State(k.a),
        dir: k.b,
        test: Node(k.c),
        to: State(k.d),
    })
}

// The four bytes in a number.
fn kept_in(p: u32) -> Kept
    ensures { result ≡ kept_in p }
{
    let e = edge_in(p);
    Kept {
        a: e.from.0,
        b: e.dir,
        c: e.test.0,
        d: e.to.0,
    }
}

// One more is kept.
pub(crate) fn push(stack: &mut [u32], top: usize, k: Kept)
    requires { top < length stack.old }
    ensures { kept_of stack.new (top + 1) ≡ k ∷ kept_of stack.old top }
{
    stack[top] = packed_kept(k);
}

// What was kept last; zeros where nothing is.
pub(crate) fn last_kept(stack: &[u32], top: usize) -> Kept
    requires { top ≤ length stack.now }
    ensures { result ≡ last_of (kept_of stack.now top) }
{
    kept_in(stack[..top].last().copied().unwrap_or(0))
}

// How many are left without that one.
pub(crate) fn below(top: usize) -> usize
    ensures { ((xs : List ℕ) → kept_of xs result ≡ rest_of (kept_of xs top)) × (result ≤ top) }
{
    top.saturating_sub(1)
}
