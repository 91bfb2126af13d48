// The instructions that draw the path in hand: steps, `*`, `;` and `+`.
ghost use Rattle.std.specs.Prelude.{◌≡◌, ◌≤◌, ◌<◌, length};
ghost use Rattle.aldlf.specs.Constants.{edge_limit};
ghost use Rattle.formula.specs.Numbering.{link};
ghost use Rattle.making.specs.Work.{linked, between, step_drawn, seq_drawn, alt_drawn, star_drawn};
ghost use Rattle.making.specs.Run.{is_step, draws, dir_of, drawn_on};
ghost use Rattle.making.specs.Numbers.{all_linked, Sized, Drawn, PathDrawn};

use super::counts::Counts;
use super::keeping::link_room;
use super::stack::{Kept, below, last_kept};
use aldlf::{Edge, Node, State};
use packing::pieces::packed_edge;

// Whether an instruction is a step: ahead, back or a test.
fn is_step(op: u8) -> bool
    ensures { result ≡ is_step op }
{
    matches!(op, b'a' | b'b' | b't')
}

// Whether an instruction draws the path in hand.
pub(crate) fn draws_path(op: u8) -> bool
    ensures { result ≡ draws op }
{
    is_step(op) || matches!(op, b'*' | b';' | b'+')
}

// The direction of a step, as the table has it.
fn dir_of(op: u8) -> u8
    ensures { result ≡ dir_of op }
{
    match op {
        b'a' => 1,
        b'b' => 2,
        _ => 0,
    }
}

// An edge that only joins: a test of node 0, which is T.
fn link_of(s: State, t: State) -> Edge
    ensures { result ≡ link s.0 t.0 }
{
    Edge {
        from: s,
        dir: 0,
        test: Node(0),
        to: t,
    }
}

// One link more, where there is room.
fn put_link(links: &mut [u32; aldlf::EDGES], c: Counts, e: Edge) -> Option<Counts>
    requires { Sized c × (length links.old ≡ edge_limit) }
    ensures { Drawn (linked e) c result links.old links.new }
{
    if link_room(c) {
        let n = c.links as usize;
        links[n] = packed_edge(e);
        return Some(Counts {
            links: c.links + 1,
            ..c
        });
    }
    None
}

// Four links are put one after the other. The part made last is between the states s and s + 1 then.
fn put_four(links: &mut [u32; aldlf::EDGES], c: Counts, four: [Edge; 4], s: u8) -> Option<Counts>
    requires { Sized c × (length links.old ≡ edge_limit) × (s < 15) × (length four ≡ 4) }
    ensures { Drawn (λ w. between s (all_linked four w)) c result links.old links.new }
{
    let mut x = c;
    for e in four {
        x = put_link(links, x, e)?;
    }
    Some(x.with_ends(s + 2, State(s), State(s + 1)))
}

// A step: two states, and one edge that tests the last node.
fn step(links: &mut [u32; aldlf::EDGES], c: Counts, dir: u8) -> Option<Counts>
    requires { Sized c × (length links.old ≡ edge_limit) }
    ensures { Drawn (step_drawn dir) c result links.old links.new }
{
    let s = c.states;
    if s < 15 {
        let e = Edge {
            from: State(s),
            dir,
            test: Node(c.newest()),
            to: State(s + 1),
        };
        let x = put_link(links, c, e)?;
        return Some(x.with_ends(s + 2, State(s), State(s + 1)));
    }
    None
}

// `;`: the end of the left side is joined to the start of the part made last.
fn seq(links: &mut [u32; aldlf::EDGES], c: Counts, left: Kept) -> Option<Counts>
    requires { Sized c × (length links.old ≡ edge_limit) }
    ensures { Drawn (seq_drawn left) c result links.old links.new }
{
    let e = link_of(State(left.b), c.entry);
    let x = put_link(links, c, e)?;
    Some(x.with_ends(c.states, State(left.a), c.exit))
}

// `+`: a new start before both sides, a new end behind both.
fn alt(links: &mut [u32; aldlf::EDGES], c: Counts, left: Kept) -> Option<Counts>
    requires { Sized c × (length links.old ≡ edge_limit) }
    ensures { Drawn (alt_drawn left) c result links.old links.new }
{
    let s = c.states;
    if s < 15 {
        let start = State(s);
        let end = State(s + 1);
        let e = link_of(start, State(left.a));
        let f = link_of(start, c.entry);
        let g = link_of(State(left.b), end);
        let h = link_of(c.exit, end);
        return put_four(links, c, [e, f, g, h], s);
    }
    None
}

// `*`: a new start before the part and a new end behind it, from the part's end back to its start, and past it.
fn star(links: &mut [u32; aldlf::EDGES], c: Counts) -> Option<Counts>
    requires { Sized c × (length links.old ≡ edge_limit) }
    ensures { Drawn star_drawn c result links.old links.new }
{
    let s = c.states;
    if s < 15 {
        let start = State(s);
        let end = State(s + 1);
        let e = link_of(start, c.entry);
        let f = link_of(c.exit, c.entry);
        let g = link_of(c.exit, end);
        let h = link_of(start, end);
        return put_four(links, c, [e, f, g, h], s);
    }
    None
}

// An instruction that draws the path in hand.
pub(crate) fn draw(
    op: u8,
    stack: &[u32],
    links: &mut [u32; aldlf::EDGES],
    c: Counts,
) -> Option<Counts>
    requires { (c.top ≤ length stack.now) × Sized c × (length links.old ≡ edge_limit) }
    ensures { PathDrawn (drawn_on op) c result stack.now links.old links.new }
{
    if is_step(op) {
        return step(links, c, dir_of(op));
    }
    if op == b'*' {
        return star(links, c);
    }
    let top = c.top;
    let left = last_kept(stack, top);
    let d = c.with_top(below(top));
    if op == b';' {
        return seq(links, d, left);
    }
    alt(links, d, left)
}
