// The parser: formulas call paths for a path mark, and paths call formulas for their steps and tests. At each mark the depth that is left
// falls; along a chain the text that is left falls.
ghost use Rattle.std.specs.Prelude.{◌≡◌, true, ◌<◌};
ghost use Rattle.std.specs.Option.{unwrap_or};
ghost use Rattle.formula.specs.Formula.{Formula, Path};
ghost use Rattle.formula.specs.Parse.{Prefix, map_got, byte, is_prefix, atom_at, operand_at, piece_at, inner, prefix_at};
ghost use Rattle.parsing.specs.Work.{work_of, applied, ended};
ghost use Rattle.parsing.specs.Build.{build, build_in, seen_of, got_of, next_of, followed, opened, end_of, stepped_by};

use super::answers::{Parse, ParseError, Parsed};
use super::signs::{byte_at, close, is_prefix, simple, stars};
use super::writing::{Writing, masked_at, write, write_end, write_if, write_prefixes, write_step};

// The operators of a chain: the one that binds first, the other, and the instruction that keeps a left side.
#[derive(Clone, Copy)]
pub(crate) struct Operators {
    pub(crate) first: u8,
    pub(crate) second: u8,
    pub(crate) keep: u8,
}

// Whether a left side waits for the operator that binds first, and whether one waits for the other.
#[derive(Clone, Copy)]
pub(crate) struct Waiting {
    pub(crate) first: bool,
    pub(crate) second: bool,
}

// The chain after an item: it goes on, and so much waits then; or it stops.
#[derive(Clone, Copy)]
pub(crate) enum Next {
    Goes(Waiting, Writing),
    Stops(Writing),
}

// After an item, by the byte behind it: the first operator joins it to what waits, the second that to what waits before, and any other
// byte ends the chain.
fn follow(w: Writing, h: Waiting, by: Operators, b: Option<u8>, out: &mut [u8]) -> Next
    ensures { next_of result out.new ≡ followed by.first by.second by.keep (unwrap_or b 256) h.second h.first (work_of w out.old) }
{
    let u = write_if(w, h.first, by.first, out);
    if b == Some(by.first) {
        let kept = write(u, by.keep, out);
        let waiting = Waiting {
            first: true,
            second: h.second,
        };
        return Next::Goes(waiting, kept);
    }
    let v = write_if(u, h.second, by.second, out);
    if b == Some(by.second) {
        let kept = write(v, by.keep, out);
        let waiting = Waiting {
            first: false,
            second: true,
        };
        return Next::Goes(waiting, kept);
    }
    Next::Stops(v)
}

// The instruction that ends a path, and the byte that closes its mark, by the byte that opens it.
fn end_of(b: Option<u8>) -> u8
    ensures { result ≡ end_of (unwrap_or b 256) }
{
    if b == Some(b'<') { b'>' } else { b']' }
}

// A path that was read and closed.
fn ended_path(p: Parse, code: u8, out: &mut [u8]) -> Parse
    ensures { got_of (seen_of result out.new) ≡ map_got (ended code) (got_of (seen_of p out.old)) }
{
    let p = p?;
    Ok(Parsed {
        at: p.at,
        writing: write_end(p.writing, code, out),
    })
}

// The nodes of the prefixes that wait, on an atom that was read.
fn applied_to(p: Parse, count: usize, out: &mut [u8]) -> Parse
    ensures { got_of (seen_of result out.new) ≡ map_got (applied count) (got_of (seen_of p out.old)) }
{
    let p = p?;
    Ok(Parsed {
        at: p.at,
        writing: write_prefixes(p.writing, count, out),
    })
}

// The step of a formula in `{` and `}`: `-` behind it is back, `?` test, anything else ahead.
fn step_of(text: &[u8], p: Parse, out: &mut [u8]) -> Parse
    ensures { got_of (seen_of result out.new) ≡ stepped_by text.now (got_of (seen_of p out.old)) }
{
    let p = p?;
    let (code, at) = match byte_at(text, p.at) {
        Some(b'-') => (b'b', p.at + 1),
        Some(b'?') => (b't', p.at + 1),
        _ => (b'a', p.at),
    };
    let writing = write_step(p.writing, code, out);
    Ok(Parsed { at, writing })
}

// Operands joined by `&` and `|`, where `depth` more marks may be open, the one around this formula counted.
#[cycle(parser)]
pub(crate) fn formula(text: &[u8], start: usize, depth: u8, w0: Writing, out: &mut [u8]) -> Parse
    ensures { got_of (seen_of result out.new) ≡ map_got (λ (a : Formula). build a (work_of w0 out.old)) ((inner text.now depth).formula start) }
{
    if depth == 0 {
        return Err(ParseError::TooDeep(start));
    }
    let by = Operators {
        first: b'&',
        second: b'|',
        keep: b',',
    };
    let mut at = start;
    let mut w = w0;
    let mut h = Waiting {
        first: false,
        second: false,
    };
    // Where the next operand starts is known only when this one is read, and whether there is one, only by the byte behind it.
    loop {
        let p = operand(text, at, depth - 1, w, out)?;
        let b = byte_at(text, p.at);
        match follow(p.writing, h, by, b, out) {
            Next::Stops(writing) => return Ok(Parsed { at: p.at, writing }),
            Next::Goes(waiting, writing) => {
                at = p.at + 1;
                w = writing;
                h = waiting;
            }
        }
    }
}

// An operand: its prefixes and an atom. The prefixes are no calls of their own: some 4,000 of them would take too much of the stack.
#[cycle(parser)]
fn operand(text: &[u8], start: usize, depth: u8, w0: Writing, out: &mut [u8]) -> Parse
    ensures { got_of (seen_of result out.new) ≡ map_got (λ (a : Formula). build a (work_of w0 out.old)) (operand_at text.now (inner text.now depth) start) }
{
    let mut at = start;
    let mut w = w0;
    let mut count: usize = 0;
    // How long a prefix is is known only when it is read.
    loop {
        let b = byte_at(text, at);
        if !is_prefix(b) {
            let q = atom(text, at, depth, w, out);
            return applied_to(q, count, out);
        }
        let p = prefix(text, at, depth, w, out)?;
        at = p.at;
        w = p.writing;
        count += 1;
    }
}

// `!`, `<path>` or, where neither begins, `[path]`.
#[cycle(parser)]
fn prefix(text: &[u8], at: usize, depth: u8, w: Writing, out: &mut [u8]) -> Parse
    requires { is_prefix (byte text.now at) ≡ true }
    ensures { got_of (seen_of result out.new) ≡ map_got (λ (x : Prefix). opened x (work_of w out.old)) (prefix_at text.now (inner text.now depth) at) }
{
    let b = byte_at(text, at);
    if b == Some(b'!') {
        let writing = write(w, b'!', out);
        return Ok(Parsed {
            at: at + 1,
            writing,
        });
    }
    let begun = write(w, b'{', out);
    let p = path(text, at + 1, depth, begun, out);
    let end = end_of(b);
    let q = close(text, p, end);
    ended_path(q, end, out)
}

// `true`, a fact, or a formula in brackets.
#[cycle(parser)]
fn atom(text: &[u8], at: usize, depth: u8, w: Writing, out: &mut [u8]) -> Parse
    ensures { got_of (seen_of result out.new) ≡ map_got (λ (a : Formula). build a (work_of w out.old)) (atom_at text.now (inner text.now depth) at) }
{
    if byte_at(text, at) == Some(b'(') {
        let p = formula(text, at + 1, depth, w, out);
        return close(text, p, b')');
    }
    simple(text, at, w, out)
}

// Starred pieces joined by `;` and `+`, where `depth` more marks may be open, the one around this path counted.
#[cycle(parser)]
fn path(text: &[u8], start: usize, depth: u8, w0: Writing, out: &mut [u8]) -> Parse
    ensures { got_of (seen_of result out.new) ≡ map_got (λ (p : Path). build_in p (work_of w0 out.old)) ((inner text.now depth).path start) }
{
    if depth == 0 {
        return Err(ParseError::TooDeep(start));
    }
    let by = Operators {
        first: b';',
        second: b'+',
        keep: b':',
    };
    let mut at = start;
    let mut w = w0;
    let mut h = Waiting {
        first: false,
        second: false,
    };
    // The same loop over pieces: one for both would take its steps as closures that call it again, in the cycle that is proved at once.
    loop {
        let q = piece(text, at, depth - 1, w, out);
        let p = stars(text, q, out)?;
        let b = byte_at(text, p.at);
        match follow(p.writing, h, by, b, out) {
            Next::Stops(writing) => return Ok(Parsed { at: p.at, writing }),
            Next::Goes(waiting, writing) => {
                at = p.at + 1;
                w = writing;
                h = waiting;
            }
        }
    }
}

// A step, or a path in brackets.
#[cycle(parser)]
fn piece(text: &[u8], at: usize, depth: u8, w: Writing, out: &mut [u8]) -> Parse
    ensures { got_of (seen_of result out.new) ≡ map_got (λ (p : Path). build_in p (work_of w out.old)) (piece_at text.now (inner text.now depth) at) }
{
    match byte_at(text, at) {
        Some(b'{') => {
            let f = masked_at(w);
            let p = formula(text, at + 1, depth, f, out);
            let q = close(text, p, b'}');
            step_of(text, q, out)
        }
        Some(b'(') => {
            let p = path(text, at + 1, depth, w, out);
            close(text, p, b')')
        }
        _ => Err(ParseError::NoFormula(at)),
    }
}
