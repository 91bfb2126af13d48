// What stands in a formula's text without a formula or path of its own: single bytes, `true`, facts, stars.
ghost use Rattle.std.specs.Prelude.{◌≡◌, true, List, ℕ, ◌+◌, ◌*◌, ◌-◌, ◌≤◌, ◌<◌, length};
ghost use Rattle.std.specs.Option.{unwrap_or};
ghost use Rattle.text.specs.Text.{is_digit};
ghost use Rattle.formula.specs.Formula.{Formula};
ghost use Rattle.formula.specs.Parse.{byte, closed, map_got, is_pair, is_prefix, fact_at, true_at};
ghost use Rattle.parsing.specs.Work.{work_of};
ghost use Rattle.parsing.specs.Build.{build, seen_of, got_of, fact_by, simple_at, stars_on};

use super::answers::{Parse, ParseError, Parsed};
use super::writing::{Writing, write};

// The byte at a place, if there is one. Definitions say 256 where there is none.
pub(crate) fn byte_at(text: &[u8], at: usize) -> Option<u8>
    ensures { unwrap_or result 256 ≡ byte text.now at }
{
    text.get(at).copied()
}

// The byte begins a prefix: `!`, `<` or `[`.
pub(crate) fn is_prefix(b: Option<u8>) -> bool
    ensures { result ≡ is_prefix (unwrap_or b 256) }
{
    matches!(b, Some(b'!' | b'<' | b'['))
}

// What was read, if the byte b stands behind it.
pub(crate) fn close(text: &[u8], p: Parse, b: u8) -> Parse
    ensures { (out : List ℕ) → got_of (seen_of result out) ≡ closed text.now b (got_of (seen_of p out)) }
{
    let p = p?;
    if byte_at(text, p.at) == Some(b) {
        return Ok(Parsed {
            at: p.at + 1,
            writing: p.writing,
        });
    }
    Err(ParseError::NoFormula(p.at))
}

// `true` or a fact.
pub(crate) fn simple(text: &[u8], at: usize, w: Writing, out: &mut [u8]) -> Parse
    ensures { got_of (seen_of result out.new) ≡ map_got (λ (a : Formula). build a (work_of w out.old)) (simple_at text.now at) }
{
    match byte_at(text, at) {
        Some(b't') => truth(text, at + 1, w, out),
        Some(b'f') => fact(text, at + 1, w, out),
        _ => Err(ParseError::NoFormula(at)),
    }
}

// After `t`: `r`, `u`, `e`.
fn truth(text: &[u8], at: usize, w: Writing, out: &mut [u8]) -> Parse
    requires { at ≤ length text.now }
    ensures { got_of (seen_of result out.new) ≡ map_got (λ (a : Formula). build a (work_of w out.old)) (true_at text.now at) }
{
    for (i, &b) in b"rue".iter().enumerate() {
        if byte_at(text, at + i) != Some(b) {
            return Err(ParseError::NoFormula(at + i));
        }
    }
    let writing = write(w, b'T', out);
    Ok(Parsed {
        at: at + 3,
        writing,
    })
}

// After `f`: 0 to 31 without padding, the longest that goes on.
fn fact(text: &[u8], at: usize, w: Writing, out: &mut [u8]) -> Parse
    requires { at ≤ length text.now }
    ensures { got_of (seen_of result out.new) ≡ map_got (λ (a : Formula). build a (work_of w out.old)) (fact_at text.now at) }
{
    let Some(b) = byte_at(text, at) else {
        return Err(ParseError::NoFormula(at));
    };
    if !b.is_ascii_digit() {
        return Err(ParseError::NoFormula(at));
    }
    match byte_at(text, at + 1) {
        Some(c) if is_pair(b, c) => two_digits(at, b, c, w, out),
        _ => one_digit(at, b, w, out),
    }
}

// Two digits that are a fact's number: 10 to 31.
fn is_pair(b: u8, c: u8) -> bool
    ensures { result ≡ is_pair b c }
{
    match b {
        b'1' | b'2' => c.is_ascii_digit(),
        b'3' => matches!(c, b'0' | b'1'),
        _ => false,
    }
}

fn one_digit(at: usize, b: u8, w: Writing, out: &mut [u8]) -> Parse
    requires { (is_digit b ≡ true) × (at < 18446744073709551615) }
    ensures { got_of (seen_of result out.new) ≡ fact_by (b - 48) (at + 1) (work_of w out.old) }
{
    let writing = write(w, b - b'0', out);
    Ok(Parsed {
        at: at + 1,
        writing,
    })
}

fn two_digits(at: usize, b: u8, c: u8, w: Writing, out: &mut [u8]) -> Parse
    requires { (is_pair b c ≡ true) × (at < 18446744073709551614) }
    ensures { got_of (seen_of result out.new) ≡ fact_by ((b - 48) * 10 + (c - 48)) (at + 2) (work_of w out.old) }
{
    let writing = write(w, (b - b'0') * 10 + (c - b'0'), out);
    Ok(Parsed {
        at: at + 2,
        writing,
    })
}

// As many `*` as there are behind a piece.
pub(crate) fn stars(text: &[u8], p: Parse, out: &mut [u8]) -> Parse
    ensures { got_of (seen_of result out.new) ≡ stars_on text.now (got_of (seen_of p out.old)) }
{
    let Parsed {
        mut at,
        mut writing,
    } = p?;
    // A `while`: counting the stars first, for a `for`, would look at each of them twice.
    while byte_at(text, at) == Some(b'*') {
        writing = write(writing, b'*', out);
        at += 1;
    }
    Ok(Parsed { at, writing })
}
