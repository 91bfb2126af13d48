// What the test programs share: cases that stand in a file, one to a line, their fields parted by `|`; and how tables are printed.
#![tactic(auto)]

pub mod sheets;
pub mod show;
pub mod zeros;

ghost use Rattle.std.specs.Prelude.{◌≡◌, ◌%◌, ◌≤◌, ◌<◌, min, length, get_or};
ghost use Rattle.std.specs.Io.{ReadsAtMost};
ghost use Rattle.files.specs.Counts.{IsPrefixLen};
ghost use Rattle.sheet.specs.Questions.{read_sheet};
ghost use Rattle.sheet.specs.Outcomes.{answer_of as sheet_answer};
ghost use Rattle.joblog.specs.Log.{answer_of, read_outcome};
ghost use Rattle.joblog.specs.Results.{answered};
ghost use Rattle.cases.specs.Cases.{bar, Past, part_of, number_of, digit_of, plain_of, byte_at, bytes_of, PutText, written, text_in, field_number};

use aldlf::Table;
use joblog::LogRefusal;
use sheet::SheetRefusal;
use std::io;

// The cases of a test program have no more bytes.
pub const INPUT: usize = 65536;

// The text of no field has more, but for sheets and logs of the greatest length, which have room in `INPUT` bytes.
pub const TEXT: usize = 4096;

// The cases on standard input, at the front of a buffer, as far as it has room; how many bytes they are.
pub fn read_input(rt: &impl Input, buffer: &mut [u8]) -> io::Result<usize>
    ensures { ReadsAtMost result buffer.new }
{
    files::read_full(&mut rt.reader(), buffer)
}

// Tries the cases on standard input in order: `tried` is given each one's line.
pub fn each<F: FnMut(&[u8]) -> io::Result<()>>(rt: &impl Input, mut tried: F) -> io::Result<()>
    requires { F.IsAlwaysCallable tried }
{
    let mut input = [0u8; INPUT];
    let n = read_input(rt, &mut input)?;
    for line in input[..n].split_inclusive(|&b| b == b'\n') {
        tried(text::line_at(line, 0))?;
    }
    Ok(())
}

// The place after the part that starts at `at` and after the `sep` that ends it; the end where none does.
#[tactic(auto, using(crate::proofs::Parts::past_end))]
pub fn past(s: &[u8], sep: u8, at: usize) -> usize
    ensures { Past sep s.now at result }
{
    let rest = text::rest_from(s, at);
    let n = text::up_to(rest, sep);
    if n < rest.len() {
        return at + n + 1;
    }
    s.len()
}

// A line's field, counted from 0; past the last, an empty one.
pub fn field(line: &[u8], k: usize) -> &[u8]
    ensures { result.now ≡ part_of bar line.now k }
{
    part(line, b'|', k)
}

// A field's first byte, or 0.
pub fn letter(field: &[u8]) -> u8
    ensures { result ≡ get_or field.now 0 0 }
{
    field.first().copied().unwrap_or(0)
}

// The number that a field's last five digits make; what is no digit counts as 0.
#[tactic(auto, using(crate::proofs::Texts::number_next, crate::proofs::Texts::number_none))]
pub fn number(field: &[u8]) -> usize
    ensures { (result ≡ number_of field.now (length field.now)) × (result < 100000) }
{
    let mut v: usize = 0;
    for &b in field {
        v = v % 10000 * 10 + digit(b);
    }
    v
}

// The number in a line's field.
pub fn number_at(line: &[u8], k: usize) -> usize
    ensures { (result ≡ field_number line.now k) × (result < 100000) }
{
    number(field(line, k))
}

// The same as a number of 8 bits.
pub fn byte(line: &[u8], k: usize) -> u8
    ensures { result ≡ field_number line.now k % 256 }
{
    (number_at(line, k) % 256) as u8
}

// The same as a number of 16 bits.
pub fn half(line: &[u8], k: usize) -> u16
    ensures { result ≡ field_number line.now k % 65536 }
{
    (number_at(line, k) % 65536) as u16
}

// Puts a field's text at the front of a buffer, as far as it has room, and says how many bytes that are.
// `head*piece*n` is the n bytes of head and then piece over and over; in both, `;` stands for LF, `^` for CR, `_` for NUL
// and `~` for 177, the digit 1 with its top bit set.
pub fn put_text(field: &[u8], out: &mut [u8]) -> usize
    ensures { PutText field.now out.old out.new result }
{
    let head = part(field, b'*', 0);
    let piece = part(field, b'*', 1);
    let n = bytes(field).min(out.len());
    fill(head, piece, n, out);
    n
}

// Puts the text of a line's field at the front of a buffer, and says how many bytes that are.
pub fn text_of(line: &[u8], k: usize, out: &mut [u8]) -> usize
    ensures within { IsPrefixLen result out.new }
    ensures text { PutText (part_of bar line.now k) out.old out.new result }
{
    put_text(field(line, k), out)
}

// What reading the sheet in a line's field answers: its text, as far as it has `ROOM` bytes.
#[tactic(auto, using(crate::proofs::Texts::text_put))]
pub fn read_sheet<const ROOM: usize>(line: &[u8], k: usize) -> Result<Table, SheetRefusal>
    requires { ROOM ≤ 65536 }
    ensures { sheet_answer result ≡ read_sheet (text_in ROOM (part_of bar line.now k)) }
{
    let mut bytes = [0u8; ROOM];
    let n = text_of(line, k, &mut bytes);
    sheet::read_sheet(&bytes[..n])
}

// The table of that sheet; of one that is refused, all zeros.
pub fn table(line: &[u8], k: usize) -> Table
    ensures { result ≡ (read_sheet (text_in 4096 (part_of bar line.now k))).table }
{
    read_sheet::<TEXT>(line, k).unwrap_or(sheet::empty::empty_table())
}

// What reading the log in a line's field answers, with its words in the first places of `words`.
#[tactic(auto, using(crate::proofs::Texts::text_put))]
pub fn read_log(line: &[u8], k: usize, words: &mut [u32]) -> Result<usize, LogRefusal>
    ensures { answer_of (answered result) words.new ≡ read_outcome (text_in 4096 (part_of bar line.now k)) words.old }
{
    let mut bytes = [0u8; TEXT];
    let n = text_of(line, k, &mut bytes);
    joblog::read_log(&bytes[..n], words)
}

// Reads the log in a line's field, and says how many words are lent with it: one for each entry, as far as there are places.
// A log of 513 entries is refused at line 513: then so many words, as they were.
pub fn words_of(line: &[u8], k: usize, words: &mut [u32]) -> usize
    ensures { IsPrefixLen result words.new }
{
    let n = match read_log(line, k, words) {
        Ok(entries) => entries,
        Err(r) => r.line,
    };
    n.min(words.len())
}

// The part of a text that k bytes `sep` stand before.
#[tactic(auto, using(crate::proofs::Parts::start_next, crate::proofs::Parts::start_first, crate::proofs::Parts::part_here))]
fn part(s: &[u8], sep: u8, k: usize) -> &[u8]
    ensures { result.now ≡ part_of sep s.now k }
{
    let mut at: usize = 0;
    for _ in 0..k {
        at = past(s, sep, at);
    }
    let rest = text::rest_from(s, at);
    let n = text::up_to(rest, sep);
    &rest[..n]
}

// How many bytes a field's text has.
#[tactic(auto, unfolding(crate::specs::Cases::bytes_of))]
fn bytes(field: &[u8]) -> usize
    ensures { result ≡ bytes_of field.now }
{
    let piece = part(field, b'*', 1);
    if piece.is_empty() {
        return part(field, b'*', 0).len();
    }
    number(part(field, b'*', 2))
}

// The first n bytes of a buffer become those of head and then of piece over and over.
#[tactic(auto, using(crate::proofs::Texts::written_next, crate::proofs::Texts::written_none))]
fn fill(head: &[u8], piece: &[u8], n: usize, out: &mut [u8])
    requires { n ≤ length out.old }
    ensures { out.new ≡ written head.now piece.now out.old n }
{
    for i in 0..n {
        out[i] = byte_at(head, piece, i);
    }
}

// The byte at a place of head and then piece over and over.
#[tactic(auto, unfolding(crate::specs::Cases::byte_at))]
fn byte_at(head: &[u8], piece: &[u8], i: usize) -> u8
    ensures { result ≡ byte_at head.now piece.now i }
{
    if let Some(&b) = head.get(i) {
        return plain(b);
    }
    if piece.is_empty() {
        return 0;
    }
    plain(piece[(i - head.len()) % piece.len()])
}

// The byte that a byte of a case stands for.
#[tactic(auto, unfolding(crate::specs::Cases::plain_of))]
fn plain(b: u8) -> u8
    ensures { result ≡ plain_of b }
{
    match b {
        b';' => b'\n',
        b'^' => b'\r',
        b'_' => 0,
        b'~' => 177,
        _ => b,
    }
}

// A digit as a number; 0 for what is none.
#[tactic(auto, unfolding(crate::specs::Cases::digit_of))]
fn digit(b: u8) -> usize
    ensures { (result ≡ digit_of b) × (result < 10) }
{
    if b.is_ascii_digit() {
        usize::from(b - b'0')
    } else {
        0
    }
}
