// Lines, fields and numbers of a text: what sheets and logs share. A line ends at an LF, a field at a comma.
#![tactic(auto)]

ghost use Rattle.std.specs.Prelude.{◌≡◌, ◌^◌, ◌≤◌, ◌<◌, length, drop, unwrap_or, IfSome};
ghost use Rattle.text.specs.Text.{not_number, ends_in_lf, line_at, number, number_in, up_to, CutOf};

// At most so many bytes in a text.
pub const BYTES: usize = 49152;

// A line's first field: its length, and it as a number.
#[derive(Clone, Copy)]
pub struct Cut {
    pub end: usize,
    pub value: Option<u16>,
}

// Whether the last byte is LF; an empty text's is not.
pub fn ends_in_lf(s: &[u8]) -> bool
    ensures { result ≡ ends_in_lf s.now }
{
    s.ends_with(b"\n")
}

// How many bytes stand before the first `sep`, or before the end.
pub fn up_to(s: &[u8], sep: u8) -> usize
    ensures { (result ≡ up_to sep s.now) × (result ≤ length s.now) }
{
    s.iter().position(|&b| b == sep).unwrap_or(s.len())
}

// What stands from place `at` on; past the end, the empty rest.
pub fn rest_from(s: &[u8], at: usize) -> &[u8]
    ensures { result.now ≡ drop at s.now }
{
    s.get(at..).unwrap_or(&[])
}

// The line that starts at place `at`, without its LF; past the end, an empty one.
pub fn line_at(s: &[u8], at: usize) -> &[u8]
    ensures { result.now ≡ line_at s.now at }
{
    let rest = rest_from(s, at);
    let n = up_to(rest, b'\n');
    &rest[..n]
}

// The first field of a line, or of a line's rest after a comma.
pub fn cut_field(s: &[u8]) -> Cut
    ensures { CutOf s.now result }
{
    let end = up_to(s, b',');
    let value = read_number(&s[..end]);
    Cut { end, value }
}

// The number that a field is: one to three digits, zeros in front or not.
pub fn read_number(s: &[u8]) -> Option<u16>
    ensures { (unwrap_or result not_number ≡ number s.now) × IfSome result (λ n. n < not_number) }
{
    Some(read_digits(s, 3)? as u16)
}

// The same of one to five digits.
pub fn read_long_number(s: &[u8]) -> Option<u32>
    ensures { (unwrap_or result 100000 ≡ number_in 5 s.now) × IfSome result (λ n. n < 100000) }
{
    read_digits(s, 5)
}

// The number that one to `most` digits make, at most nine so that it keeps within its 32 bits.
fn read_digits(s: &[u8], most: usize) -> Option<u32>
    requires { most ≤ 9 }
    ensures { (unwrap_or result (10 ^ most) ≡ number_in most s.now) × IfSome result (λ n. n < 10 ^ most) }
{
    if s.is_empty() || most < s.len() {
        return None;
    }
    let mut v: u32 = 0;
    for &b in s {
        if !b.is_ascii_digit() {
            return None;
        }
        v = v * 10 + u32::from(b - b'0');
    }
    Some(v)
}
