// A line taken apart: its letter, how many fields follow it, and those fields as numbers.
ghost use Rattle.std.specs.Prelude.{◌≡◌};
ghost use Rattle.text.specs.Text.{fields};
ghost use Rattle.sheet.specs.Questions.{letter_of, parsed};
ghost use Rattle.sheet.specs.Room.{FieldAfter};

// Stands in a line for what is no number, as in `parsed`: question 4 is asked of the whole line, after question 3.
pub(crate) const NOT_NUMBER: u16 = 1000;

// A line: its letter (0 for none), how many fields follow it (5 for more than four), and the first four of those as numbers
// (NOT_NUMBER for what is none, 0 for a field that is not there).
#[derive(Clone, Copy)]
pub(crate) struct Line {
    pub(crate) letter: u8,
    pub(crate) count: u8,
    pub(crate) a: u16,
    pub(crate) b: u16,
    pub(crate) c: u16,
    pub(crate) d: u16,
}

// The field after a comma, if there is one (`there` is 1): it as a number, and where it ends. No Option, which would be no plainer:
// of a field that is not there the line takes the count 0 and the number 0, and the next is looked for at the same place.
#[derive(Clone, Copy)]
pub(crate) struct Field {
    pub(crate) there: u8,
    pub(crate) value: u16,
    pub(crate) end: usize,
}

pub(crate) fn parse_line(s: &[u8]) -> Line
    ensures { result ≡ parsed (fields s.now) }
{
    let n = text::up_to(s, b',');
    let letter = letter_of(&s[..n]);
    let f1 = field_after(s, n);
    let f2 = field_after(s, f1.end);
    let f3 = field_after(s, f2.end);
    let f4 = field_after(s, f3.end);
    let f5 = field_after(s, f4.end);
    Line {
        letter,
        count: f1.there + f2.there + f3.there + f4.there + f5.there,
        a: f1.value,
        b: f2.value,
        c: f3.value,
        d: f4.value,
    }
}

// The one byte of a line's first field; 0 for a field of another length.
fn letter_of(s: &[u8]) -> u8
    ensures { result ≡ letter_of s.now }
{
    match s {
        [b] => *b,
        _ => 0,
    }
}

// The field after the comma at place `at`; at the line's end, none.
fn field_after(s: &[u8], at: usize) -> Field
    ensures { FieldAfter s.now at result }
{
    if s.len() <= at {
        return Field {
            there: 0,
            value: 0,
            end: at,
        };
    }
    let rest = text::rest_from(s, at + 1);
    let cut = text::cut_field(rest);
    Field {
        there: 1,
        value: cut.value.unwrap_or(NOT_NUMBER),
        end: at + 1 + cut.end,
    }
}
