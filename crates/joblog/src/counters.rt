// The platesetter's step counters: a circle of 65,536 on which one comes after another, the counter of a line, and the entry that bears one.
ghost use Rattle.std.specs.Prelude.{◌≡◌, ◌<◌, ◌==◌, is_ok};
ghost use Rattle.joblog.specs.Counted.{counter_limit, next_counter, steps_between, first_counter, entry_bearing, found_of};
ghost use Rattle.joblog.specs.Steps.{CounterOf};

use aldlf::{Entry, Refusal};

// A platesetter's step counter, 0 to 65,535; after 65,535 comes 0 again.
#[derive(Clone, Copy, Default, PartialEq, Eq)]
pub struct Counter(pub u16);

// The counter after one.
pub fn next_counter(c: Counter) -> Counter
    ensures { result.0 ≡ next_counter c.0 }
{
    Counter(c.0.wrapping_add(1))
}

// The steps from the earlier counter to the later one, round the circle.
pub fn steps_between(earlier: Counter, later: Counter) -> u16
    ensures { result ≡ steps_between earlier.0 later.0 }
{
    later.0.wrapping_sub(earlier.0)
}

// Questions 32 and 30: the entry that bears a counter, of a log of so many entries whose first bears `first`.
pub fn entry_bearing(first: Counter, entries: usize, counter: Counter) -> Result<Entry, Refusal>
    ensures { (found_of result ≡ entry_bearing first.0 entries counter.0) × (is_ok result ≡ ((entry_bearing first.0 entries counter.0).number == 0)) }
{
    if !(1..=aldlf::ENTRIES).contains(&entries) {
        return Err(Refusal::Entries);
    }
    let steps = steps_between(first, counter);
    if entries <= usize::from(steps) {
        return Err(Refusal::NoBearer);
    }
    Ok(Entry(steps))
}

// The first counter of a log.
pub(crate) fn first_counter(text: &[u8]) -> Counter
    requires { first_counter text.now < counter_limit }
    ensures { result.0 ≡ first_counter text.now }
{
    counter_at(text::line_at(text, 0)).unwrap_or_default()
}

// The counter of a line, its first field.
pub(crate) fn counter_at(line: &[u8]) -> Option<Counter>
    ensures { CounterOf line.now result }
{
    let n = text::up_to(line, b',');
    let value = text::read_long_number(&line[..n])?;
    Some(Counter(u16::try_from(value).ok()?))
}
