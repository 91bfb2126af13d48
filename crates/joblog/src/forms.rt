// The two forms of a log's line, without or with the platesetter's counter: its questions and its word.
ghost use Rattle.std.specs.Prelude.{◌≡◌, true};
ghost use Rattle.joblog.specs.Log.{word_in};
ghost use Rattle.joblog.specs.Counted.{after_comma};
ghost use Rattle.joblog.specs.Steps.{facts_by, due_of, AskedOf};

use super::LogQuestion;
use super::counters::{Counter, counter_at, next_counter};
use super::facts::facts_of;

// The questions of a line, where `due` is the counter due (none before the first line, where any may come); the answer is the
// counter due after it. In the first form none is.
pub(crate) fn ask(
    line: &[u8],
    counted: bool,
    due: Option<Counter>,
) -> Result<Option<Counter>, LogQuestion>
    ensures { AskedOf counted (due_of due) line.now result }
{
    if counted {
        return ask_counted(line, due);
    }
    facts_of(line)?;
    Ok(due)
}

// The word of a line; 0 where it gets a no.
pub(crate) fn word_by(line: &[u8], counted: bool) -> u32
    ensures { result ≡ word_in (facts_by counted line.now) }
{
    let facts = if counted { after_comma(line) } else { line };
    facts_of(facts).unwrap_or(0)
}

// Questions 24, 28, 29, 25 and 26 of a line with a counter, in this order.
fn ask_counted(line: &[u8], due: Option<Counter>) -> Result<Option<Counter>, LogQuestion>
    ensures { AskedOf true (due_of due) line.now result }
{
    let facts = facts_of(after_comma(line));
    if text::up_to(line, b',') == line.len() || facts == Err(LogQuestion::NotNumbers) {
        return Err(LogQuestion::NotNumbers);
    }
    let counter = counter_at(line).ok_or(LogQuestion::NotCounter)?;
    if due.unwrap_or(counter) != counter {
        return Err(LogQuestion::NotNext);
    }
    facts?;
    Ok(Some(next_counter(counter)))
}

// What follows the first comma of a line; nothing where there is none.
fn after_comma(line: &[u8]) -> &[u8]
    ensures { result.now ≡ after_comma line.now }
{
    let n = text::up_to(line, b',');
    text::rest_from(line, n + 1)
}
