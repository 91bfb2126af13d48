// The questions of each line of a log, in either form.
ghost use Rattle.text.specs.Text.{lines};
ghost use Rattle.joblog.specs.Counted.{counter_limit};
ghost use Rattle.joblog.specs.Steps.{lines_by, JudgedFrom};

use super::forms::ask;
use super::reader::reader_at;
use super::{LogQuestion, LogRefusal};

// How many lines a log has, each judged in its turn; its lines have counters or not.
pub(crate) fn judge_lines(text: &[u8], counted: bool) -> Result<usize, LogRefusal>
    ensures { JudgedFrom 0 (lines_by counted counter_limit 0 (lines text.now)) result }
{
    let mut due = None;
    let mut count = 0;
    for bytes in reader_at(text, 0) {
        let line = count + 1;
        if aldlf::ENTRIES < line {
            return Err(LogRefusal {
                question: LogQuestion::TooManyLines,
                line,
            });
        }
        due = ask(bytes, counted, due).map_err(|question| LogRefusal { question, line })?;
        count = line;
    }
    Ok(count)
}
