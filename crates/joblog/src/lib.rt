// Reading job logs, without or with the platesetter's counter: questions 21 to 29, and the words of the entries.
#![tactic(auto)]

ghost use Rattle.std.specs.Prelude.{◌≡◌, ◌≤◌, ◌++◌, length, drop};
ghost use Rattle.text.specs.Text.{lines};
ghost use Rattle.joblog.specs.Log.{Refused, answer_of, outcome_of, read_outcome};
ghost use Rattle.joblog.specs.Counted.{counted_answer_of, counted_outcome};
ghost use Rattle.joblog.specs.Results.{question_number, answered, counted_answered};
ghost use Rattle.joblog.specs.Steps.{words_by, read_by};

pub mod counters;
pub mod facts;
mod forms;
mod judging;
pub mod reader;

use counters::Counter;

// A question of document 01 that a log gets a no from, with its number there.
#[derive(Clone, Copy, PartialEq, Eq)]
pub enum LogQuestion {
    TooLong = 21,
    NoLastLf = 22,
    TooManyLines = 23,
    NotNumbers = 24,
    TooLarge = 25,
    NotRising = 26,
    // The buffer has fewer places than the log has lines.
    Room = 27,
    NotCounter = 28,
    // The counter is not the one after the line before's.
    NotNext = 29,
}

impl LogQuestion {
    // The question's number.
    pub fn number(self) -> u8
        ensures { result ≡ question_number self }
    {
        self as u8
    }
}

// Why a log is refused: the question that got a no, and its line, 0 where it is about none.
#[derive(Clone, Copy)]
pub struct LogRefusal {
    pub question: LogQuestion,
    pub line: usize,
}

// A log with counters that was read: how many entries, and the first counter.
#[derive(Clone, Copy)]
pub struct Counted {
    pub entries: usize,
    pub first: Counter,
}

// Questions 21 to 27 of a log, and its words in the first places of `words`: bit f of a word is fact f. The answer counts the entries.
pub fn read_log(text: &[u8], words: &mut [u32]) -> Result<usize, LogRefusal>
    ensures { answer_of (answered result) words.new ≡ read_outcome text.now words.old }
{
    read_by(text, words, false)
}

// The same of a log with counters, with questions 28 and 29, and the first counter.
pub fn read_counted(text: &[u8], words: &mut [u32]) -> Result<Counted, LogRefusal>
    ensures { counted_answer_of (counted_answered result) words.new ≡ counted_outcome text.now words.old }
{
    let entries = read_by(text, words, true)?;
    Ok(Counted {
        entries,
        first: counters::first_counter(text),
    })
}

// A log of either form. Every question has its yes before the first word is stored, so a refusal alters nothing.
fn read_by(text: &[u8], words: &mut [u32], counted: bool) -> Result<usize, LogRefusal>
    ensures { answer_of (answered result) words.new ≡ outcome_of (read_by counted text.now (length words.old)) words.old }
{
    if text::BYTES < text.len() {
        return whole_log(LogQuestion::TooLong);
    }
    if !text::ends_in_lf(text) {
        return whole_log(LogQuestion::NoLastLf);
    }
    let count = judging::judge_lines(text, counted)?;
    if words.len() < count {
        return whole_log(LogQuestion::Room);
    }
    store_words(text, words, counted);
    Ok(count)
}

// A no about no line.
fn whole_log(question: LogQuestion) -> Result<usize, LogRefusal>
    ensures { answered result ≡ Refused (question_number question) 0 }
{
    Err(LogRefusal { question, line: 0 })
}

// The words of a log's lines, one line at a time, into the first places of `words`.
fn store_words(text: &[u8], words: &mut [u32], counted: bool)
    requires { length (words_by counted (lines text.now)) ≤ length words.old }
    ensures { words.new ≡ words_by counted (lines text.now) ++ drop (length (words_by counted (lines text.now))) words.old }
{
    // Counted by hand: what `enumerate` asks of the number of lines was not proved.
    let mut k: usize = 0;
    for line in reader::reader_at(text, 0) {
        words[k] = forms::word_by(line, counted);
        k += 1;
    }
}
