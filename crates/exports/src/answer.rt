// One number for an answer.
ghost use Rattle.std.specs.Prelude.{◌≡◌, ◌≤◌, ◌<◌};
ghost use Rattle.aldlf.specs.Outcomes.{one};
ghost use Rattle.exports.specs.Answers.{answer_code};
ghost use Rattle.exports.specs.Lists.{list_code};
ghost use Rattle.exports.specs.RuleTexts.{longest, length_code};

// The number of the question that got a no (0: accepted), its line, the count and what is given besides, side by side.
pub(crate) fn code(number: u8, line: usize, count: usize, extra: u16) -> u64
    requires { (line < 65536) × (count < 65536) }
    ensures { result ≡ answer_code number line count extra }
{
    (count as u64)
        + 65536 * (number as u64)
        + 4294967296 * (line as u64)
        + 281474976710656 * (extra as u64)
}

// A list's answer: the log takes the places of two parts, since it can be 65,536, which 16 bits do not hold.
pub(crate) fn list_code(number: u8, log: usize) -> u64
    requires { log < 4294967296 }
    ensures { result ≡ list_code number log }
{
    65536 * (number as u64) + 4294967296 * (log as u64)
}

// An answer with a length: its lowest 16 bits stand where a count does, the others take the places of two parts.
pub(crate) fn length_code(number: u8, length: usize) -> u64
    requires { length ≤ longest }
    ensures { result ≡ length_code number length }
{
    ((length % 65536) as u64) + 65536 * (number as u64) + 4294967296 * ((length / 65536) as u64)
}

// A yes as a count.
pub(crate) fn one(yes: bool) -> usize
    ensures { (result ≡ one yes) × (result < 2) }
{
    usize::from(yes)
}
