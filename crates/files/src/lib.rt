// Reading files whole, for the programs. A read that fails is told from the end of the file, so that a torn text is never taken for a whole one.
// A room of the checker: its programs call it, users do not.
#![tactic(auto)]

ghost use Rattle.std.specs.Prelude.{◌≡◌, ◌↔◌, ◌-◌, ◌<◌, ◌≤◌, length, take, drop, IfOk, Some, IfSome};
ghost use Rattle.std.specs.IoError.{error_kind};
ghost use Rattle.files.specs.Counts.{IsPrefixLen};
ghost use Rattle.std.specs.Io.{ReadsAtMost};
ghost use Rattle.std.specs.Io.KnownBytes.{Consumes, IsAtEnd};
ghost use Rattle.files.specs.Content.{OnBytes, Within};

use std::fs::File;
use std::io;
use std::io::{ErrorKind, Read};
use std::rt::Files;

// How many bytes came of two files, each at the start of its buffer; none where one failed, which was said on standard error. Where the
// first one fails, the other is not opened.
pub fn read_two(
    rt: &(impl Files + Eprint),
    path: &[u8],
    buffer: &mut [u8],
    other: &[u8],
    more: &mut [u8],
) -> Option<(usize, usize)>
    ensures prefix_len { IfSome result (λ n. IsPrefixLen n.0 buffer.new) }
    ensures prefix_len_2 { IfSome result (λ n. IsPrefixLen n.1 more.new) }
{
    let first = read_file(rt, path, buffer)?;
    let second = read_file(rt, other, more)?;
    Some((first, second))
}

// How many bytes came of a file, at the start of `buffer`, as many as fit; none where it failed, which was said. A missing file has none; one whose name is no text does not open.
fn read_file(rt: &(impl Files + Eprint), path: &[u8], buffer: &mut [u8]) -> Option<usize>
    ensures { Within (length buffer.new) result }
{
    let Ok(path) = str::from_utf8(path) else {
        fail(
            rt,
            "a file's name is no text",
            &io::Error::from(ErrorKind::InvalidInput),
        );
        return None;
    };
    match File::open(rt, path) {
        Ok(mut file) => read_all(rt, &mut file, path, buffer),
        Err(e) => not_opened(rt, path, &e),
    }
}

// A file that does not open: only a missing one counts as empty.
fn not_opened(rt: &impl Eprint, path: &str, error: &io::Error) -> Option<usize>
    ensures within { Within 0 result }
    ensures missing { result ≡ Some 0 ↔ error_kind error.now ≡ ErrorKind.NotFound }
{
    if error.kind() == ErrorKind::NotFound {
        return Some(0);
    }
    fail(rt, path, error);
    None
}

// The bytes of an open file. A read that fails is said.
fn read_all<F: Read>(rt: &impl Eprint, file: &mut F, path: &str, buffer: &mut [u8]) -> Option<usize>
    ensures within { Within (length buffer.new) result }
    ensures bytes { OnBytes result (λ n. Consumes (F.remaining file.old) (F.remaining file.new) (take n buffer.new)) }
    ensures end { OnBytes result (λ n. n < length buffer.new → IsAtEnd (F.remaining file.new)) }
{
    match read_full(file, buffer) {
        Ok(n) => Some(n),
        Err(e) => {
            fail(rt, path, &e);
            None
        }
    }
}

// Reads until the reader ends or the buffer is full. Each turn leaves less room, so that it ends even where the reader does not.
// Where a reader's bytes are known, those that came are the first of them, and a buffer that is not full has them all.
pub fn read_full<R: Read>(reader: &mut R, buffer: &mut [u8]) -> io::Result<usize>
    ensures bound { ReadsAtMost result buffer.new }
    ensures bytes { IfOk result (λ n. Consumes (R.remaining reader.old) (R.remaining reader.new) (take n buffer.new)) }
    ensures end { IfOk result (λ n. n < length buffer.new → IsAtEnd (R.remaining reader.new)) }
{
    let mut done: usize = 0;
    // A `while`: how much a turn reads is known only after it, and std's own loops grow a vector or fail at a short file.
    while done < buffer.len() {
        let n = read_some(reader, buffer, done)?;
        if n == 0 {
            return Ok(done);
        }
        done += n;
    }
    Ok(done)
}

// One read, to the places from `done` on. A call that a signal interrupts counts as failed.
fn read_some<R: Read>(reader: &mut R, buffer: &mut [u8], done: usize) -> io::Result<usize>
    requires { done ≤ length buffer.old }
    ensures bound { IfOk result (λ n. n ≤ length buffer.old - done) }
    ensures front { take done buffer.new ≡ take done buffer.old }
    ensures bytes { IfOk result (λ n. Consumes (R.remaining reader.old) (R.remaining reader.new) (take n (drop done buffer.new))) }
    ensures end { IfOk result (λ n. n ≡ 0 → done < length buffer.old → IsAtEnd (R.remaining reader.new)) }
{
    reader.read(&mut buffer[done..])
}

// Says on standard error what failed and why, in one line. Where that fails too, nobody is left to be told.
pub fn fail(rt: &impl Eprint, what: &str, error: &io::Error) {
    let _ = eprintln!(rt; "{what}: {error}");
}
