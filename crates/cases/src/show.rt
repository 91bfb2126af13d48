// What is printed of an outcome.
use aldlf::Refusal;
use std::fmt::Display;
use std::io;

// A number behind a space.
pub fn number<T: Copy + Display>(rt: &impl Print, n: T) -> io::Result<()> {
    print!(rt; " {n}")
}

// The numbers of a list, each behind a space.
pub fn numbers<T: Copy + Display>(rt: &impl Print, xs: &[T]) -> io::Result<()> {
    for &x in xs {
        number(rt, x)?;
    }
    Ok(())
}

// What an answer counts, behind its name, or a refusal's number.
pub fn counted(rt: &impl Print, name: &str, answer: Result<usize, Refusal>) -> io::Result<()> {
    match answer {
        Ok(n) => print!(rt; " {name} {n}"),
        Err(r) => print!(rt; " refused {}", r.number()),
    }
}
