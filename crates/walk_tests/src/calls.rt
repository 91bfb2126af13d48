// The calls. The buffer of a walk is lent as nines.
use super::show;
use aldlf::{Entry, Node};
use cases::show::counted;
use std::io;

// One entry more than a log may have.
const MOST: usize = aldlf::ENTRIES + 1;

// Asks for a walk in a buffer of six places, and shows them.
pub(crate) fn walk(rt: &impl Print, line: &[u8]) -> io::Result<()> {
    let mut log = [0u32; MOST];
    let mut edges = [9u16; 6];
    let n = cases::words_of(line, 3, &mut log);
    walk_in(rt, line, &log[..n], &mut edges)?;
    show::places(rt, &edges)
}

// Asks for it in the first places of a buffer, as many as the case says, and shows the answer.
pub(crate) fn walk_in(
    rt: &impl Print,
    line: &[u8],
    log: &[u32],
    edges: &mut [u16],
) -> io::Result<()> {
    let node = Node(cases::byte(line, 4));
    let entry = Entry(cases::half(line, 5));
    let m = cases::number_at(line, 6).min(edges.len());
    let table = cases::table(line, 2);
    counted(
        rt,
        "shown",
        walk::walk(table, log, node, entry, &mut edges[..m]),
    )
}

// The shorter of two walks; of equally long ones the first.
pub(crate) fn shorter(rt: &impl Print) -> io::Result<()> {
    let one = [7u16];
    let two = [1u16, 2];
    let pair = [3u16, 4];
    shorter_of(rt, b"the second is shorter:", &two, &one)?;
    shorter_of(rt, b"the first is shorter:", &one, &two)?;
    shorter_of(rt, b"equally long:", &two, &pair)?;
    shorter_of(rt, b"none is shorter:", &two, &one[..0])
}

// Prints the shorter after its name.
fn shorter_of<'a>(rt: &impl Print, name: &[u8], a: &'a [u16], b: &'a [u16]) -> io::Result<()> {
    rt.write_all(name)?;
    show::places(rt, walk::shorter(a, b))
}
