// The tables of the cases, changed.
use aldlf::{NodeLine, Table};

// The table with the case's node line in its place, and with so many nodes in use.
pub(crate) fn changed(mut t: Table, line: &[u8]) -> Table {
    if let Some(place) = t.nodes.get_mut(cases::number_at(line, 3)) {
        *place = node(line);
    }
    t.used.nodes = cases::byte(line, 7);
    t
}

fn node(line: &[u8]) -> NodeLine {
    NodeLine {
        kind: cases::letter(cases::field(line, 4)),
        a: cases::byte(line, 5),
        b: cases::byte(line, 6),
    }
}
