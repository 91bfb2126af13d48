// The node lines of the profile: the two new lines of each old one, and the rule's again.
ghost use Rattle.std.specs.Prelude.{◌≡◌, ◌+◌, ◌*◌, ◌<◌};
ghost use Rattle.aldlf.specs.Constants.{node_limit};
ghost use Rattle.aldlf.specs.declared.Table.{Table};
ghost use Rattle.profile.specs.Profile.{exchanged, kept_line, opposite_line, doubled, profile_lines};
ghost use Rattle.profile.specs.Room.{ProfileRoom, NamesRoom};

use aldlf::{Node, NodeLine};
use packing::places::{line_at, used_in};

// All new lines: a last line repeats the rule's.
pub(crate) fn profile_lines(numbers: &[u32]) -> [NodeLine; aldlf::NODES]
    requires { (t : Table) × ProfileRoom t numbers.now }
    ensures { (t : Table) → ProfileRoom t numbers.now → result ≡ profile_lines t.nodes t.used.nodes }
{
    let mut out = doubled_lines(numbers);
    let n = used_in(numbers).nodes as usize;
    out[2 * n] = out[2 * (n - 1)];
    out
}

// The two new lines of each old one. An `N,a` line repeats the two lines of a in the other order.
fn doubled_lines(numbers: &[u32]) -> [NodeLine; aldlf::NODES]
    requires { (t : Table) × ProfileRoom t numbers.now }
    ensures { (t : Table) → ProfileRoom t numbers.now → result ≡ doubled t.nodes t.used.nodes }
{
    let mut out = [NodeLine::default(); aldlf::NODES];
    for k in 0..used_in(numbers).nodes {
        let x = line_at(numbers, Node(k));
        let (kept, opposite) = if x.kind == b'N' {
            let j = 2 * usize::from(x.a);
            (out[j + 1], out[j])
        } else {
            (kept_line(x), opposite_line(Node(k), x))
        };
        let i = 2 * usize::from(k);
        out[i] = kept;
        out[i + 1] = opposite;
    }
    out
}

// New line 2k, for an old line k that is no N: the same letter over the new nodes 2a.
fn kept_line(x: NodeLine) -> NodeLine
    requires { NamesRoom x }
    ensures { result ≡ kept_line x }
{
    match x.kind {
        b'A' | b'O' => NodeLine {
            a: 2 * x.a,
            b: 2 * x.b,
            ..x
        },
        b'D' | b'B' => NodeLine { b: 2 * x.b, ..x },
        _ => x,
    }
}

// New line 2k+1, for an old line k that is no N: its opposite.
fn opposite_line(k: Node, x: NodeLine) -> NodeLine
    requires { (2 * k.0 + 1 < node_limit) × NamesRoom x }
    ensures { result ≡ opposite_line k.0 x }
{
    let kind = exchanged_letter(x.kind);
    match x.kind {
        b'P' => NodeLine {
            kind: b'N',
            a: 2 * k.0,
            b: 0,
        },
        b'A' | b'O' => NodeLine {
            kind,
            a: 2 * x.a + 1,
            b: 2 * x.b + 1,
        },
        b'D' | b'B' => NodeLine {
            kind,
            b: 2 * x.b + 1,
            ..x
        },
        _ => NodeLine { kind, ..x },
    }
}

// The letter that says the opposite over opposites.
fn exchanged_letter(c: u8) -> u8
    ensures { result ≡ exchanged c }
{
    match c {
        b'T' => b'F',
        b'F' => b'T',
        b'A' => b'O',
        b'O' => b'A',
        b'D' => b'B',
        b'B' => b'D',
        _ => c,
    }
}
