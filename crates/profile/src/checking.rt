// Whether a table is in the profile, line by line.
ghost use Rattle.std.specs.Prelude.{◌≡◌, true, ◌<◌};
ghost use Rattle.aldlf.specs.declared.Table.{Table};
ghost use Rattle.packing.specs.Packed.{Packed};
ghost use Rattle.sheet.specs.Given.{well_formed};
ghost use Rattle.profile.specs.Profile.{line_in_profile, in_profile};

use aldlf::Node;
use packing::places::{line_at, used_in};

// Each node line in use is no N, or stands on a fact.
pub(crate) fn in_profile(numbers: &[u32]) -> bool
    requires { (t : Table) × Packed t numbers.now × (well_formed t ≡ true) }
    ensures { (t : Table) → Packed t numbers.now → well_formed t ≡ true → result ≡ in_profile t }
{
    // Not by `all`: its proof doesn't close, since what is known of a call of the closure speaks of every table lent as these numbers.
    for k in 0..used_in(numbers).nodes {
        if !line_in_profile(numbers, Node(k)) {
            return false;
        }
    }
    true
}

// A node's line is no N, or stands on a fact.
fn line_in_profile(numbers: &[u32], k: Node) -> bool
    requires { (t : Table) × Packed t numbers.now × (well_formed t ≡ true) × (k.0 < t.used.nodes) }
    ensures { (t : Table) → Packed t numbers.now → well_formed t ≡ true → k.0 < t.used.nodes → result ≡ line_in_profile t.nodes k.0 }
{
    let x = line_at(numbers, k);
    x.kind != b'N' || line_at(numbers, Node(x.a)).kind == b'P'
}
