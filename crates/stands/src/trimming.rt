// A table's numbers without the lines of some nodes.
ghost use Rattle.std.specs.Prelude.{◌≡◌, length};
ghost use Rattle.aldlf.specs.Constants.{node_limit};
ghost use Rattle.aldlf.specs.declared.Table.{Table};
ghost use Rattle.packing.specs.Numbers.{places};
ghost use Rattle.packing.specs.Packed.{Packed};
ghost use Rattle.stands.specs.Trimmed.{trimmed};

use packing::places::LINES;

// Nothing stands at the nodes that are not marked: a line all zeros is false.
pub(crate) fn drop_lines(flags: &[bool], own: &mut [u32])
    requires { (length flags.now ≡ node_limit) × (length own.old ≡ places) }
    ensures { (t : Table) → Packed t own.old → Packed (trimmed t flags.now) own.new }
{
    for (k, kept) in flags.iter().enumerate() {
        if !*kept {
            own[LINES + k] = 0;
        }
    }
}
