// A row as 128 numbers, and back.
ghost use Rattle.std.specs.Prelude.{◌≡◌, length};
ghost use Rattle.aldlf.specs.Constants.{node_limit};
ghost use Rattle.crossing.specs.Numbers.{row_of};

use aldlf::Row;

// The row that 128 numbers are.
pub fn row_of(xs: &[u16]) -> Row
    requires { length xs.now ≡ node_limit }
    ensures { result ≡ row_of xs.now }
{
    let mut bits = [0u16; aldlf::NODES];
    bits.copy_from_slice(xs);
    Row { bits }
}

// A row's numbers, which take the whole slice.
pub fn put_row(row: Row, out: &mut [u16])
    requires { length out.old ≡ node_limit }
    ensures { out.new ≡ row.bits }
{
    out.copy_from_slice(&row.bits);
}
