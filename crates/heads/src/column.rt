// Columns of the standards' tables.
ghost use Rattle.std.specs.Prelude.{◌≡◌, ◌<◌, get_or};

// An entry of a column. A column by value is laid out by a few wide stores, where several of them indexed in the arms
// of one match would be laid out number by number.
pub fn entry<const N: usize>(column: [u16; N], code: usize) -> u16
    requires { code < N }
    ensures { result ≡ get_or column.entry code 0 }
{
    column[code]
}
