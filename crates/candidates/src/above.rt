// The rows of the structs above the tags, as they are lent.
ghost use Rattle.std.specs.Prelude.{◌≡◌, ◌≤◌, length};

use crate::listed::Listed;
use considered::Row;

/// The listed tags, and the rows of the structs above them.
// No `Debug` and no `PartialEq`, here and in `Keyed`: a table has none.
#[derive(Clone, Copy)]
pub(crate) struct Above<'a> {
    pub listed: Listed<'a>,
    pub rows: &'a [Row],
    ghost few: { length rows.now ≤ 16384 },
}

/// The rows, and for each the position of the first row that has its key.
// A column beside the rows: the rows are lent, and a record of both would have to be copied out of them.
#[derive(Clone, Copy)]
pub(crate) struct Keyed<'a> {
    pub above: Above<'a>,
    pub heads: &'a [u16],
    ghost headed: { length heads.now ≡ length above.rows.now },
}
