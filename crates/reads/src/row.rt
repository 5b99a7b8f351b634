//! A read under way: as a record of the table, as it is lent, and what covered reads become. A record says where the positions of its
//! read start and end in the row of positions that stands beside the records.
ghost use Rattle.std.specs.Prelude.{◌≤◌, ◌<◌, ◌^◌};

/// A read under way, as a record.
// No `Debug` and no `PartialEq`: it is never seen outside its table.
#[derive(Clone, Copy)]
pub struct Row {
    /// the number of its group; none for a plain read
    pub group: Option<u16>,
    /// where its name starts and ends in the list, the array's name for a run; 0 and 0 for a plain read
    pub start: u16,
    pub end: u16,
    /// where its positions start and end
    pub from: u16,
    pub to: u16,
    /// the bytes of its request and of its reply
    pub request: u64,
    pub reply: u64,
    ghost ordered: { from ≤ to },
    ghost within: { to ≤ 256 },
    // what its type says, where sums read it
    ghost fits: { reply < 2 ^ 64 },
}

/// A read under way, lent: as a record has it, and the positions that it serves.
#[derive(Clone, Copy, Debug, PartialEq, Eq)]
pub struct Read<'a> {
    pub group: Option<u16>,
    pub start: u16,
    pub end: u16,
    pub serves: &'a [u8],
    pub request: u64,
    pub reply: u64,
}

/// The read of a group: its number, where its name stands in the list, and its sizes.
#[derive(Clone, Copy, Debug, PartialEq, Eq)]
pub struct GroupRead {
    pub group: u16,
    pub start: u16,
    pub end: u16,
    pub request: u64,
    pub reply: u64,
}
