// A group, and how it is kept in the table of the groups.
ghost use Rattle.std.specs.Prelude.{◌≤◌};

/// How a group is read.
#[derive(Clone, Copy, Debug, PartialEq, Eq)]
pub enum Shape {
    /// A struct, whole: its bytes.
    Struct { size: u16 },
    /// A run of elements: its cluster's number among those of its array, from 1 on, and the bytes of an element.
    Run { number: u16, width: u16 },
}

/// A group: the tag that spells it, where its name or its array's ends there, and how it is read.
#[derive(Clone, Copy, Debug, PartialEq, Eq)]
pub struct Group {
    pub tag: u8,
    pub end: u8,
    pub shape: Shape,
}

impl Group {
    /// No group, as a new table holds it.
    pub(crate) const NONE: Group = Group {
        tag: 0,
        end: 0,
        shape: Shape::Struct { size: 0 },
    };
}

/// A group in the table, and where the positions that it serves start and end in the row of all positions.
// No `Debug` and no `PartialEq`: it is never seen outside its table.
#[derive(Clone, Copy)]
pub(crate) struct Entry {
    pub group: Group,
    pub from: u16,
    pub to: u16,
    ghost ordered: { from ≤ to },
    ghost within: { to ≤ 16640 },
}
