// What the planner knows of a listed tag and of a struct above one: a row each, and the tables of these rows.
ghost use Rattle.std.specs.Prelude.{◌≡◌};
ghost use Rattle.considered.specs.Seen.{index_in, tag_in};

use fields::Size;
use fields::table::Table;
use lists::layout::MOST_TAGS;

/// The most tokens of a tag's name: each has two bytes at least, but the first.
pub const MOST_LEVELS: usize = 64;

/// The most rows of structs above the tags: one for each token of each tag.
pub const MOST_ROWS: usize = 16384;

/// The element of an array that a tag is: its bytes, its index, and the bytes of the array's name.
#[derive(Clone, Copy, Debug, PartialEq, Eq)]
pub struct Element {
    pub width: u8,
    pub index: u32,
    pub array: u8,
}

/// A listed tag: where its text stands in the list file, whether it is the first that is so called, case ignored, the element of an
/// array that it is, and the bytes of a plain read of it.
#[derive(Clone, Copy, Debug, PartialEq, Eq)]
pub struct Tag {
    pub place: usize,
    pub is_first: bool,
    pub element: Option<Element>,
    pub size: Size,
}

impl Tag {
    /// A row that tells nothing, as a new table holds it: its place is past every list, of any length, so its name is empty.
    pub const BLANK: Tag = Tag {
        place: usize::MAX,
        is_first: false,
        element: None,
        size: Size {
            request: 0,
            reply: 0,
        },
    };
}

/// A struct that a tag is or lies under: the tag's position, where the struct's name ends in the tag's, and the struct's bytes.
#[derive(Clone, Copy, Debug, PartialEq, Eq)]
pub struct Row {
    pub tag: u8,
    pub end: u8,
    pub size: u16,
}

impl Row {
    /// A row that tells nothing, as a new table holds it.
    pub const BLANK: Row = Row {
        tag: 0,
        end: 0,
        size: 0,
    };
}

/// The listed tags, in order.
pub type Tags = Table<Tag, MOST_TAGS>;

/// The tag at a position; past the last one a blank row.
pub fn tag_at(tags: &Tags, position: u8) -> Tag
    ensures { result ≡ tag_in tags.now position }
{
    tags.rows()
        .get(usize::from(position))
        .copied()
        .unwrap_or(Tag::BLANK)
}

/// The index of the element that the tag at a position is, 0 where it is none.
#[tactic(auto, unfolding(crate::specs::Seen::index_in, planner::specs::Lists::given))]
pub fn index_at(tags: &Tags, position: u8) -> u32
    ensures { result ≡ index_in tags.now position }
{
    match tag_at(tags, position).element {
        Some(element) => element.index,
        None => 0,
    }
}

/// The structs above the tags: those of each tag in a row, the innermost first.
pub type Rows = Table<Row, MOST_ROWS>;
