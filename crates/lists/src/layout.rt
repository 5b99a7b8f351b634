// What a list file is made of, in the order in which it stands there, with the limits of each field.
use fields::Width;
use fields::number::{GREATEST_OF_FOUR, GREATEST_OF_TWO};
use fields::row::{Counted, IndexedText, Number, Text};

/// The most bytes of a list file.
pub const LONGEST_FILE: usize = 16384;
/// The most no-group names.
pub const MOST_NO_GROUP: usize = 256;
/// The most bytes of a no-group name.
pub const LONGEST_NO_GROUP: usize = 136;
/// The most together names.
pub const MOST_TOGETHER: usize = 64;
/// The most tags.
pub const MOST_TAGS: usize = 256;
/// The most bytes of a tag, and of a together name.
pub const LONGEST_NAME: usize = 128;
/// The greatest index or count in a tag.
pub const GREATEST_INDEX: u64 = 1000000;

/// The most bytes of a struct that is read whole.
pub const WHOLE_MAX: Number = Number {
    width: Width::Four,
    max: GREATEST_OF_FOUR,
};
/// The bytes of a packet.
pub const BUDGET: Number = Number {
    width: Width::Two,
    max: GREATEST_OF_TWO,
};
/// The names, in lower case, that are never read with others.
pub const NO_GROUP: Counted<Text> = Counted {
    width: Width::Two,
    max: MOST_NO_GROUP,
    field: Text {
        max: LONGEST_NO_GROUP,
    },
};
/// The names that are read whole wherever they are asked for.
pub const TOGETHER: Counted<Text> = Counted {
    width: Width::Two,
    max: MOST_TOGETHER,
    field: Text { max: LONGEST_NAME },
};
/// A tag that is asked for.
pub const TAG: IndexedText = IndexedText {
    max: LONGEST_NAME,
    most: GREATEST_INDEX,
};
/// The tags that are asked for.
pub const TAGS: Counted<IndexedText> = Counted {
    width: Width::Two,
    max: MOST_TAGS,
    field: TAG,
};
