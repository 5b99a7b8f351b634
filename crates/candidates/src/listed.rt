// The list file with the table of its tags: names, first spellings and elements by the positions of tags.
ghost use Rattle.std.specs.Prelude.{◌≡◌, take};
ghost use Rattle.candidates.specs.Columns.{names_of, firsts_of, elements_of};
ghost use Rattle.candidates.specs.Runs.{piece_in};

use crate::name::prefix;
use considered::{Element, Tags, tag_at};

/// A list file, and its tags.
// No `Debug` and no `PartialEq`, here and where it is held: a table has none.
#[derive(Clone, Copy)]
pub(crate) struct Listed<'a> {
    pub list: &'a [u8],
    pub tags: &'a Tags,
}

impl<'a> Listed<'a> {
    /// The first `end` bytes of the name of a tag.
    #[tactic(auto, unfolding(crate::specs::Columns::names_of))]
    pub(crate) fn front(&self, tag: u8, end: u8) -> &'a [u8]
        ensures { result.now ≡ take end (names_of self.now.list.now self.now.tags.now tag) }
    {
        let place = tag_at(self.tags, tag).place;
        prefix(self.list, place, usize::from(end))
    }

    /// Whether a tag is the first that is so called.
    #[tactic(auto, unfolding(crate::specs::Columns::firsts_of))]
    pub(crate) fn is_first(&self, tag: u8) -> bool
        ensures { result ≡ firsts_of self.now.tags.now tag }
    {
        tag_at(self.tags, tag).is_first
    }

    /// The element that a tag is; none of no bytes.
    #[tactic(auto, using(crate::proofs::Pieces::pieces))]
    pub(crate) fn element(&self, tag: u8) -> Option<Element>
        ensures { result ≡ piece_in self.now.tags.now tag }
    {
        let element = tag_at(self.tags, tag).element?;
        if element.width == 0 {
            return None;
        }
        Some(element)
    }

    /// The name of the array of which a tag is an element, empty where it is none.
    #[tactic(auto, using(crate::proofs::Pieces::arrays))]
    pub(crate) fn array(&self, tag: u8) -> &'a [u8]
        ensures { let list = self.now.list.now in
            let tags = self.now.tags.now in
            result.now ≡ take ((elements_of tags).end tag) (names_of list tags tag) }
    {
        match tag_at(self.tags, tag).element {
            Some(element) => self.front(tag, element.array),
            None => &self.list[..0],
        }
    }
}
