//! What is asked of one read, and the record that grows when its read takes in others.
ghost use Rattle.std.specs.Prelude.{◌≡◌, ◌≤◌, ◌+◌, ◌^◌};
ghost use Rattle.fields.specs.Fields.{limited};
ghost use Rattle.reads.specs.Held.{is_covered, largest_size};
ghost use Rattle.reads.specs.Rows.{serves_in, held_in, held, GrownBy};

use crate::marks::all_marked;
use crate::row::{GroupRead, Read, Row};
use lists::layout::MOST_TAGS;
use packing::LARGEST_ENTRY;

impl Row {
    /// The positions of the tags that it serves.
    pub(crate) fn serves<'a>(&self, members: &'a [u8; MOST_TAGS]) -> &'a [u8]
        ensures { result.now ≡ serves_in members.now self.now }
    {
        &members[usize::from(self.from)..usize::from(self.to)]
    }

    /// Whether the positions that it serves are all marked.
    // The positions of all reads are lent beside the record that cuts them.
    pub(crate) fn is_covered(&self, members: &[u8; MOST_TAGS], marks: &[bool; MOST_TAGS]) -> bool
        ensures { result ≡ is_covered marks.now (held_in members.now self.now) }
    {
        all_marked(self.serves(members), marks)
    }

    /// The bytes of its reply; none where they are more than any size table has.
    #[tactic(auto, unfolding(fields::specs::Fields::limited))]
    pub(crate) fn limited_reply(&self) -> u64
        ensures reply { result ≡ limited largest_size self.now.reply }
        ensures small { result ≤ 2 ^ 40 }
    {
        if LARGEST_ENTRY < self.reply {
            0
        } else {
            self.reply
        }
    }

    /// It takes in others: so many positions more, behind its own, and it becomes the read of a group.
    pub(crate) fn grow(&mut self, more: u16, into: GroupRead)
        requires room { self.old.to + more ≤ MOST_TAGS }
        ensures { GrownBy self.old more into self.new }
    {
        self.group = Some(into.group);
        self.start = into.start;
        self.end = into.end;
        self.to += more;
        self.request = into.request;
        self.reply = into.reply;
    }
}

impl Read<'_> {
    /// Whether the positions that it serves are all marked; those of a read of nothing are.
    pub fn is_covered(&self, marks: &[bool; MOST_TAGS]) -> bool
        ensures { result ≡ is_covered marks.now (held self.now) }
    {
        all_marked(self.serves, marks)
    }
}
