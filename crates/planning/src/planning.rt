// What merges are weighed by, in one: the list, its tags and the groups; and what is read of these tables by a number or a position.
ghost use Rattle.std.specs.Prelude.{◌≡◌, ◌≤◌, ◌-◌, length, get_or};
ghost use Rattle.candidates.specs.Groups.{bunch, bunch_at};
ghost use Rattle.reads.specs.Held.{IsMarked};
ghost use Rattle.planning.specs.Choosing.{name_part, name_text, cluster_of};

use candidates::groups::{Groups, Served};
use candidates::name::prefix_at;
use candidates::table::Shape;
use considered::{Tags, tag_at};
use fields::Part;
use lists::layout::MOST_TAGS;
use packing::Cost;
use reads::mark;

/// The list file, its tags and the groups, with the bytes that each group is asked for by: those of a struct's request, or of its array's.
// No `Debug` and no `PartialEq`: a table has none.
#[derive(Clone, Copy)]
pub(crate) struct Planning<'a> {
    pub cost: Cost,
    pub list: &'a [u8],
    pub tags: &'a Tags,
    pub groups: &'a Groups,
    pub asks: &'a [u16],
}

impl<'a> Planning<'a> {
    /// A group by its number; past the end one that serves nothing.
    pub(crate) fn group(&self, j: usize) -> Served<'a>
        ensures { bunch result ≡ bunch_at self.now.groups.now j }
    {
        self.groups.group(j)
    }

    /// The bytes that a group is asked for by.
    pub(crate) fn ask(&self, j: usize) -> u16
        ensures { result ≡ get_or self.now.asks.now j 0 }
    {
        self.asks.get(j).copied().unwrap_or(0)
    }

    /// Where the name of a group stands in the list.
    #[tactic(auto, using(crate::proofs::Entries::part_short), unfolding(crate::specs::Choosing::name_part))]
    pub(crate) fn name(&self, j: usize) -> Part
        ensures part { result ≡ name_part self.now j }
        ensures ordered { result.start ≤ result.end }
        ensures inside { result.end ≤ length self.now.list.now }
        ensures short { result.end - result.start ≤ 255 }
    {
        let group = self.groups.group(j).group;
        let place = tag_at(self.tags, group.tag).place;
        prefix_at(self.list, place, usize::from(group.end))
    }

    /// The name of a group, an array's for a run.
    #[tactic(auto, unfolding(crate::specs::Choosing::name_text))]
    pub(crate) fn text(&self, j: usize) -> &'a [u8]
        ensures text { result.now ≡ name_text self.now j }
        ensures short { length result.now ≤ 255 }
    {
        let list = self.list;
        self.name(j).of(list)
    }

    /// The number of a run's cluster among those of its array, from 0 on; none for a struct.
    pub(crate) fn cluster(&self, j: usize) -> Option<u16>
        ensures { result ≡ cluster_of (bunch_at self.now.groups.now j).number }
    {
        match self.group(j).group.shape {
            Shape::Struct { .. } => None,
            Shape::Run { number, .. } => number.checked_sub(1),
        }
    }

    /// The bytes of a struct, or of a run's element.
    pub(crate) fn weight(&self, j: usize) -> u16
        ensures { result ≡ (bunch_at self.now.groups.now j).weight }
    {
        match self.group(j).group.shape {
            Shape::Struct { size } => size,
            Shape::Run { width, .. } => width,
        }
    }

    /// Marks the positions that a group serves.
    pub(crate) fn mark(&self, j: usize, marks: &mut [bool; MOST_TAGS])
        ensures { IsMarked (bunch_at self.now.groups.now j).serves marks.new }
    {
        mark(self.groups.group(j).serves, marks);
    }
}
