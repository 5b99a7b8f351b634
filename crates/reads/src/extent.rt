//! How far indexes reach: the least and the greatest of them.
ghost use Rattle.std.specs.Prelude.{◌≡◌, ◌≤◌, map, IfSome};
ghost use Rattle.planner.specs.Lists.{keep, least, greatest};
ghost use Rattle.reads.specs.Held.{is_covered, served};
ghost use Rattle.reads.specs.Told.{wider, extent_of, number_at};

use crate::table::Reads;
use lists::layout::MOST_TAGS;

/// The least and the greatest of several numbers.
#[derive(Clone, Copy, Debug, PartialEq, Eq)]
pub struct Extent {
    pub least: u32,
    pub greatest: u32,
}

/// An extent, if there is one, with a number more.
pub fn wider(extent: Option<Extent>, n: u32) -> Extent
    ensures numbers { result ≡ wider extent n }
    ensures ordered { result.least ≤ result.greatest }
{
    match extent {
        None => Extent {
            least: n,
            greatest: n,
        },
        Some(e) => Extent {
            least: e.least.min(n),
            greatest: e.greatest.max(n),
        },
    }
}

// The extent of the numbers of some positions; none of no position.
#[tactic(auto, using(crate::proofs::Extents::wider_start, crate::proofs::Extents::wider_next, crate::proofs::Extents::wider_end))]
fn extent_at(positions: &[u8], numbers: &[u32; MOST_TAGS]) -> Option<Extent>
    ensures extent { result ≡ extent_of (map (number_at numbers.now) positions.now) }
    ensures ordered { IfSome result (λ e. e.least ≤ e.greatest) }
{
    let mut extent = None;
    for &position in positions {
        extent = Some(wider(extent, numbers[usize::from(position)]));
    }
    extent
}

impl Reads {
    /// The least and the greatest index of the tags that covered reads serve, 0 and 0 where they serve none; `indexes` has the index of
    /// the tag at each position.
    // Cut at a count: the positions stand at the front of an array, since nothing here may allocate.
    pub fn bounds(&self, marks: &[bool; MOST_TAGS], indexes: &[u32; MOST_TAGS]) -> Extent
        ensures least { result.least
            ≡ least (map (number_at indexes.now) (served (keep (is_covered marks.now) self.now))) }
        ensures greatest { result.greatest
            ≡ greatest (map (number_at indexes.now) (served (keep (is_covered marks.now) self.now))) }
        ensures ordered { result.least ≤ result.greatest }
    {
        let mut positions = [0; MOST_TAGS];
        let n = self.unite(marks, &mut positions);
        extent_at(&positions[..n], indexes).unwrap_or(Extent {
            least: 0,
            greatest: 0,
        })
    }
}
