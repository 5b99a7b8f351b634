// How far the indexes of tags reach: those of a run that is written, or of the reads that a merge would replace.
ghost use Rattle.std.specs.Prelude.{◌≡◌, ◌≤◌, map, IfSome};
ghost use Rattle.considered.specs.Seen.{index_in};
ghost use Rattle.reads.specs.Told.{extent_of};

use crate::planning::Planning;
use considered::index_at;
use reads::{Extent, wider};

impl<'a> Planning<'a> {
    /// The extent of the indexes of the tags at some positions; none of no position.
    #[tactic(auto, using(reads::proofs::Extents::wider_start, reads::proofs::Extents::wider_next, reads::proofs::Extents::wider_end))]
    pub(crate) fn extent(&self, positions: &[u8]) -> Option<Extent>
        ensures extent { result ≡ extent_of (map (index_in self.now.tags.now) positions.now) }
        ensures ordered { IfSome result (λ e. e.least ≤ e.greatest) }
    {
        let mut extent = None;
        for &position in positions {
            extent = Some(wider(extent, index_at(self.tags, position)));
        }
        extent
    }
}
