// Offers: the merge of the reads that one group covers, by numbers alone. A struct is read whole, a run from the least index of the covered
// reads to the greatest.
ghost use Rattle.std.specs.Prelude.{◌≡◌, ◌+◌, ◌*◌, ◌≤◌, ◌<◌, leb, IfSome};
ghost use Rattle.planner.specs.Lists.{least, greatest};
ghost use Rattle.planning.specs.Merges.{Offered, Modest, Applied};
ghost use Rattle.planning.specs.Choosing.{NamesKept};
ghost use Rattle.planning.specs.Turns.{weighed, covered_indexes, whole_offer, run_offer};

use crate::planning::Planning;
use candidates::GROUPS;
use lists::layout::MOST_TAGS;
use packing::Cost;
use reads::{Extent, GroupRead, Reads};
use sizes::request::index_size;

// The furthest that two indexes of a run may lie apart: no index of a listed tag is larger.
const LARGEST_INDEX: u32 = 1_000_000;

/// A merge: its group, how many reads it saves, what those that it replaces reply, what the new read takes, and where a run starts and how
/// many elements it spans.
// Its bounds stand in the clauses, as `Modest`: a ghost field is a field of the record that the definitions make, and asks each for a proof.
#[derive(Clone, Copy, Debug, PartialEq, Eq)]
pub(crate) struct Offer {
    pub group: usize,
    pub saved: u64,
    pub before: u128,
    pub request: u64,
    pub reply: u64,
    pub start: u32,
    pub span: u32,
}

impl Offer {
    /// Whether it costs little enough: what it replies beyond need is worth the reads that it saves.
    // `Modest` is asked for in a clause, here and below: see `Offer`.
    pub(crate) fn is_cheap(self, cost: Cost) -> bool
        requires { Modest self }
        ensures { result ≡ leb self.reply (self.before + cost.bytes_per_read * self.saved) }
    {
        let worth = u64::from(cost.bytes_per_read) * self.saved;
        u128::from(self.reply) <= self.before + u128::from(worth)
    }

    /// What it replies beyond what it replaces, for each read that it saves, against another: of two merges that with the smaller weight is
    /// better.
    #[tactic(auto, unfolding(crate::specs::Turns::weighed))]
    pub(crate) fn weight(self, other: Offer) -> u128
        requires own { Modest self }
        requires other { Modest other }
        ensures { result ≡ weighed self other }
    {
        let own = u128::from(self.reply) * u128::from(other.saved);
        own + other.before * u128::from(self.saved)
    }
}

// The merge of a struct.
fn whole_offer(j: usize, saved: u64, before: u128, ask: u16, weight: u16) -> Offer
    ensures { result ≡ whole_offer j saved before ask weight }
{
    Offer {
        group: j,
        saved,
        before,
        request: u64::from(ask),
        reply: u64::from(weight) + 10,
        start: 0,
        span: 0,
    }
}

// The merge of a run between two indexes; none where they lie too far apart.
#[tactic(auto, using(crate::proofs::Offers::run_far, crate::proofs::Offers::run_near, crate::proofs::Offers::run_fits))]
fn run_offer(
    j: usize,
    saved: u64,
    before: u128,
    ask: u16,
    weight: u16,
    extent: Extent,
) -> Option<Offer>
    requires { extent.least ≤ extent.greatest }
    ensures { result ≡ run_offer j saved before ask weight extent.least extent.greatest }
{
    let wide = extent.greatest - extent.least;
    if LARGEST_INDEX < wide {
        return None;
    }
    Some(Offer {
        group: j,
        saved,
        before,
        request: u64::from(ask) + index_size(u64::from(extent.least)),
        reply: (u64::from(wide) + 1) * u64::from(weight) + 8,
        start: extent.least,
        span: wide + 1,
    })
}

impl Planning<'_> {
    // The extent of the indexes of the tags that covered reads serve, 0 and 0 where they serve none.
    // Cut at a count: the positions stand at the front of an array, since nothing here may allocate.
    fn covered_extent(&self, marks: &[bool; MOST_TAGS], reads: &Reads) -> Extent
        ensures least { result.least
            ≡ least (covered_indexes self.now reads.now marks.now) }
        ensures greatest { result.greatest
            ≡ greatest (covered_indexes self.now reads.now marks.now) }
        ensures ordered { result.least ≤ result.greatest }
    {
        let mut positions = [0; MOST_TAGS];
        let n = reads.unite(marks, &mut positions);
        self.extent(&positions[..n]).unwrap_or(Extent {
            least: 0,
            greatest: 0,
        })
    }

    /// The merge of the reads that a group covers, whose positions are marked; none of fewer than two reads.
    #[tactic(auto, using(crate::proofs::Offers::modest_run, crate::proofs::Offers::offered_run))]
    pub(crate) fn evaluate(
        &self,
        j: usize,
        marks: &[bool; MOST_TAGS],
        reads: &Reads,
    ) -> Option<Offer>
        requires { j < GROUPS }
        ensures offer { Offered j self.now reads.now marks.now result }
        ensures modest { IfSome result Modest }
    {
        let covered = reads.covered(marks);
        if covered.count < 2 {
            return None;
        }
        // `as`: no `From` leads from `usize` to `u64`.
        let saved = (covered.count - 1) as u64;
        let ask = self.ask(j);
        let weight = self.weight(j);
        match self.cluster(j) {
            None => Some(whole_offer(j, saved, covered.reply, ask, weight)),
            Some(_) => {
                let extent = self.covered_extent(marks, reads);
                run_offer(j, saved, covered.reply, ask, weight, extent)
            }
        }
    }

    /// The reads after a merge; the positions of its group are marked.
    // `NamesKept` stands in the clauses of all that merges: that a read has the range of its name is known of reads and groups together.
    pub(crate) fn apply(&self, m: Offer, marks: &[bool; MOST_TAGS], reads: &mut Reads)
        requires { Modest m }
        ensures merged { Applied self.now m marks.now reads.old reads.new }
        ensures named { NamesKept self.now reads.old reads.new }
    {
        let name = self.name(m.group);
        // `as`: the clauses bound the number, and a place is told by its lowest bytes.
        let into = GroupRead {
            group: m.group as u16,
            start: (name.start % 65_536) as u16,
            end: (name.end % 65_536) as u16,
            request: m.request,
            reply: m.reply,
        };
        reads.merge(marks, into);
    }
}
