//! The merge: the covered reads become one.
ghost use Rattle.std.specs.Prelude.{◌≡◌, [], length};
ghost use Rattle.planner.specs.Lists.{keep};
ghost use Rattle.planner.specs.Merging.{in_place};
ghost use Rattle.reads.specs.Held.{is_covered, served};
ghost use Rattle.reads.specs.Rows.{grouped, merged};
ghost use Rattle.reads.specs.Told.{MergeTold};

use crate::row::GroupRead;
use crate::table::Reads;
use lists::layout::MOST_TAGS;

/// The reads, of which the first covered one grows into the read of a group, and the other covered ones are left out.
#[tactic(auto, using(crate::proofs::Placing::place_start, crate::proofs::Placing::room_few, crate::proofs::Placing::place_other, crate::proofs::Placing::place_first, crate::proofs::Placing::room_counts))]
fn put_merged(
    old: &Reads,
    marks: &[bool; MOST_TAGS],
    serves: &[u8],
    into: GroupRead,
    out: &mut Reads,
)
    requires empty { out.old ≡ [] }
    requires united { serves.now ≡ served (keep (is_covered marks.now) old.now) }
    ensures { out.new ≡ in_place (is_covered marks.now) (grouped into serves.now) old.now }
{
    let mut placed = false;
    for i in 0..old.len() {
        let read = old.read(i);
        let covered = read.is_covered(marks);
        if !covered {
            out.push(read);
        } else if !placed {
            out.push_grown(read, serves, into);
            placed = true;
        }
    }
}

impl Reads {
    /// The covered reads become one, the read of a group, which serves the positions of all of them.
    // Cut at a count: the positions stand at the front of an array, since nothing here may allocate.
    pub fn merge(&mut self, marks: &[bool; MOST_TAGS], into: GroupRead)
        ensures merged { self.new ≡ merged marks.now into self.old }
        ensures told { MergeTold marks.now into self.old self.new }
    {
        let mut positions = [0; MOST_TAGS];
        let n = self.unite(marks, &mut positions);
        let old = self.copy();
        self.clear();
        put_merged(&old, marks, &positions[..n], into, self);
    }
}
