//! Records that are lent, packed: the packets that their reads take.
ghost use Rattle.std.specs.Prelude.{◌≡◌, map};
ghost use Rattle.packing.specs.Told.{started, steps_of};
ghost use Rattle.planner.specs.Merging.{in_place};
ghost use Rattle.reads.specs.Held.{is_covered, sized, packets_in};
ghost use Rattle.reads.specs.Rows.{held_in, size_in};

use crate::row::Row;
use lists::layout::MOST_TAGS;
use packing::Cost;
use packing::count::{start, step};

/// The packets of the reads, a read of these sizes being in the place of the first covered one, and the other covered ones left out.
// One read stands in the place of several: so it is no `fill_all`. `cost` and `budget` go side by side, as in `packing`.
pub(crate) fn packets_with(
    cost: Cost,
    budget: u16,
    rows: &[Row],
    members: &[u8; MOST_TAGS],
    marks: &[bool; MOST_TAGS],
    request: u64,
    reply: u64,
) -> u64
    ensures { result ≡ packets_in cost budget (in_place (is_covered marks.now) (sized request reply) (map (held_in members.now) rows.now)) }
{
    let mut filling = start(budget);
    let mut placed = false;
    for row in rows {
        if !row.is_covered(members, marks) {
            filling = step(cost, budget, filling, row.request, row.reply);
        } else if !placed {
            filling = step(cost, budget, filling, request, reply);
            placed = true;
        }
    }
    filling.packets
}

/// The packets of the reads.
#[tactic(auto, using(crate::proofs::Filling::all_next, crate::proofs::Filling::all_end))]
pub(crate) fn packets(cost: Cost, budget: u16, rows: &[Row]) -> u64
    ensures { result ≡ (steps_of cost budget (started budget) (map size_in rows.now)).packets }
{
    let mut filling = start(budget);
    for row in rows {
        filling = step(cost, budget, filling, row.request, row.reply);
    }
    filling.packets
}
