// The groups: what may be read in one, each with the positions of the tags that it serves. A row says where the positions of its group
// start and end in the row of positions that stands beside the rows; callers see a list of groups.
ghost use Rattle.std.specs.Prelude.{◌≡◌, ◌<◌, ◌≤◌, ◌+◌, [], ◌∷◌, ◌++◌, length, sum_by};
ghost use Rattle.candidates.specs.Groups.{bunch, bunch_at, bunch_with, served_count, has_room_for, added};

use crate::table::{Entry, Group};
use crate::{GROUPS, SERVED};
use std::marker::Model;

/// A group, lent, with the positions of the tags that it serves.
#[derive(Clone, Copy, Debug, PartialEq, Eq)]
pub struct Served<'a> {
    pub group: Group,
    pub serves: &'a [u8],
}

/// The groups: any list of at most 8,448 groups that serve 16,640 positions at most, all together. A group may have any tag, end and shape,
/// and serve any positions, none, or those that another group serves. `new` and `add` tell such a list group by group, `struct_groups`
/// and `run_groups` those of a list's tags, and `len` and `group` tell it back.
// Arrays and how much of them is in use, and no `Table`: the positions of a group are put all at once. No `Debug` and no `PartialEq`: what
// lies behind the groups in use would be printed and compared too.
#[derive(Drop)]
pub struct Groups {
    rows: [Entry; GROUPS],
    count: usize,
    positions: [u8; SERVED],
    used: usize,
}

impl Model for Groups {
    ghost use Rattle.std.specs.Prelude.{◌≡◌, ◌≤◌, List, take, map, sum_by};
    ghost use Rattle.fields.specs.Format.{All};
    ghost use Rattle.candidates.specs.Columns.{Bunch};
    ghost use Rattle.candidates.specs.Groups.{served_count, bunch_in};

    ghost Value = { List Bunch };

    ghost view = { λ g. map (bunch_in g.positions) (take g.count g.rows) };

    ghost invariant = { λ g. (g.count ≤ 8448) × (g.used ≤ 16640) × All (λ row. row.to ≤ g.used) (take g.count g.rows) × (g.used ≡ sum_by served_count (map (bunch_in g.positions) (take g.count g.rows))) };
}

impl Groups {
    /// No group.
    pub fn new() -> Self
        ensures { result ≡ [] }
    {
        let none = Entry {
            group: Group::NONE,
            from: 0,
            to: 0,
        };
        Groups {
            rows: [none; GROUPS],
            count: 0,
            positions: [0; SERVED],
            used: 0,
        }
    }

    /// No group is left.
    // This and `len` are those of `Reads` too, a line and a fact in a clause each: a trait for both would need laws of its own.
    pub fn clear(&mut self)
        ensures { self.new ≡ [] }
    {
        self.count = 0;
        self.used = 0;
    }

    /// How many groups there are.
    pub fn len(&self) -> usize
        ensures len { result ≡ length self.now }
        ensures within { result ≤ GROUPS }
        ensures served { sum_by served_count self.now ≤ SERVED }
    {
        self.rows[..self.count].len()
    }

    /// How many positions they serve.
    pub fn served(&self) -> usize
        ensures { result ≡ sum_by served_count self.now }
    {
        self.used
    }

    /// A group by its number; past the end one that serves nothing.
    #[tactic(auto, unfolding(crate::specs::Groups::bunch_at))]
    pub fn group(&self, j: usize) -> Served<'_>
        ensures { bunch result ≡ bunch_at self.now j }
    {
        if self.len() <= j {
            return Served {
                group: Group::NONE,
                serves: &self.positions[..0],
            };
        }
        let row = self.rows[j];
        Served {
            group: row.group,
            serves: &self.positions[usize::from(row.from)..usize::from(row.to)],
        }
    }

    /// One group more, behind the others, which serves these positions, if there is room for it and for them; whether there was. Else the
    /// groups stay as they are.
    // Two tests, and nothing is written before both.
    #[tactic(auto, using(crate::proofs::Rooms::no_row, crate::proofs::Rooms::no_place, crate::proofs::Rooms::room, crate::proofs::Rooms::added_no_row, crate::proofs::Rooms::added_no_place, crate::proofs::Rooms::added_room))]
    pub fn add(&mut self, group: Group, serves: &[u8]) -> bool
        ensures room { result ≡ has_room_for self.old (length serves.now) }
        ensures groups { self.new ≡ added self.old (bunch_with group serves.now) }
    {
        if GROUPS <= self.len() {
            return false;
        }
        if SERVED - self.served() < serves.len() {
            return false;
        }
        self.push(group, serves);
        true
    }

    /// One group more, behind the others, which serves these positions.
    pub(crate) fn push(&mut self, group: Group, serves: &[u8])
        requires few { length self.old < GROUPS }
        requires room { sum_by served_count self.old + length serves.now ≤ SERVED }
        ensures { self.new ≡ self.old ++ bunch_with group serves.now ∷ [] }
    {
        let from = self.used;
        let to = from + serves.len();
        self.positions[from..to].copy_from_slice(serves);
        // `as`: no place is past 16,640; `try_from` would bring an error that cannot come.
        self.rows[self.count] = Entry {
            group,
            from: from as u16,
            to: to as u16,
        };
        self.count += 1;
        self.used = to;
    }
}
