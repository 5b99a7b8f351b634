//! The table of the reads under way.
ghost use Rattle.std.specs.Prelude.{◌≡◌, ◌+◌, ◌^◌, ◌<◌, ◌≤◌, [], ◌∷◌, ◌++◌, length, take, get_or, sum_by};
ghost use Rattle.fields.specs.Format.{All};
ghost use Rattle.planner.specs.Lists.{keep};
ghost use Rattle.planner.specs.Merging.{in_place};
ghost use Rattle.reads.specs.Held.{no_held, count_of, reply_of, limited_reply, is_covered, served, sized, packets_in};
ghost use Rattle.reads.specs.Held.{has_room, added};
ghost use Rattle.reads.specs.Rows.{held, grouped};
ghost use Rattle.reads.specs.Told.{plain_from};

use crate::cover::Covered;
use crate::row::{GroupRead, Read, Row};
use crate::{cover, pack};
use fields::Size;
use lists::layout::MOST_TAGS;
use packing::Cost;
use std::alloc::AllocError;
use std::marker::Model;

/// The reads under way: any list of at most 256 reads that serve 256 positions at most, all together. A read may be plain or of a group,
/// under any number; its name may stand anywhere in the first 65,535 bytes of a list; it may serve any positions, none, or those that
/// another read serves; and its request and its reply may be of any size. `new` and `add` tell such a list read by read, `plain` that of
/// the tags, and `len` and `read` tell it back.
// Arrays and how much of them is in use, and no `Table`: the positions of a read are put all at once, and a merge copies all. No `Debug`
// and no `PartialEq`: what lies behind the reads in use would be printed and compared too.
#[derive(Drop)]
pub struct Reads {
    rows: [Row; MOST_TAGS],
    count: usize,
    members: [u8; MOST_TAGS],
    used: usize,
}

impl Model for Reads {
    ghost use Rattle.std.specs.Prelude.{◌≡◌, ◌≤◌, List, take, map, sum_by};
    ghost use Rattle.fields.specs.Format.{All};
    ghost use Rattle.reads.specs.Held.{Held, count_of};

    ghost Value = { List Held };

    ghost use Rattle.reads.specs.Rows.{held_in};

    ghost view = { λ r. map (held_in r.members) (take r.count r.rows) };

    ghost invariant = { λ r. (r.count ≤ 256) × (r.used ≤ 256) × All (λ row. row.to ≤ r.used) (take r.count r.rows) × (r.used ≡ sum_by count_of (map (held_in r.members) (take r.count r.rows))) };
}

impl Clone for Reads {
    fn clone(&self) -> Result<Self, AllocError>
        ensures { result ≡ Ok self.now }
    {
        Ok(self.copy())
    }
}

impl Reads {
    /// No read.
    pub fn new() -> Self
        ensures { result ≡ [] }
    {
        let none = Row {
            group: None,
            start: 0,
            end: 0,
            from: 0,
            to: 0,
            request: 0,
            reply: 0,
        };
        Reads {
            rows: [none; MOST_TAGS],
            count: 0,
            members: [0; MOST_TAGS],
            used: 0,
        }
    }

    /// A plain read of each tag, by the sizes of its read: of the first 256, past which there is no tag.
    pub fn plain(sizes: &[Size]) -> Self
        ensures first { result ≡ plain_from 0 (take MOST_TAGS sizes.now) }
        ensures all { length sizes.now ≤ MOST_TAGS → result ≡ plain_from 0 sizes.now }
    {
        let first = &sizes[..sizes.len().min(MOST_TAGS)];
        let mut reads = Reads::new();
        // `as`, here and where a place is put: each is 256 at most; `try_from` would bring an error that cannot come.
        for (i, size) in first.iter().enumerate() {
            let position = [i as u8];
            reads.push(Read {
                group: None,
                start: 0,
                end: 0,
                serves: &position,
                request: size.request,
                reply: size.reply,
            });
        }
        reads
    }

    /// The same reads in a table of their own. It can't fail, as `clone` might by its type.
    pub fn copy(&self) -> Self
        ensures { result ≡ self.now }
    {
        Reads {
            rows: self.rows,
            count: self.count,
            members: self.members,
            used: self.used,
        }
    }

    /// No read is left.
    pub(crate) fn clear(&mut self)
        ensures { self.new ≡ [] }
    {
        self.count = 0;
        self.used = 0;
    }

    /// How many reads there are.
    // How many there are at most stands in a clause, here and below.
    pub fn len(&self) -> usize
        ensures len { result ≡ length self.now }
        ensures within { result ≤ MOST_TAGS }
        ensures served { sum_by count_of self.now ≤ MOST_TAGS }
    {
        self.rows[..self.count].len()
    }

    /// A read by its number, lent; past the end a read of nothing.
    pub fn read(&self, i: usize) -> Read<'_>
        ensures { held result ≡ get_or self.now i no_held }
    {
        if self.len() <= i {
            return Read {
                group: None,
                start: 0,
                end: 0,
                serves: &self.members[..0],
                request: 0,
                reply: 0,
            };
        }
        let row = self.rows[i];
        Read {
            group: row.group,
            start: row.start,
            end: row.end,
            serves: row.serves(&self.members),
            request: row.request,
            reply: row.reply,
        }
    }

    // How many positions they serve.
    fn served(&self) -> usize
        ensures served { result ≡ sum_by count_of self.now }
        ensures within { result ≤ MOST_TAGS }
    {
        self.used
    }

    /// One read more, behind the others, if there is room for it and for its positions; whether there was. Else the reads stay as they are.
    // Two tests, and nothing is written before both.
    #[tactic(auto, using(crate::proofs::Rooms::no_row, crate::proofs::Rooms::no_place, crate::proofs::Rooms::room, crate::proofs::Rooms::added_no_row, crate::proofs::Rooms::added_no_place, crate::proofs::Rooms::added_room))]
    pub fn add(&mut self, read: Read) -> bool
        ensures room { result ≡ has_room self.old (length read.entry.serves.now) }
        ensures reads { self.new ≡ added self.old (held read.entry) }
    {
        if MOST_TAGS <= self.len() {
            return false;
        }
        if MOST_TAGS - self.served() < read.serves.len() {
            return false;
        }
        self.push(read);
        true
    }

    /// One read more, behind the others.
    // The count and the place are stepped by hand: a table is what has them.
    pub(crate) fn push(&mut self, read: Read)
        requires few { length self.old < MOST_TAGS }
        requires room { sum_by count_of self.old + length read.serves.now ≤ MOST_TAGS }
        ensures { self.new ≡ self.old ++ held read.entry ∷ [] }
    {
        let from = self.used;
        let to = from + read.serves.len();
        self.members[from..to].copy_from_slice(read.serves);
        self.rows[self.count] = Row {
            group: read.group,
            start: read.start,
            end: read.end,
            from: from as u16,
            to: to as u16,
            request: read.request,
            reply: read.reply,
        };
        self.count += 1;
        self.used = to;
    }

    /// One read more, behind the others, which takes in others: it grows into the read of a group that serves these positions.
    pub(crate) fn push_grown(&mut self, read: Read, serves: &[u8], into: GroupRead)
        requires few { length self.old < MOST_TAGS }
        requires more { length read.serves.now ≤ length serves.now }
        requires room { sum_by count_of self.old + length serves.now ≤ MOST_TAGS }
        ensures { self.new ≡ self.old ++ grouped into serves.now ∷ [] }
    {
        let from = self.used;
        let to = from + serves.len();
        let own = read.serves.len();
        self.members[from..to].copy_from_slice(serves);
        self.rows[self.count] = Row {
            group: read.group,
            start: read.start,
            end: read.end,
            from: from as u16,
            to: (from + own) as u16,
            request: read.request,
            reply: read.reply,
        };
        self.rows[self.count].grow((serves.len() - own) as u16, into);
        self.count += 1;
        self.used = to;
    }

    /// What the covered reads come to: those whose positions are all marked.
    pub fn covered(&self, marks: &[bool; MOST_TAGS]) -> Covered
        ensures count { result.count ≡ length (keep (is_covered marks.now) self.now) }
        ensures within { result.count ≤ MOST_TAGS }
        ensures reply { result.reply ≡ sum_by reply_of (keep (is_covered marks.now) self.now) }
        ensures small { result.reply ≤ 2 ^ 72 }
        ensures modest { All (λ r. reply_of r ≤ 2 ^ 40) self.now → result.reply ≤ 2 ^ 48 }
    {
        cover::total(&self.rows[..self.count], &self.members, marks)
    }

    /// The bytes of the replies of the covered reads together, of which one that is larger than any size table has counts as nothing: so
    /// they are 2^48 at most, whatever the reads reply.
    pub fn total_reply(&self, marks: &[bool; MOST_TAGS]) -> u64
        ensures reply { result ≡ sum_by limited_reply (keep (is_covered marks.now) self.now) }
        ensures small { result ≤ 2 ^ 48 }
    {
        cover::total_reply(&self.rows[..self.count], &self.members, marks)
    }

    /// The positions of the covered reads, from the front of a buffer on; how many they are.
    pub fn unite(&self, marks: &[bool; MOST_TAGS], out: &mut [u8; MOST_TAGS]) -> usize
        ensures positions { take result out.new ≡ served (keep (is_covered marks.now) self.now) }
        ensures within { result ≤ MOST_TAGS }
    {
        cover::unite(&self.rows[..self.count], &self.members, marks, out)
    }

    /// The packets of the reads.
    // `cost` and `budget` go side by side, as in `packing`.
    pub fn packets(&self, cost: Cost, budget: u16) -> u64
        ensures { result ≡ packets_in cost budget self.now }
    {
        pack::packets(cost, budget, &self.rows[..self.count])
    }

    /// The packets of the reads, a read of these sizes being in the place of the covered ones.
    pub fn packets_with(
        &self,
        cost: Cost,
        budget: u16,
        marks: &[bool; MOST_TAGS],
        request: u64,
        reply: u64,
    ) -> u64
        ensures { let read = sized request reply in
            result ≡ packets_in cost budget (in_place (is_covered marks.now) read self.now) }
    {
        pack::packets_with(
            cost,
            budget,
            &self.rows[..self.count],
            &self.members,
            marks,
            request,
            reply,
        )
    }
}
