//! The covered ones among records that are lent: how many they are, what they reply, and the positions that they serve.
ghost use Rattle.std.specs.Prelude.{◌≡◌, ◌≤◌, ◌^◌, map, length, take, sum_by};
ghost use Rattle.planner.specs.Lists.{keep};
ghost use Rattle.reads.specs.Held.{count_of, reply_of, limited_reply, is_covered, served};
ghost use Rattle.reads.specs.Rows.{held_in};

use crate::row::Row;
use lists::layout::MOST_TAGS;

/// What covered reads come to: how many they are, and the bytes of their replies together.
#[derive(Clone, Copy, Debug, PartialEq, Eq)]
pub struct Covered {
    pub count: usize,
    pub reply: u128,
}

/// What the covered ones come to.
// Records, positions and marks apart, here and in the packing: a struct of them is no plainer, with ghost fields for its lengths and a
// file and a method of its own. Counted in a loop: chains would test each record twice.
pub(crate) fn total(rows: &[Row], members: &[u8; MOST_TAGS], marks: &[bool; MOST_TAGS]) -> Covered
    requires few { length rows.now ≤ MOST_TAGS }
    ensures count { result.count
        ≡ length (keep (is_covered marks.now) (map (held_in members.now) rows.now)) }
    ensures within { result.count ≤ MOST_TAGS }
    ensures reply { result.reply
        ≡ sum_by reply_of (keep (is_covered marks.now) (map (held_in members.now) rows.now)) }
    ensures small { result.reply ≤ 2 ^ 72 }
{
    let mut count: usize = 0;
    let mut reply: u128 = 0;
    for row in rows {
        if row.is_covered(members, marks) {
            count += 1;
            reply += u128::from(row.reply);
        }
    }
    Covered { count, reply }
}

/// The replies of the covered ones together, of which one that is larger than any size table has counts as nothing.
pub(crate) fn total_reply(rows: &[Row], members: &[u8; MOST_TAGS], marks: &[bool; MOST_TAGS]) -> u64
    requires few { length rows.now ≤ MOST_TAGS }
    ensures reply { result
        ≡ sum_by limited_reply (keep (is_covered marks.now) (map (held_in members.now) rows.now)) }
    ensures small { result ≤ 2 ^ 48 }
{
    let mut sum: u64 = 0;
    for row in rows {
        if row.is_covered(members, marks) {
            sum += row.limited_reply();
        }
    }
    sum
}

/// The positions of the covered ones, from the front of a buffer on; how many they are.
pub(crate) fn unite(
    rows: &[Row],
    members: &[u8; MOST_TAGS],
    marks: &[bool; MOST_TAGS],
    out: &mut [u8; MOST_TAGS],
) -> usize
    requires few { sum_by count_of (map (held_in members.now) rows.now) ≤ MOST_TAGS }
    ensures positions { take result out.new
        ≡ served (keep (is_covered marks.now) (map (held_in members.now) rows.now)) }
    ensures within { result ≤ MOST_TAGS }
{
    let mut n = 0;
    for row in rows {
        if row.is_covered(members, marks) {
            let serves = row.serves(members);
            let end = n + serves.len();
            prove!(end <= MOST_TAGS);
            out[n..end].copy_from_slice(serves);
            n = end;
        }
    }
    n
}
