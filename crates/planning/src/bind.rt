// What is always read together: the structs that the list names so, the outermost first.
ghost use Rattle.std.specs.Prelude.{◌≡◌, ◌-◌, ◌≤◌, ◌<◌, length};
ghost use Rattle.names.specs.Name.{tokens_of};
ghost use Rattle.names.specs.Told.{Based};
ghost use Rattle.packing.specs.Packing.{empty};
ghost use Rattle.lists.specs.Lists.{list_of};
ghost use Rattle.planning.specs.Merges.{BoundTold};
ghost use Rattle.planning.specs.Choosing.{NamesKept};
ghost use Rattle.planning.specs.Entering.{LevelTold, LevelsTold};
ghost use Rattle.planning.specs.Binding.{OneBound, LevelBound};

use crate::planning::Planning;
use candidates::GROUPS;
use catalog::layout::LONGEST_NAME;
use lists::bars::is_together;
use lists::layout::MOST_TAGS;
use lists::read::{Row, budget};
use names::walk::{Tokens, first_token};
use packing::Cost;
use reads::Reads;

// How many tokens a name has.
// Matched: a name that does not read has no tokens, and nothing is passed on.
fn token_count(name: &[u8]) -> u8
    requires { length name.now ≤ LONGEST_NAME }
    ensures { result ≡ length (tokens_of name.now) }
{
    match first_token(name) {
        Ok(first) => tokens_from(name, first.end),
        Err(_) => 0,
    }
}

// The same of a name whose first token ends at base.
// A counter by hand: a part that is no token ends the count, which `count` would not tell. Where the first token ends is told in a clause.
fn tokens_from(name: &[u8], base: usize) -> u8
    requires { Based name.now base }
    ensures { result ≡ length (tokens_of name.now) }
{
    let mut n = 1;
    for piece in Tokens::behind(name, base) {
        let Ok(_) = piece else { return 0 };
        n += 1;
    }
    n
}

// The bytes of a reply in a packet that holds nothing else.
// `cost` and `budget` go side by side, as in `packing`.
#[tactic(auto, unfolding(packing::specs::Packing::empty))]
fn packet_room(cost: Cost, budget: u16) -> u64
    ensures { result ≡ budget - (empty cost).reply }
{
    let empty = 8 + u64::from(cost.version_reply);
    u64::from(budget).saturating_sub(empty)
}

impl Planning<'_> {
    // How many tokens name a struct that is always read in one; none of another struct.
    #[tactic(auto, using(crate::proofs::Leveling::level_over))]
    fn level_of(&self, room: u64, j: usize) -> Option<u8>
        ensures { LevelTold self.now room j result }
    {
        if room < u64::from(self.weight(j)) + 10 {
            return None;
        }
        let name = self.text(j);
        if LONGEST_NAME < name.len() || !is_together(self.list, name) {
            return None;
        }
        Some(token_count(name))
    }

    // The levels of the structs.
    fn fill_levels(&self, room: u64, structs: usize, levels: &mut [Option<u8>; GROUPS])
        requires { structs ≤ GROUPS }
        ensures { LevelsTold self.now room structs levels.new }
    {
        // By index: of levels that `iter_mut` lends, a proof knows how many come back and no more.
        for j in 0..structs {
            levels[j] = self.level_of(room, j);
        }
    }

    // The reads after the merge of those that a struct covers, if there is one.
    // The number of a group is bounded in a clause, here and where it is weighed: any other is answered too.
    fn bind_one(&self, j: usize, reads: &mut Reads)
        requires { j < GROUPS }
        ensures bound { OneBound self.now j reads.old reads.new }
        ensures named { NamesKept self.now reads.old reads.new }
    {
        let mut marks = [false; MOST_TAGS];
        self.mark(j, &mut marks);
        if let Some(m) = self.evaluate(j, &marks, reads) {
            self.apply(m, &marks, reads);
        }
    }

    // The reads after the merges of the structs of one level.
    fn bind_level(
        &self,
        level: u8,
        levels: &[Option<u8>; GROUPS],
        structs: usize,
        reads: &mut Reads,
    )
        requires { structs ≤ GROUPS }
        ensures bound { LevelBound self.now level levels.now structs reads.old reads.new }
        ensures named { NamesKept self.now reads.old reads.new }
    {
        for j in 0..structs {
            if levels[j] == Some(level) {
                self.bind_one(j, reads);
            }
        }
    }

    /// The reads after all that is always read in one, the outermost structs first; those that are there where the list names nothing.
    /// The first `structs` groups are structs.
    // How many structs there are is bounded in a clause, here and below: they are the first of the groups.
    pub(crate) fn bind(&self, structs: usize, reads: &mut Reads)
        requires { structs ≤ GROUPS }
        ensures bound { BoundTold self.now structs reads.old reads.new }
        ensures named { NamesKept self.now reads.old reads.new }
    {
        if Row::Together.count(self.list) == 0 {
            return;
        }
        let room = packet_room(self.cost, budget(self.list));
        let mut levels = [None; GROUPS];
        self.fill_levels(room, structs, &mut levels);
        for level in 1..65 {
            self.bind_level(level, &levels, structs, reads);
        }
    }
}
