// Which groups may be chosen: structs that are not too large, or are themselves listed, and all runs.
ghost use Rattle.std.specs.Prelude.{◌≡◌, length};
ghost use Rattle.std.specs.List.{list_any};
ghost use Rattle.planning.specs.Tables.{text_by};
ghost use Rattle.planning.specs.Merges.{AllowTold};
ghost use Rattle.planning.specs.Entering.{is_listed, ChoiceTold, ChoiceFlag};

use crate::planning::Planning;
use candidates::GROUPS;
use considered::tag_at;
use fields::check::part_at;
use lists::read::whole_max;

impl Planning<'_> {
    // How many bytes the name of the tag at a position has.
    #[tactic(auto, unfolding(crate::specs::Tables::text_by))]
    fn tag_length(&self, position: u8) -> usize
        ensures { result ≡ length (text_by self.now.list.now self.now.tags.now position) }
    {
        let text = part_at(self.list, tag_at(self.tags, position).place);
        text.end - text.start
    }

    // Whether one of the tags at the positions that a struct serves is that struct itself: its name ends where the struct's does.
    #[tactic(auto, unfolding(crate::specs::Entering::is_listed))]
    fn is_listed(&self, served: &[u8], end: usize) -> bool
        ensures { let tags = self.now.tags.now in
            result ≡ list_any (is_listed self.now.list.now tags end) served.now }
    {
        served.iter().any(|&p| self.tag_length(p) == end)
    }

    // Whether a struct may be chosen: it is not larger than most, or is itself listed.
    #[tactic(auto, using(crate::proofs::Living::choice_small, crate::proofs::Living::choice_large))]
    fn is_choice(&self, most: u32, j: usize) -> bool
        ensures { ChoiceTold self.now most j result }
    {
        let group = self.group(j);
        u32::from(self.weight(j)) <= most
            || self.is_listed(group.serves, usize::from(group.group.end))
    }

    // The flag of a group: a struct may be one that may not be chosen, a run, which stands behind the structs, is not.
    #[tactic(auto, using(crate::proofs::Living::flag_run))]
    fn flag(&self, most: u32, structs: usize, j: usize) -> bool
        ensures { ChoiceFlag self.now most structs j result }
    {
        structs <= j || self.is_choice(most, j)
    }

    /// Flags the groups that may be chosen; the first `structs` of them are structs, the others runs.
    pub(crate) fn allow(&self, structs: usize, alive: &mut [bool; GROUPS])
        ensures { AllowTold self.now structs alive.new }
    {
        let most = whole_max(self.list);
        // By index: of flags that `iter_mut` lends, a proof knows how many come back and no more.
        for j in 0..self.groups.len() {
            alive[j] = self.flag(most, structs, j);
        }
    }
}
