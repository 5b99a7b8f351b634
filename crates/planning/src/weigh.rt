// Merges weighed: which are cheap and free, which of two is better, and merge after merge while one passes.
ghost use Rattle.std.specs.Prelude.{◌≡◌, ◌<◌, IfSome};
ghost use Rattle.planning.specs.Merges.{Modest, NextTold, LivingTold, Settled};
ghost use Rattle.planning.specs.Choosing.{NamesKept, FreeTold, FirstTold, BetterTold, LeadTold};
ghost use Rattle.planning.specs.Turns.{WeighTold, TurnTold, FlagTold};

use crate::name::{RUN_NAME, key_before, run_name};
use crate::offer::Offer;
use crate::planning::Planning;
use candidates::GROUPS;
use catalog::layout::LONGEST_NAME;
use lists::bars::is_barred;
use lists::layout::MOST_TAGS;
use lists::read::budget;
use reads::Reads;

impl Planning<'_> {
    // Whether the name of a merge is not barred. That of a struct never is.
    // Two ways out before the test of the name, each with its own law: in one expression the proof takes them apart again. The name is
    // cut at a count: it stands at the front of a buffer, since nothing here may allocate.
    #[tactic(auto, using(crate::proofs::Weighing::free_whole, crate::proofs::Weighing::free_long, crate::proofs::Weighing::free_run))]
    fn is_free(&self, m: Offer) -> bool
        ensures { FreeTold self.now m result }
    {
        let Some(_) = self.cluster(m.group) else {
            return true;
        };
        let array = self.text(m.group);
        if LONGEST_NAME < array.len() {
            return false;
        }
        let mut name = [0; RUN_NAME];
        let n = run_name(array, m.start, m.span, &mut name);
        !is_barred(self.list, &name[..n])
    }

    // Whether the key of a group stands before that of another.
    #[tactic(auto, using(crate::proofs::Weighing::first_key))]
    fn stands_first(&self, j: usize, k: usize) -> bool
        ensures { FirstTold self.now j k result }
    {
        key_before(self.text(j), self.cluster(j), self.text(k), self.cluster(k))
    }

    // Whether a merge is better than another: by what it replies for each read that it saves, then by these reads, then by the keys.
    // It weighs by numbers and breaks ties by the keys: three tests in a row, no order of its own that could be derived.
    #[tactic(auto, using(crate::proofs::Weighing::better_less, crate::proofs::Weighing::better_saved))]
    fn is_better(&self, a: Offer, b: Offer) -> bool
        requires first { Modest a }
        requires second { Modest b }
        ensures { BetterTold self.now a b result }
    {
        let x = a.weight(b);
        let y = b.weight(a);
        if x != y {
            return x < y;
        }
        if a.saved != b.saved {
            return b.saved < a.saved;
        }
        self.stands_first(a.group, b.group)
    }

    // Whether a merge is cheap, free, and better than the best before it, if there is one.
    #[tactic(auto, using(crate::proofs::Weighing::lead_dear))]
    fn leads(&self, m: Offer, best: Option<Offer>) -> bool
        requires modest { Modest m }
        requires best { IfSome best Modest }
        ensures { LeadTold self.now m best result }
    {
        // Two tests: of `||` in one, the proof takes both ways apart again, in more lines.
        if !m.is_cheap(self.cost) {
            return false;
        }
        if !self.is_free(m) {
            return false;
        }
        match best {
            None => true,
            Some(b) => self.is_better(m, b),
        }
    }

    // The better of a merge, whose group's positions are marked, and of the best before it. It counts if it is cheap and free, and if the
    // reads then take no more packets than the limit.
    // Steps in a row, each with what it answers in a clause: handed in as closures they would have to say it again.
    fn weigh(
        &self,
        limit: u64,
        reads: &Reads,
        marks: &[bool; MOST_TAGS],
        m: Offer,
        best: Option<Offer>,
    ) -> Option<Offer>
        requires modest { Modest m }
        requires best { IfSome best Modest }
        ensures chosen { WeighTold self.now limit reads.now marks.now m best result }
        ensures modest { IfSome result Modest }
    {
        if !self.leads(m, best) {
            return best;
        }
        let budget = budget(self.list);
        if limit < reads.packets_with(self.cost, budget, marks, m.request, m.reply) {
            return best;
        }
        Some(m)
    }

    // The better of the merge of a group and of the best before it. A group that covers fewer than two reads is no candidate any more.
    fn try_group(
        &self,
        j: usize,
        limit: u64,
        best: Option<Offer>,
        alive: &mut [bool; GROUPS],
        reads: &Reads,
    ) -> Option<Offer>
        requires few { j < GROUPS }
        requires best { IfSome best Modest }
        ensures chosen { TurnTold self.now alive.old j limit reads.now best result }
        ensures flags { FlagTold self.now alive.old alive.new j reads.now }
        ensures modest { IfSome result Modest }
    {
        if !alive[j] {
            return best;
        }
        let mut marks = [false; MOST_TAGS];
        self.mark(j, &mut marks);
        let Some(m) = self.evaluate(j, &marks, reads) else {
            alive[j] = false;
            return best;
        };
        self.weigh(limit, reads, &marks, m, best)
    }

    // The best merge that passes, of all groups that are still candidates.
    fn next_merge(&self, limit: u64, alive: &mut [bool; GROUPS], reads: &Reads) -> Option<Offer>
        ensures chosen { NextTold self.now alive.old limit reads.now result }
        ensures flags { LivingTold self.now alive.old alive.new reads.now }
        ensures modest { IfSome result Modest }
    {
        let mut best = None;
        for j in 0..self.groups.len() {
            best = self.try_group(j, limit, best, alive, reads);
        }
        best
    }

    /// Merge after merge, while one passes.
    // The limit, the flags and the reads go down together, but only two of them change: a struct of them is no plainer.
    pub(crate) fn settle(&self, limit: u64, alive: &mut [bool; GROUPS], reads: &mut Reads)
        ensures settled { Settled self.now alive.old limit reads.old reads.new }
        ensures named { NamesKept self.now reads.old reads.new }
    {
        let mut marks = [false; MOST_TAGS];
        let rounds = reads.len();
        for _ in 0..rounds {
            let Some(m) = self.next_merge(limit, alive, reads) else {
                return;
            };
            self.mark(m.group, &mut marks);
            self.apply(m, &marks, reads);
        }
    }
}
