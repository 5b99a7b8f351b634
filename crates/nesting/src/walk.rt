// The types of a catalog as numbers, with a table of links: which type is nested too deep, and which types read whole.
ghost use Rattle.std.specs.Prelude.{◌≡◌, ◌≤◌, ◌<◌, Bool, max, IfSome};
ghost use Rattle.std.specs.List.{position};
ghost use Rattle.nesting.specs.Graph.{listed, first_over, Made, OneMore, OneLinkMore, WholeTypes, UnmarkedFrom, Marking};
ghost use Rattle.nesting.specs.Marks.{reaches, Rounded, Ready, Walked};

use crate::graph::Graph;
use catalog::layout::MOST_TYPES;

/// A chain of more types than this is nested too deep.
const DEEPEST: usize = 16;

// Sets a mark of a row.
#[tactic(auto, using(crate::proofs::Setting::set_one))]
fn set(row: &mut [bool; MOST_TYPES], k: usize)
    requires { k < MOST_TYPES }
    ensures { OneMore k row.old row.new }
{
    row[k] = true;
}

// The first mark of a row.
fn first_marked(marks: &[bool]) -> Option<usize>
    ensures { result ≡ position (λ (b : Bool). b) marks.now }
{
    marks.iter().position(|mark| *mark)
}

impl Graph {
    /// So many types, none linked to another and none with AOI 2; `None` for more than 128.
    #[tactic(auto, using(crate::proofs::Setting::making))]
    pub fn new(count: usize) -> Option<Graph>
        ensures { Made count result }
    {
        if MOST_TYPES < count {
            return None;
        }
        Some(Graph {
            links: [[false; MOST_TYPES]; MOST_TYPES],
            parts: [false; MOST_TYPES],
            count,
        })
    }

    /// How many types there are.
    pub fn count(&self) -> usize
        ensures count { result ≡ self.now.count }
        ensures few { result ≤ MOST_TYPES }
    {
        self.count
    }

    /// Notes that type k has a struct member of type u; nothing where one of them is none of the 128 that there may be.
    pub fn link(&mut self, k: usize, u: usize)
        ensures links { k < MOST_TYPES → u < MOST_TYPES → OneLinkMore k u self.old.links self.new.links }
        ensures outside { MOST_TYPES ≤ max k u → self.new.links ≡ self.old.links }
        ensures parts { self.new.parts ≡ self.old.parts }
        ensures count { self.new.count ≡ self.old.count }
    {
        if k < MOST_TYPES && u < MOST_TYPES {
            set(&mut self.links[k], u);
        }
    }

    /// Notes that type k has AOI 2; nothing where it is none of the 128 that there may be.
    pub fn set_parts(&mut self, k: usize)
        ensures parts { k < MOST_TYPES → OneMore k self.old.parts self.new.parts }
        ensures outside { MOST_TYPES ≤ k → self.new.parts ≡ self.old.parts }
        ensures links { self.new.links ≡ self.old.links }
        ensures count { self.new.count ≡ self.old.count }
    {
        if k < MOST_TYPES {
            set(&mut self.parts, k);
        }
    }

    // Whether type k is linked to a type that has a mark. A loop by numbers, since std has no law of `any` over a range, and a
    // proof does not know how long an inner row of the table is.
    #[tactic(auto, using(crate::proofs::Rows::reaching))]
    fn reaches_mark(&self, marks: &[bool; MOST_TYPES], k: usize) -> bool
        requires { k < self.now.count }
        ensures { result ≡ reaches self.now marks.now k }
    {
        for u in 0..self.count {
            if self.links[k][u] && marks[u] {
                return true;
            }
        }
        false
    }

    // One level more: a mark for each type that is linked to a type with a mark.
    #[tactic(auto, using(crate::proofs::Rounds::rounding))]
    fn round(&self, marks: &[bool; MOST_TYPES]) -> [bool; MOST_TYPES]
        ensures { Rounded self.now marks.now result }
    {
        let mut out = [false; MOST_TYPES];
        for k in 0..self.count {
            out[k] = self.reaches_mark(marks, k);
        }
        out
    }

    /// The first type that is nested over 16: 16 rounds, each a level more.
    #[tactic(auto, using(crate::proofs::Rounds::telling))]
    pub fn first_over(&self) -> Option<usize>
        ensures { result ≡ listed self.now.count (first_over self.now) }
    {
        let mut marks = [true; MOST_TYPES];
        for _ in 0..DEEPEST {
            marks = self.round(&marks);
        }
        first_marked(&marks[..self.count])
    }

    // Whether type k reads whole. The walk goes down link by link, the levels left falling, and keeps what it learns in the
    // memo, so that it enters each type once. Each answer is kept where it is found, so that none comes at the end alone.
    #[tactic(auto, using(crate::proofs::Walking::walking))]
    fn whole_type(&self, memo: &mut [Option<bool>; MOST_TYPES], k: usize, levels: usize) -> bool
        requires { Ready self.now memo.old k levels }
        ensures { Walked self.now memo.new k result }
    {
        if let Some(known) = memo[k] {
            return known;
        }
        if self.parts[k] {
            memo[k] = Some(false);
            return false;
        }
        for u in 0..self.count {
            if self.links[k][u] && !self.whole_type(memo, u, levels - 1) {
                memo[k] = Some(false);
                return false;
            }
        }
        memo[k] = Some(true);
        true
    }

    /// Which types read whole, type by type; nothing where one is nested over 16. Past the last type no mark is set.
    #[tactic(auto, using(crate::proofs::Markings::making))]
    pub fn whole_types(&self) -> Option<[bool; MOST_TYPES]>
        ensures whole { WholeTypes self.now result }
        ensures past { IfSome result (UnmarkedFrom self.now.count) }
    {
        if self.first_over().is_some() {
            return None;
        }
        let mut whole = [false; MOST_TYPES];
        let mut memo = [None; MOST_TYPES];
        for k in 0..self.count {
            whole[k] = self.whole_type(&mut memo, k, DEEPEST);
        }
        Some(whole)
    }

    /// Marks the types that read whole with 1 and the others with 0, and says whether it did. It writes nothing where there are fewer
    /// marks than types, or where a type is nested over 16; past the last type a mark stays.
    // Two tests, and nothing is written before both. The marks are lent, as bytes.
    #[tactic(auto, using(crate::proofs::Marked::marking))]
    pub fn mark_whole(&self, marks: &mut [u8]) -> bool
        ensures { Marking self.now marks.old marks.new result }
    {
        if marks.len() < self.count {
            return false;
        }
        match self.whole_types() {
            Some(whole) => {
                for k in 0..self.count {
                    marks[k] = u8::from(whole[k]);
                }
                true
            }
            None => false,
        }
    }
}
