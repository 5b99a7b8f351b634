// Fields that repeat. A `Field` is checked and passed as its format says, and a row of them is checked, passed and
// walked place by place by one function each, whatever the field.
ghost use Rattle.std.specs.Prelude.{◌≡◌, ◌<◌, ℕ, length, min, List, Option};
ghost use Rattle.std.specs.Iterator.{YieldsFirst, YieldsFirstRef, item_count};
ghost use Rattle.fields.specs.Format.{Format, many};
ghost use Rattle.fields.specs.Places.{check_at, place_at, places_from, bytes_of};
ghost use Rattle.fields.specs.Fields.{text, indexed_text, number, choice, counted, optional};
ghost use Rattle.fields.specs.Text.{Text as Bytes};
ghost use Rattle.fields.specs.Seamless.{Seamless, seamless_text, seamless_indexed_text, seamless_number, seamless_choice, seamless_counted, seamless_optional};
ghost use Rattle.fields.specs.Texts.{texts_left};
ghost use Rattle.fields.specs.Writing.{answered};

use crate::check::{
    check_choice, check_indexed_text, check_number, check_text, text_at, text_past,
};
use crate::number::{number_at, past};
use crate::{Refusal, Width};

/// A field of a file: how it is checked at a place, and where it ends there.
pub trait Field {
    /// What it reads as.
    ghost Shape: { Type 0 };
    /// Its reading, its layout and its limits.
    ghost format: { Self → Format Shape };

    /// The place past the field, or the first refusal in it.
    fn check(&self, s: &[u8], at: usize) -> Result<usize, Refusal>
        ensures { result ≡ check_at (format self.now) s.now at };

    /// The place past the field, whatever its bytes.
    fn past(&self, s: &[u8], at: usize) -> usize
        ensures { result ≡ place_at (format self.now) s.now at };

    /// What is left is the file from the place told on.
    ghost seamless: { (field : Self) → Seamless (format field) };
}

/// A text of at most `max` bytes.
#[derive(Clone, Copy, Debug, PartialEq, Eq)]
pub struct Text {
    pub max: usize,
}

impl Field for Text {
    ghost Shape = { Bytes };

    ghost format = { λ field. text field.max };

    ghost seamless = { λ field. seamless_text field.max };

    fn check(&self, s: &[u8], at: usize) -> Result<usize, Refusal> {
        check_text(s, at, self.max)
    }

    #[tactic(auto, using(crate::proofs::Passing::passed))]
    fn past(&self, s: &[u8], at: usize) -> usize {
        text_past(s, at)
    }
}

/// A text of at most `max` bytes in which no index or count is above `most`.
// `check` has the body of `Number`'s: two limits each, for calls of two functions.
#[derive(Clone, Copy, Debug, PartialEq, Eq)]
pub struct IndexedText {
    pub max: usize,
    pub most: u64,
}

impl Field for IndexedText {
    ghost Shape = { Bytes };

    ghost format = { λ field. indexed_text field.max field.most };

    ghost seamless = { λ field. seamless_indexed_text field.max field.most };

    fn check(&self, s: &[u8], at: usize) -> Result<usize, Refusal> {
        check_indexed_text(s, at, self.max, self.most)
    }

    #[tactic(auto, using(crate::proofs::Passing::passed))]
    fn past(&self, s: &[u8], at: usize) -> usize {
        text_past(s, at)
    }
}

/// A number of at most `max`.
#[derive(Clone, Copy, Debug, PartialEq, Eq)]
pub struct Number {
    pub width: Width,
    pub max: usize,
}

impl Field for Number {
    ghost Shape = { ℕ };

    ghost format = { λ field. number (bytes_of field.width) field.max };

    ghost seamless = { λ field. seamless_number (bytes_of field.width) field.max };

    fn check(&self, s: &[u8], at: usize) -> Result<usize, Refusal> {
        check_number(s, at, self.width, self.max)
    }

    #[tactic(auto, using(crate::proofs::Passing::passed))]
    fn past(&self, s: &[u8], at: usize) -> usize {
        past(s, at, self.width.bytes())
    }
}

/// A byte from 0 to `max`.
#[derive(Clone, Copy, Debug, PartialEq, Eq)]
pub struct Choice {
    pub max: usize,
}

impl Field for Choice {
    ghost Shape = { ℕ };

    ghost format = { λ field. choice field.max };

    ghost seamless = { λ field. seamless_choice field.max };

    fn check(&self, s: &[u8], at: usize) -> Result<usize, Refusal> {
        check_choice(s, at, self.max)
    }

    #[tactic(auto, using(crate::proofs::Passing::passed))]
    fn past(&self, s: &[u8], at: usize) -> usize {
        past(s, at, 1)
    }
}

/// A count of at most `max`, and that many of a field.
#[derive(Clone, Copy, Debug, PartialEq, Eq)]
pub struct Counted<F> {
    pub width: Width,
    pub max: usize,
    pub field: F,
}

impl<F: Field> Field for Counted<F> {
    ghost Shape = { List F.Shape };

    ghost format = { λ row. counted (bytes_of row.width) row.max (F.format row.field) };

    ghost seamless = { λ row. seamless_counted (F.format row.field) (F.seamless row.field) (bytes_of row.width) row.max };

    #[tactic(auto, using(crate::proofs::Passing::counts))]
    fn check(&self, s: &[u8], at: usize) -> Result<usize, Refusal> {
        let first = check_number(s, at, self.width, self.max)?;
        let n = number_at(s, at, self.width, self.max);
        check_many(&self.field, s, first, n)
    }

    #[tactic(auto, using(crate::proofs::Passing::counts))]
    fn past(&self, s: &[u8], at: usize) -> usize {
        let first = past(s, at, self.width.bytes());
        let n = number_at(s, at, self.width, self.max);
        past_many(&self.field, s, first, n)
    }
}

/// Byte 0, or byte 1 and a field.
// The flag is a number of the file that is compared with 0: a truth made of it would be the same test in one function more.
#[derive(Clone, Copy, Debug, PartialEq, Eq)]
pub struct Optional<F> {
    pub field: F,
}

impl<F: Field> Field for Optional<F> {
    ghost Shape = { Option F.Shape };

    ghost format = { λ held. optional (F.format held.field) };

    ghost seamless = { λ held. seamless_optional (F.format held.field) (F.seamless held.field) };

    // Inlined by a hint: it is two of the six checks of a node, and a catalog has many nodes.
    #[inline(always)]
    #[tactic(auto, using(crate::proofs::Passing::flags))]
    fn check(&self, s: &[u8], at: usize) -> Result<usize, Refusal> {
        let behind = check_choice(s, at, 1)?;
        if number_at(s, at, Width::One, 1) == 0 {
            return Ok(behind);
        }
        self.field.check(s, behind)
    }

    #[tactic(auto, using(crate::proofs::Passing::flags))]
    fn past(&self, s: &[u8], at: usize) -> usize {
        let behind = past(s, at, 1);
        if number_at(s, at, Width::One, 1) == 0 {
            return behind;
        }
        self.field.past(s, behind)
    }
}

/// Checks `n` of a field in a row, of which the first stands at `from`.
// `n` counts fields, here and below, of which there is no slice: where the next one stands is only known when this one is passed.
#[tactic(auto, using(crate::proofs::Chains::row_checks))]
pub fn check_many<F: Field>(field: &F, s: &[u8], from: usize, n: usize) -> Result<usize, Refusal>
    ensures { result ≡ check_at (many (F.format field.now) n) s.now from }
{
    let mut at = from;
    for _ in 0..n {
        at = field.check(s, at)?;
    }
    Ok(at)
}

/// The place past `n` of a field in a row, of which the first stands at `from`.
#[tactic(auto, using(crate::proofs::Passing::rows))]
pub fn past_many<F: Field>(field: &F, s: &[u8], from: usize, n: usize) -> usize
    ensures { result ≡ place_at (many (F.format field.now) n) s.now from }
{
    let mut end = from;
    for _ in 0..n {
        end = field.past(s, end);
    }
    end
}

/// The places of a field that repeats, one behind the other.
#[derive(Clone, Copy, Debug, PartialEq, Eq)]
pub struct Places<'a, F> {
    pub field: F,
    pub file: &'a [u8],
    pub at: usize,
    pub left: usize,
}

impl<'a, F: Field + Copy> Iterator for Places<'a, F> {
    type Item = usize;

    ghost next_gives = { YieldsFirst (λ row. places_from (F.format row.field) row.left row.file.now row.at) };

    ghost remaining = { item_count (λ row. places_from (F.format row.field) row.left row.file.now row.at) };

    #[tactic(auto, using(crate::proofs::Passing::places))]
    fn next(&mut self) -> Option<usize> {
        let left = self.left.checked_sub(1)?;
        let at = self.at;
        self.at = self.field.past(self.file, at);
        self.left = left;
        Some(at)
    }
}

/// Texts in a row, one behind the other.
#[derive(Clone, Copy, Debug, PartialEq, Eq)]
pub struct Texts<'a> {
    pub file: &'a [u8],
    pub at: usize,
    pub left: usize,
}

impl<'a> Iterator for Texts<'a> {
    type Item = &'a [u8];

    ghost next_gives = { YieldsFirstRef texts_left };

    ghost remaining = { item_count texts_left };

    #[tactic(auto, using(crate::proofs::Passing::places))]
    fn next(&mut self) -> Option<&'a [u8]> {
        let left = self.left.checked_sub(1)?;
        let text = text_at(self.file, self.at);
        self.at = text_past(self.file, self.at);
        self.left = left;
        Some(text)
    }
}

/// Writes down where each of `n` of a field in a row stands, of which the first stands at `from`; where there is room for fewer, the
/// first of them.
pub fn put_places<F: Field>(field: &F, s: &[u8], from: usize, n: usize, places: &mut [usize])
    ensures { let few = min n (length places.old) in
        places.new ≡ answered (places_from (F.format field.now) few s.now from) places.old }
{
    let mut at = from;
    for i in 0..n.min(places.len()) {
        places[i] = at;
        at = field.past(s, at);
    }
}
