// What a plan file is made of, in the order in which it stands there: keys, paths, members and reads with their limits.
// Each is checked and passed as the specification's format of the same name says.
ghost use Rattle.std.specs.Prelude.{◌≡◌};
ghost use Rattle.fields.specs.Format.{◌then◌};
ghost use Rattle.fields.specs.Fields.{choice};
ghost use Rattle.fields.specs.Places.{value_at};
ghost use Rattle.plans.specs.Plans.{Step, step, Member, member, Read, read};
ghost use Rattle.plans.specs.Access.{key_kind};
ghost use Rattle.fields.specs.Seamless.{seamless_then};
ghost use Rattle.plans.specs.Seamless.{seamless_step, seamless_member, seamless_read};

use fields::number::{GREATEST_OF_FOUR, number_at};
use fields::row::{Choice, Counted, Field, IndexedText, Number, Optional, Text};
use fields::{Checked, Width};

/// The most bytes of a plan file.
pub const LONGEST_FILE: usize = 65536;
/// The most reads of a plan.
pub const MOST_READS: usize = 256;
/// The most members of a read.
pub const MOST_MEMBERS: usize = 256;
/// The most keys of a path.
pub const MOST_KEYS: usize = 64;
/// The most bytes of a tag, and of a member's name in a key.
pub const LONGEST_NAME: usize = 128;
/// The most bytes of a read's name.
pub const LONGEST_READ: usize = 136;
/// The greatest index or count in a read's name: one more than in a tag, for the count of a whole array.
pub const GREATEST_INDEX: u64 = 1000001;

/// The byte that a key starts with.
pub const KEY: Choice = Choice { max: 2 };
/// A tag, or a member's name in a key.
pub const NAME: Text = Text { max: LONGEST_NAME };
/// An index in a key.
pub const INDEX: Number = Number {
    width: Width::Four,
    max: GREATEST_OF_FOUR,
};
/// The keys of a path.
pub const KEYS: Counted<KeyField> = Counted {
    width: Width::One,
    max: MOST_KEYS,
    field: KeyField,
};
/// The way from a read's value to a tag's; none where the read's value is the tag's.
pub const PATH: Optional<Counted<KeyField>> = Optional { field: KEYS };
/// The name of a read.
pub const READ_NAME: IndexedText = IndexedText {
    max: LONGEST_READ,
    most: GREATEST_INDEX,
};
/// The parts of a member: its tag and its path.
pub const MEMBER_PARTS: Pair<Text, Optional<Counted<KeyField>>> = Pair {
    first: NAME,
    second: PATH,
};
/// The members of a read.
pub const MEMBERS: Counted<MemberField> = Counted {
    width: Width::Two,
    max: MOST_MEMBERS,
    field: MemberField,
};
/// The parts of a read: its name and its members.
pub const READ_PARTS: Pair<IndexedText, Counted<MemberField>> = Pair {
    first: READ_NAME,
    second: MEMBERS,
};
/// The reads of a plan.
pub const READS: Counted<ReadField> = Counted {
    width: Width::Two,
    max: MOST_READS,
    field: ReadField,
};

/// A field and the one that stands behind it.
#[derive(Clone, Copy, Debug, PartialEq, Eq)]
pub struct Pair<A, B> {
    pub first: A,
    pub second: B,
}

impl<A: Field, B: Field> Field for Pair<A, B> {
    ghost Shape = { A.Shape × B.Shape };

    ghost format = { λ pair. A.format pair.first then B.format pair.second };

    ghost seamless = { λ pair. seamless_then (A.format pair.first) (B.format pair.second) (A.seamless pair.first) (B.seamless pair.second) };

    #[tactic(auto, using(crate::proofs::Pairs::checks))]
    fn check(&self, s: &[u8], at: usize) -> Checked {
        let behind = self.first.check(s, at)?;
        self.second.check(s, behind)
    }

    #[tactic(auto, using(crate::proofs::Pairs::passes))]
    fn past(&self, s: &[u8], at: usize) -> usize {
        self.second.past(s, self.first.past(s, at))
    }
}

/// What a key leads to: a member by its name, an element by its index, or the first of several elements.
// Names alone, with an arm each: what a byte of the file means, told by `key_kind_at` in one place.
#[derive(Clone, Copy, Debug, PartialEq, Eq)]
pub enum KeyKind {
    Member,
    Index,
    Several,
}

/// The kind of the key at a place.
#[tactic(auto, using(crate::proofs::Keys::kinds))]
pub fn key_kind_at(s: &[u8], at: usize) -> KeyKind
    ensures { result ≡ key_kind (value_at (choice 2) s.now at) }
{
    match number_at(s, at, Width::One, 2) {
        0 => KeyKind::Member,
        1 => KeyKind::Index,
        _ => KeyKind::Several,
    }
}

/// A key: its byte, then a name or a number.
#[derive(Clone, Copy, Debug, PartialEq, Eq)]
pub struct KeyField;

impl Field for KeyField {
    ghost Shape = { Step };

    ghost format = { λ field. step };

    ghost seamless = { λ field. seamless_step };

    #[tactic(auto, using(crate::proofs::Keys::checks))]
    fn check(&self, s: &[u8], at: usize) -> Checked {
        let behind = KEY.check(s, at)?;
        match key_kind_at(s, at) {
            KeyKind::Member => NAME.check(s, behind),
            KeyKind::Index | KeyKind::Several => INDEX.check(s, behind),
        }
    }

    #[tactic(auto, using(crate::proofs::Keys::passes))]
    fn past(&self, s: &[u8], at: usize) -> usize {
        let behind = KEY.past(s, at);
        match key_kind_at(s, at) {
            KeyKind::Member => NAME.past(s, behind),
            KeyKind::Index | KeyKind::Several => INDEX.past(s, behind),
        }
    }
}

/// A member: its tag and its path.
#[derive(Clone, Copy, Debug, PartialEq, Eq)]
pub struct MemberField;

impl Field for MemberField {
    ghost Shape = { Member };

    ghost format = { λ field. member };

    ghost seamless = { λ field. seamless_member };

    #[tactic(auto, using(crate::proofs::Steps::checks))]
    fn check(&self, s: &[u8], at: usize) -> Checked {
        MEMBER_PARTS.check(s, at)
    }

    #[tactic(auto, using(crate::proofs::Places::passes))]
    fn past(&self, s: &[u8], at: usize) -> usize {
        MEMBER_PARTS.past(s, at)
    }
}

/// A read: its name and its members.
#[derive(Clone, Copy, Debug, PartialEq, Eq)]
pub struct ReadField;

impl Field for ReadField {
    ghost Shape = { Read };

    ghost format = { λ field. read };

    ghost seamless = { λ field. seamless_read };

    #[tactic(auto, using(crate::proofs::Steps::checks))]
    fn check(&self, s: &[u8], at: usize) -> Checked {
        READ_PARTS.check(s, at)
    }

    #[tactic(auto, using(crate::proofs::Places::passes))]
    fn past(&self, s: &[u8], at: usize) -> usize {
        READ_PARTS.past(s, at)
    }
}
