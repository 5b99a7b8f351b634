// What a catalog file is made of, in the order in which it stands there: the fields of a node and of a type with their
// limits. Each is checked and passed as the specification's format of the same name says.
ghost use Rattle.std.specs.Prelude.{◌≡◌};
ghost use Rattle.fields.specs.Places.{check_at, place_at};
ghost use Rattle.catalog.specs.Catalog.{Node, node, TypeDef, type_def};
ghost use Rattle.catalog.specs.Seamless.{seamless_node, seamless_type};

use fields::number::{GREATEST_OF_FOUR, GREATEST_OF_TWO};
use fields::row::{Choice, Counted, Field, Number, Optional, Text};
use fields::{Checked, Width};

/// The most bytes of a catalog file.
pub const LONGEST_FILE: usize = 65536;
/// The most tags of a catalog.
pub const MOST_TAGS: usize = 1024;
/// The most types of a catalog.
pub const MOST_TYPES: usize = 128;
/// The most members of a type.
pub const MOST_MEMBERS: usize = 256;
/// The most dimensions of a node.
pub const MOST_DIMENSIONS: usize = 3;
/// The most elements along a dimension.
pub const LONGEST_DIMENSION: usize = 1000000;
/// The most bytes of a name.
pub const LONGEST_NAME: usize = 128;

/// The name of a tag, a member or a type.
pub const NAME: Text = Text { max: LONGEST_NAME };
/// The kind of a node's value: atomic, struct, string.
pub const KIND: Choice = Choice { max: 2 };
/// Whether a type is an Add-On Instruction: no, readable whole, only its parts.
pub const AOI: Choice = Choice { max: 2 };
/// The dimensions of a node, in elements.
pub const DIMENSIONS: Counted<Number> = Counted {
    width: Width::One,
    max: MOST_DIMENSIONS,
    field: Number {
        width: Width::Four,
        max: LONGEST_DIMENSION,
    },
};
/// The instance id of a tag.
pub const ID: Optional<Number> = Optional {
    field: Number {
        width: Width::Four,
        max: GREATEST_OF_FOUR,
    },
};
/// The structure size of a node, in bytes.
pub const SIZE: Optional<Number> = Optional {
    field: Number {
        width: Width::Two,
        max: GREATEST_OF_TWO,
    },
};
/// The structure size of a type, in bytes.
pub const TYPE_SIZE: Number = Number {
    width: Width::Two,
    max: GREATEST_OF_TWO,
};
/// The members of a type.
pub const MEMBERS: Counted<NodeField> = Counted {
    width: Width::Two,
    max: MOST_MEMBERS,
    field: NodeField,
};

/// A tag, or a member of a type.
#[derive(Clone, Copy, Debug, PartialEq, Eq)]
pub struct NodeField;

impl Field for NodeField {
    ghost Shape = { Node };

    ghost format = { λ field. node };

    ghost seamless = { λ field. seamless_node };

    #[tactic(auto, using(crate::proofs::Steps::steps))]
    fn check(&self, s: &[u8], at: usize) -> Checked {
        let type_at = NAME.check(s, at)?;
        let kind_at = NAME.check(s, type_at)?;
        let dimensions_at = KIND.check(s, kind_at)?;
        let id_at = DIMENSIONS.check(s, dimensions_at)?;
        let size_at = ID.check(s, id_at)?;
        SIZE.check(s, size_at)
    }

    #[tactic(auto, using(crate::proofs::Steps::passes))]
    fn past(&self, s: &[u8], at: usize) -> usize {
        let kind_at = NAME.past(s, NAME.past(s, at));
        let dimensions_at = KIND.past(s, kind_at);
        let id_at = DIMENSIONS.past(s, dimensions_at);
        SIZE.past(s, ID.past(s, id_at))
    }
}

/// A type.
#[derive(Clone, Copy, Debug, PartialEq, Eq)]
pub struct TypeField;

impl Field for TypeField {
    ghost Shape = { TypeDef };

    ghost format = { λ field. type_def };

    ghost seamless = { λ field. seamless_type };

    #[tactic(auto, using(crate::proofs::Steps::steps))]
    fn check(&self, s: &[u8], at: usize) -> Checked {
        let size_at = NAME.check(s, at)?;
        let aoi_at = TYPE_SIZE.check(s, size_at)?;
        let members_at = AOI.check(s, aoi_at)?;
        MEMBERS.check(s, members_at)
    }

    #[tactic(auto, using(crate::proofs::Steps::passes))]
    fn past(&self, s: &[u8], at: usize) -> usize {
        let aoi_at = TYPE_SIZE.past(s, NAME.past(s, at));
        MEMBERS.past(s, AOI.past(s, aoi_at))
    }
}
