// Both files: the catalog with the places of its tags and types, and which of its types read whole.
ghost use Rattle.considered.specs.Answers.{IsWhole};

use nodes::opened::Opened;

/// An accepted catalog, a list, and the marks of the catalog's types that read whole.
// No `Debug` and no `PartialEq`, here and where it is held: an opened file has none.
#[derive(Clone, Copy)]
pub struct Files<'a> {
    pub catalog: &'a Opened<'a>,
    pub list: &'a [u8],
    pub marks: &'a [bool],
    ghost whole: { IsWhole catalog.now marks.now },
}
