// A catalog file with the places of its tags and types, for a call that looks up many names. It stands in a file of its own,
// since a struct with an invariant brings in all that its file names.
ghost use Rattle.std.specs.Prelude.{◌≡◌};
ghost use Rattle.nodes.specs.Placed.{tag_place};
ghost use Rattle.catalog.specs.Alike.{tag_places, type_places};

use crate::find::find_node_in;
use crate::place::{tag_count, tags_start, type_count, types_start};
use crate::table::{Tables, fill};
use catalog::layout::{MOST_TAGS, MOST_TYPES, NodeField, TypeField};
use fields::table::Table;
use std::marker::Model;

/// A catalog file with the places of its tags and types; a clause sees it as the bytes of its file. Making one fills 9 KB, so make
/// it once for a whole call and lend it.
// No `Debug` and no `PartialEq`: a table has none.
#[derive(Drop)]
pub struct Opened<'a> {
    file: &'a [u8],
    tags: Table<usize, MOST_TAGS>,
    types: Table<usize, MOST_TYPES>,
}

impl<'a> Model for Opened<'a> {
    ghost use Rattle.std.specs.Prelude.{ℕ, List, ◌≡◌};
    ghost use Rattle.catalog.specs.Alike.{tag_places, type_places};

    ghost Value = { List ℕ };

    ghost view = { λ opened. opened.file.now };

    ghost invariant = { λ opened. (opened.tags ≡ tag_places opened.file.now) × (opened.types ≡ type_places opened.file.now) };
}

impl<'a> Opened<'a> {
    /// The catalog file, with its places written down.
    // Both tables are filled here: handed out by `tag_places` and `type_places`, their 9 KB would be copied once more and take that much
    // more stack.
    #[tactic(auto, using(crate::proofs::Tabling::opening))]
    pub fn open(file: &'a [u8]) -> Opened<'a>
        ensures { result ≡ file.now }
    {
        let mut tags = Table::new(0);
        let count = tag_count(file);
        fill(&NodeField, file, tags_start(file), count, &mut tags);
        let mut types = Table::new(0);
        let count = type_count(file);
        fill(&TypeField, file, types_start(file), count, &mut types);
        Opened { file, tags, types }
    }

    /// The file itself.
    pub fn file(&self) -> &'a [u8]
        ensures { result.now ≡ self.now }
    {
        self.file
    }

    /// Where the tags stand, in the order of the file.
    pub fn tags(&self) -> &[usize]
        ensures { result.now ≡ tag_places self.now }
    {
        self.tags.rows()
    }

    /// Where the types stand, in the order of the file.
    pub fn types(&self) -> &[usize]
        ensures { result.now ≡ type_places self.now }
    {
        self.types.rows()
    }

    /// The file with the tables of all its tags and types.
    pub fn tables(&self) -> Tables<'_>
        ensures file { result.file.now ≡ self.now }
        ensures tags { result.tags.now ≡ tag_places self.now }
        ensures types { result.types.now ≡ type_places self.now }
    {
        Tables {
            file: self.file,
            tags: self.tags(),
            types: self.types(),
        }
    }

    /// The place of the tag of a name.
    pub fn find_tag(&self, name: &[u8]) -> Option<usize>
        ensures { result ≡ tag_place self.now name.now }
    {
        find_node_in(self.file, self.tags(), name)
    }
}
