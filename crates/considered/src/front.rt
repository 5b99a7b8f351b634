// A name that has tokens, with the node of the catalog that it leads to: what the planner asks of it.
ghost use Rattle.std.specs.Prelude.{◌≡◌, ◌≤◌, not, length};
ghost use Rattle.names.specs.Name.{tokens_of, later_token};
ghost use Rattle.names.specs.Listing.{longest_name};
ghost use Rattle.catalog.specs.Catalog.{node, catalog_of};
ghost use Rattle.catalog.specs.Finding.{holds};
ghost use Rattle.fields.specs.Places.{value_at};
ghost use Rattle.nodes.specs.Reading.{found_in};
ghost use Rattle.lists.specs.Lists.{list_of};
ghost use Rattle.lookup.specs.Info.{info_of};
ghost use Rattle.lookup.specs.Placed.{info_place};
ghost use Rattle.sizes.specs.Sizes.{read_size, is_bits};
ghost use Rattle.planner.specs.Tags.{is_unindexed};
ghost use Rattle.considered.specs.Answers.{is_read, struct_size_in, width_in, LaterText, index_read, piece_climbs};

use crate::files::Files;
use fields::Size;
use fields::decimal::read_numeral;
use lists::bars::is_barred;
use nodes::value::node_at;
use sizes::reply::{element_size, is_bits, reply_size};
use sizes::request::request_size;
use structs::struct_size;

/// A name that has tokens, and the place of the node that it leads to.
#[derive(Clone, Copy)]
pub struct Front<'a> {
    pub files: &'a Files<'a>,
    pub name: &'a [u8],
    pub node: Option<usize>,
    ghost some: { 1 ≤ length (tokens_of name.now) },
    ghost leads: { node ≡ info_place files.now.catalog.now name.now },
}

impl<'a> Front<'a> {
    // Whether the node at a place is an array of which the name gives no index.
    #[tactic(auto, using(crate::proofs::Noded::unindexed), unfolding(names::proofs::Ranges::last))]
    fn is_unindexed(&self, at: usize) -> bool
        ensures { let catalog = self.now.files.now.catalog.now in
            result ≡ is_unindexed (tokens_of self.now.name.now) (value_at node catalog at) }
    {
        let node = node_at(self.files.catalog.file(), at);
        node.count != 0 && self.name[self.name.len() - 1] != b']'
    }

    /// Whether there is a node, and it is no array without an index.
    #[tactic(auto, using(crate::proofs::Noded::reads))]
    pub fn is_read(&self) -> bool
        ensures { result ≡ is_read (catalog_of self.now.files.now.catalog.now) self.now.name.now }
    {
        match self.node {
            None => false,
            Some(at) => !self.is_unindexed(at),
        }
    }

    /// The bytes of the struct, if it reads whole and is not barred.
    #[tactic(auto, using(crate::proofs::Noded::wholes))]
    pub fn struct_size(&self) -> Option<u64>
        ensures { let files = self.now.files.now in
            result ≡ struct_size_in (catalog_of files.catalog.now) (list_of files.list.now) self.now.name.now }
    {
        let files = self.files;
        let at = self.node?;
        if is_barred(files.list, self.name) {
            return None;
        }
        if self.is_unindexed(at) {
            return None;
        }
        struct_size(files.catalog, files.marks, Some(at))
    }

    /// The bytes of an element, if it is an array that runs and is not barred.
    #[tactic(auto, using(crate::proofs::Noded::widths))]
    pub fn element_size(&self) -> Option<u64>
        ensures { let files = self.now.files.now in
            result ≡ width_in (catalog_of files.catalog.now) (list_of files.list.now) self.now.name.now }
    {
        if is_barred(self.files.list, self.name) {
            return None;
        }
        element_size(self.files.catalog.file(), self.node)
    }

    /// The bytes of a plain read.
    #[tactic(auto, using(crate::proofs::Noded::plains))]
    pub(crate) fn size(&self) -> Size
        requires { length self.now.name.now ≤ longest_name }
        ensures { let catalog = catalog_of self.now.files.now.catalog.now in
            result ≡ read_size catalog self.now.name.now }
    {
        let catalog = self.files.catalog;
        Size {
            request: request_size(catalog, self.name),
            reply: reply_size(catalog.file(), self.node),
        }
    }

    /// Whether the climb goes on over the token behind the name, of which this is the text.
    #[tactic(auto, using(crate::proofs::Named::climbing_over))]
    pub(crate) fn climbs_over(&self, text: &[u8]) -> bool
        requires { LaterText text.now }
        ensures { let node = found_in self.now.files.now.catalog.now self.now.node in
            result ≡ piece_climbs node (later_token text.now) }
    {
        text[0] == b'.' || (one_index(text).is_some() && self.is_apart())
    }

    // Whether there is a node that holds no bits.
    #[tactic(auto, unfolding(catalog::specs::Finding::holds, nodes::specs::Reading::found_in))]
    fn is_apart(&self) -> bool
        ensures { let node = found_in self.now.files.now.catalog.now self.now.node in
            result ≡ holds (λ n. not (is_bits n)) node }
    {
        match self.node {
            None => false,
            Some(at) => !is_bits(self.files.catalog.file(), at),
        }
    }
}

/// The one index that a token is, of which this is the text.
#[tactic(auto, using(crate::proofs::Named::one_indexes))]
pub(crate) fn one_index(text: &[u8]) -> Option<u64>
    requires { LaterText text.now }
    ensures { result ≡ index_read (later_token text.now) }
{
    // By index: the byte that a slice pattern tests has no name that a proof could cite.
    if text[0] == b'.' {
        return None;
    }
    let last = text.len() - 1;
    read_numeral(&text[1..last])
}
