// The levels of a name: its first token, its first two, and so on; where each of these fronts ends, and the node that it leads to.
ghost use Rattle.std.specs.Prelude.{◌≡◌, true, [], ◌≤◌, ◌<◌, ◌+◌, length, take, drop, OnOk};
ghost use Rattle.std.specs.Result.{is_err};
ghost use Rattle.names.specs.Name.{tokens_of, spelling};
ghost use Rattle.catalog.specs.Catalog.{catalog_of};
ghost use Rattle.planner.specs.Tags.{climbs};
ghost use Rattle.considered.specs.Levels.{levels_of};
ghost use Rattle.considered.specs.Found.{place_behind};

use crate::files::Files;
use crate::front::Front;
use crate::tags::MOST_LEVELS;
use fields::table::Table;
use lists::layout::LONGEST_NAME;
use lookup::member::member_of;
use names::walk::{Stop, Tokens, first_token};

/// Where a front ends in its name, and the place of the node that it leads to.
#[derive(Clone, Copy, Debug, PartialEq, Eq)]
pub struct Level {
    pub end: usize,
    pub node: Option<usize>,
}

// The node behind a token, of which text stands behind the first byte: the member of that name, or behind a bracket the same node.
#[tactic(auto, using(crate::proofs::Telling::steps))]
fn token_step(files: &Files, node: Option<usize>, text: &[u8], indexes: usize) -> Option<usize>
    ensures { result ≡ place_behind files.now.catalog.now node text.now indexes }
{
    // How many indexes a token has, 0 for a member: so it is told by crate `names`.
    if indexes != 0 {
        return node;
    }
    member_of(files.catalog, node?, text)
}

// Puts down the levels of a name, up to where reading it stops.
// No tag is longer, in a clause, here and below.
fn put_levels(
    files: &Files,
    name: &[u8],
    levels: &mut Table<Level, MOST_LEVELS>,
) -> Result<(), Stop>
    requires empty { levels.old ≡ [] }
    requires short { length name.now ≤ LONGEST_NAME }
    ensures levels { OnOk result (levels.new ≡ levels_of files.now.catalog.now name.now) }
    ensures stopped { is_err result ≡ true → tokens_of name.now ≡ [] }
{
    let first = first_token(name)?;
    let mut path = files.catalog.find_tag(&name[..first.end]);
    levels.push(Level {
        end: first.end,
        node: path,
    });
    for piece in Tokens::behind(name, first.end) {
        let (text, token) = piece?;
        path = token_step(files, path, &text[1..], token.indexes);
        let tag = files.catalog.find_tag(&name[..token.end]);
        levels.push(Level {
            end: token.end,
            node: tag.or(path),
        });
    }
    Ok(())
}

/// The levels of a name; none of one that does not read.
#[tactic(auto, using(crate::proofs::Resolving::stopped_levelled))]
pub(crate) fn levels_in(files: &Files, name: &[u8]) -> Table<Level, MOST_LEVELS>
    requires { length name.now ≤ LONGEST_NAME }
    ensures { result ≡ levels_of files.now.catalog.now name.now }
{
    let mut levels = Table::new(Level { end: 0, node: None });
    if put_levels(files, name, &mut levels).is_err() {
        levels.clear();
    }
    levels
}

/// A listed tag's name with its levels.
#[derive(Clone, Copy)]
pub struct Resolved<'a> {
    pub files: &'a Files<'a>,
    pub name: &'a [u8],
    pub levels: &'a [Level],
    ghost short: { length name.now ≤ 128 },
    ghost levelled: { levels.now ≡ levels_of files.now.catalog.now name.now },
}

impl<'a> Resolved<'a> {
    /// The front at a level.
    #[tactic(auto, using(crate::proofs::Fronts::levels))]
    pub(crate) fn front(&self, level: usize) -> Front<'a>
        requires { level < length (tokens_of self.now.name.now) }
        ensures catalog { result.files.now.catalog.now ≡ self.now.files.now.catalog.now }
        ensures list { result.files.now.list.now ≡ self.now.files.now.list.now }
        ensures name { result.name.now ≡ spelling (take (level + 1) (tokens_of self.now.name.now)) }
    {
        let Level { end, node } = self.levels[level];
        Front {
            files: self.files,
            name: &self.name[..end],
            node,
        }
    }

    /// Whether the climb goes on over the token at a position.
    #[tactic(auto, using(crate::proofs::Fronts::levels))]
    pub(crate) fn goes_on(&self, token: usize) -> bool
        requires { token < length (tokens_of self.now.name.now) }
        ensures { let tokens = tokens_of self.now.name.now in
            let catalog = catalog_of self.now.files.now.catalog.now in
            result ≡ climbs catalog (take token tokens) (drop token tokens) }
    {
        // An early return: behind `||` the rest would be a block.
        if token == 0 {
            return true;
        }
        let front = self.front(token - 1);
        let start = front.name.len();
        let end = self.levels[token].end;
        front.climbs_over(&self.name[start..end])
    }
}
