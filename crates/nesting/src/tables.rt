// The same questions of tables of bytes, of any length, for a caller that has no `Graph`: the links of type k stand from `k * 128` on.
// An entry is set where its byte is 1; past the end of a table none is. How many types there are is lent beside the tables, and is no
// length of a slice.
ghost use Rattle.std.specs.Prelude.{◌≡◌};
ghost use Rattle.nesting.specs.Graph.{marked};
ghost use Rattle.nesting.specs.Tables.{first_told, TablesMarked, MadeOf, LinksLaid, PartsLaid};

use crate::graph::Graph;
use catalog::layout::MOST_TYPES;

/// Whether the entry of a table is 1; past its end it is not.
// The marks are lent, as bytes: a table that a caller has may hold any.
#[tactic(auto, unfolding(crate::specs::Graph::marked))]
pub fn is_marked(table: &[u8], i: usize) -> bool
    ensures { result ≡ marked table.now i }
{
    table.get(i).copied().unwrap_or(0) == 1
}

// Notes the links of the table's rows, as many as the graph has types. The marks are lent, as bytes, here and below.
#[tactic(auto, using(crate::proofs::Laying::linking))]
fn lay_links(links: &[u8], graph: &mut Graph)
    ensures { LinksLaid links.now graph.old graph.new }
{
    for i in 0..graph.count() * MOST_TYPES {
        if is_marked(links, i) {
            graph.link(i / MOST_TYPES, i % MOST_TYPES);
        }
    }
}

// Notes the types that have AOI 2. The marks are lent.
#[tactic(auto, using(crate::proofs::Laying::parting))]
fn lay_parts(parts: &[u8], graph: &mut Graph)
    ensures { PartsLaid parts.now graph.old graph.new }
{
    for k in 0..graph.count() {
        if is_marked(parts, k) {
            graph.set_parts(k);
        }
    }
}

// The tables as a graph; `None` for more types than 128. The marks are lent.
#[tactic(auto, using(crate::proofs::Laying::laying))]
fn graph_of(links: &[u8], parts: &[u8], count: usize) -> Option<Graph>
    ensures { MadeOf links.now parts.now count result }
{
    let mut graph = Graph::new(count)?;
    lay_links(links, &mut graph);
    lay_parts(parts, &mut graph);
    Some(graph)
}

/// The first of so many types that is nested over 16; `None` where none is, and for more types than 128.
// The marks are lent, as bytes: a table that a caller has may hold any.
#[tactic(auto, using(crate::proofs::Laying::telling))]
pub fn first_over(links: &[u8], count: usize) -> Option<usize>
    ensures { result ≡ first_told links.now count }
{
    match graph_of(links, &[], count) {
        Some(graph) => graph.first_over(),
        None => None,
    }
}

/// Marks those of so many types that read whole with 1 and the others with 0, and says whether it did. It writes nothing where there
/// are more types than 128 or than marks, or where one is nested over 16; past the last type a mark stays.
// The marks are lent, as bytes, and a caller may have more of them, or fewer. It is no twin of `whole_types` in `types`, which reads a
// file.
#[tactic(auto, using(crate::proofs::Laying::marking))]
pub fn whole_types(links: &[u8], parts: &[u8], count: usize, marks: &mut [u8]) -> bool
    ensures { TablesMarked links.now parts.now count marks.old marks.new result }
{
    match graph_of(links, parts, count) {
        Some(graph) => graph.mark_whole(marks),
        None => false,
    }
}
