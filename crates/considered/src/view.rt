// The look at one tag: the sizes of its plain read, the element that it is, and the rows of the structs above it.
ghost use Rattle.std.specs.Prelude.{◌≡◌, true, find, ◌++◌, ◌+◌, ◌≤◌, ◌<◌, map, length};
ghost use Rattle.std.specs.Option.{option_map, option_copied};
ghost use Rattle.fields.specs.Text.{alike, same};
ghost use Rattle.names.specs.Name.{tokens_of};
ghost use Rattle.catalog.specs.Catalog.{catalog_of};
ghost use Rattle.lists.specs.Lists.{list_of};
ghost use Rattle.sizes.specs.Sizes.{read_size};
ghost use Rattle.planner.specs.Rows.{row_of};
ghost use Rattle.planner.specs.Lists.{as_list, given};
ghost use Rattle.planner.specs.Tags.{struct_at, tag_behind};
ghost use Rattle.considered.specs.Seen.{row_in, element_seen, seen_in, seen_of, text_in};
ghost use Rattle.considered.specs.Answers.{Limited, element_last, above_all, above_in, element_in, is_counted, text_at};

use crate::files::Files;
use crate::front::{Front, one_index};
use crate::levels::{Resolved, levels_in};
use crate::tags::{Element, MOST_LEVELS, MOST_ROWS, Row, Rows, Tag};
use fields::Size;
use fields::check::part_at;
use lists::layout::{LONGEST_NAME, MOST_TAGS};
use sizes::reply::read_size_of;

/// What a tag gives: the bytes of its plain read, and the element that it is.
#[derive(Clone, Copy, Debug, PartialEq, Eq)]
pub struct View {
    pub size: Size,
    pub element: Option<Element>,
}

// Puts down the row of the struct that a front of a tag's name leads to, if its size is known.
#[tactic(auto, using(crate::proofs::Climbing::puts))]
fn put_row(front: &Front, tag: u8, rows: &mut Rows)
    requires short { length front.now.name.now ≤ LONGEST_NAME }
    requires room { length rows.old < MOST_ROWS }
    ensures { let files = front.now.files.now in
        let tokens = tokens_of front.now.name.now in
        let here = struct_at (catalog_of files.catalog.now) (list_of files.list.now) tokens in
        map row_in rows.new ≡ map row_in rows.old ++ map (row_of tag) (as_list here) }
{
    // `as`, here and below: the clauses bound each of these; `try_from` would bring an error that cannot come.
    if let Some(size) = front.struct_size() {
        rows.push(Row {
            tag,
            end: front.name.len() as u8,
            size: size as u16,
        });
    }
}

// Puts down the rows of the structs that a tag is or lies under, the innermost first.
// There is room for the structs of one tag more, in a clause, here and below.
#[tactic(auto, using(crate::proofs::Climbing::climbs_up))]
fn climb(resolved: &Resolved, tag: u8, rows: &mut Rows)
    requires { length rows.old + MOST_LEVELS ≤ MOST_ROWS }
    ensures { let files = resolved.now.files.now in
        let catalog = catalog_of files.catalog.now in
        let above = above_all catalog (list_of files.list.now) resolved.now.name.now in
        map row_in rows.new ≡ map row_in rows.old ++ map (row_of tag) above }
{
    for level in (0..resolved.levels.len()).rev() {
        let front = resolved.front(level);
        put_row(&front, tag, rows);
        if !resolved.goes_on(level) {
            return;
        }
    }
}

// The element that a tag is.
// That a tag is inside its limits is asked for in a clause, here and below: accepted or not, a list has such tags.
#[tactic(auto, using(crate::proofs::Elements::elements))]
fn element_of(resolved: &Resolved) -> Option<Element>
    requires { Limited resolved.now.name.now }
    ensures { let files = resolved.now.files.now in
        let catalog = catalog_of files.catalog.now in
        let last = element_last catalog (list_of files.list.now) resolved.now.name.now in
        result ≡ option_map element_seen last }
{
    let count = resolved.levels.len();
    if count < 2 {
        return None;
    }
    let front = resolved.front(count - 2);
    let array = front.name.len();
    let index = one_index(&resolved.name[array..])?;
    let width = front.element_size()?;
    Some(Element {
        width: width as u8,
        index: index as u32,
        array: array as u8,
    })
}

// Whether a tag counts, which is no second spelling where it is known.
#[tactic(auto, unfolding(crate::specs::Answers::is_counted))]
fn is_counted(whole: &Front, is_known: bool) -> bool
    ensures { let catalog = catalog_of whole.now.files.now.catalog.now in
        result ≡ is_counted catalog whole.now.name.now is_known }
{
    is_known && whole.is_read()
}

// Looks at a tag, and puts down the rows of the structs above it; it is no second spelling where it is known.
#[tactic(auto, using(crate::proofs::Viewing::looks))]
fn view_tag(files: &Files, name: &[u8], is_known: bool, tag: u8, rows: &mut Rows) -> View
    requires limited { Limited name.now }
    requires room { length rows.old + MOST_LEVELS ≤ MOST_ROWS }
    ensures size { result.size ≡ read_size (catalog_of files.now.catalog.now) name.now }
    ensures element { let catalog = catalog_of files.now.catalog.now in
        let element = element_in catalog (list_of files.now.list.now) name.now is_known in
        result.element ≡ option_map element_seen element }
    ensures rows { let catalog = catalog_of files.now.catalog.now in
        let above = above_in catalog (list_of files.now.list.now) name.now is_known in
        map row_in rows.new ≡ map row_in rows.old ++ map (row_of tag) above }
{
    let levels = levels_in(files, name);
    let count = levels.len();
    if count == 0 {
        return View {
            size: read_size_of(files.catalog, name),
            element: None,
        };
    }
    let resolved = Resolved {
        files,
        name,
        levels: levels.rows(),
    };
    let whole = resolved.front(count - 1);
    let size = whole.size();
    if !is_counted(&whole, is_known) {
        return View {
            size,
            element: None,
        };
    }
    climb(&resolved, tag, rows);
    View {
        size,
        element: element_of(&resolved),
    }
}

// The text at a place of a list.
fn text_at(list: &[u8], place: usize) -> &[u8]
    ensures { result.now ≡ text_at list.now place }
{
    let part = part_at(list, place);
    &list[part.start..part.end]
}

// Whether a tag is called like this, case ignored.
#[tactic(auto, using(fields::proofs::Comparisons::compared))]
fn is_called(list: &[u8], tag: &Tag, name: &[u8]) -> bool
    ensures { result ≡ alike name.now (text_in list.now tag.now) }
{
    name.eq_ignore_ascii_case(text_at(list, tag.place))
}

// The first of some tags that is called like this, case ignored.
fn first_alike<'a>(list: &[u8], tags: &'a [Tag], name: &[u8]) -> Option<&'a Tag>
    ensures { option_copied result ≡ find (λ t. alike name.now (text_in list.now t)) tags.now }
{
    tags.iter().find(|tag| is_called(list, tag, name))
}

// Whether a name is spelled as the first tag that is so called, if one is.
#[tactic(auto, using(crate::proofs::Alikes::bytes_same), unfolding(planner::specs::Lists::given))]
fn is_spelled(list: &[u8], name: &[u8], twin: Option<&Tag>) -> bool
    ensures { let text = option_map (text_in list.now) (option_copied twin.entry) in
        result ≡ given text true (same name.now) }
{
    match twin {
        None => true,
        Some(tag) => name == text_at(list, tag.place),
    }
}

/// Looks at the tag at a place, behind the tags before it, and puts down the rows of the structs above it.
pub(crate) fn see_tag(files: &Files, place: usize, before: &[Tag], rows: &mut Rows) -> Tag
    requires limited { Limited (text_at files.now.list.now place) }
    requires few { length before.now < MOST_TAGS }
    requires room { length rows.old + MOST_LEVELS ≤ MOST_ROWS }
    ensures place { result.place ≡ place }
    ensures tag { let catalog = files.now.catalog.now in
        let list = files.now.list.now in
        let texts = map (text_in list) before.now in
        let tag = tag_behind (catalog_of catalog) (list_of list) texts (text_at list place) in
        seen_in result ≡ seen_of catalog tag }
    ensures rows { let list = files.now.list.now in
        let catalog = catalog_of files.now.catalog.now in
        let texts = map (text_in list) before.now in
        let tag = tag_behind catalog (list_of list) texts (text_at list place) in
        map row_in rows.new ≡ map row_in rows.old ++ map (row_of (length before.now)) tag.above }
{
    let name = text_at(files.list, place);
    let twin = first_alike(files.list, before, name);
    let is_known = is_spelled(files.list, name, twin);
    let view = view_tag(files, name, is_known, before.len() as u8, rows);
    Tag {
        place,
        is_first: twin.is_none(),
        element: view.element,
        size: view.size,
    }
}
