// The calls whose answers the code under test does not lay out itself: their inputs are read here, and what they answer is written as the
// stored answers have it.
ghost use Rattle.std.specs.Prelude.{◌≤◌, length};

use crate::cases::Case;
use crate::output::Output;
use fields::check::{text_at, text_past};
use fields::number::{number_at, past};
use fields::{Checked, Width, Written};
use groups::plan_chunks;
use lists::check::check_list;
use lists::read::{self, Row};
use lookup::info::info;
use nodes::place::node_past;
use packing::chunk::chunks;
use packing::table::packets;
use plans::check::check_plan;
use plans::layout::MOST_MEMBERS;
use plans::place::{member_past, read_count, read_past, reads_start};
use queries::check_catalog;
use sizes::reply::{element_size, read_size};
use structs::whole_size;
use values::cut::dig_place;

// More numbers than a table may have.
const MOST_NUMBERS: usize = 260;

/// The verdict of a check.
pub(crate) fn verdict(checked: Checked, out: &mut [u8]) -> Written {
    let mut output = Output::new(out);
    output.verdict(checked);
    output.written()
}

/// What a name is in a catalog: 0 for nothing; or 1 and the node, from behind its name on.
pub(crate) fn node(case: Case, out: &mut [u8]) -> Written {
    let catalog = case.first;
    check_catalog(catalog)?;
    let mut output = Output::new(out);
    let found = info(catalog, case.second);
    output.number(Width::One, u64::from(found.is_some()));
    if let Some(at) = found {
        let node = catalog.get(text_past(catalog, at)..node_past(catalog, at));
        output.bytes(node.unwrap_or_default());
    }
    output.written()
}

/// The sizes of a read: its request and its reply, then an element of a run, then a struct that is read whole.
pub(crate) fn read_sizes(case: Case, out: &mut [u8]) -> Written {
    let catalog = case.first;
    check_catalog(catalog)?;
    let found = info(catalog, case.second);
    let size = read_size(catalog, case.second);
    let mut output = Output::new(out);
    output.number(Width::Eight, size.request);
    output.number(Width::Eight, size.reply);
    output.size(element_size(catalog, found));
    output.size(whole_size(catalog, found));
    output.written()
}

// The numbers of a table, 8 bytes each, no more of them than there is room for.
fn read_table<'a>(s: &[u8], numbers: &'a mut [u64]) -> &'a [u64]
    ensures within { length result.now ≤ length numbers.old }
{
    let count = numbers.len().min(s.len() / 8);
    for (number, bytes) in numbers.iter_mut().zip(s.as_chunks::<8>().0) {
        *number = u64::from_be_bytes(*bytes);
    }
    &numbers[..count]
}

// The budget of a call, in two bytes: 0 where they are not there.
fn read_budget(s: &[u8]) -> u16 {
    s.first_chunk::<2>()
        .map_or(0, |bytes| u16::from_be_bytes(*bytes))
}

/// The groups of reads, by tables of their sizes.
pub(crate) fn groups_of_tables(case: Case, out: &mut [u8]) -> Written {
    chunks(
        read_table(case.first, &mut [0; MOST_NUMBERS]),
        read_table(case.second, &mut [0; MOST_NUMBERS]),
        read_budget(case.third),
        out,
    )
}

/// The packets of reads, by tables of their sizes, in 8 bytes.
pub(crate) fn packets_of_tables(case: Case, out: &mut [u8]) -> Written {
    let count = packets(
        read_table(case.first, &mut [0; MOST_NUMBERS]),
        read_table(case.second, &mut [0; MOST_NUMBERS]),
        read_budget(case.third),
    )?;
    let mut output = Output::new(out);
    output.number(Width::Eight, count);
    output.written()
}

/// The groups of a plan's reads, by the catalog.
pub(crate) fn groups_of_plan(case: Case, out: &mut [u8]) -> Written {
    plan_chunks(case.first, case.second, read_budget(case.third), out)
}

/// The place that a path leads to in a value file, in 8 bytes: 0 where it leads nowhere.
pub(crate) fn place_of_path(case: Case, out: &mut [u8]) -> Written {
    let found = dig_place(case.first, case.second)?;
    let mut output = Output::new(out);
    output.count(Width::Eight, found.map_or(0, |part| part.start));
    output.written()
}

/// The list anew, if it is accepted.
pub(crate) fn list(case: Case, out: &mut [u8]) -> Written {
    let s = case.first;
    check_list(s)?;
    let mut output = Output::new(out);
    output.number(Width::One, 1);
    output.number(Width::Four, u64::from(read::whole_max(s)));
    output.number(Width::Two, u64::from(read::budget(s)));
    output.row(Row::NoGroup.count(s), |i| Row::NoGroup.part(s, i).of(s));
    output.row(Row::Together.count(s), |i| Row::Together.part(s, i).of(s));
    output.row(Row::Tags.count(s), |i| Row::Tags.part(s, i).of(s));
    output.written()
}

// The path of the member at a place of a plan, key count and keys: nothing where it has none.
fn path_at(s: &[u8], at: usize) -> &[u8]
    ensures within { length result.now ≤ length s.now }
{
    let keys = text_past(s, at).saturating_add(1);
    s.get(keys..member_past(s, at)).unwrap_or_default()
}

// The read at a place of a plan, with its members.
fn copy_read(s: &[u8], at: usize, output: &mut Output) {
    let members = text_past(s, at);
    let count = number_at(s, members, Width::Two, MOST_MEMBERS);
    // By `as`: no more than `MOST_MEMBERS` are told, so that nothing is lost.
    output.read(text_at(s, at), count as u16);
    let mut member = past(s, members, 2);
    for _ in 0..count {
        output.member(text_at(s, member), path_at(s, member));
        member = member_past(s, member);
    }
}

/// The plan anew, if it is accepted.
pub(crate) fn plan(case: Case, out: &mut [u8]) -> Written {
    let s = case.first;
    check_plan(s)?;
    let mut output = Output::new(out);
    output.number(Width::One, 1);
    output.count(Width::Two, read_count(s));
    let mut at = reads_start(s);
    for _ in 0..read_count(s) {
        copy_read(s, at, &mut output);
        at = read_past(s, at);
    }
    output.written()
}
