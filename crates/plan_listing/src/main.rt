// The plan program: plans the list file for the catalog file that are named as its arguments, and prints the plan, group by group. With no
// arguments it plans the bundled example. A refusal is told by its number, in words, and with what is returned.

#![tactic(auto)]

use catalog::layout::LONGEST_FILE as LONGEST_CATALOG;
use fields::check::{text_at, text_past};
use fields::number::{number_at, past, raw};
use fields::row::{Counted, Field, Number, Places};
use fields::{Refusal, Width};
use groups::plan_chunks;
use lists::check::check_list;
use lists::layout::LONGEST_FILE as LONGEST_LIST;
use lists::read::budget;
use plans::layout::{
    KEYS, KeyKind, LONGEST_FILE as LONGEST_PLAN, MEMBERS, MOST_READS, READS, key_kind_at,
};
use queries::check_catalog;
use std::alloc::Global;
use std::fs::File;
use std::io::{BufWriter, Read, Write};
use std::rt::Files;
use std::{env, fmt, io};

/// What is refused, and why.
#[derive(Clone, Copy, Debug, PartialEq, Eq)]
struct Refused {
    what: &'static str,
    refusal: Refusal,
}

/// What is refused, the number of the cause, the cause in words, and what is returned.
impl fmt::Display for Refused {
    fn fmt<W: fmt::Write>(&self, f: &mut fmt::Formatter<W>) -> fmt::Result {
        let what = self.what;
        let refusal = self.refusal;
        write!(f, "{what} refused, {}: {refusal}", refusal.number())
    }
}

// What a call on a file answers; where it refuses, with what it is that is refused.
fn told<T>(what: &'static str, answer: Result<T, Refusal>) -> Result<T, Refused> {
    answer.map_err(|refusal| Refused { what, refusal })
}

/// The bytes of a text, each one character: in a file that is accepted they are printable ASCII.
#[derive(Clone, Copy, Debug, PartialEq, Eq)]
struct Spelled<'a>(&'a [u8]);

impl fmt::Display for Spelled<'_> {
    fn fmt<W: fmt::Write>(&self, f: &mut fmt::Formatter<W>) -> fmt::Result {
        for b in self.0 {
            f.write_char(char::from(*b))?;
        }
        Ok(())
    }
}

// The places of the fields of a row, whose count stands at a place.
fn items<'a, F: Field + Copy>(row: Counted<F>, file: &'a [u8], at: usize) -> Places<'a, F> {
    Places {
        field: row.field,
        file,
        at: past(file, at, row.width.bytes()),
        left: number_at(file, at, row.width, row.max),
    }
}

// Where the field behind the flag at a place stands, if there is one.
fn held_at(file: &[u8], at: usize) -> Option<usize> {
    // Compared with 1, as `Optional` compares it with 0: a byte of a file has no type of its own.
    (number_at(file, at, Width::One, 1) == 1).then_some(past(file, at, 1))
}

/// The key at a place of a plan: `.name` or `[n]`.
#[derive(Clone, Copy, Debug, PartialEq, Eq)]
struct Step<'a> {
    file: &'a [u8],
    at: usize,
}

impl fmt::Display for Step<'_> {
    fn fmt<W: fmt::Write>(&self, f: &mut fmt::Formatter<W>) -> fmt::Result {
        let behind = past(self.file, self.at, 1);
        if key_kind_at(self.file, self.at) == KeyKind::Member {
            return write!(f, ".{}", Spelled(text_at(self.file, behind)));
        }
        write!(f, "[{}]", raw(self.file, behind, Width::Four))
    }
}

/// The member at a place of a plan: a line with its tag, and its path if it has one.
#[derive(Clone, Copy, Debug, PartialEq, Eq)]
struct Member<'a> {
    file: &'a [u8],
    at: usize,
}

impl fmt::Display for Member<'_> {
    fn fmt<W: fmt::Write>(&self, f: &mut fmt::Formatter<W>) -> fmt::Result {
        let file = self.file;
        write!(f, "tag {}", Spelled(text_at(file, self.at)))?;
        if let Some(keys) = held_at(file, text_past(file, self.at)) {
            write!(f, " path ")?;
            for at in items(KEYS, file, keys) {
                write!(f, "{}", Step { file, at })?;
            }
        }
        writeln!(f, "")
    }
}

/// The read at a place of a plan: a line with its name, and its members.
#[derive(Clone, Copy, Debug, PartialEq, Eq)]
struct ReadView<'a> {
    file: &'a [u8],
    at: usize,
}

impl fmt::Display for ReadView<'_> {
    fn fmt<W: fmt::Write>(&self, f: &mut fmt::Formatter<W>) -> fmt::Result {
        let file = self.file;
        writeln!(f, "read {}", Spelled(text_at(file, self.at)))?;
        for at in items(MEMBERS, file, text_past(file, self.at)) {
            write!(f, "{}", Member { file, at })?;
        }
        Ok(())
    }
}

// A group of a groups file: the positions of its reads in the plan.
const GROUP: Counted<Number> = Counted {
    width: Width::Two,
    max: MOST_READS,
    field: Number {
        width: Width::Two,
        max: MOST_READS - 1,
    },
};

// The groups of a groups file.
const GROUPS: Counted<Counted<Number>> = Counted {
    width: Width::Two,
    max: MOST_READS,
    field: GROUP,
};

// Where the packet count of a groups file stands, behind its version.
const PACKETS_AT: usize = 1;

// Where its groups stand.
const GROUPS_AT: usize = 9;

// More bytes than the groups of any plan have.
const LONGEST_GROUPS: usize = 2048;

/// The group at a place of a groups file: a line with its number, and its reads, each by its position in the plan.
#[derive(Clone, Copy, Debug, PartialEq, Eq)]
struct Group<'r, 'a> {
    number: usize,
    reads: &'r [ReadView<'a>],
    file: &'a [u8],
    at: usize,
}

impl fmt::Display for Group<'_, '_> {
    fn fmt<W: fmt::Write>(&self, f: &mut fmt::Formatter<W>) -> fmt::Result {
        writeln!(f, "group {}", self.number)?;
        for at in items(GROUP, self.file, self.at) {
            if let Some(read) = self.reads.get(raw(self.file, at, Width::Two)) {
                write!(f, "{read}")?;
            }
        }
        Ok(())
    }
}

/// A plan by its reads and its groups file: a line with how many reads and packets there are, and its groups, numbered from 1.
#[derive(Clone, Copy, Debug, PartialEq, Eq)]
struct Listing<'r, 'a> {
    reads: &'r [ReadView<'a>],
    groups: &'a [u8],
}

impl fmt::Display for Listing<'_, '_> {
    fn fmt<W: fmt::Write>(&self, f: &mut fmt::Formatter<W>) -> fmt::Result {
        let file = self.groups;
        let packets = raw(file, PACKETS_AT, Width::Eight);
        writeln!(f, "plan {} reads {packets} packets", self.reads.len())?;
        for (number, at) in (1..).zip(items(GROUPS, file, GROUPS_AT)) {
            let reads = self.reads;
            let group = Group {
                number,
                reads,
                file,
                at,
            };
            write!(f, "{group}")?;
        }
        Ok(())
    }
}

/// What is planned: a list over a catalog.
#[derive(Clone, Copy, Debug, PartialEq, Eq)]
struct Inputs<'a> {
    catalog: &'a [u8],
    list: &'a [u8],
}

impl Inputs<'_> {
    // Writes the plan, or tells what is refused.
    fn plan(&self, plan: &mut Vec<u8>) -> Result<(), Refused> {
        told("catalog", check_catalog(self.catalog))?;
        told("list", check_list(self.list))?;
        let length = told(
            "plan",
            planning::plan::plan(self.catalog, self.list, plan.as_mut_slice()),
        )?;
        plan.truncate(length);
        Ok(())
    }

    // Writes the groups of the plan's reads, or tells what is refused.
    fn group(&self, plan: &[u8], groups: &mut [u8]) -> Result<(), Refused> {
        let written = plan_chunks(self.catalog, plan, budget(self.list), groups);
        told("groups", written)?;
        Ok(())
    }

    // Writes the plan and its groups, or tells what is refused.
    fn make(&self, plan: &mut Vec<u8>, groups: &mut Vec<u8>) -> Result<(), Refused> {
        self.plan(plan)?;
        self.group(plan.as_slice(), groups.as_mut_slice())
    }
}

// Prints a plan by its file and its groups file.
fn print_plan<'a>(
    alloc: Global,
    out: &mut impl Write,
    file: &'a [u8],
    groups: &'a [u8],
) -> io::Result<()> {
    let reads = items(READS, file, 1)
        .map(|at| ReadView { file, at })
        .collect::<Vec<_>>(alloc)?;
    let listing = Listing {
        reads: reads.as_slice(),
        groups,
    };
    write!(out, "{listing}")
}

// Plans, and prints the plan.
fn show(alloc: Global, out: &mut impl Write, inputs: Inputs) -> io::Result<()> {
    let mut plan = vec![in alloc; 0; LONGEST_PLAN]?;
    let mut groups = vec![in alloc; 0; LONGEST_GROUPS]?;
    if let Err(refused) = inputs.make(&mut plan, &mut groups) {
        return writeln!(out, "{refused}");
    }
    print_plan(alloc, out, plan.as_slice(), groups.as_slice())
}

// Reads the file of a path. Of a longer file than any that is accepted no more than the bytes that show it are read.
fn read_path<R: Files + AllocGlobal>(rt: &R, path: &str, most: u64) -> io::Result<Vec<u8>> {
    let mut bytes = Vec::new(rt.alloc());
    File::open(rt, path)?.take(most).read_to_end(&mut bytes)?;
    Ok(bytes)
}

// Reads the file that is named as an argument, or another where none is; nothing where it cannot be read, which standard error is told.
fn read_file<R: Files + AllocGlobal + Eprint>(
    rt: &R,
    argument: &Option<String>,
    other: &str,
    most: u64,
) -> io::Result<Option<Vec<u8>>> {
    let path = argument
        .as_deref()
        .filter(|path| !path.is_empty())
        .unwrap_or(other);
    let read = read_path(rt, path, most);
    if let Err(e) = &read {
        eprintln!(rt; "{path}: {e}")?;
    }
    Ok(read.ok())
}

// One byte more than a catalog that is accepted may have.
const CATALOG_MOST: u64 = LONGEST_CATALOG as u64 + 1;

// One byte more than a list that is accepted may have.
const LIST_MOST: u64 = LONGEST_LIST as u64 + 1;

fn main(rt: HostRuntime) -> io::Result<()> {
    let mut args = env::args(&rt)?;
    let _ = args.next();
    let first = args.next();
    let second = args.next();
    let catalog = read_file(&rt, &first, "examples/motor.catalog", CATALOG_MOST)?;
    let list = read_file(&rt, &second, "examples/motor.list", LIST_MOST)?;
    let mut out = BufWriter::new(rt.alloc(), io::writer(&rt))?;
    if let (Some(catalog), Some(list)) = (&catalog, &list) {
        let inputs = Inputs {
            catalog: catalog.as_slice(),
            list: list.as_slice(),
        };
        show(rt.alloc(), &mut out, inputs)?;
    }
    out.flush()
}
