// Replays the stored answers of the program that this one stands for: each case of data/ is put to the proved code, and what it answers
// is compared byte for byte. It prints a line for each file. That program has no refusals of damaged catalogs, lists, plans and values:
// what their cases want was written down by hand, by the table of refusals. How the cases were made stands in data/README.md.

#![tactic(auto)]

ghost use Rattle.std.specs.Prelude.{◌≤◌, IfOk, vec_len};

use crate::cases::{Case, Cases};
use fields::Written;
use lists::check::check_list;
use names::listing::{list_range, tokenize};
use names::strip::strip;
use planning::plan::plan;
use plans::check::check_plan;
use queries::check_catalog;
use results::sort::sort;
use std::rt::Files;
use std::{fmt, fs, io};
use values::alike::check_value_file;

mod calls;
mod cases;
mod output;

/// How many cases were put, and how many were answered otherwise.
#[derive(Clone, Copy, Debug, PartialEq, Eq)]
struct Tally {
    cases: u64,
    differences: u64,
}

impl fmt::Display for Tally {
    fn fmt<W: fmt::Write>(&self, f: &mut fmt::Formatter<W>) -> fmt::Result {
        write!(f, "{} cases {} differences", self.cases, self.differences)
    }
}

// The byte that a buffer holds before a call.
const UNTOUCHED: u8 = 170;

// Room for an answer.
const ROOM: usize = 65536;

// Whether a call wrote the stored answer, and nothing behind it.
fn is_answer(written: Written, out: &[u8], answer: &[u8]) -> bool {
    written.is_ok_and(|length| {
        length <= out.len()
            && &out[..length] == answer
            && out[length..].iter().all(|b| *b == UNTOUCHED)
    })
}

// Whether a call gives the stored answer. That it may be called is asked for wherever one is lent: a bound on `F` does not say it.
fn agrees<F: Fn(Case, &mut [u8]) -> Written>(call: &F, case: Case) -> bool
    requires { F.IsAlwaysCallable call.now }
{
    let mut out = [UNTOUCHED; ROOM];
    let written = call(case, &mut out);
    is_answer(written, &out, case.answer)
}

// Puts the cases to a call.
fn replay<F: Fn(Case, &mut [u8]) -> Written>(cases: Cases, call: &F) -> Tally
    requires { F.IsAlwaysCallable call.now }
{
    let mut tally = Tally {
        cases: 0,
        differences: 0,
    };
    for case in cases {
        tally.cases = tally.cases.saturating_add(1);
        if !agrees(call, case) {
            tally.differences = tally.differences.saturating_add(1);
        }
    }
    tally
}

// Room for a file of cases.
const SPACE: usize = 655360;

// The bytes of a file of cases, no more of them than there is room for.
fn read_cases<R: Files + AllocGlobal>(rt: &R, path: &str) -> io::Result<Vec<u8>>
    ensures { IfOk result (λ file. vec_len file ≤ 655360) }
{
    let mut file = fs::read(rt, path)?;
    file.truncate(SPACE);
    Ok(file)
}

// Replays a file, whose cases have so many inputs each, by the call that answers them.
fn run<R: Files + AllocGlobal + Print + Eprint, F: Fn(Case, &mut [u8]) -> Written>(
    rt: &R,
    path: &str,
    inputs: usize,
    call: F,
) -> io::Result<()>
    requires { F.IsAlwaysCallable call }
{
    // Matched, since the error is told here and the next file has its turn: `?` would end the run.
    match read_cases(rt, path) {
        Ok(file) => {
            if file.len() == SPACE {
                print!(rt; "longer than the buffer: ")?;
            }
            let left = file.as_slice();
            let tally = replay(Cases { inputs, left }, &call);
            println!(rt; "{path} {tally}")
        }
        Err(e) => eprintln!(rt; "{path}: {e}"),
    }
}

fn main(rt: HostRuntime) -> io::Result<()> {
    run(&rt, "tokens.cases", 1, |case, out| {
        tokenize(case.first, out)
    })?;
    run(&rt, "strip.cases", 1, |case, out| strip(case.first, out))?;
    run(&rt, "range.cases", 1, |case, out| {
        list_range(case.first, out)
    })?;
    run(&rt, "info.cases", 2, calls::node)?;
    run(&rt, "sizes.cases", 2, calls::read_sizes)?;
    run(&rt, "damaged.cases", 2, |case, out| {
        calls::verdict(check_catalog(case.first), out)
    })?;
    run(&rt, "chunks.cases", 3, calls::groups_of_tables)?;
    run(&rt, "packets.cases", 3, calls::packets_of_tables)?;
    run(&rt, "plan_chunks.cases", 3, calls::groups_of_plan)?;
    run(&rt, "plan.cases", 2, |case, out| {
        plan(case.first, case.second, out)
    })?;
    run(&rt, "damaged_lists.cases", 2, |case, out| {
        calls::verdict(check_list(case.first), out)
    })?;
    run(&rt, "damaged_plans.cases", 2, |case, out| {
        calls::verdict(check_plan(case.first), out)
    })?;
    run(&rt, "damaged_values.cases", 2, |case, out| {
        calls::verdict(check_value_file(case.first), out)
    })?;
    run(&rt, "lists.cases", 1, calls::list)?;
    run(&rt, "dig.cases", 2, calls::place_of_path)?;
    run(&rt, "plans.cases", 1, calls::plan)?;
    run(&rt, "sort.cases", 2, |case, out| {
        sort(case.first, case.second, out)
    })
}
