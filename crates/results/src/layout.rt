// What a results file is made of: results, each a status byte and what it announces, with their limits.
ghost use Rattle.results.specs.Results.{ReadResult, result_field};
ghost use Rattle.results.specs.Seamless.{seamless_result};

use crate::Status;
use crate::place::status_at;
use fields::number::past;
use fields::row::{Choice, Counted, Field};
use fields::{Checked, Width};
use values::MOST_LEVELS;
use values::check::check_value;
use values::dig::value_past;

/// The most bytes of a results file.
pub const LONGEST_FILE: usize = 65536;
/// The most results of a file.
pub const MOST_RESULTS: usize = 65535;

/// The byte that a result starts with.
pub const STATUS: Choice = Choice { max: 2 };
/// The results of a file.
pub const RESULTS: Counted<ResultField> = Counted {
    width: Width::Two,
    max: MOST_RESULTS,
    field: ResultField,
};

/// A result: its status byte, and a value behind the status of one.
#[derive(Clone, Copy, Debug, PartialEq, Eq)]
pub struct ResultField;

impl Field for ResultField {
    ghost Shape = { ReadResult };

    ghost format = { λ field. result_field };

    ghost seamless = { λ field. seamless_result };

    #[tactic(auto, using(crate::proofs::Statuses::checking))]
    fn check(&self, s: &[u8], at: usize) -> Checked {
        let behind = STATUS.check(s, at)?;
        match status_at(s, at) {
            Status::Value => check_value(s, behind, MOST_LEVELS),
            _ => Ok(behind),
        }
    }

    #[tactic(auto, using(crate::proofs::Statuses::placing))]
    fn past(&self, s: &[u8], at: usize) -> usize {
        let behind = past(s, at, 1);
        match status_at(s, at) {
            Status::Value => value_past(s, behind),
            _ => behind,
        }
    }
}
