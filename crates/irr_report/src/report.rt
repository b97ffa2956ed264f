// Reports.
ghost use Rattle.std.specs.Prelude.{◌≡◌};
ghost use Rattle.irr_report.specs.declared.report.ReportError.TheVariants.{Memory as want_of_memory};

use irr_cyc::Scalar;
use irr_kvec::Wave;
use irr_memory::Memory;
use irr_rep::Family;
use irr_seitz::Op;
use thiserror::Error;

/// A representation of a report: a matrix for each operation, and its character.
#[derive(Drop)]
pub struct RepText<S: Scalar> {
    /// The matrices, in the order of the report's operations.
    pub family: Family<S>,
    /// The characters, in the order of the report's operations.
    pub chars: Vec<S>,
}

/// A report, version 1: a wave vector, operations, and small representations (Bradley and Cracknell, section
/// 3.7) whose matrices and characters are numbers of one order.
#[derive(Drop)]
pub struct Report<S: Scalar> {
    /// The wave vector.
    pub wave: Wave,
    /// The order of the numbers.
    pub order: u32,
    /// The operations.
    pub ops: Vec<Op>,
    /// The representations.
    pub reps: Vec<RepText<S>>,
}

/// Why a text is no report. Lines count from 1.
#[derive(Clone, Copy, Debug, PartialEq, Eq, Error)]
pub enum ReportError {
    /// This line is the first outside the grammar, and none before it passes a limit. A missing line counts as
    /// the one after the last.
    #[error("line {0} is faulty")]
    Line(u64),
    /// This line is the first that passes a limit, and none before it is outside the grammar.
    #[error("line {0} passes a limit")]
    Range(u64),
    /// No memory was found.
    #[error("out of memory")]
    Memory,
}

impl From<Memory> for ReportError {
    ghost from_gives = { λ _ e. e ≡ want_of_memory };

    fn from(_error: Memory) -> ReportError {
        ReportError::Memory
    }
}
