// How a run ends.
ghost use Rattle.std.specs.Prelude.{◌≡◌};

use irr_check::Clause;
use irr_input::Reason;

/// Which limit was passed.
#[derive(Clone, Copy, Debug, PartialEq, Eq)]
pub enum Kind {
    /// More than 4,194,304 bytes of input.
    Bytes,
    /// The first line of the input, counted from 1, that passes a limit on reports.
    Report(u64),
    /// More than 48 rotations, or one with an entry above 9 in absolute value.
    Rotations,
    /// The least common denominator of the generators' vectors, which is above 100,000.
    Denominator,
    /// More than 32 translations modulo the whole ones.
    Centrings,
    /// The order of the numbers, which is above 12,000.
    Order(u64),
}

/// How a run ends.
#[derive(Clone, Copy, Debug, PartialEq, Eq)]
pub enum Status {
    /// The text that was asked for is written.
    Done,
    /// The verdict on a report is no, and its line is written: the clause that fails first, with the numbers of
    /// `Verdict::No`.
    Rejected {
        clause: Clause,
        rep: u32,
        i: u32,
        j: u32,
    },
    /// The words are no command: the word of this number, counted from 1, is wrong, superfluous or missing.
    Usage(u32),
    /// The first faulty line of the input, counted from 1; the one after the last where a section is missing.
    /// Or the line of a subgroup's basis or of one of its generators, which gives none.
    BadInput {
        line: u64,
        reason: Reason,
    },
    /// A limit was passed.
    TooLarge(Kind),
    /// A read failed.
    ReadFault,
    /// A write failed.
    WriteFault,
    /// Memory was wanting. Nothing is written then.
    Memory,
}

impl Status {
    ghost use Rattle.irr_top.specs.StatusCode.{code_of};

    /// The exit status of a program that ends so.
    pub fn code(&self) -> u8
        ensures { result ≡ code_of self.now }
    {
        match self {
            Status::Done => 0,
            Status::Rejected { .. } => 1,
            Status::Usage(_) => 2,
            Status::BadInput { .. } => 3,
            Status::TooLarge(_) => 4,
            Status::ReadFault => 5,
            Status::WriteFault => 6,
            Status::Memory => 7,
        }
    }
}
