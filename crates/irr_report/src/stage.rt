// What is read of a report, up to a line.
ghost use Rattle.std.specs.Prelude.{ℕ, List, ◌≡◌, ◌<◌, ◌≤◌, length};
ghost use Rattle.irr_report.specs.ValueTexts.{IsScaleOf};
ghost use Rattle.irr_report.specs.declared.stage.StepError.TheVariants.{Memory as want_of_memory};

use crate::report::{RepText, Report};
use crate::values::Scale;
use irr_cyc::{Order, Scalar};
use irr_kvec::Wave;
use irr_mat::Mat;
use irr_memory::Memory;
use irr_seitz::Op;

/// Why a line is not the next one of a report.
#[derive(Clone, Copy, Debug, PartialEq, Eq)]
pub(crate) enum StepError {
    /// It is outside the grammar.
    Line,
    /// It passes a limit.
    Range,
    /// No memory was found.
    Memory,
}

impl From<Memory> for StepError {
    ghost from_gives = { λ _ e. e ≡ want_of_memory };

    fn from(_error: Memory) -> StepError {
        StepError::Memory
    }
}

/// What stands before the lines of operations: the wave vector, the order, and how many operations follow.
#[derive(Drop)]
pub(crate) struct Head {
    pub(crate) wave: Wave,
    pub(crate) order: Order,
    pub(crate) places: usize,
    pub(crate) ghost few: { places ≤ 48 },
}

/// The operations so far.
#[derive(Drop)]
pub(crate) struct Listed {
    pub(crate) head: Head,
    pub(crate) ops: Vec<Op>,
    pub(crate) ghost fits: { length ops.items ≤ head.places },
}

/// All operations, how many representations there are, and those so far.
#[derive(Drop)]
pub(crate) struct Counted<S: Scalar> {
    pub(crate) wave: Wave,
    pub(crate) order: Order,
    pub(crate) ops: Vec<Op>,
    pub(crate) count: usize,
    pub(crate) reps: Vec<RepText<S>>,
    pub(crate) ghost few: { length ops.items ≤ 48 },
}

/// The number of rows of a matrix.
#[derive(Clone, Copy)]
pub(crate) struct Dimension {
    pub(crate) rows: u32,
    pub(crate) ghost some: { 0 < rows },
    pub(crate) ghost few: { rows ≤ 48 },
}

/// A representation with the matrices so far, and what its values so far come to.
#[derive(Drop)]
pub(crate) struct Part<S: Scalar> {
    pub(crate) dim: Dimension,
    pub(crate) chars: Vec<S>,
    pub(crate) mats: Vec<Mat<S>>,
    pub(crate) scale: Scale,
    pub(crate) ghost scaled: { ∥ ((texts : List (List ℕ)) × IsScaleOf scale texts) ∥₁ },
}

/// What the lines so far say.
#[derive(Drop)]
pub(crate) enum Stage<S: Scalar> {
    /// There are none.
    Untitled,
    /// The title.
    Titled,
    /// The wave vector too.
    Waved(Wave),
    /// The order too.
    Ordered(Wave, Order),
    /// How many operations there are, and some of them.
    Listing(Listed),
    /// All operations, how many representations there are, and some of these.
    Counting(Counted<S>),
    /// The dimension of the next representation too.
    Sizing(Counted<S>, Dimension),
    /// Its character and some of its matrices too.
    Filling(Counted<S>, Part<S>),
    /// The whole report.
    Closed(Report<S>),
}
