// The lines of an input.
ghost use Rattle.std.specs.Prelude.{ℕ, ◌≡◌, ◌⊎◌, ◌<◌, ◌≤◌, List, Option, All, IfOk, IfErr, IfSome, MatchResult, length};
ghost use Rattle.irr_seitz.specs.OperationMeaning.{operation};
ghost use Rattle.irr_triplet.specs.Readable.{IsReadable};
ghost use Rattle.irr_cyc.specs.declared.orders.TheConstants.{ORDER_LIMIT};
ghost use Rattle.irr_text.specs.ReportText.{ReportContent};
ghost use Rattle.irr_setting.specs.Setting.{IsSmallSetting};
ghost use Rattle.irr_report.specs.Limits.{IsWithinLimits};
ghost use Rattle.irr_input.specs.Stages.{SubContent};
ghost use Rattle.irr_input.specs.InputLines.{IsInput, HasLines, IsFaultyLine, IsLimitLine, IsInputFault, content, sub_content, placed};
ghost use Rattle.irr_input.specs.declared.input.GenLine.{GenLine};
ghost use Rattle.irr_input.specs.declared.input.Reason.{Reason};
ghost use Rattle.irr_input.specs.declared.input.InputError.TheVariants.{Bad, Memory, ReportRange};

use crate::lines::{Left, read_generators};
use crate::section::read_end;
use crate::subgroup::read_subgroup;
use irr_cyc::Scalar;
use irr_report::Report;
use irr_seitz::Op;
use irr_setting::Setting;
use std::alloc::{AllocFailed, Global};
use thiserror::Error;

/// A generator, and the number of its line, counted from 1.
#[derive(Clone, Copy, Debug)]
pub struct GenLine {
    pub line: u64,
    pub op: Op,
}

/// A subgroup: the number of the line of its basis, its setting, and its generators in that setting, in their order.
#[derive(Drop)]
pub struct SubSpec {
    pub line: u64,
    pub setting: Setting,
    pub gens: Vec<GenLine>,
}

/// The generators of an input in their order, the subgroup and the report behind them, if there are these, and how many
/// lines there are in all.
#[derive(Drop)]
pub struct Input<S: Scalar> {
    pub gens: Vec<GenLine>,
    pub sub: Option<SubSpec>,
    pub report: Option<Report<S>>,
    pub lines: u64,
}

/// What is wrong with a line. It leaves the grammar at a place, a denominator is 0, a number or the common denominator
/// passes its limit, or the determinant of a triplet is neither 1 nor -1; places count bytes of the line from 0. Or a line
/// or a section is missing, or the line is one of a report and outside its grammar. The basis of a subgroup may be singular,
/// and a generator of a subgroup not in the group.
#[derive(Clone, Copy, Debug, PartialEq, Eq)]
pub enum Reason {
    Shape(u64),
    Zero(u64),
    Range(u64),
    Determinant,
    Missing,
    Report,
    Singular,
    NotInGroup,
}

/// Why bytes are no input. Lines count from 1.
#[derive(Clone, Copy, Debug, PartialEq, Eq, Error)]
pub enum InputError {
    /// The line of this number is the first at fault where it stands: no line of its sort may stand there, or it is not
    /// as one of its sort. A missing line counts as the one after the last.
    #[error("line {line} is faulty")]
    Bad { line: u64, reason: Reason },
    /// The line of this number is the first of the report that passes a limit.
    #[error("line {line} passes a limit")]
    ReportRange { line: u64 },
    /// No memory was found.
    #[error("out of memory")]
    Memory,
}

impl From<AllocFailed<GenLine>> for InputError {
    ghost from_gives = { λ _ e. e ≡ Memory };

    fn from(_error: AllocFailed<GenLine>) -> InputError {
        InputError::Memory
    }
}

/// The generators of an input, its subgroup and its report, if it has these.
///
/// A line whose first word is `subgroup`, `basis`, `origin` or `report` is read as one of a section, each other line as the
/// triplet of a generator, but for lines that are empty or of blanks alone, and lines whose first byte behind blanks is `#`.
/// Generators come first, and then perhaps `subgroup`, a basis and an origin, each on a line, and the generators of the
/// subgroup in this setting. A report is the lines from the first one whose first word is `report` on.
/// Lines end with a line feed, with or without a carriage return before it; the last line may lack its end.
///
/// A line of another sort than may stand at its place is faulty at its first byte. Where the input ends and a basis or an
/// origin must stand, the line after the last is missing.
pub fn read_input<S: Scalar>(alloc: Global, text: &[u8]) -> Result<Input<S>, InputError>
    requires { (n : ℕ) → 0 < n → n ≤ ORDER_LIMIT → S.admits n }
    ensures input { IfOk result (λ i. IsInput text.now i.gens.items (sub_content i.sub) (content i.report)) }
    ensures lines { IfOk result (λ i. HasLines text.now i.lines) }
    ensures readable { IfOk result (λ i. All (λ g. IsReadable (operation g.op)) i.gens.items) }
    ensures few { IfOk result (λ i. length i.gens.items ≤ i.lines) }
    ensures setting { IfOk result (λ i. IfSome i.sub (λ s. IsSmallSetting s.setting)) }
    ensures subgroup { IfOk result (λ i. IfSome i.sub (λ s. All (λ g. IsReadable (operation g.op)) s.gens.items)) }
    ensures few_subgroup { IfOk result (λ i. IfSome i.sub (λ s. length s.gens.items ≤ i.lines)) }
    ensures limits { IfOk result (λ i. IfSome i.report IsWithinLimits) }
    ensures only { (gens : List GenLine) (sub : Option SubContent) (report : Option ReportContent) → IsInput text.now gens sub report
        → MatchResult result (λ i. (placed i.gens.items ≡ placed gens) × (sub_content i.sub ≡ sub) × (content i.report ≡ report)) (λ e. e ≡ Memory) }
    ensures fault { IfErr result (IsInputFault text.now) }
    ensures refused { (n : ℕ) (reason : Reason) → IsFaultyLine text.now n reason
        → MatchResult result (λ i. ⊥) (λ e. (e ≡ Memory) ⊎ (e ≡ Bad n reason)) }
    ensures limited_line { (n : ℕ) → IsLimitLine text.now n
        → MatchResult result (λ i. ⊥) (λ e. (e ≡ Memory) ⊎ (e ≡ ReportRange n)) }
{
    read_sections(alloc, text)
}

// The sections of an input, one after another.
fn read_sections<S: Scalar>(alloc: Global, text: &[u8]) -> Result<Input<S>, InputError>
    requires { (n : ℕ) → 0 < n → n ≤ ORDER_LIMIT → S.admits n }
    ensures input { IfOk result (λ i. IsInput text.now i.gens.items (sub_content i.sub) (content i.report)) }
    ensures lines { IfOk result (λ i. HasLines text.now i.lines) }
    ensures readable { IfOk result (λ i. All (λ g. IsReadable (operation g.op)) i.gens.items) }
    ensures few { IfOk result (λ i. length i.gens.items ≤ i.lines) }
    ensures setting { IfOk result (λ i. IfSome i.sub (λ s. IsSmallSetting s.setting)) }
    ensures subgroup { IfOk result (λ i. IfSome i.sub (λ s. All (λ g. IsReadable (operation g.op)) s.gens.items)) }
    ensures few_subgroup { IfOk result (λ i. IfSome i.sub (λ s. length s.gens.items ≤ i.lines)) }
    ensures limits { IfOk result (λ i. IfSome i.report IsWithinLimits) }
    ensures fault { IfErr result (IsInputFault text.now) }
{
    let lines = 0;
    let (gens, left) = read_generators(alloc, Left { text, lines })?;
    let (sub, left) = read_subgroup(alloc, left)?;
    let (report, lines) = read_end(alloc, left)?;
    Ok(Input {
        gens,
        sub,
        report,
        lines,
    })
}
