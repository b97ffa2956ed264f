// The next line of a report.
ghost use Rattle.std.specs.Prelude.{ℕ, List, ◌≡◌, ◌<◌, ◌≤◌, ◌*◌, ◌++◌, ◌∷◌, ◌↔◌, [], codes, length, All, IfOk, IfErr, IfSome, IsNone, IsTrue, IsFalse};
ghost use Rattle.std.specs.Fmt.{decimal};
ghost use Rattle.irr_cyc.specs.declared.orders.TheConstants.{ORDER_LIMIT as limit_of_orders};
ghost use Rattle.irr_text.specs.ReportText.{next_word};
ghost use Rattle.irr_seitz.specs.OperationMeaning.{operation};
ghost use Rattle.irr_report.specs.ReportFault.{IsWave, IsTriplet};
ghost use Rattle.irr_report.specs.StageValues.{AreFaulty, AreFaultyFrom};
ghost use Rattle.irr_report.specs.ValueTexts.{AreRead, AreValuesFault, IsScaleOf};
ghost use Rattle.irr_report.specs.ReportStages.{IsWaveOf, IsOperationOf, IsWaved, IsOrdered, IsListing, IsCounting, IsSizing, IsFilling, IsClosedOf, representation_of, Means, StepsTo, StepFails};
ghost use Rattle.irr_report.specs.ReportSteps.State.{untitled, titled};

use crate::report::{RepText, Report};
use crate::stage::{Counted, Dimension, Head, Listed, Part, Stage, StepError};
use crate::values::{Scale, ValuesError, read_values};
use crate::words::{behind, number_within, whole_within};
use irr_cyc::{ORDER_LIMIT, Order, Scalar};
use irr_kvec::{Wave, read_wave};
use irr_mat::Mat;
use irr_memory::Memory;
use irr_rep::Family;
use irr_seitz::Op;
use irr_triplet::read_triplet;
use std::alloc::Global;

// The greatest number in the wave vector of a report.
const WAVE_LIMIT: u32 = 400_000;

// The most operations, representations and rows.
const COUNT_LIMIT: u64 = 48;

/// What the lines up to and with this one say.
pub(crate) fn step<S: Scalar>(
    alloc: Global,
    stage: Stage<S>,
    line: &[u8],
) -> Result<Stage<S>, StepError>
    requires admitted { (n : ℕ) → 0 < n → n ≤ limit_of_orders → S.admits n }
    ensures steps { IfOk result (StepsTo (Means stage) line.now) }
    ensures fails { IfErr result (StepFails (Means stage) line.now) }
{
    match stage {
        Stage::Untitled => title(line),
        Stage::Titled => wave(line),
        Stage::Waved(wave) => order(alloc, wave, line),
        Stage::Ordered(wave, order) => places(alloc, wave, order, line),
        Stage::Listing(listed) => operation_or_count(alloc, listed, line),
        Stage::Counting(counted) => dimension_or_end(alloc, counted, line),
        Stage::Sizing(counted, dim) => characters(alloc, counted, dim, line),
        Stage::Filling(counted, part) => matrix(alloc, counted, part, line),
        Stage::Closed(report) => nothing(report, line),
    }
}

fn title<S: Scalar>(line: &[u8]) -> Result<Stage<S>, StepError>
    ensures steps { IfOk result (StepsTo (λ s. s ≡ untitled) line.now) }
    ensures fails { IfErr result (StepFails (λ s. s ≡ untitled) line.now) }
{
    if line == b"report 1".as_slice() {
        Ok(Stage::Titled)
    } else {
        Err(StepError::Line)
    }
}

fn wave<S: Scalar>(line: &[u8]) -> Result<Stage<S>, StepError>
    ensures steps { IfOk result (StepsTo (λ s. s ≡ titled) line.now) }
    ensures fails { IfErr result (StepFails (λ s. s ≡ titled) line.now) }
{
    let Some(text) = behind(line, b"wave ") else {
        return Err(StepError::Line);
    };
    match wave_of(text) {
        Some(wave) => Ok(Stage::Waved(wave)),
        None => Err(StepError::Line),
    }
}

// The wave vector that a text writes.
fn wave_of(text: &[u8]) -> Option<Wave>
    ensures some { IfSome result (IsWaveOf text.now) }
    ensures none { IsNone result → ¬ (IsWave text.now) }
{
    match read_wave(text, WAVE_LIMIT) {
        Ok(wave) => Some(wave),
        Err(_) => None,
    }
}

fn order<S: Scalar>(alloc: Global, wave: Wave, line: &[u8]) -> Result<Stage<S>, StepError>
    ensures steps { IfOk result (StepsTo (IsWaved wave) line.now) }
    ensures fails { IfErr result (StepFails (IsWaved wave) line.now) }
{
    let Some(digits) = behind(line, b"order ") else {
        return Err(StepError::Line);
    };
    let n = whole_within(digits, u64::from(ORDER_LIMIT))?;
    let order = Order::new(alloc, n as u32)?;
    Ok(Stage::Ordered(wave, order))
}

fn places<S: Scalar>(
    alloc: Global,
    wave: Wave,
    order: Order,
    line: &[u8],
) -> Result<Stage<S>, StepError>
    ensures steps { IfOk result (StepsTo (IsOrdered wave order) line.now) }
    ensures fails { IfErr result (StepFails (IsOrdered wave order) line.now) }
{
    let Some(digits) = behind(line, b"ops ") else {
        return Err(StepError::Line);
    };
    let n = whole_within(digits, COUNT_LIMIT)?;
    let places = n as usize;
    let head = Head {
        wave,
        order,
        places,
    };
    Ok(Stage::Listing(Listed {
        head,
        ops: Vec::new(alloc),
    }))
}

fn operation_or_count<S: Scalar>(
    alloc: Global,
    listed: Listed,
    line: &[u8],
) -> Result<Stage<S>, StepError>
    ensures steps { IfOk result (StepsTo (IsListing listed) line.now) }
    ensures fails { IfErr result (StepFails (IsListing listed) line.now) }
{
    if listed.ops.len() < listed.head.places {
        one_operation(alloc, listed, line)
    } else {
        count(alloc, listed, line)
    }
}

fn one_operation<S: Scalar>(
    alloc: Global,
    listed: Listed,
    line: &[u8],
) -> Result<Stage<S>, StepError>
    requires room { length listed.ops.items < listed.head.places }
    ensures steps { IfOk result (StepsTo (IsListing listed) line.now) }
    ensures fails { IfErr result (StepFails (IsListing listed) line.now) }
{
    let words = operation_words(alloc, listed.ops.len() + 1)?;
    let Some(text) = behind(line, &words) else {
        return Err(StepError::Line);
    };
    let Some(op) = operation_of(text) else {
        return Err(StepError::Line);
    };
    let Listed { head, ops } = listed;
    let ops = with_operation(ops, op)?;
    Ok(Stage::Listing(Listed { head, ops }))
}

// The words before the triplet of the operation of this number.
fn operation_words(alloc: Global, number: usize) -> Result<Vec<u8>, Memory>
    ensures { IfOk result (λ words. words.items ≡ codes "op " ++ decimal number ++ codes " ") }
{
    let words = format!(in alloc; "op {number} ")?;
    Ok(words.into_bytes())
}

// The operation that a text writes.
fn operation_of(text: &[u8]) -> Option<Op>
    ensures some { IfSome result (IsOperationOf text.now) }
    ensures none { IsNone result → ¬ (IsTriplet text.now) }
{
    match read_triplet(text) {
        Ok(op) => Some(op),
        Err(_) => None,
    }
}

fn with_operation(ops: Vec<Op>, op: Op) -> Result<Vec<Op>, Memory>
    ensures { IfOk result (λ new. new.items ≡ ops.items ++ op ∷ []) }
{
    let mut ops = ops;
    ops.push(op)?;
    Ok(ops)
}

fn count<S: Scalar>(alloc: Global, listed: Listed, line: &[u8]) -> Result<Stage<S>, StepError>
    requires full { listed.head.places ≤ length listed.ops.items }
    ensures steps { IfOk result (StepsTo (IsListing listed) line.now) }
    ensures fails { IfErr result (StepFails (IsListing listed) line.now) }
{
    let Some(digits) = behind(line, b"reps ") else {
        return Err(StepError::Line);
    };
    let n = number_within(digits, COUNT_LIMIT)?;
    let count = n as usize;
    let Listed { head, ops } = listed;
    let Head {
        wave,
        order,
        places: _,
    } = head;
    Ok(Stage::Counting(Counted {
        wave,
        order,
        ops,
        count,
        reps: Vec::new(alloc),
    }))
}

fn dimension_or_end<S: Scalar>(
    alloc: Global,
    counted: Counted<S>,
    line: &[u8],
) -> Result<Stage<S>, StepError>
    ensures steps { IfOk result (StepsTo (IsCounting counted) line.now) }
    ensures fails { IfErr result (StepFails (IsCounting counted) line.now) }
{
    if counted.reps.len() < counted.count {
        dimension(alloc, counted, line)
    } else {
        end(counted, line)
    }
}

fn dimension<S: Scalar>(
    alloc: Global,
    counted: Counted<S>,
    line: &[u8],
) -> Result<Stage<S>, StepError>
    requires room { length counted.reps.items < counted.count }
    ensures steps { IfOk result (StepsTo (IsCounting counted) line.now) }
    ensures fails { IfErr result (StepFails (IsCounting counted) line.now) }
{
    let words = dimension_words(alloc, counted.reps.len() + 1)?;
    let Some(digits) = behind(line, &words) else {
        return Err(StepError::Line);
    };
    let n = whole_within(digits, COUNT_LIMIT)?;
    let rows = n as u32;
    Ok(Stage::Sizing(counted, Dimension { rows }))
}

// The words before the dimension of the representation of this number.
fn dimension_words(alloc: Global, number: usize) -> Result<Vec<u8>, Memory>
    ensures { IfOk result (λ words. words.items ≡ codes "rep S" ++ decimal number ++ codes " dim ") }
{
    let words = format!(in alloc; "rep S{number} dim ")?;
    Ok(words.into_bytes())
}

fn end<S: Scalar>(counted: Counted<S>, line: &[u8]) -> Result<Stage<S>, StepError>
    requires full { counted.count ≤ length counted.reps.items }
    ensures steps { IfOk result (StepsTo (IsCounting counted) line.now) }
    ensures fails { IfErr result (StepFails (IsCounting counted) line.now) }
{
    if is_end(line) {
        Ok(Stage::Closed(whole_report(counted)))
    } else {
        Err(StepError::Line)
    }
}

fn is_end(line: &[u8]) -> bool
    ensures { IsTrue result ↔ line.now ≡ codes "end" }
{
    line == b"end".as_slice()
}

fn whole_report<S: Scalar>(counted: Counted<S>) -> Report<S>
    ensures wave { result.wave ≡ counted.wave }
    ensures order { result.order ≡ counted.order.n }
    ensures ops { result.ops.items ≡ counted.ops.items }
    ensures reps { result.reps.items ≡ counted.reps.items }
{
    let Counted {
        wave,
        order,
        ops,
        count: _,
        reps,
    } = counted;
    let order = order.n();
    Report {
        wave,
        order,
        ops,
        reps,
    }
}

fn characters<S: Scalar>(
    alloc: Global,
    counted: Counted<S>,
    dim: Dimension,
    line: &[u8],
) -> Result<Stage<S>, StepError>
    requires admitted { (n : ℕ) → 0 < n → n ≤ limit_of_orders → S.admits n }
    ensures steps { IfOk result (StepsTo (IsSizing counted dim) line.now) }
    ensures fails { IfErr result (StepFails (IsSizing counted dim) line.now) }
{
    let Some(text) = behind(line, b"char") else {
        return Err(StepError::Line);
    };
    let mut scale = Scale::new();
    let chars = values(alloc, &counted.order, counted.ops.len(), text, &mut scale)?;
    let mats = Vec::new(alloc);
    Ok(Stage::Filling(
        counted,
        Part {
            dim,
            chars,
            mats,
            scale,
        },
    ))
}

// The values of a line, with a blank before each.
fn values<S: Scalar>(
    alloc: Global,
    order: &Order,
    count: usize,
    text: &[u8],
    scale: &mut Scale,
) -> Result<Vec<S>, StepError>
    requires admitted { S.admits order.now.n }
    requires scaled { ∥ ((texts : List (List ℕ)) × IsScaleOf scale.old texts) ∥₁ }
    ensures count { IfOk result (λ xs. length xs.items ≡ count) }
    ensures orders { IfOk result (λ xs. All (λ x. S.order_of x ≡ order.now.n) xs.items) }
    ensures scaled { IfOk result (λ xs. ∥ ((texts : List (List ℕ)) × IsScaleOf scale.new texts) ∥₁) }
    ensures read { IfOk result (λ xs. (earlier : List (List ℕ)) → IsScaleOf scale.old earlier
        → AreRead S.order_of S.value order.now.n earlier count text.now xs.items scale.new) }
    ensures fault { IfErr result (AreFaultyFrom order.now.n count scale.old text.now) }
{
    match read_values(alloc, order, count, text, scale) {
        Ok(numbers) => Ok(numbers),
        Err(error) => Err(step_error(error)),
    }
}

fn step_error(error: ValuesError) -> StepError
    ensures { (n : ℕ) (earlier : List (List ℕ)) (count : ℕ) (text : List ℕ)
        → AreValuesFault n earlier count text error → AreFaulty n earlier count text result }
{
    match error {
        ValuesError::Line => StepError::Line,
        ValuesError::Range => StepError::Range,
        ValuesError::Memory => StepError::Memory,
    }
}

fn matrix<S: Scalar>(
    alloc: Global,
    counted: Counted<S>,
    part: Part<S>,
    line: &[u8],
) -> Result<Stage<S>, StepError>
    requires admitted { (n : ℕ) → 0 < n → n ≤ limit_of_orders → S.admits n }
    ensures steps { IfOk result (StepsTo (IsFilling counted part) line.now) }
    ensures fails { IfErr result (StepFails (IsFilling counted part) line.now) }
{
    let words = matrix_words(alloc, part.mats.len() + 1)?;
    let Some(text) = behind(line, &words) else {
        return Err(StepError::Line);
    };
    let mut scale = part.scale;
    let size = square(part.dim);
    let entries = values(alloc, &counted.order, size, text, &mut scale)?;
    let matrix = Mat::from_entries(part.dim.rows, part.dim.rows, entries);
    let next = with_matrix(part, matrix, scale)?;
    if is_unfilled(&counted, &next) {
        return Ok(Stage::Filling(counted, next));
    }
    let counted = with_representation(counted, next)?;
    Ok(Stage::Counting(counted))
}

// The words before the entries of the matrix of this number.
fn matrix_words(alloc: Global, number: usize) -> Result<Vec<u8>, Memory>
    ensures { IfOk result (λ words. words.items ≡ codes "mat " ++ decimal number) }
{
    let words = format!(in alloc; "mat {number}")?;
    Ok(words.into_bytes())
}

// How many entries a square matrix has.
fn square(dim: Dimension) -> usize
    ensures { result ≡ dim.rows * dim.rows }
{
    let rows = dim.rows as usize;
    rows * rows
}

fn with_matrix<S: Scalar>(part: Part<S>, matrix: Mat<S>, scale: Scale) -> Result<Part<S>, Memory>
    requires { ∥ ((texts : List (List ℕ)) × IsScaleOf scale texts) ∥₁ }
    ensures dim { IfOk result (λ new. new.dim ≡ part.dim) }
    ensures chars { IfOk result (λ new. new.chars.items ≡ part.chars.items) }
    ensures mats { IfOk result (λ new. new.mats.items ≡ part.mats.items ++ matrix ∷ []) }
    ensures scale { IfOk result (λ new. new.scale ≡ scale) }
{
    let Part {
        dim,
        chars,
        mats,
        scale: _,
    } = part;
    let mut mats = mats;
    mats.push(matrix)?;
    Ok(Part {
        dim,
        chars,
        mats,
        scale,
    })
}

// Whether another matrix follows.
fn is_unfilled<S: Scalar>(counted: &Counted<S>, part: &Part<S>) -> bool
    ensures more { IsTrue result → length part.now.mats.items < length counted.now.ops.items }
    ensures last { IsFalse result → length counted.now.ops.items ≤ length part.now.mats.items }
{
    part.mats.len() < counted.ops.len()
}

fn with_representation<S: Scalar>(counted: Counted<S>, part: Part<S>) -> Result<Counted<S>, Memory>
    ensures wave { IfOk result (λ new. new.wave ≡ counted.wave) }
    ensures order { IfOk result (λ new. new.order ≡ counted.order) }
    ensures ops { IfOk result (λ new. new.ops.items ≡ counted.ops.items) }
    ensures count { IfOk result (λ new. new.count ≡ counted.count) }
    ensures reps { IfOk result (λ new. new.reps.items ≡ counted.reps.items ++ representation_of part ∷ []) }
{
    let family = Family {
        dim: part.dim.rows,
        mats: part.mats,
    };
    let rep = RepText {
        family,
        chars: part.chars,
    };
    let Counted {
        wave,
        order,
        ops,
        count,
        reps,
    } = counted;
    let mut reps = reps;
    reps.push(rep)?;
    Ok(Counted {
        wave,
        order,
        ops,
        count,
        reps,
    })
}

// Behind the end a line must be empty.
fn nothing<S: Scalar>(report: Report<S>, line: &[u8]) -> Result<Stage<S>, StepError>
    ensures steps { IfOk result (StepsTo (IsClosedOf report) line.now) }
    ensures fails { IfErr result (StepFails (IsClosedOf report) line.now) }
{
    if line.is_empty() {
        Ok(Stage::Closed(report))
    } else {
        Err(StepError::Line)
    }
}
