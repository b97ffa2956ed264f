// Lines one after another: generators, lines that are skipped, and the lines that sections need.
ghost use Rattle.std.specs.Prelude.{ℕ, ◌≡◌, ◌<◌, ◌≤◌, ◌+◌, ◌^◌, ◌↔◌, List, All, IsTrue, IfOk, IfErr, OnOk, length};
ghost use Rattle.irr_seitz.specs.OperationMeaning.{operation};
ghost use Rattle.irr_triplet.specs.Readable.{IsReadable};
ghost use Rattle.irr_triplet.specs.TripletFault.{IsFault, IsTextOf};
ghost use Rattle.irr_input.specs.SectionLines.{Begins, HasFault, IsSkipped};
ghost use Rattle.irr_input.specs.InputLines.{IsAt};
ghost use Rattle.irr_input.specs.LineReading.{AreRead, EndsGenerators, IsGeneratorFault, IsLineFault, IsLineRead, IsNeedFault, IsNeeded};
ghost use Rattle.irr_input.specs.declared.keyword.Keyword.{Keyword};
ghost use Rattle.irr_input.specs.declared.input.Reason.{Reason};
ghost use Rattle.irr_input.specs.declared.input.InputError.TheVariants.{Bad};

use crate::input::{GenLine, InputError, Reason};
use crate::keyword::{Keyword, keyword_of};
use irr_lines::next_line;
use irr_seitz::Op;
use irr_token::{Rest, begins_with, behind};
use irr_triplet::{TripletError, read_triplet};
use std::alloc::Global;

// What is left of a text behind its first lines, and how many these are.
#[derive(Clone, Copy)]
pub(crate) struct Left<'a> {
    pub(crate) text: &'a [u8],
    pub(crate) lines: u64,
}

// The generators up to the first line of a section, and what is left from that line on.
pub(crate) fn read_generators<'a>(
    alloc: Global,
    left: Left<'a>,
) -> Result<(Vec<GenLine>, Left<'a>), InputError>
    requires fits { left.lines + length left.text.now + 1 < 2 ^ 64 }
    ensures read { IfOk result (λ r. AreRead r.0.items left.entry.lines left.entry.text.now r.1.lines r.1.text.now) }
    ensures readable { IfOk result (λ r. All (λ g. IsReadable (operation g.op)) r.0.items) }
    ensures few { IfOk result (λ r. length r.0.items ≤ r.1.lines) }
    ensures within { IfOk result (λ r. r.1.lines + length r.1.text.now ≤ left.entry.lines + length left.entry.text.now) }
    ensures forward { IfOk result (λ r. left.entry.lines ≤ r.1.lines) }
    ensures ends { IfOk result (λ r. EndsGenerators r.1.text.now) }
    ensures fault { IfErr result (IsGeneratorFault left.entry.lines left.entry.text.now) }
{
    let mut gens = Vec::new(alloc);
    let mut lines = left.lines;
    let mut rest = left.text;
    while !rest.is_empty() {
        let (line, behind) = next_line(rest);
        if begins_section(line) {
            return Ok((gens, Left { text: rest, lines }));
        }
        lines += 1;
        read_line(&mut gens, line, lines)?;
        rest = behind;
    }
    Ok((gens, Left { text: rest, lines }))
}

// The next line that is not skipped, where its first word must be this one, and what is left behind it.
pub(crate) fn needed_line<'a>(
    left: Left<'a>,
    keyword: Keyword,
) -> Result<(&'a [u8], Left<'a>), InputError>
    requires fits { left.lines + length left.text.now + 1 < 2 ^ 64 }
    ensures found { IfOk result (λ r. IsNeeded keyword left.entry.lines left.entry.text.now r.0.now r.1.lines r.1.text.now) }
    ensures within { IfOk result (λ r. r.1.lines + length r.1.text.now ≤ left.entry.lines + length left.entry.text.now) }
    ensures forward { IfOk result (λ r. left.entry.lines ≤ r.1.lines) }
    ensures fault { IfErr result (IsNeedFault keyword left.entry.lines left.entry.text.now) }
{
    let mut lines = left.lines;
    let mut rest = left.text;
    while !rest.is_empty() {
        let (line, behind) = next_line(rest);
        lines += 1;
        if begins(line, keyword) {
            return Ok((
                line,
                Left {
                    text: behind,
                    lines,
                },
            ));
        }
        if !is_skipped(line) {
            return Err(InputError::Bad {
                line: lines,
                reason: Reason::Shape(0),
            });
        }
        rest = behind;
    }
    Err(InputError::Bad {
        line: lines + 1,
        reason: Reason::Missing,
    })
}

// Whether the first word of a text is this one.
pub(crate) fn is_at(text: &[u8], keyword: Keyword) -> bool
    ensures { IsTrue result ↔ IsAt keyword text.now }
{
    if text.is_empty() {
        return false;
    }
    let (line, _) = next_line(text);
    begins(line, keyword)
}

// Whether the first word of a line is this one.
fn begins(line: &[u8], keyword: Keyword) -> bool
    ensures { IsTrue result ↔ Begins keyword line.now }
{
    match keyword_of(line) {
        Some(found) => found == keyword,
        None => false,
    }
}

// Whether the first word of a line is that of a section.
fn begins_section(line: &[u8]) -> bool
    ensures some { IsTrue result → (k : Keyword) × Begins k line.now }
    ensures none { (k : Keyword) → Begins k line.now → IsTrue result }
{
    keyword_of(line).is_some()
}

// Reads one line, of this number, and adds its generator, if it has one.
fn read_line(gens: &mut Vec<GenLine>, line: &[u8], number: u64) -> Result<(), InputError>
    ensures read { OnOk result (IsLineRead number line.now gens.old.items gens.new.items) }
    ensures fault { IfErr result (IsLineFault number line.now) }
{
    if is_skipped(line) {
        return Ok(());
    }
    let op = generator(line, number)?;
    gens.push(GenLine { line: number, op })?;
    Ok(())
}

// Whether a line has no byte but blanks, or `#` as the first other one.
fn is_skipped(line: &[u8]) -> bool
    ensures { IsTrue result ↔ IsSkipped line.now }
{
    let place = 0;
    let rest = behind(Rest { place, text: line }, 0);
    rest.text.is_empty() || begins_with(rest.text, b'#')
}

// The operation that the line of this number writes.
fn generator(line: &[u8], number: u64) -> Result<Op, InputError>
    ensures text { IfOk result (λ op. IsTextOf line.now (operation op)) }
    ensures readable { IfOk result (λ op. IsReadable (operation op)) }
    ensures fault { IfErr result (λ e. (reason : Reason) × (e ≡ Bad number reason) × HasFault line.now reason) }
{
    match read_triplet(line) {
        Ok(op) => Ok(op),
        Err(error) => Err(InputError::Bad {
            line: number,
            reason: reason_of(error),
        }),
    }
}

// The reason of a line that is no triplet.
fn reason_of(error: TripletError) -> Reason
    ensures { (line : List ℕ) → IsFault line error → HasFault line result }
{
    match error {
        TripletError::Shape(place) => Reason::Shape(place),
        TripletError::Zero(place) => Reason::Zero(place),
        TripletError::Range(place) => Reason::Range(place),
        TripletError::Determinant => Reason::Determinant,
    }
}
