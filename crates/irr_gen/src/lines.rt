// The operations of a made input, one a line, and their text.
ghost use Rattle.std.specs.Prelude.{◌≡◌, ◌<◌, ◌++◌, IfOk, OnOk, length, map};
ghost use Rattle.std.specs.List.{All};
ghost use Rattle.irr_text.specs.TripletText.{triplet_text};
ghost use Rattle.irr_text.specs.ReportText.{line};
ghost use Rattle.irr_seitz.specs.OperationMeaning.{operation};
ghost use Rattle.irr_gen.specs.MadeInput.{AreMadeLines, IsDrawnProduct, drawn_line, next_number, lines_text};
ghost use Rattle.irr_gen.specs.Signed.{IsSigned};

use crate::drawing::Draws;
use crate::symmetry::product;
use irr_memory::Memory;
use irr_seitz::Op;
use irr_triplet::print_triplet;
use std::alloc::Global;

const PRODUCTS: u32 = 2000;

// The line that is drawn.
fn drawn_line(lines: &[Op], draws: &mut Draws) -> Op
    requires some { 0 < length lines.now }
    requires signed { All IsSigned lines.now }
    ensures line { operation result ≡ drawn_line draws.old.number (map operation lines.now) }
    ensures next { draws.new.number ≡ next_number draws.old.number }
    ensures signed { IsSigned result }
{
    lines[draws.draw(lines.len())]
}

// The product of two lines that are drawn.
fn drawn_product(lines: &[Op], draws: &mut Draws) -> Op
    requires some { 0 < length lines.now }
    requires signed { All IsSigned lines.now }
    ensures product { IsDrawnProduct draws.old.number (map operation lines.now) (operation result) }
    ensures next { draws.new.number ≡ next_number (next_number draws.old.number) }
    ensures signed { IsSigned result }
{
    let first = drawn_line(lines, draws);
    let second = drawn_line(lines, draws);
    product(&first, &second)
}

/// The operations of the lines: those that are given, and products of earlier ones that are drawn from a number on.
pub(crate) fn made_lines(generators: Vec<Op>, number: u32) -> Result<Vec<Op>, Memory>
    requires some { 0 < length generators.items }
    requires signed { All IsSigned generators.items }
    ensures { IfOk result (λ lines. AreMadeLines (map operation generators.items) number 2000 (map operation lines.items)) }
{
    let mut lines = generators;
    let mut draws = Draws { number };
    for _ in 0..PRODUCTS {
        let op = drawn_product(&lines, &mut draws);
        lines.push(op)?;
    }
    Ok(lines)
}

/// The text of operations: the printed triplet of each, one a line.
pub(crate) fn lines_text(alloc: Global, ops: &[Op]) -> Result<Vec<u8>, Memory>
    ensures { IfOk result (λ text. text.items ≡ lines_text (map operation ops.now)) }
{
    let mut text = Vec::new(alloc);
    for op in ops {
        push_line(alloc, &mut text, op)?;
    }
    Ok(text)
}

// Appends the line of an operation.
fn push_line(alloc: Global, text: &mut Vec<u8>, op: &Op) -> Result<(), Memory>
    ensures { OnOk result (text.new.items ≡ text.old.items ++ line (triplet_text (operation op.now))) }
{
    let triplet = print_triplet(alloc, op)?;
    text.extend_from_slice(&triplet)?;
    text.push(b'\n')?;
    Ok(())
}
