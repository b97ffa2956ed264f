// The rows of a matrix of blocks.
ghost use Rattle.std.specs.Prelude.{◌≡◌, ◌<◌, ◌++◌, OnOk, length};
ghost use Rattle.irr_algebra.specs.Fin.{Fin, to_nat};
ghost use Rattle.irr_text.specs.ReportText.{pieces};
ghost use Rattle.irr_full_text.specs.Lines.{number_word, row_text};
ghost use Rattle.irr_full_text.specs.Reading.{Piece, BlockRows};

use crate::numbers::{push_turned, push_zeros};
use irr_cyc::{Order, Scalar};
use irr_memory::Memory;
use irr_rep::Family;
use irr_star::Block;
use std::alloc::Global;

/// Appends the entries of a matrix, row by row, of which blocks and a family tell: in each column of blocks there is
/// one that is not 0, a power of z times a matrix of the family. The error is want of memory.
pub(crate) fn push_blocks<S: Scalar>(
    alloc: Global,
    text: &mut Vec<u8>,
    order: &Order,
    family: &Family<S>,
    blocks: &[Block],
) -> Result<(), Memory>
    requires { BlockRows order.now.n family.now blocks.now }
    ensures { (e : BlockRows order.now.n family.now blocks.now) → OnOk result (text.new.items ≡ text.old.items
        ++ pieces e.arms (λ i. pieces e.size (row_text e.number (e.block i)))) }
{
    for i in 0..blocks.len() {
        push_rows(alloc, text, order, family, blocks, i)?;
    }
    Ok(())
}

// Appends the rows of one arm.
fn push_rows<S: Scalar>(
    alloc: Global,
    text: &mut Vec<u8>,
    order: &Order,
    family: &Family<S>,
    blocks: &[Block],
    i: usize,
) -> Result<(), Memory>
    requires blocks { BlockRows order.now.n family.now blocks.now }
    requires arm { i < length blocks.now }
    ensures { (e : BlockRows order.now.n family.now blocks.now) (p : Fin e.arms) → to_nat p ≡ i
        → OnOk result (text.new.items ≡ text.old.items ++ pieces e.size (row_text e.number (e.block p))) }
{
    for r in 0..family.dim {
        push_row(alloc, text, order, family, blocks, i, r)?;
    }
    Ok(())
}

// Appends a row: the one with the number r of those of an arm.
fn push_row<S: Scalar>(
    alloc: Global,
    text: &mut Vec<u8>,
    order: &Order,
    family: &Family<S>,
    blocks: &[Block],
    i: usize,
    r: u32,
) -> Result<(), Memory>
    requires blocks { BlockRows order.now.n family.now blocks.now }
    requires arm { i < length blocks.now }
    requires row { r < family.now.dim }
    ensures { (e : BlockRows order.now.n family.now blocks.now) (p : Fin e.arms) (q : Fin e.size) → to_nat p ≡ i
        → to_nat q ≡ r
        → OnOk result (text.new.items ≡ text.old.items ++ row_text e.number (e.block p) q) }
{
    for block in blocks {
        push_piece(alloc, text, order, family, block, i, r)?;
    }
    Ok(())
}

// Appends row r of the block in the row of an arm and in the column of which a block tells.
fn push_piece<S: Scalar>(
    alloc: Global,
    text: &mut Vec<u8>,
    order: &Order,
    family: &Family<S>,
    block: &Block,
    i: usize,
    r: u32,
) -> Result<(), Memory>
    requires piece { Piece order.now.n family.now i block.now }
    requires row { r < family.now.dim }
    ensures { (e : Piece order.now.n family.now i block.now) (q : Fin e.size) → to_nat q ≡ r
        → OnOk result (text.new.items ≡ text.old.items ++ pieces e.size (λ c. number_word e.number (e.matrix.at q c))) }
{
    if block.row as usize == i {
        push_block_row(alloc, text, order, family, block, r)?;
        return Ok(());
    }
    push_zeros(text, family.dim)?;
    Ok(())
}

// Appends row r of the block that is not 0.
fn push_block_row<S: Scalar>(
    alloc: Global,
    text: &mut Vec<u8>,
    order: &Order,
    family: &Family<S>,
    block: &Block,
    r: u32,
) -> Result<(), Memory>
    requires piece { Piece order.now.n family.now block.now.row block.now }
    requires row { r < family.now.dim }
    ensures { (e : Piece order.now.n family.now block.now.row block.now) (q : Fin e.size) → to_nat q ≡ r
        → OnOk result (text.new.items ≡ text.old.items ++ pieces e.size (λ c. number_word e.number (e.matrix.at q c))) }
{
    let matrix = &family.mats[block.place as usize];
    for c in 0..family.dim {
        push_turned(alloc, text, order, block.exponent, matrix.at(r, c))?;
    }
    Ok(())
}
