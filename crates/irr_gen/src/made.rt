// Made inputs.
ghost use Rattle.std.specs.Prelude.{IfOk};
ghost use Rattle.irr_kvec.specs.WaveMeaning.{wave_vector};
ghost use Rattle.irr_gen.specs.MadeInput.{IsMadeInput};

use crate::group::{generators, group_of};
use crate::lines::{lines_text, made_lines};
use crate::waves::made_wave;
use irr_kvec::Wave;
use irr_memory::Memory;
use std::alloc::Global;

/// A made input: the text of a group's operations, one triplet a line, and a wave vector.
#[derive(Drop)]
pub struct Made {
    pub text: Vec<u8>,
    pub wave: Wave,
}

/// The input of a number: the generators of one of four groups, and 2,000 products of earlier lines, modulo the whole
/// translations; and the wave vector. The error is want of memory.
pub fn make(alloc: Global, n: u32) -> Result<Made, Memory>
    ensures { IfOk result (λ made. IsMadeInput n made.text.items (wave_vector made.wave)) }
{
    let generators = generators(alloc, group_of(n))?;
    let lines = made_lines(generators, n % 2_147_483_648)?;
    let text = lines_text(alloc, &lines)?;
    let wave = made_wave(n);
    Ok(Made { text, wave })
}
