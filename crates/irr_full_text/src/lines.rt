// The lines of arms and of generators. (`push_arms` is that of the text of a star in irr_top, which may take it from
// here.)
ghost use Rattle.std.specs.Prelude.{◌≡◌, ◌++◌, IfOk, OnOk};
ghost use Rattle.irr_seitz.specs.OperationMeaning.{operation};
ghost use Rattle.irr_seitz.specs.declared.op.Op.{Op};
ghost use Rattle.irr_kvec.specs.WaveMeaning.{wave_vector};
ghost use Rattle.irr_report.specs.Printed.{numbered};
ghost use Rattle.irr_full_text.specs.Lines.{AreInList, head_text, arm_words, arm_text, generator_text};

use irr_kvec::Wave;
use irr_little::Arm;
use irr_memory::Memory;
use irr_seitz::Op;
use irr_triplet::print_triplet;
use std::alloc::Global;

/// The lines before those of the arms. The error is want of memory.
pub(crate) fn head(alloc: Global, wave: &Wave, order: u32, count: usize) -> Result<Vec<u8>, Memory>
    ensures { IfOk result (λ text. text.items ≡ head_text (wave_vector wave.now) order count) }
{
    let text = format!(in alloc; "full 1\nwave {wave}\norder {order}\narms {count}\n")?;
    Ok(text.into_bytes())
}

/// Appends the lines of arms, whose operations are those with their numbers. The error is want of memory.
pub(crate) fn push_arms(
    alloc: Global,
    text: &mut Vec<u8>,
    ops: &[Op],
    arms: &[Arm],
) -> Result<(), Memory>
    requires { AreInList ops.now arms.now }
    ensures { (d : Op) → OnOk result (text.new.items ≡ text.old.items ++ numbered (arm_text ops.now d) 1 arms.now) }
{
    for (i, arm) in arms.iter().enumerate() {
        push_arm(alloc, text, i + 1, &arm.wave, &ops[arm.op as usize])?;
    }
    Ok(())
}

// Appends the line of an arm.
fn push_arm(
    alloc: Global,
    text: &mut Vec<u8>,
    number: usize,
    wave: &Wave,
    op: &Op,
) -> Result<(), Memory>
    ensures { OnOk result (text.new.items ≡ text.old.items ++ arm_words number (wave_vector wave.now)
        (operation op.now)) }
{
    text.extend_from_slice(format!(in alloc; "arm {number} {wave} ")?.as_bytes())?;
    let triplet = print_triplet(alloc, op)?;
    text.extend_from_slice(&triplet)?;
    text.push(b'\n')?;
    Ok(())
}

/// Appends the lines of generators. The error is want of memory.
pub(crate) fn push_generators(alloc: Global, text: &mut Vec<u8>, gens: &[Op]) -> Result<(), Memory>
    ensures { OnOk result (text.new.items ≡ text.old.items ++ numbered generator_text 1 gens.now) }
{
    for (i, op) in gens.iter().enumerate() {
        push_generator(alloc, text, i + 1, op)?;
    }
    Ok(())
}

// Appends the line of a generator.
fn push_generator(alloc: Global, text: &mut Vec<u8>, number: usize, op: &Op) -> Result<(), Memory>
    ensures { OnOk result (text.new.items ≡ text.old.items ++ generator_text number op.now) }
{
    text.extend_from_slice(format!(in alloc; "gen {number} ")?.as_bytes())?;
    let triplet = print_triplet(alloc, op)?;
    text.extend_from_slice(&triplet)?;
    text.push(b'\n')?;
    Ok(())
}
