//! The first lines of the texts of commands.
#![tactic(auto)]

ghost use Rattle.std.specs.Prelude.{◌≡◌, ◌++◌, OnOk};
ghost use Rattle.irr_space.specs.Reciprocal.Sign.{minus};
ghost use Rattle.irr_seitz.specs.PhaseMeaning.{sign_of};
ghost use Rattle.irr_heading.specs.Heading.{heading, phase_word};

pub use irr_memory::Memory;
use irr_seitz::Phase;
use std::alloc::Global;

/// Appends the first lines of a text: its name and its version and, above version 1, the sign of the phase. The error
/// is want of memory.
pub fn push_heading(
    alloc: Global,
    text: &mut Vec<u8>,
    name: &[u8],
    version: u32,
    phase: Phase,
) -> Result<(), Memory>
    ensures { OnOk result (text.new.items ≡ text.old.items ++ heading name.now version (sign_of phase)) }
{
    text.extend_from_slice(name)?;
    text.extend_from_slice(format!(in alloc; " {version}\n")?.as_bytes())?;
    if version <= 1 {
        return Ok(());
    }
    text.extend_from_slice(b"phase ")?;
    push_phase(text, phase)?;
    text.push(b'\n')?;
    Ok(())
}

// Appends the word for the sign of the phase.
fn push_phase(text: &mut Vec<u8>, phase: Phase) -> Result<(), Memory>
    ensures { OnOk result (text.new.items ≡ text.old.items ++ phase_word (sign_of phase)) }
{
    match phase {
        Phase::Minus => text.extend_from_slice(b"minus")?,
        Phase::Plus => text.extend_from_slice(b"plus")?,
    }
    Ok(())
}
