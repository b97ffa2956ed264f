// The text of restrictions.
ghost use Rattle.std.specs.Prelude.{◌≡◌, ◌++◌, IfOk, OnOk, map};
ghost use Rattle.std.specs.List.{flat_map};
ghost use Rattle.irr_seitz.specs.PhaseMeaning.{sign_of};
ghost use Rattle.irr_kvec.specs.WaveMeaning.{wave_vector};
ghost use Rattle.irr_mult.specs.StarParts.{part_of};
ghost use Rattle.irr_subduce.specs.Restrictions.{rep_content};
ghost use Rattle.irr_subduce.specs.SubduceText.{part_line, rep_lines, subduce_text};

use irr_heading::push_heading;
use irr_kvec::Wave;
use irr_memory::Memory;
use irr_mult::{Part, RepParts};
use irr_seitz::Phase;
use std::alloc::Global;

/// The text of restrictions: the order of the numbers, the wave vector, and for each label the number of rows and the parts,
/// each by its wave vector in the basis of the subgroup and its label, with its multiplicity and its number of rows. The error
/// is want of memory.
pub fn text_subduce(
    alloc: Global,
    order: u32,
    k: &Wave,
    reps: &[RepParts],
    version: u32,
    phase: Phase,
) -> Result<Vec<u8>, Memory>
    ensures { IfOk result (λ text. text.items ≡ subduce_text version (sign_of phase) record {
      order = order;
      wave = wave_vector k.now;
      reps = map rep_content reps.now;
    }) }
{
    let mut text = Vec::new(alloc);
    push_heading(alloc, &mut text, b"subduce", version, phase)?;
    text.extend_from_slice(format!(in alloc; "order {order}\nwave {k}\n")?.as_bytes())?;
    push_reps(alloc, &mut text, reps)?;
    text.extend_from_slice(b"end\n")?;
    Ok(text)
}

// Appends the lines of entries.
fn push_reps(alloc: Global, text: &mut Vec<u8>, reps: &[RepParts]) -> Result<(), Memory>
    ensures { OnOk result (text.new.items ≡ text.old.items ++ flat_map rep_lines (map rep_content reps.now)) }
{
    for rep in reps {
        push_rep(alloc, text, rep)?;
    }
    Ok(())
}

// Appends the line of an entry, and those of its parts.
fn push_rep(alloc: Global, text: &mut Vec<u8>, rep: &RepParts) -> Result<(), Memory>
    ensures { OnOk result (text.new.items ≡ text.old.items ++ rep_lines (rep_content rep.now)) }
{
    let label = rep.label;
    let dim = rep.dim;
    text.extend_from_slice(format!(in alloc; "rep S{label} dim {dim}\n")?.as_bytes())?;
    push_parts(alloc, text, &rep.parts)?;
    Ok(())
}

// Appends the lines of parts.
fn push_parts(alloc: Global, text: &mut Vec<u8>, parts: &[Part]) -> Result<(), Memory>
    ensures { OnOk result (text.new.items ≡ text.old.items ++ flat_map part_line (map part_of parts.now)) }
{
    for part in parts {
        push_part(alloc, text, part)?;
    }
    Ok(())
}

// Appends the line of a part.
fn push_part(alloc: Global, text: &mut Vec<u8>, part: &Part) -> Result<(), Memory>
    ensures { OnOk result (text.new.items ≡ text.old.items ++ part_line (part_of part.now)) }
{
    let wave = part.wave;
    let label = part.label;
    let mult = part.mult;
    let dim = part.dim;
    text.extend_from_slice(format!(in alloc; "part {wave} S{label} {mult} {dim}\n")?.as_bytes())?;
    Ok(())
}
