// The text of direct products.
ghost use Rattle.std.specs.Prelude.{◌≡◌, ◌++◌, IfOk, OnOk, map};
ghost use Rattle.std.specs.List.{flat_map};
ghost use Rattle.irr_seitz.specs.PhaseMeaning.{sign_of};
ghost use Rattle.irr_kvec.specs.WaveMeaning.{wave_vector};
ghost use Rattle.irr_mult.specs.StarParts.{part_of};
ghost use Rattle.irr_product.specs.Products.{pair_content};
ghost use Rattle.irr_product.specs.ProductText.{pair_lines, part_line, product_text};

use irr_heading::push_heading;
use irr_kvec::Wave;
use irr_memory::Memory;
use irr_mult::{PairParts, Part};
use irr_seitz::Phase;
use std::alloc::Global;

/// The text of direct products: the order of the numbers, the wave vectors, and for each pair of labels the number of
/// rows and the parts, each by its wave vector and label, with its multiplicity and its number of rows. The error is want
/// of memory.
pub fn text_product(
    alloc: Global,
    order: u32,
    k1: &Wave,
    k2: &Wave,
    pairs: &[PairParts],
    version: u32,
    phase: Phase,
) -> Result<Vec<u8>, Memory>
    ensures { IfOk result (λ text. text.items ≡ product_text version (sign_of phase) record {
      left = wave_vector k1.now;
      right = wave_vector k2.now;
      order = order;
      pairs = map pair_content pairs.now;
    }) }
{
    let mut text = Vec::new(alloc);
    push_heading(alloc, &mut text, b"product", version, phase)?;
    text.extend_from_slice(format!(in alloc; "order {order}\nwaves {k1} {k2}\n")?.as_bytes())?;
    push_pairs(alloc, &mut text, pairs)?;
    text.extend_from_slice(b"end\n")?;
    Ok(text)
}

// Appends the lines of pairs.
fn push_pairs(alloc: Global, text: &mut Vec<u8>, pairs: &[PairParts]) -> Result<(), Memory>
    ensures { OnOk result (text.new.items ≡ text.old.items ++ flat_map pair_lines (map pair_content pairs.now)) }
{
    for pair in pairs {
        push_pair(alloc, text, pair)?;
    }
    Ok(())
}

// Appends the line of a pair, and those of its parts.
fn push_pair(alloc: Global, text: &mut Vec<u8>, pair: &PairParts) -> Result<(), Memory>
    ensures { OnOk result (text.new.items ≡ text.old.items ++ pair_lines (pair_content pair.now)) }
{
    let a = pair.a;
    let b = pair.b;
    let dim = pair.dim;
    text.extend_from_slice(format!(in alloc; "pair S{a} S{b} dim {dim}\n")?.as_bytes())?;
    push_parts(alloc, text, &pair.parts)?;
    Ok(())
}

/// Appends the lines of parts. The error is want of memory.
pub fn push_parts(alloc: Global, text: &mut Vec<u8>, parts: &[Part]) -> Result<(), Memory>
    ensures { OnOk result (text.new.items ≡ text.old.items ++ flat_map part_line (map part_of parts.now)) }
{
    for part in parts {
        push_part(alloc, text, part)?;
    }
    Ok(())
}

// Appends the line of a part.
fn push_part(alloc: Global, text: &mut Vec<u8>, part: &Part) -> Result<(), Memory>
    ensures { OnOk result (text.new.items ≡ text.old.items ++ part_line (part_of part.now)) }
{
    let wave = part.wave;
    let label = part.label;
    let mult = part.mult;
    let dim = part.dim;
    text.extend_from_slice(format!(in alloc; "part {wave} S{label} {mult} {dim}\n")?.as_bytes())?;
    Ok(())
}
