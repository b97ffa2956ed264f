// The lines of rows and of their parts.
ghost use Rattle.std.specs.Prelude.{◌≡◌, ◌++◌, OnOk};
ghost use Rattle.std.specs.List.{flat_map};
ghost use Rattle.irr_compat.specs.Rows.{row_view};
ghost use Rattle.irr_compat_text.specs.Printed.{part_text, row_text, rows_text};

use irr_compat::{LinePart, PointRow};
use irr_memory::Memory;
use std::alloc::Global;

/// Appends the lines of rows. The error is want of memory.
pub(crate) fn push_rows(alloc: Global, text: &mut Vec<u8>, rows: &[PointRow]) -> Result<(), Memory>
    ensures { OnOk result (text.new.items ≡ text.old.items ++ rows_text rows.now) }
{
    for row in rows {
        push_row(alloc, text, row)?;
    }
    Ok(())
}

// Appends the lines of a row.
fn push_row(alloc: Global, text: &mut Vec<u8>, row: &PointRow) -> Result<(), Memory>
    ensures { OnOk result (text.new.items ≡ text.old.items ++ row_text (row_view row.now)) }
{
    let point = row.point;
    let label = row.label;
    let dim = row.dim;
    text.extend_from_slice(format!(in alloc; "from {point} S{label} dim {dim}\n")?.as_bytes())?;
    push_parts(alloc, text, row.parts.as_slice())?;
    Ok(())
}

// Appends the lines of parts.
fn push_parts(alloc: Global, text: &mut Vec<u8>, parts: &[LinePart]) -> Result<(), Memory>
    ensures { OnOk result (text.new.items ≡ text.old.items ++ flat_map part_text parts.now) }
{
    for part in parts {
        push_part(alloc, text, part)?;
    }
    Ok(())
}

// Appends the line of a part.
fn push_part(alloc: Global, text: &mut Vec<u8>, part: &LinePart) -> Result<(), Memory>
    ensures { OnOk result (text.new.items ≡ text.old.items ++ part_text part.now) }
{
    let label = part.label;
    let mult = part.mult;
    let dim = part.dim;
    text.extend_from_slice(format!(in alloc; "part L{label} {mult} {dim}\n")?.as_bytes())?;
    Ok(())
}
