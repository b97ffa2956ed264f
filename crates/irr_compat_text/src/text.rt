// The text of a table of compatibility relations.
ghost use Rattle.std.specs.Prelude.{ℕ, suc, ◌≡◌, IfOk, length};
ghost use Rattle.irr_seitz.specs.PhaseMeaning.{sign_of};
ghost use Rattle.irr_kvec.specs.declared.wave.Wave.{Wave};
ghost use Rattle.irr_little.specs.Line.{line_points};
ghost use Rattle.irr_compat.specs.LineTables.{IsCompatTable};
ghost use Rattle.irr_compat_text.specs.CompatText.{compat_content, compat_text};

use crate::lines::{push_members, push_places, push_points};
use crate::rows::push_rows;
use irr_close::Group;
use irr_compat::LineTable;
use irr_cyc::Scalar;
use irr_heading::push_heading;
use irr_kvec::Wave;
use irr_memory::Memory;
use irr_seitz::Phase;
use std::alloc::Global;

/// The text of the compatibility relations of points: the order, the points from 0, the operations of the line group,
/// its small representations with their characters, and the rows of the small representations at each point. The error
/// is want of memory.
pub fn text_compat<S: Scalar>(
    alloc: Global,
    group: &Group,
    points: &[Wave],
    table: &LineTable<S>,
    version: u32,
    phase: Phase,
) -> Result<Vec<u8>, Memory>
    requires { (n : ℕ) × (d : Wave) × (length points.now ≡ suc n)
        × IsCompatTable S.order_of S.value group.now (line_points n points.now d) table.now }
    ensures { (n : ℕ) (d : Wave) → length points.now ≡ suc n
        → (e : IsCompatTable S.order_of S.value group.now (line_points n points.now d) table.now)
        → IfOk result (λ text. text.items ≡ compat_text version (sign_of phase) (compat_content e.relations)) }
{
    let mut text = Vec::new(alloc);
    push_heading(alloc, &mut text, b"compat", version, phase)?;
    let order = table.line.order();
    text.extend_from_slice(format!(in alloc; "order {order}\n")?.as_bytes())?;
    push_points(alloc, &mut text, points)?;
    let places = table.line.len();
    text.extend_from_slice(format!(in alloc; "ops {places}\n")?.as_bytes())?;
    push_places(alloc, &mut text, group.ops(), &table.line)?;
    let members = table.dims.len();
    text.extend_from_slice(format!(in alloc; "reps {members}\n")?.as_bytes())?;
    push_members(alloc, &mut text, &table.dims, &table.chars)?;
    push_rows(alloc, &mut text, &table.rows)?;
    text.extend_from_slice(b"end\n")?;
    Ok(text)
}
