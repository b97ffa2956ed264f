// The entries of labels.
ghost use Rattle.std.specs.Prelude.{ℕ, ◌≡◌, ◌<◌, ◌≤◌, List, IfOk, length};
ghost use Rattle.irr_space.specs.Operation.{WaveVector};
ghost use Rattle.irr_kvec.specs.declared.wave.Wave.{Wave};
ghost use Rattle.irr_close.specs.declared.group.Group.{Group};
ghost use Rattle.irr_forms.specs.Square.{strict, upper};
ghost use Rattle.irr_power.specs.Meetings.{AreEntries, IsEntry, Setting};

use crate::meetings::Meeting;
use crate::parts::SquareParts;
use crate::rows::star_rows;
use irr_cyc::{Lift, Order};
use irr_memory::Memory;
use irr_mult::{StarCharacters, all_parts};
use irr_side::Side;
use std::alloc::Global;

/// The entries of all members of a list, by label. The error is want of memory.
pub(crate) fn entries<S: Lift>(
    alloc: Global,
    order: &Order,
    side: &Side<S>,
    stars: &[StarCharacters<S>],
    meetings: &[Meeting],
) -> Result<Vec<SquareParts>, Memory>
    requires { (group : Group) × (k : WaveVector) × (sums : List Wave)
        × Setting group k order.now.n side.now sums stars.now meetings.now }
    ensures { (group : Group) (k : WaveVector) (sums : List Wave)
        (s : Setting group k order.now.n side.now sums stars.now meetings.now) → IfOk result (λ entries.
        AreEntries order.now.n s.given.is_side (length side.now.fulls.items) entries.items) }
{
    let mut entries = Vec::new(alloc);
    for member in 0..side.fulls.len() {
        let entry = entry_at(alloc, order, side, stars, meetings, member)?;
        entries.push(entry)?;
    }
    Ok(entries)
}

// The entry of one.
fn entry_at<S: Lift>(
    alloc: Global,
    order: &Order,
    side: &Side<S>,
    stars: &[StarCharacters<S>],
    meetings: &[Meeting],
    member: usize,
) -> Result<SquareParts, Memory>
    requires member { member < length side.now.fulls.items }
    requires setting { (group : Group) × (k : WaveVector) × (sums : List Wave)
        × Setting group k order.now.n side.now sums stars.now meetings.now }
    ensures { (group : Group) (k : WaveVector) (sums : List Wave)
        (s : Setting group k order.now.n side.now sums stars.now meetings.now)
        → IfOk result (IsEntry order.now.n s.given.is_side member) }
{
    let full = &side.fulls[member];
    let (symmetric, antisymmetric) = star_rows(alloc, order, full, meetings)?;
    let sym = all_parts(alloc, stars, symmetric.as_slice())?;
    let anti = all_parts(alloc, stars, antisymmetric.as_slice())?;
    let rows = full.dim();
    Ok(SquareParts {
        label: member as u32 + 1,
        sym_dim: symmetric_size(rows),
        anti_dim: antisymmetric_size(rows),
        sym,
        anti,
    })
}

// The number of rows of the symmetric square of d rows: d(d + 1)/2.
fn symmetric_size(d: u32) -> u32
    requires { d ≤ 48 }
    ensures { result ≡ upper d }
{
    d * (d + 1) / 2
}

// The number of rows of the antisymmetric square of d rows: d(d - 1)/2.
fn antisymmetric_size(d: u32) -> u32
    requires { d ≤ 48 }
    ensures { result ≡ strict d }
{
    (d * d - d) / 2
}
