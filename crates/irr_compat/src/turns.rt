// Where the operations of a line group stand at a point, and the phases of their vectors at the step from it to the
// first point.
ghost use Rattle.std.specs.Prelude.{ℕ, ◌≡◌, ◌<◌, ◌≤◌, IfOk, Contains, slice_index};
ghost use Rattle.irr_seitz.specs.declared.op.Op.{Op};
ghost use Rattle.irr_rep.specs.Twisted.{operation_places, phase_table, place_count};
ghost use Rattle.irr_kvec.specs.Centrings.{IsWithinLimits};
ghost use Rattle.irr_kvec.specs.WaveMeaning.{wave_vector};
ghost use Rattle.irr_compat.specs.Turns.{IsPointOfLine, AreTurns, IsTurn};

use irr_close::Group;
use irr_kvec::Wave;
use irr_little::step_phase;
use irr_memory::Memory;
use irr_rat::Vec3;
use irr_rep::Twisted;
use irr_seitz::Op;
use std::alloc::Global;

/// Where an operation of the line group stands in the table of a point, and the exponent of the phase of its vector at
/// the step from that point to the first one.
#[derive(Clone, Copy)]
pub(crate) struct Turn {
    pub place: u32,
    pub exponent: u32,
}

/// The turns of the operations of a line group at a point, in the order of its table. The error is want of memory.
pub(crate) fn turns(
    alloc: Global,
    group: &Group,
    line: &Twisted,
    first: &Wave,
    table: &Twisted,
    point: &Wave,
) -> Result<Vec<Turn>, Memory>
    requires limits { IsWithinLimits point.now }
    requires first_limits { IsWithinLimits first.now }
    requires point { IsPointOfLine group.now line.now table.now (wave_vector first.now) (wave_vector point.now) }
    ensures { IfOk result (λ ts. AreTurns group.now line.now table.now (wave_vector first.now) (wave_vector point.now)
        ts.items) }
{
    let mut turns = Vec::new(alloc);
    for a in 0..line.len() {
        let turn = turn_at(group, line, first, table, point, a);
        turns.push(turn)?;
    }
    Ok(turns)
}

// The turn of the operation of a line group at a place.
fn turn_at(
    group: &Group,
    line: &Twisted,
    first: &Wave,
    table: &Twisted,
    point: &Wave,
    a: u32,
) -> Turn
    requires limits { IsWithinLimits point.now }
    requires first_limits { IsWithinLimits first.now }
    requires point { IsPointOfLine group.now line.now table.now (wave_vector first.now) (wave_vector point.now) }
    requires place { a < place_count line.now }
    ensures { IsTurn group.now line.now table.now (wave_vector first.now) (wave_vector point.now) a result }
{
    let number = line.place(a);
    let ops = group.ops();
    let shift = shift(&ops[number as usize]);
    let place = position(table, number);
    let exponent = step_phase(group, line.order(), point, first, &shift);
    Turn { place, exponent }
}

// The vector of an operation.
fn shift(op: &Op) -> Vec3
    ensures num { result.num ≡ op.now.num }
    ensures den { result.den ≡ op.now.den }
{
    let num = op.num;
    Vec3 { num, den: op.den }
}

// The place of the operation with a number.
fn position(table: &Twisted, number: u32) -> u32
    requires { Contains (operation_places table.now) number }
    ensures within { result < place_count table.now }
    ensures value { slice_index (operation_places table.now) result ≡ number }
{
    for place in 0..table.len() {
        if table.place(place) == number {
            return place;
        }
    }
    unreachable!()
}
