// The lines of points, of the operations of the line group, and of its small representations.
ghost use Rattle.std.specs.Prelude.{ℕ, ◌≡◌, ◌<◌, ◌++◌, List, OnOk, length, map, Vec};
ghost use Rattle.std.specs.List.{All};
ghost use Rattle.std.specs.Global.{Global};
ghost use Rattle.irr_seitz.specs.declared.op.Op.{Op};
ghost use Rattle.irr_rep.specs.Twisted.{operation_places};
ghost use Rattle.irr_report.specs.Printed.{numbered, operation_text, value_word, values_text};
ghost use Rattle.irr_compat_text.specs.Printed.{member_text, members_text, place_line, point_text};

use irr_cyc::Scalar;
use irr_kvec::Wave;
use irr_memory::Memory;
use irr_numeral::print_number;
use irr_rep::Twisted;
use irr_seitz::Op;
use irr_triplet::print_triplet;
use std::alloc::Global;

/// Appends the lines of points. The error is want of memory.
pub(crate) fn push_points(alloc: Global, text: &mut Vec<u8>, points: &[Wave]) -> Result<(), Memory>
    ensures { OnOk result (text.new.items ≡ text.old.items ++ numbered point_text 0 points.now) }
{
    for (i, point) in points.iter().enumerate() {
        push_point(alloc, text, i, point)?;
    }
    Ok(())
}

// Appends the line of a point.
fn push_point(alloc: Global, text: &mut Vec<u8>, number: usize, point: &Wave) -> Result<(), Memory>
    ensures { OnOk result (text.new.items ≡ text.old.items ++ point_text number point.now) }
{
    text.extend_from_slice(format!(in alloc; "point {number} {point}\n")?.as_bytes())?;
    Ok(())
}

/// Appends the lines of the operations of a line group, with their numbers among `ops`. The error is want of memory.
pub(crate) fn push_places(
    alloc: Global,
    text: &mut Vec<u8>,
    ops: &[Op],
    line: &Twisted,
) -> Result<(), Memory>
    requires { All (λ p. p < length ops.now) (operation_places line.now) }
    ensures { (d : Op) → OnOk result (text.new.items ≡ text.old.items
        ++ numbered (place_line ops.now d) 1 (operation_places line.now)) }
{
    for i in 0..line.len() {
        let number = line.place(i);
        push_operation(alloc, text, i as usize + 1, &ops[number as usize])?;
    }
    Ok(())
}

// Appends the line of an operation.
fn push_operation(alloc: Global, text: &mut Vec<u8>, number: usize, op: &Op) -> Result<(), Memory>
    ensures { OnOk result (text.new.items ≡ text.old.items ++ operation_text number op.now) }
{
    text.extend_from_slice(format!(in alloc; "op {number} ")?.as_bytes())?;
    let triplet = print_triplet(alloc, op)?;
    text.extend_from_slice(&triplet)?;
    text.push(b'\n')?;
    Ok(())
}

/// Appends the lines of representations on the line with these sizes and characters. The error is want of memory.
pub(crate) fn push_members<S: Scalar>(
    alloc: Global,
    text: &mut Vec<u8>,
    dims: &[u32],
    chars: &[Vec<S>],
) -> Result<(), Memory>
    requires { length dims.now ≡ length chars.now }
    ensures { OnOk result (text.new.items ≡ text.old.items
        ++ members_text S.order_of S.value 1 dims.now (map (λ (v : Vec S Global). v.items) chars.now)) }
{
    for i in 0..dims.len() {
        push_member(alloc, text, i + 1, dims[i], chars[i].as_slice())?;
    }
    Ok(())
}

// Appends the lines of a representation: its label, its number of rows, and its character.
fn push_member<S: Scalar>(
    alloc: Global,
    text: &mut Vec<u8>,
    number: usize,
    dim: u32,
    row: &[S],
) -> Result<(), Memory>
    ensures { OnOk result (text.new.items ≡ text.old.items ++ member_text S.order_of S.value number dim row.now) }
{
    text.extend_from_slice(format!(in alloc; "rep L{number} dim {dim}\nchar")?.as_bytes())?;
    push_values(alloc, text, row)?;
    text.push(b'\n')?;
    Ok(())
}

// Appends numbers, with a blank before each.
fn push_values<S: Scalar>(alloc: Global, text: &mut Vec<u8>, row: &[S]) -> Result<(), Memory>
    ensures { OnOk result (text.new.items ≡ text.old.items ++ values_text S.order_of S.value row.now) }
{
    for x in row {
        push_value(alloc, text, x)?;
    }
    Ok(())
}

// Appends a blank and a number.
fn push_value<S: Scalar>(alloc: Global, text: &mut Vec<u8>, x: &S) -> Result<(), Memory>
    ensures { OnOk result (text.new.items ≡ text.old.items ++ value_word S.order_of S.value x.now) }
{
    if x.is_zero() {
        text.extend_from_slice(b" 0")?;
        return Ok(());
    }
    let number = print_number(alloc, x)?;
    text.push(b' ')?;
    text.extend_from_slice(&number)?;
    Ok(())
}
