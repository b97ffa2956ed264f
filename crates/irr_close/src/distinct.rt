// Operations in the unit cell, each once.
ghost use Rattle.std.specs.Prelude.{◌≡◌, length, map, IfOk, OnOk, IfErr};
ghost use Rattle.irr_close.specs.Distinct.{line, IsReduced, IsWithOperation, AreReduced};

use crate::CloseError;
use indexmap::IndexSet;
use irr_seitz::Op;
use std::alloc::Global;

// What tells operations apart: the rotation, the numerators, the denominator.
type Line = ([[i16; 3]; 3], [i64; 3], u32);

// The operation with its vector in the unit cell.
fn reduced(op: &Op) -> Op
    ensures { IsReduced op.now result }
{
    op.reduce()
}

// Keeps an operation where it is new, by one look-up.
fn keep_new(seen: &mut IndexSet<Line>, kept: &mut Vec<Op>, op: Op) -> Result<(), CloseError>
    requires { seen.old.keys ≡ map line kept.old.items }
    ensures seen { OnOk result (seen.new.keys ≡ map line kept.new.items) }
    ensures kept { OnOk result (IsWithOperation kept.old.items op kept.new.items) }
    ensures memory { IfErr result (λ e. e ≡ CloseError.Memory) }
{
    let rot = op.rot;
    let num = op.num;
    let is_new = seen.insert((rot, num, op.den))?;
    if is_new {
        kept.push(op)?;
    }
    Ok(())
}

/// The operations with their vectors in the unit cell, each once, in the order in which they first come. The
/// error is want of memory.
pub fn distinct(alloc: Global, generators: &[Op]) -> Result<Vec<Op>, CloseError>
    ensures reduced { IfOk result (λ kept. AreReduced generators.now kept.items (length generators.now)) }
    ensures memory { IfErr result (λ e. e ≡ CloseError.Memory) }
{
    let mut seen = IndexSet::new(alloc);
    let mut kept = Vec::new(alloc);
    for generator in generators {
        keep_new(&mut seen, &mut kept, reduced(generator))?;
    }
    Ok(kept)
}
