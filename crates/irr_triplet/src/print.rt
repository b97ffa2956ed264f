// Printing of triplets.
ghost use Rattle.std.specs.Prelude.{◌≡◌, IfOk};
ghost use Rattle.irr_text.specs.TripletText.{triplet_text};
ghost use Rattle.irr_seitz.specs.OperationMeaning.{operation};

use crate::component::Component;
use irr_memory::Memory;
use irr_seitz::Op;
use std::alloc::Global;

/// The coordinate triplet of an operation: three components with commas between, no blanks and no quotes.
pub fn print_triplet(alloc: Global, op: &Op) -> Result<Vec<u8>, Memory>
    ensures { IfOk result (λ text. text.items ≡ triplet_text (operation op.now)) }
{
    let x = Component::of(op, 0);
    let y = Component::of(op, 1);
    let z = Component::of(op, 2);
    let text = format!(in alloc; "{x},{y},{z}")?;
    Ok(text.into_bytes())
}
