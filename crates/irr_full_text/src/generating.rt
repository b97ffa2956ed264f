// Generators of a group.
ghost use Rattle.std.specs.Prelude.{ℕ, ◌≡◌, ◌++◌, IfOk, OnOk, length, map, slice_index_or};
ghost use Rattle.std.specs.List.{All};
ghost use Rattle.irr_algebra.specs.Fin.{Fin, to_nat};
ghost use Rattle.irr_space.specs.Operation.{Operation, translation};
ghost use Rattle.irr_space.specs.CanonicalOperation.{IsInCell};
ghost use Rattle.irr_seitz.specs.OperationMeaning.{operation, AreWithin};
ghost use Rattle.irr_seitz.specs.declared.op.Op.{Op};
ghost use Rattle.irr_rat.specs.VectorMeaning.{vector, vector_of};
ghost use Rattle.irr_close.specs.StandsFor.{stands_for};
ghost use Rattle.irr_star.specs.Sizes.{HasSmallVector};
ghost use Rattle.irr_full_text.specs.FullText.{AreGeneratorsOf, unit_translations};
ghost use Rattle.irr_full_text.specs.Reading.{ArePrintable};

use irr_close::Group;
use irr_memory::Memory;
use irr_rat::Vec3;
use irr_seitz::Op;
use std::alloc::Global;

/// Generators of a group: the unit translations, the other translations in the unit cell in lexicographic order, and
/// the canonical operations but the first. The error is want of memory.
pub fn generators(alloc: Global, group: &Group) -> Result<Vec<Op>, Memory>
    ensures generators { IfOk result (λ gens. (n : ℕ) (ops : Fin n → Operation) → length group.now.ops.items ≡ n
        → ((i : Fin n) (d : Op) → operation (slice_index_or group.now.ops.items (to_nat i) d) ≡ ops i)
        → AreGeneratorsOf (stands_for group.now) ops (map operation gens.items)) }
    ensures printable { IfOk result (λ gens. ArePrintable group.now gens.items) }
{
    let mut gens = units(alloc)?;
    let (_, centrings) = group.centrings().split_at(1);
    push_translations(&mut gens, centrings)?;
    let (_, ops) = group.ops().split_at(1);
    gens.extend_from_slice(ops)?;
    Ok(gens)
}

// The unit translations.
fn units(alloc: Global) -> Result<Vec<Op>, Memory>
    ensures are { IfOk result (λ units. map operation units.items ≡ unit_translations) }
    ensures small { IfOk result (λ units. All HasSmallVector units.items) }
{
    let mut units = Vec::new(alloc);
    units.push(unit_translation([1, 0, 0]))?;
    units.push(unit_translation([0, 1, 0]))?;
    units.push(unit_translation([0, 0, 1]))?;
    Ok(units)
}

// The translation by a whole vector with small components.
fn unit_translation(num: [i64; 3]) -> Op
    requires { AreWithin 100000 num }
    ensures is { operation result ≡ translation (vector_of num 1) }
    ensures small { HasSmallVector result }
{
    Op {
        rot: [[1, 0, 0], [0, 1, 0], [0, 0, 1]],
        num,
        den: 1,
    }
}

// The translation by a vector.
fn translation(by: &Vec3) -> Op
    ensures is { operation result ≡ translation (vector by.now) }
    ensures num { result.num ≡ by.now.num }
    ensures den { result.den ≡ by.now.den }
{
    let num = by.num;
    Op {
        rot: [[1, 0, 0], [0, 1, 0], [0, 0, 1]],
        num,
        den: by.den,
    }
}

// Appends the translations by vectors of the unit cell.
fn push_translations(ops: &mut Vec<Op>, by: &[Vec3]) -> Result<(), Memory>
    requires { All (λ c. IsInCell (vector c)) by.now }
    ensures are { OnOk result (map operation ops.new.items ≡ map operation ops.old.items
        ++ map (λ c. translation (vector c)) by.now) }
    ensures small { All HasSmallVector ops.old.items → OnOk result (All HasSmallVector ops.new.items) }
{
    for vector in by {
        ops.push(translation(vector))?;
    }
    Ok(())
}
