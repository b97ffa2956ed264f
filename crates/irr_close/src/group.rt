// Groups in canonical form.
ghost use Rattle.irr_close.specs.Canonical.{AreCanonical};
ghost use Rattle.irr_close.specs.GeneratedGroup.{AreGenerated};

use crate::centring::{is_apart, shift};
use crate::closing::place;
use crate::{CloseError, canonical, exponent};
use irr_memory::Memory;
use irr_rat::Vec3;
use irr_seitz::{Op, Phase};
use std::alloc::Global;

/// A space group modulo the whole translations: the canonical operation of each rotation, numbered, the
/// translations in the unit cell in lexicographic order, and the sign of the phase.
#[derive(Drop)]
pub struct Group {
    ops: Vec<Op>,
    centrings: Vec<Vec3>,
    phase: Phase,
    pub ghost form: { ∥ AreCanonical ops.items centrings.items ∥₁ },
    pub ghost generated: { ∥ AreGenerated ops.items centrings.items ∥₁ },
}

impl Group {
    ghost use Rattle.std.specs.Prelude.{ℕ, ◌≡◌, ◌<◌, ◌≤◌, ◌↔◌, List, length, IfOk, IfErr, IfSome, IsNone, IsTrue};
    ghost use Rattle.std.specs.List.{HoldsAt};
    ghost use Rattle.irr_space.specs.Operation.{Operation};
    ghost use Rattle.irr_space.specs.SpaceGroup.{IsExponent};
    ghost use Rattle.irr_space.specs.CanonicalOperation.{IsNumbering};
    ghost use Rattle.irr_seitz.specs.Rotation.{rotation_of};
    ghost use Rattle.irr_seitz.specs.OperationMeaning.{operation};
    ghost use Rattle.irr_seitz.specs.declared.op.Op.{Op};
    ghost use Rattle.irr_kvec.specs.Centrings.{AreCentrings};
    ghost use Rattle.irr_close.specs.Canonical.{IsClosing, numbered};
    ghost use Rattle.irr_close.specs.Standing.{StandFor};
    ghost use Rattle.irr_close.specs.StandsFor.{stands_for, IsSameGroup};

    // The group that kept operations and translations stand for.
    pub(crate) fn new(
        alloc: Global,
        kept: &[Op],
        centrings: Vec<Vec3>,
        phase: Phase,
    ) -> Result<Group, CloseError>
        requires closing { IsClosing kept.now centrings.items }
        requires generated { AreGenerated kept.now centrings.items }
        ensures group { IfOk result (λ group. (g : Operation) → stands_for group g ↔ StandFor kept.now centrings.items g) }
        ensures phase { IfOk result (λ group. group.phase ≡ phase) }
        ensures memory { IfErr result (λ e. e ≡ CloseError.Memory) }
    {
        let ops = canonical::number(alloc, kept, &centrings)?;
        let centrings = canonical::sort(centrings)?;
        Ok(Group {
            ops,
            centrings,
            phase,
        })
    }

    /// The canonical operation of each rotation, numbered: the unit first, then by the nine entries of the
    /// rotations, row by row. There are at most 48, with entries of at most 9, and all vectors, those of the
    /// centrings too, have a common denominator of at most 100,000.
    pub fn ops(&self) -> &[Op]
        ensures list { result.now ≡ self.now.ops.items }
        ensures numbering { (d : Op) → IsNumbering (stands_for self.now) (λ _. Unit {0}) (numbered result.now d) }
        ensures canonical { AreCanonical result.now self.now.centrings.items }
    {
        self.ops.as_slice()
    }

    /// The translations in the unit cell, in lexicographic order; the first is 0, and there are at most 32.
    pub fn centrings(&self) -> &[Vec3]
        ensures list { result.now ≡ self.now.centrings.items }
        ensures centrings { AreCentrings (stands_for self.now) result.now }
        ensures nonempty { 0 < length result.now }
        ensures few { length result.now ≤ 32 }
    {
        self.centrings.as_slice()
    }

    /// The place of the operation with a rotation; none where no operation of the group has it.
    pub fn canonical(&self, rot: &[[i16; 3]; 3]) -> Option<u32>
        ensures within { IfSome result (λ k. k < length self.now.ops.items) }
        ensures found { IfSome result (λ k. HoldsAt (λ g. (operation g).rotation ≡ rotation_of rot.now) self.now.ops.items k) }
        ensures none { IsNone result ↔ ((g : Operation) → stands_for self.now g → ¬ (g.rotation ≡ rotation_of rot.now)) }
    {
        match place(self.ops.as_slice(), rot) {
            Some(k) => Some(k as u32),
            None => None,
        }
    }

    /// Whether an operation is one of the group.
    pub fn contains(&self, op: &Op) -> bool
        ensures { IsTrue result ↔ stands_for self.now (operation op.now) }
    {
        let ops = self.ops.as_slice();
        match place(ops, &op.rot) {
            Some(k) => is_apart(
                self.centrings.as_slice(),
                &shift(&ops[k]),
                &shift(&op.reduce()),
            ),
            None => false,
        }
    }

    /// The least positive number to which the power of each rotation is the unit: the least common multiple of
    /// the orders of the rotations. It is at most 48.
    pub fn exponent(&self) -> u32
        ensures exponent { IsExponent (stands_for self.now) result }
        ensures small { result ≤ 48 }
    {
        exponent::exponent(self.ops.as_slice())
    }

    /// An equal group. The error is want of memory.
    pub fn copy(&self, alloc: Global) -> Result<Group, Memory>
        ensures { IfOk result (λ copy. IsSameGroup self.now copy) }
    {
        let ops = Vec::from_slice(alloc, &self.ops)?;
        let centrings = Vec::from_slice(alloc, &self.centrings)?;
        Ok(Group {
            ops,
            centrings,
            phase: self.phase,
        })
    }

    /// The sign of the phase that was handed to `close`.
    pub fn phase(&self) -> Phase
        ensures { result ≡ self.now.phase }
    {
        self.phase
    }
}
