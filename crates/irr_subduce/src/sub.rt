// A subgroup in its setting.
ghost use Rattle.irr_space.specs.Operation.{Operation};
ghost use Rattle.irr_close.specs.StandsFor.{stands_for};
ghost use Rattle.irr_setting.specs.Setting.{IsSingular, IsSmallSetting, MayBeImage};

use irr_close::Group;
use irr_seitz::Op;
use irr_setting::{Setting, image};

/// A subgroup of a space group, in a setting of its own.
#[derive(Drop)]
pub struct Sub {
    group: Group,
    setting: Setting,
    pub ghost small: { IsSmallSetting setting },
    pub ghost regular: { ¬ (IsSingular setting) },
    pub ghost images: { ∥ ((g : Operation) → stands_for group g → (f : Operation) × MayBeImage setting g f) ∥₁ },
}

impl Sub {
    ghost use Rattle.std.specs.Prelude.{◌≡◌, ◌^◌, List};
    ghost use Rattle.irr_space.specs.Operation.{Operation};
    ghost use Rattle.irr_seitz.specs.OperationMeaning.{operation, AreWithin};
    ghost use Rattle.irr_seitz.specs.declared.op.Op.{Op};
    ghost use Rattle.irr_close.specs.StandsFor.{stands_for};
    ghost use Rattle.irr_close.specs.declared.group.Group.{Group};
    ghost use Rattle.irr_full.specs.Restriction.{IsImage};
    ghost use Rattle.irr_setting.specs.Setting.{basis, origin, IsSingular, IsSmallSetting, MayBeImage};
    ghost use Rattle.irr_subduce.specs.Subgroup.{IsSub};

    pub(crate) fn new(group: Group, setting: Setting) -> Sub
        requires small { IsSmallSetting setting }
        requires regular { ¬ (IsSingular setting) }
        requires images { ∥ ((g : Operation) → stands_for group g → (f : Operation) × MayBeImage setting g f) ∥₁ }
        ensures group { result.group ≡ group }
        ensures setting { result.setting ≡ setting }
    {
        Sub { group, setting }
    }

    /// The subgroup in its own basis.
    pub fn group(&self) -> &Group
        ensures { result.now ≡ self.now.group }
    {
        &self.group
    }

    /// The change of basis and origin.
    pub fn setting(&self) -> &Setting
        ensures { result.now ≡ self.now.setting }
    {
        &self.setting
    }

    /// The operation of the whole group that an operation (R|v) of the subgroup is: (P R P^-1 | P v + p - P R P^-1 p).
    pub fn image(&self, op: &Op) -> Op
        requires member { stands_for self.now.group (operation op.now) }
        requires numerators { AreWithin (10 ^ 9) op.now.num }
        ensures image { IsImage (basis self.now.setting) (origin self.now.setting) (operation op.now) (operation result) }
        ensures member { (group : Group) (gens : List Op) → IsSub group self.now.setting gens self.now → stands_for group (operation result) }
    {
        match image(&self.setting, op) {
            Some(made) => made,
            None => unreachable!(),
        }
    }
}
