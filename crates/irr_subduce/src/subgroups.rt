// The subgroup that generators generate in a setting.
ghost use Rattle.std.specs.Prelude.{◌≡◌, ◌<◌, ◌^◌, length, IfOk, IfErr, unsigned_abs};
ghost use Rattle.std.specs.List.{All};
ghost use Rattle.irr_seitz.specs.OperationMeaning.{operation};
ghost use Rattle.irr_seitz.specs.Rotation.{determinant};
ghost use Rattle.irr_setting.specs.Setting.{IsSmallSetting, IsSmall};
ghost use Rattle.irr_subduce.specs.Subgroup.{IsSub, IsRefused};

use crate::images::{first_outside, has_columns};
use crate::{Sub, SubError};
use irr_close::{Group, close};
use irr_seitz::Op;
use irr_setting::Setting;
use std::alloc::Global;

/// The group that operations in the basis of a setting generate with its unit translations, where it is a subgroup of a given group
/// (International Tables A, section 1.7). The sign of its phase is that of the group. The error is the first of: P is singular; a
/// column of P is no translation of the group; the image of a generator is not in the group; what `close` refuses.
pub fn subgroup(
    alloc: Global,
    group: &Group,
    setting: &Setting,
    gens: &[Op],
) -> Result<Sub, SubError>
    requires setting { IsSmallSetting setting.now }
    requires gens { All IsSmall gens.now }
    requires unimodular { All (λ s. unsigned_abs (determinant (operation s).rotation) ≡ 1) gens.now }
    requires few { length gens.now < 2 ^ 32 }
    ensures sub { IfOk result (IsSub group.now setting.now gens.now) }
    ensures refused { IfErr result (IsRefused group.now setting.now gens.now) }
{
    if setting.det_is_zero() {
        return Err(SubError::Singular);
    }
    if !has_columns(group, setting) {
        return Err(SubError::NotSubgroup(0));
    }
    if let Some(i) = first_outside(group, setting, gens) {
        return Err(SubError::NotSubgroup(i));
    }
    match close(alloc, gens, group.phase()) {
        Ok(inner) => Ok(Sub::new(inner, *setting)),
        Err(error) => Err(SubError::of_close(error)),
    }
}
