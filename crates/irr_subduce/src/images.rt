// Which images are in a group.
ghost use Rattle.std.specs.Prelude.{ℕ, ◌≡◌, ◌<◌, ◌≤◌, ◌^◌, ◌↔◌, length, IfSome, IsNone, IsTrue, List, slice_index_or};
ghost use Rattle.std.specs.List.{All, HoldsAt};
ghost use Rattle.irr_algebra.specs.Fin.{Fin, to_nat};
ghost use Rattle.irr_algebra.specs.Matrix.{column};
ghost use Rattle.irr_space.specs.Operation.{translation};
ghost use Rattle.irr_seitz.specs.OperationMeaning.{operation};
ghost use Rattle.irr_close.specs.StandsFor.{stands_for};
ghost use Rattle.irr_setting.specs.Setting.{basis, IsSingular, IsSmallSetting, IsSmall};
ghost use Rattle.irr_subduce.specs.Subgroup.{HasImage, HasColumns, IsFirstOutside};

use irr_close::Group;
use irr_rat::Vec3;
use irr_seitz::Op;
use irr_setting::{Setting, image};

// Whether the image of an operation is in a group.
fn has_image(group: &Group, setting: &Setting, op: &Op) -> bool
    requires setting { IsSmallSetting setting.now }
    requires regular { ¬ (IsSingular setting.now) }
    requires op { IsSmall op.now }
    ensures { IsTrue result ↔ HasImage group.now setting.now (operation op.now) }
{
    match image(setting, op) {
        Some(made) => group.contains(&made),
        None => false,
    }
}

/// The number, counted from 1, of the first generator whose image is not in a group.
pub fn first_outside(group: &Group, setting: &Setting, gens: &[Op]) -> Option<u32>
    requires setting { IsSmallSetting setting.now }
    requires regular { ¬ (IsSingular setting.now) }
    requires gens { All IsSmall gens.now }
    requires few { length gens.now < 2 ^ 32 }
    ensures some { IfSome result (IsFirstOutside group.now setting.now gens.now) }
    ensures none { IsNone result → All (λ g. HasImage group.now setting.now (operation g)) gens.now }
{
    for (i, op) in gens.iter().enumerate() {
        if !has_image(group, setting, op) {
            return Some(i as u32 + 1);
        }
    }
    None
}

// The translation by a column of P.
fn column_translation(setting: &Setting, j: usize) -> Op
    requires { j < 3 }
    ensures { (p : Fin 3) → to_nat p ≡ j → operation result ≡ translation (column (basis setting.now) p) }
{
    let shift = Vec3::new(
        [setting.num[0][j], setting.num[1][j], setting.num[2][j]],
        setting.den,
    );
    let num = shift.num;
    Op {
        rot: [[1, 0, 0], [0, 1, 0], [0, 0, 1]],
        num,
        den: shift.den,
    }
}

fn has_column(group: &Group, setting: &Setting, j: usize) -> bool
    requires { j < 3 }
    ensures { (p : Fin 3) → to_nat p ≡ j → IsTrue result ↔ stands_for group.now (translation (column (basis setting.now) p)) }
{
    group.contains(&column_translation(setting, j))
}

/// Whether the columns of P are translations of a group.
pub fn has_columns(group: &Group, setting: &Setting) -> bool
    ensures { IsTrue result ↔ HasColumns group.now setting.now }
{
    if !has_column(group, setting, 0) {
        return false;
    }
    if !has_column(group, setting, 1) {
        return false;
    }
    has_column(group, setting, 2)
}
