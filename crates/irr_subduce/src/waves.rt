// The wave vectors of arms in the basis of a subgroup.
ghost use Rattle.std.specs.Prelude.{◌≤◌, ◌^◌, IfOk};
ghost use Rattle.std.specs.List.{All};
ghost use Rattle.irr_seitz.specs.OperationMeaning.{AreWithin};
ghost use Rattle.irr_subduce.specs.ArmWaves.{AreArmWaves, IsArmWave};

use crate::Sub;
use irr_kvec::{Wave, reduced};
use irr_little::Arm;
use irr_memory::Memory;
use std::alloc::Global;

/// The wave vectors of arms in the basis of a subgroup, each reduced there. The error is want of memory.
pub(crate) fn arm_waves(alloc: Global, sub: &Sub, arms: &[Arm]) -> Result<Vec<Wave>, Memory>
    requires numerators { All (λ a. AreWithin (10 ^ 9) a.wave.num) arms.now }
    requires denominators { All (λ a. a.wave.den ≤ 100000) arms.now }
    ensures { IfOk result (λ waves. AreArmWaves sub.now arms.now waves.items) }
{
    let mut waves = Vec::new(alloc);
    for arm in arms {
        let wave = arm_wave(sub, &arm.wave);
        waves.push(wave)?;
    }
    Ok(waves)
}

// The wave vector of an arm.
fn arm_wave(sub: &Sub, k: &Wave) -> Wave
    requires numerators { AreWithin (10 ^ 9) k.now.num }
    requires denominator { k.now.den ≤ 100000 }
    ensures { IsArmWave sub.now k.now result }
{
    let setting = sub.setting();
    let group = sub.group();
    let wave = setting.wave(k);
    reduced(group.centrings(), &wave)
}
