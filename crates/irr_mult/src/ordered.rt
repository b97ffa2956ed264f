// Lists of wave vectors in their order.
ghost use Rattle.std.specs.Prelude.{IfSome, IsNone, OnOk};
ghost use Rattle.std.specs.List.{All};
ghost use Rattle.irr_kvec.specs.Centrings.{IsWithinLimits};
ghost use Rattle.irr_kvec.specs.WaveMeaning.{wave_vector};
ghost use Rattle.irr_mult.specs.OrderedWaves.{AreInOrder, IsOneOf, IsPlace, IsWith, waves_of};

use crate::comparison::{is_below, is_same};
use irr_kvec::Wave;
use irr_memory::Memory;

// Where a wave vector belongs in a list in order; none where it is one of them.
fn place(found: &[Wave], wave: &Wave) -> Option<usize>
    requires { AreInOrder (waves_of found.now) }
    ensures some { IfSome result (IsPlace (waves_of found.now) (wave_vector wave.now)) }
    ensures none { IsNone result → IsOneOf (waves_of found.now) (wave_vector wave.now) }
{
    for i in 0..found.len() {
        let other = &found[i];
        if is_same(other, wave) {
            return None;
        }
        if is_below(wave, other) {
            return Some(i);
        }
    }
    Some(found.len())
}

/// Puts a wave vector in its place in a list in order, where it is not one of them. The error is want of
/// memory.
pub(crate) fn insert(found: &mut Vec<Wave>, wave: Wave) -> Result<(), Memory>
    requires { AreInOrder (waves_of found.old.items) }
    ensures found { OnOk result (IsWith (waves_of found.old.items) (wave_vector wave) (waves_of found.new.items)) }
    ensures limits { All IsWithinLimits found.old.items → IsWithinLimits wave
        → OnOk result (All IsWithinLimits found.new.items) }
{
    match place(found, &wave) {
        Some(at) => {
            found.insert(at, wave)?;
            Ok(())
        }
        None => Ok(()),
    }
}
