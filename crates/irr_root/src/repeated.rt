// Lists of equally spaced numbers.
ghost use Rattle.std.specs.Prelude.{◌<◌, ◌+◌, ◌*◌, ◌^◌, length, IfOk};
ghost use Rattle.irr_root.specs.Repeated.{AreRepeated};

use irr_memory::Memory;
use std::alloc::Global;

/// The numbers first, first + step, .. in this order, each as often as `times` says.
pub(crate) fn repeated(
    alloc: Global,
    first: u32,
    step: u32,
    times: &[u32],
) -> Result<Vec<u32>, Memory>
    requires positive { 0 < step }
    requires within { first + length times.now * step < 2 ^ 32 }
    ensures { IfOk result (λ es. AreRepeated first step times.now es.items) }
{
    let mut numbers = Vec::new(alloc);
    for a in 0..times.len() {
        let number = first + a as u32 * step;
        for _ in 0..times[a] {
            numbers.push(number)?;
        }
    }
    Ok(numbers)
}

#[cfg(test)]
mod tests;
