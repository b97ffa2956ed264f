// One level of a chain of subgroups, with what the step up needs.
ghost use Rattle.std.specs.Prelude.{ℕ, ◌≡◌, ◌<◌, List, map, length, IfOk};
ghost use Rattle.std.specs.Int.{◌∣◌};
ghost use Rattle.irr_algebra.specs.Fin.{Fin, to_nat};
ghost use Rattle.irr_rep.specs.Twisted.{phase_table, place_count};
ghost use Rattle.irr_chain.specs.Series.{IsLevel};
ghost use Rattle.irr_climb.specs.Steps.{IsStep, IsStepOf};

use crate::splits::{position, positions, split_all};
use irr_chain::Level;
use irr_memory::Memory;
use irr_rep::Twisted;
use std::alloc::Global;

/// A table of phases and a normal subgroup of index 2 or 3 in it, with an element g outside: each place x of the
/// table is g^e n for one exponent e below the index and one member n.
#[derive(Debug, Drop)]
pub(crate) struct Step {
    /// The table on the members of the subgroup.
    pub(crate) inner: Twisted,
    /// The table on what the members and g generate.
    pub(crate) outer: Twisted,
    /// The places in the larger table of the members.
    pub(crate) members: Vec<u32>,
    /// The place of g.
    pub(crate) generator: u32,
    pub(crate) index: u32,
    /// The exponent e of each place x.
    pub(crate) exponents: Vec<u32>,
    /// The number of the member n of each place x.
    pub(crate) parts: Vec<u32>,
}

impl Step {
    /// The step of a level, where the members and the generator generate `outer`. The error is want of memory.
    pub(crate) fn new(
        alloc: Global,
        t: &Twisted,
        level: &Level,
        outer: &[u32],
    ) -> Result<Step, Memory>
        requires { IsLevel (phase_table t.now) level.now outer.now }
        ensures { IfOk result (λ step. (M : ℕ) → (phase_table t.now).order ∣ M → 0 < M
            → IsStepOf (phase_table t.now) level.now outer.now M step) }
    {
        let inner = t.restrict(alloc, level.members.as_slice())?;
        let large = t.restrict(alloc, outer)?;
        let members = positions(alloc, outer, level.members.as_slice())?;
        let generator = position(outer, level.g);
        let splits = split_all(alloc, &large, members.as_slice(), generator, level.p)?;
        let exponents = splits.exponents;
        let parts = splits.parts;
        Ok(Step {
            inner,
            outer: large,
            members,
            generator,
            index: level.p,
            exponents,
            parts,
        })
    }
}
