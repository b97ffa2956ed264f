// A law of line groups: their tables can be climbed.
ghost use Rattle.std.specs.Prelude.{ℕ, suc, List};
ghost use Rattle.irr_algebra.specs.Fin.{Fin};
ghost use Rattle.irr_space.specs.Operation.{Operation, WaveVector};
ghost use Rattle.irr_space.specs.SpaceGroup.{Generated};
ghost use Rattle.irr_space.specs.Reciprocal.{Sign};
ghost use Rattle.irr_space.specs.CanonicalOperation.{IsNumbering};
ghost use Rattle.irr_space.specs.PhaseTable.{PhaseTable};
ghost use Rattle.irr_chain.specs.NormalSubgroup.{HasSteps};
ghost use Rattle.irr_line.specs.LineGroup.{IsInLineGroup, IsLineTable};

/// Each subgroup of more than one element of the table of a line group has a normal subgroup of index 2 or 3.
pub fn line_tables_have_steps()
    ensures { (generators : List Operation) (s : Sign) (n : ℕ) (point : Fin (suc n) → WaveVector) (h : ℕ)
        (ops : Fin h → Operation) (T : PhaseTable h)
        → IsNumbering (Generated generators) (IsInLineGroup (Generated generators) point) ops
        → IsLineTable s (Generated generators) point ops T → HasSteps T }
{}
