//! The factor system of a little group: the products of its canonical operations, with the phases of the
//! translations by which they differ from canonical operations, are a table of phases.
#![tactic(auto)]

ghost use Rattle.std.specs.Prelude.{ℕ, ◌≡◌, ◌++◌, List, codes};
ghost use Rattle.std.specs.Fmt.{decimal};
ghost use Rattle.irr_algebra.specs.Fin.{Fin};
ghost use Rattle.irr_space.specs.Operation.{Operation, WaveVector, ◌⊙◌};
ghost use Rattle.irr_space.specs.SpaceGroup.{Generated};
ghost use Rattle.irr_space.specs.Reciprocal.{IsOrder, IsReduced, Sign};
ghost use Rattle.irr_space.specs.CanonicalOperation.{IsNumbering};
ghost use Rattle.irr_space.specs.Star.{IsInLittleGroup};
ghost use Rattle.irr_space.specs.PhaseTable.{PhaseTable, IsTableOf};
ghost use Rattle.irr_text.specs.WaveText.{wave_text};
ghost use Rattle.irr_text.specs.ReportText.{ReportContent, report_text, IsReportOf};
ghost use Rattle.irr_cocycle.specs.SpaceGroupLaws.{IsGroup, HasCanonical};

/// Products of operations are associative.
pub fn products_of_operations()
    ensures { (f g h : Operation) → (f ⊙ g) ⊙ h ≡ f ⊙ (g ⊙ h) }
{}

/// The canonical operations of a little group have a table of phases, for either sign of the phase
/// (Bradley and Cracknell, section 3.7).
pub fn little_groups_have_tables()
    ensures { (generators : List Operation) → IsGroup (Generated generators) → HasCanonical (Generated generators) →
        (s : Sign) (k : WaveVector) (n h : ℕ) (ops : Fin h → Operation) →
        IsNumbering (Generated generators) (IsInLittleGroup (Generated generators) k) ops →
        IsOrder (Generated generators) k n → (T : PhaseTable h) × IsTableOf s (Generated generators) k ops T }
{}

/// A little group of one operation modulo translations has one small representation: its report at each
/// wave vector, and the report's text.
pub fn reports_of_one_operation()
    ensures { (generators : List Operation) → IsGroup (Generated generators) → HasCanonical (Generated generators) →
        (s : Sign) (k w : WaveVector) (n : ℕ) (ops : Fin 1 → Operation) → IsReduced (Generated generators) k w →
        IsNumbering (Generated generators) (IsInLittleGroup (Generated generators) w) ops →
        IsOrder (Generated generators) w n → (r : ReportContent) × IsReportOf s (Generated generators) k r
        × (report_text r ≡ codes "report 1\nwave " ++ (wave_text w ++ (codes "\norder " ++ (decimal n
        ++ codes "\nops 1\nop 1 x,y,z\nreps 1\nrep S1 dim 1\nchar 1\nmat 1 1\nend\n")))) }
{}
