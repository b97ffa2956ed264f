//! The group of no generators: the translations by whole vectors. Its reciprocal lattice, its wave vectors,
//! and the one representation at each of them.
#![tactic(auto)]

ghost use Rattle.std.specs.Prelude.{◌≡◌, ◌↔◌, ◌<◌, ◌++◌, ℕ, ℤ, [], codes};
ghost use Rattle.std.specs.Fmt.{decimal};
ghost use Rattle.irr_algebra.specs.Fin.{Fin};
ghost use Rattle.irr_rational.specs.Rational.{IsWhole, ratio};
ghost use Rattle.irr_rational.specs.Ratio.{AreLowest};
ghost use Rattle.irr_space.specs.Operation.{Vector, WaveVector, component, wave_component, identity};
ghost use Rattle.irr_space.specs.SpaceGroup.{Generated, IsTranslation};
ghost use Rattle.irr_space.specs.Reciprocal.{IsReciprocal, IsOrder, IsReduced, Sign};
ghost use Rattle.irr_space.specs.CanonicalOperation.{IsNumbering};
ghost use Rattle.irr_text.specs.WaveText.{wave_text};
ghost use Rattle.irr_text.specs.ReportText.{ReportContent, report_text, IsReportOf};
ghost use Rattle.irr_space.specs.Star.{IsInLittleGroup};
ghost use Rattle.irr_space.specs.PhaseTable.{PhaseTable, IsTableOf, phases_at};
ghost use Rattle.irr_space.specs.CompleteList.{IsCompleteList, IsInOrder};
ghost use Rattle.irr_theory.specs.Representations.{Representations};

/// The translations of the group of no generators are those by whole vectors.
pub fn translations_of_no_generators()
    ensures { (t : Vector) → IsTranslation (Generated []) t ↔ ((i : Fin 3) → IsWhole (component t i)) }
{}

/// Its reciprocal lattice has the whole wave vectors, and the period of a wave vector is the common
/// denominator of its components in lowest terms.
pub fn orders_of_no_generators()
    ensures reciprocal { (k : WaveVector) → IsReciprocal (Generated []) k ↔ ((i : Fin 3) → IsWhole (wave_component k i)) }
    ensures order { (k : WaveVector) (a : Fin 3 → ℤ) (b : ℕ) → AreLowest a b → ((i : Fin 3) → wave_component k i ≡ ratio (a i) b) → IsOrder (Generated []) k b }
{}

/// The little group of each wave vector has one operation modulo translations, and the list of one
/// representation of dimension 1 is a complete list on its table.
pub fn representations_of_no_generators()
    ensures numbering { (k : WaveVector) → IsNumbering (Generated []) (IsInLittleGroup (Generated []) k) {h = 1} (λ i. identity) }
    ensures complete { (s : Sign) (k : WaveVector) (n : ℕ) → 0 < n → IsOrder (Generated []) k n → (T : PhaseTable 1) × (L : Representations (phases_at T)) ×
        IsTableOf s (Generated []) k (λ i. identity) T × IsCompleteList T L × IsInOrder T L × (L.count ≡ 1) }
{}

/// So each wave vector has a report, of one operation and one representation.
pub fn reports_of_no_generators()
    ensures { (s : Sign) (k w : WaveVector) (n : ℕ) → 0 < n → IsReduced (Generated []) k w → IsOrder (Generated []) w n → (r : ReportContent) × IsReportOf s (Generated []) k r
        × (report_text r ≡ codes "report 1\nwave " ++ (wave_text w ++ (codes "\norder " ++ (decimal n ++ codes "\nops 1\nop 1 x,y,z\nreps 1\nrep S1 dim 1\nchar 1\nmat 1 1\nend\n")))) }
{}
