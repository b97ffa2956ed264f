ghost use Rattle.std.specs.Prelude.{ℕ, ◌≡◌, ◌<◌, ◌⊎◌};
ghost use Rattle.std.specs.Int.{◌∣◌};
ghost use Rattle.irr_algebra.specs.Matrix.{Matrix};
ghost use Rattle.irr_algebra.specs.Action.{Equivalent, IsSimple};
ghost use Rattle.irr_number.specs.Number.{numbers};
ghost use Rattle.irr_theory.specs.FactorSystem.{Representation};
ghost use Rattle.irr_theory.specs.Representations.{IsFull, Representations};
ghost use Rattle.irr_clifford.specs.Subgroup.{Subgroup};
ghost use Rattle.irr_clifford.specs.Cyclic.{conjugate, CyclicQuotient, HasScalar, IsExtension, StandsForGenerator};
ghost use Rattle.irr_clifford.specs.Climb.{ClimbChoice, IsClimb};
ghost use Rattle.irr_clifford.specs.Roots.{number_power, RootsOfOne};
ghost use Rattle.irr_space.specs.PhaseTable.{PhaseTable, phases_over};

/// In a table of phases of the order N, over the numbers of each order M that N divides, and for a subgroup with a cyclic quotient
/// of index p, 2 or 3: the scalar of each matrix that takes the conjugate of a simple family to the family has its p-th root. So each
/// simple family that is equivalent to its conjugate extends. There are p roots of one. A full list on the subgroup has a choice
/// for the step up, and with it a full list on the table.
pub fn extensions_exist()
    ensures root { (h : ℕ) (T : PhaseTable h) (M : ℕ) (v : T.order ∣ M) → 0 < M → (H : Subgroup (phases_over T M v)) (Q : CyclicQuotient H)
        → (Q.index ≡ 2) ⊎ (Q.index ≡ 3) → (d : ℕ) (D : Representation H.table d) → 0 < d → IsSimple D.at
        → (u : Matrix (numbers M) d d) (c : (numbers M).Carrier) → HasScalar Q D u c → (c ≡ (numbers M).zero → ⊥)
        → (r : (numbers M).Carrier) × (number_power (numbers M) r Q.index ≡ c) }
    ensures extension { (h : ℕ) (T : PhaseTable h) (M : ℕ) (v : T.order ∣ M) → 0 < M → (H : Subgroup (phases_over T M v)) (Q : CyclicQuotient H)
        → (Q.index ≡ 2) ⊎ (Q.index ≡ 3) → (d : ℕ) (D : Representation H.table d) → 0 < d → IsSimple D.at → Equivalent (conjugate Q D) D.at
        → (u : Matrix (numbers M) d d) × StandsForGenerator Q D u × ((E : Representation (phases_over T M v) d) × IsExtension Q D u E) }
    ensures roots_of_one { (h : ℕ) (T : PhaseTable h) (M : ℕ) (v : T.order ∣ M) → 0 < M → (H : Subgroup (phases_over T M v)) (Q : CyclicQuotient H)
        → RootsOfOne (numbers M) Q.index }
    ensures choice { (h : ℕ) (T : PhaseTable h) (M : ℕ) (v : T.order ∣ M) → 0 < M → (H : Subgroup (phases_over T M v)) (Q : CyclicQuotient H)
        → (Q.index ≡ 2) ⊎ (Q.index ≡ 3) → (L : Representations H.table) → IsFull L → ClimbChoice Q L }
    ensures climb { (h : ℕ) (T : PhaseTable h) (M : ℕ) (v : T.order ∣ M) → 0 < M → (H : Subgroup (phases_over T M v)) (Q : CyclicQuotient H)
        → (Q.index ≡ 2) ⊎ (Q.index ≡ 3) → (L : Representations H.table) → IsFull L
        → (K : Representations (phases_over T M v)) × IsClimb Q L K × IsFull K }
{}
