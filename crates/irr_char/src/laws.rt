// Laws of representations on a table of phases, over every order that its order divides.
ghost use Rattle.std.specs.Prelude.{ℕ, ◌≡◌, ◌<◌};
ghost use Rattle.std.specs.Int.{◌∣◌};
ghost use Rattle.irr_algebra.specs.Fin.{Fin};
ghost use Rattle.irr_algebra.specs.Ring.{whole};
ghost use Rattle.irr_algebra.specs.Matrix.{Matrix};
ghost use Rattle.irr_algebra.specs.Action.{Equivalent, HasDimension, IsIntertwiner, IsIrreducible, IsSimple};
ghost use Rattle.irr_number.specs.Number.{numbers};
ghost use Rattle.irr_theory.specs.FactorSystem.{Representation};
ghost use Rattle.irr_theory.specs.Traces.{trace_sum};
ghost use Rattle.irr_space.specs.PhaseTable.{PhaseTable, phases_at, phases_over};
ghost use Rattle.irr_space.specs.CompleteList.{over};

/// Schur's lemma: a representation that only the multiples of one matrix intertwine with itself is
/// irreducible, and two such ones with an intertwiner that is not 0 are equivalent.
pub fn simple_representations()
    ensures irreducible { (h : ℕ) (T : PhaseTable h) (M : ℕ) (v : T.order ∣ M) → 0 < M → (d : ℕ) (A : Representation (phases_over T M v) d)
        → IsSimple A.at → IsIrreducible A.at }
    ensures equivalent { (h : ℕ) (T : PhaseTable h) (M : ℕ) (v : T.order ∣ M) → 0 < M → (a b : ℕ) (A : Representation (phases_over T M v) a)
        (B : Representation (phases_over T M v) b) → IsSimple A.at → IsSimple B.at → 0 < b → (x : Matrix (numbers M) b a) → IsIntertwiner A.at B.at x
        → (i : Fin b) (j : Fin a) → (x.at i j ≡ (numbers M).zero → ⊥) → Equivalent A.at B.at }
{}

/// The dimension of the space of intertwiners of two representations, times the number of places, is the sum
/// over the places of the trace of the one's matrix times the trace of the other's inverse; and it is the
/// same over every multiple of the order.
pub fn dimensions_of_intertwiners()
    ensures by_traces { (h : ℕ) (T : PhaseTable h) (M : ℕ) (v : T.order ∣ M) → 0 < M → (a b n : ℕ) (A : Representation (phases_over T M v) a)
        (B : Representation (phases_over T M v) b) → HasDimension A.at B.at n
        → (numbers M).mul (whole (numbers M) h) (whole (numbers M) n) ≡ trace_sum A B }
    ensures over_multiples { (h : ℕ) (T : PhaseTable h) (M : ℕ) (v : T.order ∣ M) → 0 < M → (a b n : ℕ) (A : Representation (phases_at T) a)
        (B : Representation (phases_at T) b) → HasDimension A.at B.at n → HasDimension (over T M v A).at (over T M v B).at n }
{}
