ghost use Rattle.std.specs.Prelude.{ℕ, ◌≡◌, ◌<◌, List, [], ◌∷◌, length};
ghost use Rattle.std.specs.Int.{◌∣◌};
ghost use Rattle.irr_algebra.specs.Fin.{Fin};
ghost use Rattle.irr_algebra.specs.Matrix.{trace};
ghost use Rattle.irr_number.specs.Number.{numbers};
ghost use Rattle.irr_theory.specs.Representations.{IsComplete, IsFull, Representations};
ghost use Rattle.irr_space.specs.PhaseTable.{PhaseTable, phases_at, phases_over};
ghost use Rattle.irr_space.specs.CompleteList.{IsCompleteList};
ghost use Rattle.irr_rep.specs.Subgroup.{IsRestriction, IsSubgroup};
ghost use Rattle.irr_chain.specs.NormalSubgroup.{HasSteps};

/// Each subgroup of a table of phases has a restriction. That to the unit has the list of one family of size 1, with the traces 1. Where
/// each subgroup of more than one element has a normal subgroup of index 2 or 3, the table has a full list over the numbers of each
/// order that its order divides; over the numbers of its own order that is a complete list. So the squared sizes of each list that
/// is complete there add up to the number of places.
pub fn full_lists_exist()
    ensures restriction { (h : ℕ) (T : PhaseTable h) (members : List ℕ) → IsSubgroup T members
        → (S : PhaseTable (length members)) × IsRestriction T members S }
    ensures unit { (h n : ℕ) (T : PhaseTable h) (S : PhaseTable n) → IsRestriction T (0 ∷ []) S → (M : ℕ) (w : S.order ∣ M)
        → (L : Representations (phases_over S M w)) × IsFull L × (L.count ≡ 1) × ((m : Fin L.count) → L.size m ≡ 1)
        × ((m : Fin L.count) (i : Fin n) → trace ((L.member m).at i) ≡ (numbers M).one) }
    ensures over_order { (h : ℕ) (T : PhaseTable h) → HasSteps T → (M : ℕ) (v : T.order ∣ M) → 0 < M
        → (L : Representations (phases_over T M v)) × IsFull L }
    ensures own_order { (h : ℕ) (T : PhaseTable h) → HasSteps T → (L : Representations (phases_at T)) × IsFull L × IsCompleteList T L }
    ensures complete_is_full { (h : ℕ) (T : PhaseTable h) → HasSteps T → (L : Representations (phases_at T)) → IsComplete L → IsFull L }
{}
