ghost use Rattle.std.specs.Prelude.{ℕ, ◌≡◌, List, slice_index};
ghost use Rattle.std.specs.Int.{◌∣◌};
ghost use Rattle.irr_algebra.specs.Fin.{Fin, to_nat};
ghost use Rattle.irr_eigen.specs.Step.{Subtable};
ghost use Rattle.irr_space.specs.PhaseTable.{PhaseTable, phases_over};
ghost use Rattle.irr_rep.specs.Subgroup.{IsSubgroup, IsRestriction};

/// Over each order the factor system of a restriction is a part of that of the table, at the members.
pub fn restrictions_are_subtables()
    ensures { (h n : ℕ) (T : PhaseTable h) (members : List ℕ) (S : PhaseTable n)
        → IsSubgroup T members → IsRestriction T members S
        → (M : ℕ) (v : T.order ∣ M) (w : S.order ∣ M)
        → (part : Subtable (phases_over S M w) (phases_over T M v))
        × ((i : Fin n) → to_nat (part.place i) ≡ slice_index members (to_nat i)) }
{}
