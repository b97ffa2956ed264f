ghost use Rattle.std.specs.Prelude.{ℕ, ◌≡◌, ◌<◌, List, length, slice_index};
ghost use Rattle.std.specs.Int.{◌∣◌};
ghost use Rattle.irr_algebra.specs.Fin.{Fin, to_nat};
ghost use Rattle.irr_eigen.specs.Step.{Subtable};
ghost use Rattle.irr_space.specs.PhaseTable.{PhaseTable, phases_over};
ghost use Rattle.irr_rep.specs.Subgroup.{IsRestriction, IsSubgroup};
ghost use Rattle.irr_chain.specs.NormalSubgroup.{In};
ghost use Rattle.irr_level.specs.Part.{ArePositions, as_subgroup};

/// Over each order the factor system of a restriction is the table of a subgroup: of the whole table at the members, and of the
/// restriction to a larger subgroup at the members' positions in that one's list. The whole table is its own restriction to the
/// list of all places.
pub fn restrictions_are_subgroups()
    ensures of_table { (h n : ℕ) (T : PhaseTable h) (members : List ℕ) (S : PhaseTable n)
        → IsSubgroup T members → IsRestriction T members S
        → (M : ℕ) (v : T.order ∣ M) (w : S.order ∣ M)
        → (part : Subtable (phases_over S M w) (phases_over T M v))
        × ((i : Fin n) → to_nat ((as_subgroup part).member i) ≡ slice_index members (to_nat i)) }
    ensures of_restriction { (h m n : ℕ) (T : PhaseTable h) (inner outer : List ℕ) (S : PhaseTable n) (U : PhaseTable m)
        → IsSubgroup T inner → IsSubgroup T outer → ((i : Fin h) → In inner i → In outer i)
        → IsRestriction T inner S → IsRestriction T outer U
        → (M : ℕ) (v : U.order ∣ M) (w : S.order ∣ M)
        → (part : Subtable (phases_over S M w) (phases_over U M v)) × ArePositions inner outer (as_subgroup part).member }
    ensures whole { (h : ℕ) (T : PhaseTable h) (members : List ℕ) → length members ≡ h → ((a : ℕ) → a < h → slice_index members a ≡ a)
        → IsRestriction T members T }
{}
