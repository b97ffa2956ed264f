ghost use Rattle.std.specs.Prelude.{ℕ, ◌≡◌, ◌<◌, List, length, slice_index, Contains};
ghost use Rattle.std.specs.Int.{◌∣◌};
ghost use Rattle.irr_algebra.specs.Fin.{Fin, to_nat};
ghost use Rattle.irr_eigen.specs.Step.{Subtable};
ghost use Rattle.irr_clifford.specs.Cyclic.{CyclicQuotient};
ghost use Rattle.irr_space.specs.PhaseTable.{PhaseTable, phases_over};
ghost use Rattle.irr_rep.specs.Subgroup.{IsRestriction, IsSubgroup};
ghost use Rattle.irr_chain.specs.declared.series.Level.{Level};
ghost use Rattle.irr_chain.specs.NormalSubgroup.{In};
ghost use Rattle.irr_chain.specs.Series.{IsLevel};
ghost use Rattle.irr_level.specs.Part.{ArePositions, as_subgroup};

/// The restriction to what a level generates has a cyclic quotient by the restriction to the level's members. Its index is that of
/// the level. Its generator is the level's, or each other element that is none of the members.
pub fn levels_are_cyclic_quotients()
    ensures position { (h m : ℕ) (T : PhaseTable h) (level : Level) (outer : List ℕ) (U : PhaseTable m) → IsLevel T level outer → IsRestriction T outer U
        → (g : Fin m) × (slice_index outer (to_nat g) ≡ level.g) }
    ensures generator { (h m n : ℕ) (T : PhaseTable h) (level : Level) (outer : List ℕ) (S : PhaseTable n) (U : PhaseTable m) → IsLevel T level outer
        → IsRestriction T level.members.items S → IsRestriction T outer U → (M : ℕ) (v : U.order ∣ M) (w : S.order ∣ M)
        → (part : Subtable (phases_over S M w) (phases_over U M v)) → ArePositions level.members.items outer part.place
        → (g : Fin m) → slice_index outer (to_nat g) ≡ level.g
        → (Q : CyclicQuotient (as_subgroup part)) × (Q.index ≡ level.p) × (Q.generator ≡ g) }
    ensures element { (h m n : ℕ) (T : PhaseTable h) (level : Level) (outer : List ℕ) (S : PhaseTable n) (U : PhaseTable m) → IsLevel T level outer
        → IsRestriction T level.members.items S → IsRestriction T outer U → (M : ℕ) (v : U.order ∣ M) (w : S.order ∣ M)
        → (part : Subtable (phases_over S M w) (phases_over U M v)) → ArePositions level.members.items outer part.place
        → (g : Fin m) → (Contains level.members.items (slice_index outer (to_nat g)) → ⊥)
        → (Q : CyclicQuotient (as_subgroup part)) × (Q.index ≡ level.p) × (Q.generator ≡ g) }
{}

/// What a level generates may be listed in any order: in particular the whole table by the list of all places.
pub fn last_level_is_whole()
    ensures any_order { (h : ℕ) (T : PhaseTable h) (level : Level) (outer other : List ℕ) → IsLevel T level outer → IsSubgroup T other
        → ((i : Fin h) → In outer i → In other i) → ((i : Fin h) → In other i → In outer i) → IsLevel T level other }
    ensures whole { (h : ℕ) (T : PhaseTable h) (level : Level) (outer members : List ℕ) → IsLevel T level outer → ((i : Fin h) → In outer i)
        → length members ≡ h → ((a : ℕ) → a < h → slice_index members a ≡ a) → IsLevel T level members }
{}
