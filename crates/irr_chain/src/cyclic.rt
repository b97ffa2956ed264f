ghost use Rattle.std.specs.Prelude.{ℕ, ◌≡◌, ◌<◌, List};
ghost use Rattle.irr_algebra.specs.Fin.{Fin, to_nat};
ghost use Rattle.irr_space.specs.PhaseTable.{PhaseTable};
ghost use Rattle.irr_chain.specs.declared.series.Level.{Level};
ghost use Rattle.irr_chain.specs.NormalSubgroup.{In, IsCoset};
ghost use Rattle.irr_chain.specs.Quotient.{Cover, power};
ghost use Rattle.irr_chain.specs.Series.{IsLevel};

/// The quotient of a level is cyclic: each element of what the level generates is in the coset of exactly
/// one power of g below the p-th, and the p-th power is a member.
pub fn levels_are_cyclic()
    ensures powers { (h : ℕ) (T : PhaseTable h) (level : Level) (outer : List ℕ) → IsLevel T level outer
        → (g : Fin h) → to_nat g ≡ level.g
        → (i : Fin h) → In outer i → Cover T (In level.members.items) level.p g i }
    ensures one_power { (h : ℕ) (T : PhaseTable h) (level : Level) (outer : List ℕ) → IsLevel T level outer
        → (g : Fin h) → to_nat g ≡ level.g
        → (i : Fin h) (a b : ℕ) → a < level.p → b < level.p → IsCoset T (In level.members.items) (power T g a) i
        → IsCoset T (In level.members.items) (power T g b) i → a ≡ b }
    ensures top { (h : ℕ) (T : PhaseTable h) (level : Level) (outer : List ℕ) → IsLevel T level outer
        → (g : Fin h) → to_nat g ≡ level.g
        → In level.members.items (power T g level.p) }
{}
