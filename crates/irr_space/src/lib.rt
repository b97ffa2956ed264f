//! The definitions of the theory of space group representations: operations and the group that they
//! generate, reciprocal lattice, star and little group, tables of phases, complete lists and their order.
#![tactic(auto)]

ghost use Rattle.std.specs.Prelude.{ℕ, ◌≡◌, List};
ghost use Rattle.irr_space.specs.Operation.{Operation, ◌⊙◌, identity};
ghost use Rattle.irr_space.specs.SpaceGroup.{Generated};
ghost use Rattle.irr_space.specs.Reciprocal.{IsReduced, IsOrder};
ghost use Rattle.irr_space.specs.CanonicalOperation.{IsNumbering};
ghost use Rattle.irr_space.specs.Star.{IsArms, IsInLittleGroup};
ghost use Rattle.irr_space.specs.PhaseTable.{PhaseTable, IsTableOf, phases_at};
ghost use Rattle.irr_space.specs.CompleteList.{IsCompleteList, IsInOrder};
ghost use Rattle.irr_theory.specs.Representations.{Representations, IsFull};

/// A full list, as the algebra of the base crates makes it, is a complete list over every order.
pub fn full_lists_are_complete()
    ensures { (h : ℕ) (T : PhaseTable h) (L : Representations (phases_at T)) → IsFull L → IsCompleteList T L }
{}
