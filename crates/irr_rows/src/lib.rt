//! The canonical order of character rows: it is a strict total order, and so two complete lists of one
//! table of phases that stand in it have the same rows.
#![tactic(auto)]

ghost use Rattle.std.specs.Prelude.{ℕ, ◌≡◌, ◌<◌, ◌⊎◌};
ghost use Rattle.irr_algebra.specs.Fin.{Fin, to_nat};
ghost use Rattle.irr_algebra.specs.Action.{Equivalent};
ghost use Rattle.irr_number.specs.Number.{Number};
ghost use Rattle.irr_theory.specs.Representations.{Representations};
ghost use Rattle.irr_space.specs.PhaseTable.{PhaseTable, phases_at};
ghost use Rattle.irr_space.specs.CompleteList.{IsCompleteList, IsInOrder, IsRowBefore, row};

/// Of two rows one stands first, or they are one; and not both stand first.
pub fn order_of_rows()
    ensures total { (n h : ℕ) → 0 < n → (start : Fin h) (f g : Fin h → Number n) →
        ((i : Fin h) → f i ≡ g i) ⊎ (IsRowBefore n start f g ⊎ IsRowBefore n start g f) }
    ensures strict { (n h : ℕ) → 0 < n → (start : Fin h) (f g : Fin h → Number n) →
        IsRowBefore n start f g → IsRowBefore n start g f → ⊥ }
{}

/// Two complete lists of one table, both in canonical order, are equally long, have the same rows, and
/// their members at the same place are equivalent.
pub fn complete_lists_in_order_agree()
    ensures { (h : ℕ) (T : PhaseTable h) (L M : Representations (phases_at T)) →
        IsCompleteList T L → IsInOrder T L → IsCompleteList T M → IsInOrder T M →
        (L.count ≡ M.count) × ((i : Fin L.count) (k : Fin M.count) → to_nat i ≡ to_nat k →
        Equivalent (L.member i).at (M.member k).at × (row T (L.member i) ≡ row T (M.member k))) }
{}
