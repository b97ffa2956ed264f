// Laws on lines.
ghost use Rattle.std.specs.Prelude.{ℕ, List, ◌≡◌};
ghost use Rattle.irr_lines.specs.Lines.{AreLines};

/// Each text has its lines, and no others.
pub fn one_list_of_lines()
    ensures some { (text : List ℕ) → (lines : List (List ℕ)) × AreLines text lines }
    ensures one { (text : List ℕ) (lines others : List (List ℕ)) → AreLines text lines → AreLines text others → lines ≡ others }
{}
