// Laws of made inputs.
ghost use Rattle.std.specs.Prelude.{ℕ, List, ◌≡◌};
ghost use Rattle.irr_space.specs.Operation.{WaveVector};
ghost use Rattle.irr_gen.specs.MadeInput.{IsMadeInput};

/// Each number has one made input.
pub fn one_made_input()
    ensures some { (n : ℕ) → (text : List ℕ) × (k : WaveVector) × IsMadeInput n text k }
    ensures one { (n : ℕ) (s t : List ℕ) (k l : WaveVector) → IsMadeInput n s k → IsMadeInput n t l → (s ≡ t) × (k ≡ l) }
{}
