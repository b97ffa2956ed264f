// Laws on the lines of settings.
ghost use Rattle.std.specs.Prelude.{ℕ, ℤ, List, ◌≡◌};
ghost use Rattle.irr_seitz.specs.Rotation.{rotation_of};
ghost use Rattle.irr_rat.specs.VectorMeaning.{vector};
ghost use Rattle.irr_rat.specs.declared.vec3.Vec3.{Vec3};
ghost use Rattle.irr_setting_text.specs.declared.read.SettingError.{SettingError};
ghost use Rattle.irr_setting_text.specs.SettingFault.{IsBasisText, IsBasisFault, IsOriginText, IsOriginFault};

/// A line writes one basis or one origin at most, or has one fault at most, and never both.
pub fn setting_lines_mean_one()
    ensures basis { (line : List ℕ) (num low : List (List ℤ)) (den least : ℕ) → IsBasisText line num den → IsBasisText line low least
        → (rotation_of num ≡ rotation_of low) × (den ≡ least) }
    ensures origin { (line : List ℕ) (p q : Vec3) → IsOriginText line p → IsOriginText line q → vector p ≡ vector q }
    ensures basis_fault { (line : List ℕ) (e f : SettingError) → IsBasisFault line e → IsBasisFault line f → e ≡ f }
    ensures origin_fault { (line : List ℕ) (e f : SettingError) → IsOriginFault line e → IsOriginFault line f → e ≡ f }
    ensures basis_either { (line : List ℕ) (num : List (List ℤ)) (den : ℕ) (e : SettingError) → IsBasisText line num den → ¬ (IsBasisFault line e) }
    ensures origin_either { (line : List ℕ) (p : Vec3) (e : SettingError) → IsOriginText line p → ¬ (IsOriginFault line e) }
{}
