// From the lattice that centrings give to the group whose centrings they are.
ghost use Rattle.irr_text.specs.WaveText.{wave_text, IsWithinLimits};
ghost use Rattle.irr_token.specs.declared.faults.TheConstants.{DENOMINATOR_LIMIT};
ghost use Rattle.irr_kvec.specs.WaveFault.{IsTextOf};
ghost use Rattle.std.specs.Prelude.{ℕ, ◌≡◌, ◌↔◌, ◌≤◌, List, length};
ghost use Rattle.irr_space.specs.Operation.{Operation, WaveVector};
ghost use Rattle.irr_space.specs.SpaceGroup.{Generated};
ghost use Rattle.irr_space.specs.Reciprocal.{AreEquivalent, IsReduced, IsPeriod};
ghost use Rattle.irr_rat.specs.declared.vec3.Vec3.{Vec3};
ghost use Rattle.irr_kvec.specs.Centrings.{LatticeOf, AreCentrings, IsCentringList};

/// The centrings of a group, at most 32, are what the calls on wave vectors ask for.
pub fn centrings_of_group()
    ensures { (gens : List Operation) (cs : List Vec3) → AreCentrings (Generated gens) cs → length cs ≤ 32 → IsCentringList cs }
{}

/// Wave vectors are equivalent in a group as they are in the lattice that its centrings give, and have
/// the same reduced forms and periods.
pub fn wave_vectors_of_group()
    ensures equivalent { (gens : List Operation) (cs : List Vec3) → AreCentrings (Generated gens) cs → (a b : WaveVector)
        → AreEquivalent (Generated gens) a b ↔ AreEquivalent (LatticeOf cs) a b }
    ensures reduced { (gens : List Operation) (cs : List Vec3) → AreCentrings (Generated gens) cs → (k r : WaveVector)
        → IsReduced (LatticeOf cs) k r → IsReduced (Generated gens) k r }
    ensures period { (gens : List Operation) (cs : List Vec3) → AreCentrings (Generated gens) cs → (k : WaveVector) (q : ℕ)
        → IsPeriod (LatticeOf cs) k q → IsPeriod (Generated gens) k q }
{}

/// The printed form of a wave vector whose numbers are within the limits is a text of that wave vector, with
/// no fault: so it is read again as the same wave vector.
pub fn printed_waves_are_read()
    ensures { (k : WaveVector) → IsWithinLimits DENOMINATOR_LIMIT k → IsTextOf (wave_text k) k }
{}

/// A text writes one wave vector at most.
pub fn one_wave_vector_is_written()
    ensures { (text : List ℕ) (k l : WaveVector) → IsTextOf text k → IsTextOf text l → k ≡ l }
{}
