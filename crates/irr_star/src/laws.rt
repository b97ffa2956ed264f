// Laws of stars and full representations of groups in the program.
ghost use Rattle.std.specs.Prelude.{ℕ, ◌≡◌, ◌<◌, ◌↔◌, List};
ghost use Rattle.std.specs.Int.{◌∣◌};
ghost use Rattle.std.specs.List.{All};
ghost use Rattle.irr_algebra.specs.Fin.{Fin};
ghost use Rattle.irr_algebra.specs.Matrix.{Matrix, null, scale};
ghost use Rattle.irr_algebra.specs.Pair.{times};
ghost use Rattle.irr_number.specs.Number.{numbers, root_power};
ghost use Rattle.irr_theory.specs.FactorSystem.{Representation};
ghost use Rattle.irr_space.specs.Operation.{Operation, WaveVector};
ghost use Rattle.irr_space.specs.CanonicalOperation.{IsNumbering};
ghost use Rattle.irr_space.specs.PhaseTable.{phases_over};
ghost use Rattle.irr_seitz.specs.PhaseMeaning.{sign_of};
ghost use Rattle.irr_seitz.specs.declared.op.Op.{Op};
ghost use Rattle.irr_kvec.specs.Centrings.{IsWithinLimits};
ghost use Rattle.irr_kvec.specs.WaveMeaning.{wave_vector};
ghost use Rattle.irr_kvec.specs.declared.wave.Wave.{Wave};
ghost use Rattle.irr_mat.specs.Size.{IsWithin};
ghost use Rattle.irr_rep.specs.Twisted.{operation_places, phase_table};
ghost use Rattle.irr_rep.specs.declared.table.Twisted.{Twisted};
ghost use Rattle.irr_close.specs.Canonical.{numbered};
ghost use Rattle.irr_close.specs.StandsFor.{IsSameGroup, stands_for};
ghost use Rattle.irr_close.specs.declared.group.Group.{Group};
ghost use Rattle.irr_little.specs.Arms.{AreArms};
ghost use Rattle.irr_little.specs.Table.{IsLittleTable};
ghost use Rattle.irr_little.specs.declared.arms.Arm.{Arm};
ghost use Rattle.irr_full.specs.GroupRepresentation.{IsRepresentation};
ghost use Rattle.irr_full.specs.Star.{Star};
ghost use Rattle.irr_full.specs.Full.{IsFullOf, block};
ghost use Rattle.irr_star.specs.declared.lists.Block.{Block};
ghost use Rattle.irr_star.specs.Blocks.{IsBlockAt};
ghost use Rattle.irr_star.specs.Stars.{IsStarOf, star_of};

/// The arms of a star and the table of the little group are those of one star.
pub fn stars_of_lists()
    ensures { (group : Group) (k : WaveVector) (arms : List Arm) (t : Twisted) (d : Op) (a : Arm)
        (canonical : IsNumbering (stands_for group) (λ _. Unit {0}) (numbered group.ops.items d))
        (are_arms : AreArms group k arms) (little : IsLittleTable group k (operation_places t) (phase_table t))
        → IsStarOf group arms t (star_of group k arms t d a canonical are_arms little) }
{}

/// Each small representation has a full one, and it is a representation of the group.
pub fn full_representations_of_groups()
    ensures { (group : Group) (k : WaveVector) (U : Star (sign_of group.phase) (stands_for group) k) (M : ℕ) → 0 < M
        → (v : U.table.order ∣ M)
        (d : ℕ) (D : Representation (phases_over U.table M v) d)
        → (A : Operation → Matrix (numbers M) (times U.arms d) (times U.arms d)) × IsFullOf U M v D A
        × IsRepresentation (stands_for group) A }
{}

/// The wave vectors of the arms of a star are within limits where that of the star is.
pub fn limits_of_arms()
    ensures { (group : Group) (k : Wave) (arms : List Arm) → IsWithinLimits k → AreArms group (wave_vector k) arms
        → All (λ a. IsWithinLimits a.wave) arms }
{}

/// The blocks of a full representation at an operation: in each column of blocks that of `IsBlockAt` is a power of z
/// times a matrix of the small representation, and the others are 0.
pub fn blocks_of_full_representations()
    ensures here { (group : Group) (k : WaveVector) (U : Star (sign_of group.phase) (stands_for group) k)
        (M : ℕ) (v : U.table.order ∣ M)
        (d : ℕ) (D : Representation (phases_over U.table M v) d)
        (A : Operation → Matrix (numbers M) (times U.arms d) (times U.arms d))
        → IsFullOf U M v D A → (g : Operation) → stands_for group g
        → (j : Fin U.arms) (b : Block) (at : IsBlockAt U M g j b)
        → block d (A g) at.to j ≡ scale (numbers M) (root_power M b.exponent) (D.at at.inner) }
    ensures elsewhere { (group : Group) (k : WaveVector) (U : Star (sign_of group.phase) (stands_for group) k)
        (M : ℕ) (v : U.table.order ∣ M)
        (d : ℕ) (D : Representation (phases_over U.table M v) d)
        (A : Operation → Matrix (numbers M) (times U.arms d) (times U.arms d))
        → IsFullOf U M v D A → (g : Operation) → stands_for group g
        → (j : Fin U.arms) (b : Block) (at : IsBlockAt U M g j b)
        → (i : Fin U.arms) → (i ≡ at.to → ⊥) → block d (A g) i j ≡ null }
{}

/// The entries of a full representation are sums of as many powers of z over the same denominator as those of the
/// small one.
pub fn sizes_of_full_representations()
    ensures { (group : Group) (k : WaveVector) (U : Star (sign_of group.phase) (stands_for group) k) (M : ℕ) → 0 < M
        → (v : U.table.order ∣ M)
        (d : ℕ) (D : Representation (phases_over U.table M v) d)
        (A : Operation → Matrix (numbers M) (times U.arms d) (times U.arms d))
        → IsFullOf U M v D A → (s e : ℕ) → ((p : Fin U.places) → IsWithin M s e (D.at p))
        → (g : Operation) → stands_for group g → IsWithin M s e (A g) }
{}

/// Equal groups have the same operations.
pub fn operations_of_equal_groups()
    ensures { (a b : Group) → IsSameGroup a b → (g : Operation) → stands_for a g ↔ stands_for b g }
{}
