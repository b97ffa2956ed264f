// Laws of the types of full representations of groups in the program.
ghost use Rattle.std.specs.Prelude.{ℕ, ◌≡◌, ◌<◌, ◌≤◌, ◌^◌, List};
ghost use Rattle.std.specs.Int.{◌∣◌};
ghost use Rattle.irr_algebra.specs.Matrix.{Matrix};
ghost use Rattle.irr_algebra.specs.Pair.{times};
ghost use Rattle.irr_number.specs.Number.{numbers};
ghost use Rattle.irr_theory.specs.FactorSystem.{Representation};
ghost use Rattle.irr_space.specs.Operation.{Operation, WaveVector};
ghost use Rattle.irr_space.specs.PhaseTable.{PhaseTable, phases_over};
ghost use Rattle.irr_seitz.specs.PhaseMeaning.{sign_of};
ghost use Rattle.irr_mat.specs.Size.{IsWithin, TraceFits};
ghost use Rattle.irr_rep.specs.Twisted.{operation_places, phase_table, place_count};
ghost use Rattle.irr_rep.specs.declared.table.Twisted.{Twisted};
ghost use Rattle.irr_close.specs.StandsFor.{stands_for};
ghost use Rattle.irr_close.specs.declared.group.Group.{Group};
ghost use Rattle.irr_little.specs.Arms.{AreArms};
ghost use Rattle.irr_little.specs.Table.{IsLittleTable};
ghost use Rattle.irr_little.specs.declared.arms.Arm.{Arm};
ghost use Rattle.irr_full.specs.Star.{Star};
ghost use Rattle.irr_full.specs.Full.{IsFullOf};

/// The arms of a star and the table of the little group, as a program lists them, give a star with this table. (The arm
/// a is any one: it stands past the end of the list.)
pub fn stars_of_tables()
    ensures { (group : Group) (k : WaveVector) (arms : List Arm) (t : Twisted) (a : Arm) → AreArms group k arms
        → IsLittleTable group k (operation_places t) (phase_table t)
        → (U : Star (sign_of group.phase) (stands_for group) k)
        × (◌≡◌ {A = (h : ℕ) × PhaseTable h} (U.places, U.table) (place_count t, phase_table t)) }
{}

/// Each small representation has a full one.
pub fn full_representations()
    ensures { (group : Group) (k : WaveVector) (U : Star (sign_of group.phase) (stands_for group) k)
        (M : ℕ) → 0 < M → (v : U.table.order ∣ M) (d : ℕ) (D : Representation (phases_over U.table M v) d)
        → (A : Operation → Matrix (numbers M) (times U.arms d) (times U.arms d)) × IsFullOf U M v D A }
{}

/// The trace can be worked out where each entry of a matrix of at most 48 rows is a sum of at most 2^30 powers of z over
/// one denominator of at most 4096.
pub fn short_entries_have_traces()
    ensures { (M d s e : ℕ) (a : Matrix (numbers M) d d) → M ≤ 12000 → d ≤ 48 → s ≤ 2 ^ 30 → e ≤ 4096
        → IsWithin M s e a → TraceFits M a }
{}
