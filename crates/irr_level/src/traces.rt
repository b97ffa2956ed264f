ghost use Rattle.std.specs.Prelude.{ℕ, ◌≡◌};
ghost use Rattle.irr_algebra.specs.Fin.{Fin, to_nat};
ghost use Rattle.irr_algebra.specs.Sum.{sum};
ghost use Rattle.irr_algebra.specs.Pair.{times};
ghost use Rattle.irr_algebra.specs.Matrix.{Matrix, scale, trace};
ghost use Rattle.irr_algebra.specs.Action.{Equivalent};
ghost use Rattle.irr_theory.specs.Extension.{iterate};
ghost use Rattle.irr_theory.specs.FactorSystem.{FactorSystem, Representation};
ghost use Rattle.irr_theory.specs.Representations.{Representations};
ghost use Rattle.irr_clifford.specs.Subgroup.{Subgroup};
ghost use Rattle.irr_clifford.specs.Cyclic.{conjugate, CyclicQuotient, IsExtension, IsInduced, place_power};
ghost use Rattle.irr_clifford.specs.Roots.{number_power};

use irr_algebra::InRing;

/// The traces of the families above a level. From one extension, each root w of one gives another: at g^e n its traces are those of
/// the first times w^e, and each place has one such e. The family that is induced from a member of a list has at a member of the
/// subgroup the sum of the traces of the orbit, and 0 elsewhere.
pub fn traces_above_level<N: InRing>()
    ensures extension { (T : FactorSystem N.ring) (H : Subgroup T) (Q : CyclicQuotient H) (d : ℕ) (D : Representation H.table d) (u : Matrix N.ring d d)
        (E : Representation T d) (w : N.ring.Carrier) → IsExtension Q D u E → number_power N.ring w Q.index ≡ N.ring.one
        → (K : Representation T d) × IsExtension Q D (scale N.ring w u) K
        × ((x : Fin T.places) → trace (K.at x) ≡ N.ring.mul (number_power N.ring w (to_nat (Q.exponent x))) (trace (E.at x))) }
    ensures exponent { (T : FactorSystem N.ring) (H : Subgroup T) (Q : CyclicQuotient H) (x : Fin T.places) (a : Fin Q.index) (n : Fin H.table.places)
        → T.product (place_power T Q.generator (to_nat a)) (H.member n) ≡ x → Q.exponent x ≡ a }
    ensures induced { (T : FactorSystem N.ring) (H : Subgroup T) (Q : CyclicQuotient H) (L : Representations H.table) (turn : Fin L.count → Fin L.count)
        → ((l : Fin L.count) → Equivalent (conjugate Q (L.member l)) (L.member (turn l)).at) → (l : Fin L.count)
        → (E : Representation T (times Q.index (L.size l))) × IsInduced Q (L.member l) E
        × ((n : Fin H.table.places) → trace (E.at (H.member n)) ≡ sum N.ring Q.index (λ a. trace ((L.member (iterate turn (to_nat a) l)).at n)))
        × ((x : Fin T.places) → ((n : Fin H.table.places) → H.member n ≡ x → ⊥) → trace (E.at x) ≡ N.ring.zero) }
{}
