// The traces of an extension of a simple family: what the traces of the family alone say of them. The
// definitions stand in specs/, the laws in proofs/. The main laws are the contracts of the functions below.
#![tactic(auto)]

ghost use Rattle.std.specs.Prelude.{ℕ, ◌≡◌, ◌⊎◌, ◌<◌, ◌+◌, ◌*◌, ◌/◌, suc, List, All};
ghost use Rattle.irr_algebra.specs.Ring.{whole};
ghost use Rattle.irr_algebra.specs.Sum.{sum};
ghost use Rattle.irr_algebra.specs.Fin.{Fin, to_nat};
ghost use Rattle.irr_algebra.specs.Matrix.{Matrix, trace};
ghost use Rattle.irr_algebra.specs.Action.{IsSimple};
ghost use Rattle.irr_theory.specs.FactorSystem.{FactorSystem, Representation};
ghost use Rattle.irr_theory.specs.Lifted.{Lifted, lifted};
ghost use Rattle.irr_eigen.specs.Power.{power};
ghost use Rattle.irr_eigen.specs.Eigenspace.{Occurs};
ghost use Rattle.irr_eigen.specs.ListSum.{AddsUp, occurrences};
ghost use Rattle.irr_eigen.specs.Step.{Cycle, HasExponents, IsOutside, Subtable, at_place, cycle_numbers, exponent_sum, lifted_power, restricted, top_matrix};
ghost use Rattle.irr_clifford.specs.Subgroup.{Subgroup};
ghost use Rattle.irr_clifford.specs.Cyclic.{CyclicQuotient};
ghost use Rattle.irr_clifford.specs.FromTraces.{AreExtensionTraces};
ghost use Rattle.irr_clifford.specs.Roots.{number_power};
ghost use Rattle.irr_extension.specs.Coset.{subtable_of};
ghost use Rattle.irr_extension.specs.Product.{sandwich, three_sum, two_sum};
ghost use Rattle.irr_extension.specs.Exponents.{AddsUpRoots, times_in};
ghost use Rattle.irr_extension.specs.Occurrence.{occurrence_sum, power_at};

use irr_algebra::InField;

/// The product of two traces of an extension of a simple family is a sum of traces over the members of the
/// subgroup, by Schur's lemma: h tr E(x) tr E(y) = d times the sum of tr E(x n y n^-1), with the phases as numbers
/// beside the places. Here h is the number of members and d the size.
pub fn product_of_traces<N: InField>()
    ensures places { (T : FactorSystem N.field.ring) (H : Subgroup T) (d : ℕ) (D : Representation H.table d) (E : Representation T d)
        → 0 < d → IsSimple D.at → ((n : Fin H.table.places) → E.at (H.member n) ≡ D.at n) → (x y : Fin T.places)
        → N.field.mul (whole N.field.ring H.table.places) (N.field.mul (trace (E.at x)) (trace (E.at y)))
        ≡ N.field.mul (whole N.field.ring d) (sum N.field.ring H.table.places (λ n. N.field.mul
        (sandwich T (at_place T x) (H.member n) (at_place T y)).number (trace (E.at (sandwich T (at_place T x) (H.member n) (at_place T y)).place)))) }
    ensures numbers { (T : FactorSystem N.field.ring) (H : Subgroup T) (d : ℕ) (D : Representation H.table d) (E : Representation T d)
        → 0 < d → IsSimple D.at → ((n : Fin H.table.places) → E.at (H.member n) ≡ D.at n) → (x y : Lifted T)
        → N.field.mul (whole N.field.ring H.table.places) (N.field.mul (trace (lifted E x)) (trace (lifted E y)))
        ≡ N.field.mul (whole N.field.ring d) (sum N.field.ring H.table.places (λ n. trace (lifted E (sandwich T x (H.member n) y)))) }
{}

/// Where the index is 2 or 3, such a product at places of the coset of the generator needs the traces of the
/// simple family alone: t(x) t(y) for the index 2, and t(x) t(y) t(y) for the index 3.
pub fn product_with_powers<N: InField>()
    ensures two { (T : FactorSystem N.field.ring) (H : Subgroup T) (Q : CyclicQuotient H) (d : ℕ) (D : Representation H.table d) (E : Representation T d)
        → 0 < d → IsSimple D.at → ((n : Fin H.table.places) → E.at (H.member n) ≡ D.at n) → Q.index ≡ 2
        → (position : Fin T.places → Fin H.table.places) → ((n : Fin H.table.places) → position (H.member n) ≡ n) → (n m : Fin H.table.places)
        → N.field.mul (whole N.field.ring H.table.places)
        (N.field.mul (trace (E.at (T.product Q.generator (H.member n)))) (trace (E.at (T.product Q.generator (H.member m)))))
        ≡ N.field.mul (whole N.field.ring d)
        (two_sum H (λ k. trace (D.at k)) position (T.product Q.generator (H.member n)) (T.product Q.generator (H.member m))) }
    ensures three { (T : FactorSystem N.field.ring) (H : Subgroup T) (Q : CyclicQuotient H) (d : ℕ) (D : Representation H.table d) (E : Representation T d)
        → 0 < d → IsSimple D.at → ((n : Fin H.table.places) → E.at (H.member n) ≡ D.at n) → Q.index ≡ 3
        → (position : Fin T.places → Fin H.table.places) → ((n : Fin H.table.places) → position (H.member n) ≡ n) → (n m : Fin H.table.places)
        → N.field.mul (N.field.mul (whole N.field.ring H.table.places) (whole N.field.ring H.table.places))
        (N.field.mul (trace (E.at (T.product Q.generator (H.member n))))
        (N.field.mul (trace (E.at (T.product Q.generator (H.member m)))) (trace (E.at (T.product Q.generator (H.member m))))))
        ≡ N.field.mul (N.field.mul (whole N.field.ring d) (whole N.field.ring d))
        (three_sum H (λ k. trace (D.at k)) position (T.product Q.generator (H.member n)) (T.product Q.generator (H.member m))) }
{}

/// The traces of an extension at the coset of the generator are not all 0; nor are the sums of the character of
/// the simple family that are their powers by the index.
pub fn some_trace_is_not_zero<N: InField>()
    ensures trace { (T : FactorSystem N.field.ring) (H : Subgroup T) (Q : CyclicQuotient H) (d : ℕ) (D : Representation H.table d)
        (t : Fin H.table.places → N.field.Carrier)
        → 0 < d → IsSimple D.at → AreExtensionTraces Q D t → (m : Fin H.table.places) × (t m ≡ N.field.zero → ⊥) }
    ensures two { (T : FactorSystem N.field.ring) (H : Subgroup T) (Q : CyclicQuotient H) (d : ℕ) (D : Representation H.table d)
        (t : Fin H.table.places → N.field.Carrier) → 0 < d → IsSimple D.at → AreExtensionTraces Q D t → Q.index ≡ 2
        → (position : Fin T.places → Fin H.table.places) → ((n : Fin H.table.places) → position (H.member n) ≡ n)
        → (m : Fin H.table.places)
        × (two_sum H (λ k. trace (D.at k)) position (T.product Q.generator (H.member m)) (T.product Q.generator (H.member m)) ≡ N.field.zero → ⊥) }
    ensures three { (T : FactorSystem N.field.ring) (H : Subgroup T) (Q : CyclicQuotient H) (d : ℕ) (D : Representation H.table d)
        (t : Fin H.table.places → N.field.Carrier) → 0 < d → IsSimple D.at → AreExtensionTraces Q D t → Q.index ≡ 3
        → (position : Fin T.places → Fin H.table.places) → ((n : Fin H.table.places) → position (H.member n) ≡ n)
        → (m : Fin H.table.places)
        × (three_sum H (λ k. trace (D.at k)) position (T.product Q.generator (H.member m)) (T.product Q.generator (H.member m)) ≡ N.field.zero → ⊥) }
{}

/// Numbers with the products s(n) s(m)^(p - 1) of the traces of an extension, for one m where s is not 0, are
/// the traces of an extension; here p is the index. So are numbers with the sums of the character of the simple
/// family as these products, where it has an extension and p is 2 or 3.
pub fn traces_are_forced<N: InField>()
    ensures powers { (T : FactorSystem N.field.ring) (H : Subgroup T) (Q : CyclicQuotient H) (d : ℕ) (D : Representation H.table d)
        (s t : Fin H.table.places → N.field.Carrier)
        → 0 < d → IsSimple D.at → AreExtensionTraces Q D t → (m : Fin H.table.places) → (s m ≡ N.field.zero → ⊥) → (q : ℕ) → Q.index ≡ suc q
        → ((n : Fin H.table.places) → N.field.mul (s n) (number_power N.field.ring (s m) q) ≡ N.field.mul (t n) (number_power N.field.ring (t m) q))
        → AreExtensionTraces Q D s }
    ensures two { (T : FactorSystem N.field.ring) (H : Subgroup T) (Q : CyclicQuotient H) (d : ℕ) (D : Representation H.table d)
        (s t : Fin H.table.places → N.field.Carrier) → 0 < d → IsSimple D.at → AreExtensionTraces Q D t → Q.index ≡ 2
        → (position : Fin T.places → Fin H.table.places) → ((n : Fin H.table.places) → position (H.member n) ≡ n)
        → (m : Fin H.table.places) → (s m ≡ N.field.zero → ⊥)
        → ((n : Fin H.table.places) → N.field.mul (whole N.field.ring H.table.places) (N.field.mul (s n) (s m))
        ≡ N.field.mul (whole N.field.ring d)
        (two_sum H (λ k. trace (D.at k)) position (T.product Q.generator (H.member n)) (T.product Q.generator (H.member m))))
        → AreExtensionTraces Q D s }
    ensures three { (T : FactorSystem N.field.ring) (H : Subgroup T) (Q : CyclicQuotient H) (d : ℕ) (D : Representation H.table d)
        (s t : Fin H.table.places → N.field.Carrier) → 0 < d → IsSimple D.at → AreExtensionTraces Q D t → Q.index ≡ 3
        → (position : Fin T.places → Fin H.table.places) → ((n : Fin H.table.places) → position (H.member n) ≡ n)
        → (m : Fin H.table.places) → (s m ≡ N.field.zero → ⊥)
        → ((n : Fin H.table.places) → N.field.mul (N.field.mul (whole N.field.ring H.table.places) (whole N.field.ring H.table.places))
        (N.field.mul (s n) (N.field.mul (s m) (s m)))
        ≡ N.field.mul (N.field.mul (whole N.field.ring d) (whole N.field.ring d))
        (three_sum H (λ k. trace (D.at k)) position (T.product Q.generator (H.member n)) (T.product Q.generator (H.member m))))
        → AreExtensionTraces Q D s }
{}

/// The trace at a place x outside a subgroup that holds the power p of x, for p = 2 or 3, is a sum of one p-th
/// root of each eigenvalue of the power p of the matrix at x, as often as it occurs: with the eigenvalues by
/// their indices in a cycle of x, and where the phases are powers of z of an order by their exponents.
pub fn traces_are_sums_of_roots<N: InField>()
    ensures by_index { (S T : FactorSystem N.field.ring) (part : Subtable S T) (d : ℕ) (E : Representation T d) (x : Fin T.places) (p : ℕ) (top : Fin S.places)
        → (p ≡ 2) ⊎ (p ≡ 3) → part.place top ≡ (lifted_power (at_place T x) p).place → IsOutside part x p → (cycle : Cycle T x)
        → (m : ℕ) × (cycle.order ≡ suc m * p) × ((l : List (Fin (suc m)))
        → ((a : Fin (suc m)) → Occurs (top_matrix T (restricted part E) x p top) (power N.field.ring (cycle_numbers cycle (suc m) a) p) (occurrences a l))
        → AddsUp N.field.ring (λ a (j : Fin p). N.field.mul (cycle_numbers cycle (suc m) a)
        (power N.field.ring (power N.field.ring cycle.root (suc m)) (to_nat j))) l (trace (E.at x))) }
    ensures by_exponent { (S T : FactorSystem N.field.ring) (part : Subtable S T) (d : ℕ) (E : Representation T d) (x : Fin T.places) (p : ℕ)
        (top : Fin S.places)
        → (p ≡ 2) ⊎ (p ≡ 3) → part.place top ≡ (lifted_power (at_place T x) p).place → IsOutside part x p
        → (order : ℕ) (z : N.field.Carrier) (exponent : Fin T.places → Fin T.places → ℕ) (n q y : ℕ) → HasExponents T order z exponent → 0 < n → 0 < q
        → order ≡ n * q
        → (lifted_power (at_place T x) n).place ≡ T.start → exponent_sum T exponent x n ≡ n * y
        → (es : List ℕ) → All (λ e. e < order) es
        → ((a : ℕ) → a < order → Occurs (top_matrix T (restricted part E) x p top) (power N.field.ring z a) (times_in a es))
        → (order / p * p ≡ order) × AddsUpRoots N.field.ring z p (order / p) es (trace (E.at x)) }
{}

/// The trace of an extension at a place x of the coset of the generator is a sum of roots of the eigenvalues
/// that the family on the subgroup has at the power p of x, where p is the index: that power is a member, and no
/// lower one is. By the exponents of these eigenvalues; sums of
/// the family's character at powers of that member tell how often each occurs.
pub fn coset_traces_are_sums_of_roots<N: InField>()
    ensures top { (T : FactorSystem N.field.ring) (H : Subgroup T) (Q : CyclicQuotient H) (k : Fin H.table.places)
        → (top : Fin H.table.places) × (H.member top ≡ (lifted_power (at_place T (T.product Q.generator (H.member k))) Q.index).place) }
    ensures outside { (T : FactorSystem N.field.ring) (H : Subgroup T) (Q : CyclicQuotient H) (k : Fin H.table.places)
        → IsOutside (subtable_of H) (T.product Q.generator (H.member k)) Q.index }
    ensures by_exponent { (T : FactorSystem N.field.ring) (H : Subgroup T) (Q : CyclicQuotient H) (d : ℕ) (D : Representation H.table d)
        (t : Fin H.table.places → N.field.Carrier) → AreExtensionTraces Q D t → (k top : Fin H.table.places)
        → H.member top ≡ (lifted_power (at_place T (T.product Q.generator (H.member k))) Q.index).place
        → (order : ℕ) (z : N.field.Carrier) (exponent : Fin T.places → Fin T.places → ℕ) (n q y : ℕ)
        → HasExponents T order z exponent → 0 < n → 0 < q → order ≡ n * q
        → (lifted_power (at_place T (T.product Q.generator (H.member k))) n).place ≡ T.start
        → exponent_sum T exponent (T.product Q.generator (H.member k)) n ≡ n * y
        → (es : List ℕ) → All (λ e. e < order) es
        → ((a : ℕ) → a < order → Occurs (top_matrix T D (T.product Q.generator (H.member k)) Q.index top) (power N.field.ring z a) (times_in a es))
        → (order / Q.index * Q.index ≡ order) × AddsUpRoots N.field.ring z Q.index (order / Q.index) es (t k) }
    ensures multiplicity { (T : FactorSystem N.field.ring) (H : Subgroup T) (Q : CyclicQuotient H) (d : ℕ) (D : Representation H.table d)
        (t : Fin H.table.places → N.field.Carrier) → AreExtensionTraces Q D t → (k top : Fin H.table.places)
        → H.member top ≡ (lifted_power (at_place T (T.product Q.generator (H.member k))) Q.index).place
        → (order : ℕ) (z : N.field.Carrier) (exponent : Fin T.places → Fin T.places → ℕ) (n q y : ℕ)
        → HasExponents T order z exponent → 0 < n → 0 < q → order ≡ n * q
        → (lifted_power (at_place T (T.product Q.generator (H.member k))) n).place ≡ T.start
        → exponent_sum T exponent (T.product Q.generator (H.member k)) n ≡ n * y
        → (i : ℕ) → i < order / Q.index → (times : ℕ) × (N.field.mul (whole N.field.ring (order / Q.index)) (whole N.field.ring times)
        ≡ occurrence_sum H.table (λ l. trace (D.at l)) (power_at T (T.product Q.generator (H.member k)) Q.index top) z Q.index (order / Q.index) i) }
    ensures by_character { (T : FactorSystem N.field.ring) (H : Subgroup T) (Q : CyclicQuotient H) (d : ℕ) (D : Representation H.table d)
        (t : Fin H.table.places → N.field.Carrier) → AreExtensionTraces Q D t → (k top : Fin H.table.places)
        → H.member top ≡ (lifted_power (at_place T (T.product Q.generator (H.member k))) Q.index).place
        → (order : ℕ) (z : N.field.Carrier) (exponent : Fin T.places → Fin T.places → ℕ) (n q y : ℕ)
        → HasExponents T order z exponent → 0 < n → 0 < q → order ≡ n * q
        → (lifted_power (at_place T (T.product Q.generator (H.member k))) n).place ≡ T.start
        → exponent_sum T exponent (T.product Q.generator (H.member k)) n ≡ n * y
        → (es : List ℕ) → All (λ e. (e < order) × (e / Q.index * Q.index ≡ e)) es
        → ((i : ℕ) → i < order / Q.index → N.field.mul (whole N.field.ring (order / Q.index)) (whole N.field.ring (times_in (i * Q.index) es))
        ≡ occurrence_sum H.table (λ l. trace (D.at l)) (power_at T (T.product Q.generator (H.member k)) Q.index top) z Q.index (order / Q.index) i)
        → AddsUpRoots N.field.ring z Q.index (order / Q.index) es (t k) }
{}
