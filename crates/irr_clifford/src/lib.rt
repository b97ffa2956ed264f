// The climbing step: full lists on a twisted table from full lists on a normal subgroup of index 2 or 3.
// The definitions stand in specs/, the laws in proofs/. The main laws are the contracts of the functions
// below.
#![tactic(auto)]

ghost use Rattle.std.specs.Prelude.{ℕ, ◌≡◌, ◌<◌, ◌⊎◌};
ghost use Rattle.irr_algebra.specs.Fin.{Fin, to_nat};
ghost use Rattle.irr_algebra.specs.Matrix.{Matrix, ◌·◌, scale, trace, unit};
ghost use Rattle.irr_algebra.specs.Pair.{times};
ghost use Rattle.irr_algebra.specs.Action.{Equivalent, IsIntertwiner, IsSimple};
ghost use Rattle.irr_theory.specs.Extension.{iterate};
ghost use Rattle.irr_theory.specs.Representations.{Representations, IsFull};
ghost use Rattle.irr_theory.specs.FactorSystem.{FactorSystem, Representation};
ghost use Rattle.irr_clifford.specs.Subgroup.{restrict, Subgroup};
ghost use Rattle.irr_clifford.specs.Formulas.{extension_matrix, induced_matrix, induced_trace};
ghost use Rattle.irr_clifford.specs.Cyclic.{conjugate, CyclicQuotient, HasScalar, IsExtension, IsInduced, StandsForGenerator};
ghost use Rattle.irr_clifford.specs.Roots.{number_power, RootsOfOne};
ghost use Rattle.irr_clifford.specs.Climb.{ClimbChoice, IsClimb, occurrences};
ghost use Rattle.irr_clifford.specs.FromTraces.{AreExtensionTraces, generator_from_traces, matrix_from_traces};

use irr_algebra::{InField, InRing};

/// A family extends to the whole table by each matrix that stands for the generator, in one way, and by
/// no other.
pub fn extension_of_family<N: InRing>()
    ensures exists { (T : FactorSystem N.ring) (H : Subgroup T) (Q : CyclicQuotient H) (d : ℕ) (D : Representation H.table d) (u : Matrix N.ring d d)
        → StandsForGenerator Q D u → (E : Representation T d) × IsExtension Q D u E }
    ensures stands { (T : FactorSystem N.ring) (H : Subgroup T) (Q : CyclicQuotient H) (d : ℕ) (D : Representation H.table d) (u : Matrix N.ring d d)
        (E : Representation T d) → IsExtension Q D u E → StandsForGenerator Q D u }
    ensures unique { (T : FactorSystem N.ring) (H : Subgroup T) (Q : CyclicQuotient H) (d : ℕ) (D : Representation H.table d) (u : Matrix N.ring d d)
        (A B : Representation T d) → IsExtension Q D u A → IsExtension Q D u B → (x : Fin T.places) → A.at x ≡ B.at x }
    ensures matrix { (T : FactorSystem N.ring) (H : Subgroup T) (Q : CyclicQuotient H) (d : ℕ) (D : Representation H.table d) (u : Matrix N.ring d d)
        (E : Representation T d) → IsExtension Q D u E → (x : Fin T.places) → E.at x ≡ extension_matrix Q D u x }
    ensures traces { (T : FactorSystem N.ring) (H : Subgroup T) (Q : CyclicQuotient H) (d : ℕ) (D : Representation H.table d) (u : Matrix N.ring d d)
        (E : Representation T d) → IsExtension Q D u E → (n : Fin H.table.places)
        → N.ring.mul (T.phase Q.generator (H.member n)) (trace (E.at (T.product Q.generator (H.member n)))) ≡ trace (u · D.at n) }
{}

/// The condition on an intertwiner with the phases of g n and n' g written out.
pub fn intertwiner_by_phases<N: InRing>()
    ensures { (T : FactorSystem N.ring) (H : Subgroup T) (Q : CyclicQuotient H) (d : ℕ) (D : Representation H.table d) (u : Matrix N.ring d d)
        → ((n : Fin H.table.places) → scale N.ring (T.phase (H.member (Q.conj_back n)) Q.generator) (u · D.at n)
        ≡ scale N.ring (T.phase Q.generator (H.member n)) (D.at (Q.conj_back n) · u))
        → IsIntertwiner (conjugate Q D) D.at u }
{}

/// A matrix that takes the conjugate of a simple family to the family stands for the generator up to a
/// number, and exactly with a root of this number; two that stand for it are multiples by a root of 1,
/// and such multiples give extensions with different traces.
pub fn matrix_for_generator<N: InField>()
    ensures scalar { (T : FactorSystem N.field.ring) (H : Subgroup T) (Q : CyclicQuotient H) (d : ℕ) (D : Representation H.table d) (u : Matrix N.field.ring d d)
        → IsSimple D.at → IsIntertwiner (conjugate Q D) D.at u → (c : N.field.Carrier) × HasScalar Q D u c }
    ensures not_zero { (T : FactorSystem N.field.ring) (H : Subgroup T) (Q : CyclicQuotient H) (d : ℕ) (D : Representation H.table d) (u w : Matrix N.field.ring d d) (c : N.field.Carrier)
        → 0 < d → HasScalar Q D u c → u · w ≡ unit N.field.ring d → c ≡ N.field.zero → ⊥ }
    ensures by_root { (T : FactorSystem N.field.ring) (H : Subgroup T) (Q : CyclicQuotient H) (d : ℕ) (D : Representation H.table d) (u : Matrix N.field.ring d d) (c r : N.field.Carrier)
        → HasScalar Q D u c → N.field.mul (number_power N.field.ring r Q.index) c ≡ N.field.one → StandsForGenerator Q D (scale N.field.ring r u) }
    ensures by_trace { (T : FactorSystem N.field.ring) (H : Subgroup T) (Q : CyclicQuotient H) (d : ℕ) (D : Representation H.table d) (u : Matrix N.field.ring d d) (c s : N.field.Carrier)
        → 0 < d → HasScalar Q D u c → (trace u ≡ N.field.zero → ⊥) → N.field.mul (number_power N.field.ring s Q.index) c ≡ number_power N.field.ring (trace u) Q.index
        → StandsForGenerator Q D (scale N.field.ring (N.field.mul s (N.field.inverse (trace u))) u) }
    ensures only_by_root { (T : FactorSystem N.field.ring) (H : Subgroup T) (Q : CyclicQuotient H) (d : ℕ) (D : Representation H.table d) (u v w : Matrix N.field.ring d d) (c : N.field.Carrier)
        → 0 < d → IsSimple D.at → HasScalar Q D u c → u · v ≡ unit N.field.ring d → v · u ≡ unit N.field.ring d → StandsForGenerator Q D w
        → (r : N.field.Carrier) × (w ≡ scale N.field.ring r u) × (N.field.mul (number_power N.field.ring r Q.index) c ≡ N.field.one) }
    ensures multiples { (T : FactorSystem N.field.ring) (H : Subgroup T) (Q : CyclicQuotient H) (d : ℕ) (D : Representation H.table d) (u w : Matrix N.field.ring d d)
        → 0 < d → IsSimple D.at → StandsForGenerator Q D u → StandsForGenerator Q D w
        → (z : N.field.Carrier) × (w ≡ scale N.field.ring z u) × (number_power N.field.ring z Q.index ≡ N.field.one) }
    ensures differ { (T : FactorSystem N.field.ring) (H : Subgroup T) (Q : CyclicQuotient H) (d : ℕ) (D : Representation H.table d) (u : Matrix N.field.ring d d) (x y : N.field.Carrier)
        (A B : Representation T d) → 0 < d → IsSimple D.at → StandsForGenerator Q D u → (x ≡ y → ⊥) → IsExtension Q D (scale N.field.ring x u) A → IsExtension Q D (scale N.field.ring y u) B
        → (i : Fin T.places) × (trace (A.at i) ≡ trace (B.at i) → ⊥) }
{}

/// An extension of a simple family is simple, and its matrices are given by its traces: that at x by the
/// traces at x n for the members n.
pub fn extension_of_simple<N: InField>()
    ensures simple { (T : FactorSystem N.field.ring) (H : Subgroup T) (d : ℕ) (D : Representation H.table d) (E : Representation T d)
        → 0 < d → IsSimple D.at → ((n : Fin H.table.places) → E.at (H.member n) ≡ D.at n) → IsSimple E.at }
    ensures from_traces { (T : FactorSystem N.field.ring) (H : Subgroup T) (d : ℕ) (D : Representation H.table d) (E : Representation T d)
        → 0 < d → IsSimple D.at → ((n : Fin H.table.places) → E.at (H.member n) ≡ D.at n)
        → (x : Fin T.places) → E.at x ≡ matrix_from_traces N.field H D (λ i. trace (E.at i)) x }
{}

/// The traces of an extension at g n for the members n: they come from each matrix that stands for the
/// generator, and give back the one matrix that does with these traces.
pub fn extension_traces<N: InField>()
    ensures from_matrix { (T : FactorSystem N.field.ring) (H : Subgroup T) (Q : CyclicQuotient H) (d : ℕ) (D : Representation H.table d) (u : Matrix N.field.ring d d)
        (t : Fin H.table.places → N.field.Carrier) → StandsForGenerator Q D u
        → ((n : Fin H.table.places) → N.field.mul (T.phase Q.generator (H.member n)) (t n) ≡ trace (u · D.at n)) → AreExtensionTraces Q D t }
    ensures to_matrix { (T : FactorSystem N.field.ring) (H : Subgroup T) (Q : CyclicQuotient H) (d : ℕ) (D : Representation H.table d)
        (t : Fin H.table.places → N.field.Carrier) → 0 < d → IsSimple D.at → AreExtensionTraces Q D t
        → StandsForGenerator Q D (generator_from_traces N.field Q D t) }
    ensures family { (T : FactorSystem N.field.ring) (H : Subgroup T) (Q : CyclicQuotient H) (d : ℕ) (D : Representation H.table d)
        (t : Fin H.table.places → N.field.Carrier) → 0 < d → IsSimple D.at → (h : AreExtensionTraces Q D t)
        → IsExtension Q D (generator_from_traces N.field Q D t) h.family }
{}

/// Each family on the subgroup has an induced one, with the matrices and traces that are written out.
pub fn induced_family_of<N: InRing>()
    ensures { (T : FactorSystem N.ring) (H : Subgroup T) (Q : CyclicQuotient H) (d : ℕ) (D : Representation H.table d)
        → (E : Representation T (times Q.index d)) × IsInduced Q D E × ((x : Fin T.places) → E.at x ≡ induced_matrix Q D x)
        × ((x : Fin T.places) → trace (E.at x) ≡ induced_trace Q D x) }
{}

/// The conjugate of a simple family is equivalent to a member of each full list, and simple families with
/// the same traces are equivalent.
pub fn conjugate_among_members<N: InField>()
    ensures exists { (T : FactorSystem N.field.ring) (H : Subgroup T) (Q : CyclicQuotient H) (L : Representations H.table) (d : ℕ) (D : Representation H.table d)
        → IsFull L → 0 < d → IsSimple D.at → (m : Fin L.count) × Equivalent (conjugate Q D) (L.member m).at }
    ensures same_traces { (T : FactorSystem N.field.ring) (a b : ℕ) (A : Representation T a) (B : Representation T b)
        → IsSimple A.at → 0 < b → IsSimple B.at → ((i : Fin T.places) → trace (A.at i) ≡ trace (B.at i)) → Equivalent A.at B.at }
{}

/// The step: a list that holds all extensions, and one induced family for each orbit, is full; and there
/// is one where the field has the roots.
pub fn climbed_list<N: InField>()
    ensures full { (T : FactorSystem N.field.ring) (H : Subgroup T) (Q : CyclicQuotient H) (L : Representations H.table) (M : Representations T)
        → (Q.index ≡ 2) ⊎ (Q.index ≡ 3) → IsFull L → IsClimb Q L M → IsFull M }
    ensures exists { (T : FactorSystem N.field.ring) (H : Subgroup T) (Q : CyclicQuotient H) (L : Representations H.table)
        → (Q.index ≡ 2) ⊎ (Q.index ≡ 3) → IsFull L → ClimbChoice Q L → (M : Representations T) × IsClimb Q L M }
    ensures choice { (T : FactorSystem N.field.ring) (H : Subgroup T) (Q : CyclicQuotient H) (L : Representations H.table)
        → IsFull L → RootsOfOne N.field.ring Q.index
        → ((l : Fin L.count) (u : Matrix N.field.ring (L.size l) (L.size l)) (c : N.field.Carrier) → HasScalar Q (L.member l) u c → (c ≡ N.field.zero → ⊥)
        → (r : N.field.Carrier) × (number_power N.field.ring r Q.index ≡ c))
        → ClimbChoice Q L }
{}

/// The extensions of a member that is equivalent to its conjugate are those of the list, of which there
/// are as many as the index says.
pub fn all_extensions<N: InField>()
    ensures { (T : FactorSystem N.field.ring) (H : Subgroup T) (Q : CyclicQuotient H) (L : Representations H.table) (M : Representations T) (e : ℕ) (E : Representation T e)
        → (Q.index ≡ 2) ⊎ (Q.index ≡ 3) → IsFull L → (h : IsClimb Q L M) (l : Fin L.count) → h.turn l ≡ l → Equivalent (restrict H E) (L.member l).at
        → (m : Fin M.count) × (h.below m ≡ l) × Equivalent E.at (M.member m).at }
{}

/// Where the members over l are numbered by labels below p there are p of them.
pub fn count_by_labels<N: InField>()
    ensures { (m n p : ℕ) (below : Fin m → Fin n) (l : Fin n) (label : Fin m → Fin p) (index_of : Fin p → Fin m)
        → ((a : Fin p) → below (index_of a) ≡ l) → ((a : Fin p) → label (index_of a) ≡ a) → ((i : Fin m) → below i ≡ l → index_of (label i) ≡ i)
        → occurrences below l ≡ p }
{}

/// Induced families: from members of one orbit equivalent, from different orbits inequivalent, and simple
/// where the member is not equivalent to its conjugate.
pub fn induced_from_orbits<N: InField>()
    ensures simple { (T : FactorSystem N.field.ring) (H : Subgroup T) (Q : CyclicQuotient H) (d e : ℕ) (D : Representation H.table d) (E : Representation T e)
        → (Q.index ≡ 2) ⊎ (Q.index ≡ 3) → (Equivalent (conjugate Q D) D.at → ⊥) → 0 < d → IsSimple D.at → IsInduced Q D E → IsSimple E.at }
    ensures one_orbit { (T : FactorSystem N.field.ring) (H : Subgroup T) (Q : CyclicQuotient H) (d c e k : ℕ) (D : Representation H.table d) (C : Representation H.table c) (A : Representation T e) (B : Representation T k)
        → (Q.index ≡ 2) ⊎ (Q.index ≡ 3) → (Equivalent (conjugate Q D) D.at → ⊥) → 0 < d → IsSimple D.at → Equivalent (conjugate Q D) C.at
        → IsInduced Q D A → IsInduced Q C B → Equivalent A.at B.at }
    ensures apart { (T : FactorSystem N.field.ring) (H : Subgroup T) (Q : CyclicQuotient H) (L : Representations H.table) (M : Representations T) (d e : ℕ) (D : Representation T d) (E : Representation T e)
        → (Q.index ≡ 2) ⊎ (Q.index ≡ 3) → IsFull L → (h : IsClimb Q L M) (k l : Fin L.count) → ((i j : Fin Q.index) → iterate h.turn (to_nat i) k ≡ iterate h.turn (to_nat j) l → ⊥)
        → IsInduced Q (L.member k) D → IsInduced Q (L.member l) E → Equivalent D.at E.at → ⊥ }
{}
