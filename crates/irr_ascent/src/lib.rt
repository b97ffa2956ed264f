// From the families over each member of a full list to a full list on the group: the lists over the members
// are given, and joined one after another. The definitions stand in specs/, the laws in proofs/. The main
// laws are the contracts of the functions below.
#![tactic(auto)]

ghost use Rattle.std.specs.Prelude.{ℕ, ◌≡◌, ◌<◌, ◌+◌, ◌⊎◌, ◌↔◌, suc};
ghost use Rattle.irr_algebra.specs.Fin.{Fin, to_nat};
ghost use Rattle.irr_algebra.specs.Pair.{times};
ghost use Rattle.irr_algebra.specs.Matrix.{Matrix, scale, trace};
ghost use Rattle.irr_algebra.specs.Action.{Equivalent};
ghost use Rattle.irr_theory.specs.FactorSystem.{FactorSystem, Representation};
ghost use Rattle.irr_theory.specs.Representations.{Representations, IsFull};
ghost use Rattle.irr_clifford.specs.Subgroup.{Subgroup};
ghost use Rattle.irr_clifford.specs.Cyclic.{conjugate, CyclicQuotient, IsExtension, IsInduced, StandsForGenerator};
ghost use Rattle.irr_clifford.specs.Roots.{number_power, RootsOfOne};
ghost use Rattle.irr_clifford.specs.Climb.{ClimbChoice, IsClimb};
ghost use Rattle.irr_clifford.specs.Formulas.{extension_matrix, induced_matrix};
ghost use Rattle.irr_ascent.specs.Joined.{append, family, IsUnion, joined, last, listed, none, on_last, rearranged, widen};
ghost use Rattle.irr_ascent.specs.First.{IsOverFirst};
ghost use Rattle.irr_ascent.specs.Over.{AreOver, IsLeastOfOrbit};

use irr_algebra::{InField, InRing};

/// The lists over all members, in any order, are a climbed list, and so a full one: one after another in
/// particular. Where the field has the roots, there is a list over each member.
pub fn climbed_list_of_members<N: InField>()
    ensures union { (T : FactorSystem N.field.ring) (H : Subgroup T) (Q : CyclicQuotient H) (L : Representations H.table) (turn : Fin L.count → Fin L.count)
        (over : Fin L.count → Representations T) (M : Representations T) → (Q.index ≡ 2) ⊎ (Q.index ≡ 3) → IsFull L
        → ((l : Fin L.count) → Equivalent (conjugate Q (L.member l)) (L.member (turn l)).at) → ((l : Fin L.count) → AreOver Q L turn l (over l))
        → IsUnion over M → IsClimb Q L M × IsFull M }
    ensures exists { (T : FactorSystem N.field.ring) (H : Subgroup T) (Q : CyclicQuotient H) (L : Representations H.table)
        → (Q.index ≡ 2) ⊎ (Q.index ≡ 3) → IsFull L → (c : ClimbChoice Q L) → (l : Fin L.count) → (B : Representations T) × AreOver Q L c.turn l B }
    ensures climb { (T : FactorSystem N.field.ring) (H : Subgroup T) (Q : CyclicQuotient H) (L : Representations H.table) (turn : Fin L.count → Fin L.count)
        (over : Fin L.count → Representations T) → (Q.index ≡ 2) ⊎ (Q.index ≡ 3) → IsFull L
        → ((l : Fin L.count) → Equivalent (conjugate Q (L.member l)) (L.member (turn l)).at) → ((l : Fin L.count) → AreOver Q L turn l (over l))
        → IsClimb Q L (joined L.count over) }
    ensures full { (T : FactorSystem N.field.ring) (H : Subgroup T) (Q : CyclicQuotient H) (L : Representations H.table) (turn : Fin L.count → Fin L.count)
        (over : Fin L.count → Representations T) → (Q.index ≡ 2) ⊎ (Q.index ≡ 3) → IsFull L
        → ((l : Fin L.count) → Equivalent (conjugate Q (L.member l)) (L.member (turn l)).at) → ((l : Fin L.count) → AreOver Q L turn l (over l))
        → IsFull (joined L.count over) }
{}

/// Lists over one member after another: the list with no members is over the first 0, the list over the next
/// member is appended, and a list over the first of all is a climbed list, and full.
pub fn list_over_first<N: InField>()
    ensures start { (T : FactorSystem N.field.ring) (H : Subgroup T) (Q : CyclicQuotient H) (L : Representations H.table) (turn : Fin L.count → Fin L.count)
        → IsOverFirst Q L turn 0 (none T) }
    ensures step { (T : FactorSystem N.field.ring) (H : Subgroup T) (Q : CyclicQuotient H) (L : Representations H.table) (turn : Fin L.count → Fin L.count)
        (k : ℕ) (l : Fin L.count) (M B : Representations T) → to_nat l ≡ k → IsOverFirst Q L turn k M → AreOver Q L turn l B
        → IsOverFirst Q L turn (suc k) (append M B) }
    ensures all { (T : FactorSystem N.field.ring) (H : Subgroup T) (Q : CyclicQuotient H) (L : Representations H.table) (turn : Fin L.count → Fin L.count)
        (M : Representations T) → (Q.index ≡ 2) ⊎ (Q.index ≡ 3) → IsFull L
        → ((l : Fin L.count) → Equivalent (conjugate Q (L.member l)) (L.member (turn l)).at) → IsOverFirst Q L turn L.count M → IsClimb Q L M × IsFull M }
{}

/// Lists one after another: their joined list holds the members of each, and with one more list its members
/// come last. Two lists with the same families at the same numbers are one list.
pub fn lists_joined<N: InRing>()
    ensures union { (T : FactorSystem N.ring) (n : ℕ) (over : Fin n → Representations T) → IsUnion over (joined n over) }
    ensures grown { (T : FactorSystem N.ring) (n : ℕ) (over : Fin n → Representations T) (B : Representations T)
        → joined (suc n) (on_last over B) ≡ append (joined n over) B }
    ensures kept { (T : FactorSystem N.ring) (n : ℕ) (over : Fin n → Representations T) (B : Representations T) (l : Fin n)
        → on_last over B (widen l) ≡ over l }
    ensures added { (T : FactorSystem N.ring) (n : ℕ) (over : Fin n → Representations T) (B : Representations T) → on_last over B last ≡ B }
    ensures places { (n : ℕ) (l : Fin (suc n)) → ((k : Fin n) × (l ≡ widen k)) ⊎ (l ≡ last) }
    ensures numbers { (n : ℕ) (l : Fin n) → (to_nat (widen l) ≡ to_nat l) × (to_nat (last {n = n}) ≡ n) }
    ensures count { (T : FactorSystem N.ring) (A B : Representations T) → (append A B).count ≡ A.count + B.count }
    ensures before { (T : FactorSystem N.ring) (A B : Representations T) (m : Fin (append A B).count) (i : Fin A.count)
        → to_nat m ≡ to_nat i → family (append A B) m ≡ family A i }
    ensures after { (T : FactorSystem N.ring) (A B : Representations T) (m : Fin (append A B).count) (j : Fin B.count)
        → to_nat m ≡ A.count + to_nat j → family (append A B) m ≡ family B j }
    ensures same { (T : FactorSystem N.ring) (A B : Representations T) → A.count ≡ B.count
        → ((i : Fin A.count) (j : Fin B.count) → to_nat i ≡ to_nat j → family A i ≡ family B j) → A ≡ B }
    ensures grouped { (T : FactorSystem N.ring) (A B C : Representations T) → append (append A B) C ≡ append A (append B C) }
    ensures nothing { (T : FactorSystem N.ring) (A : Representations T) → append A (none T) ≡ A }
    ensures unlisted { (T : FactorSystem N.ring) (d : ℕ) (E : Fin 0 → Representation T d) → listed d E ≡ none T }
    ensures pushed { (T : FactorSystem N.ring) (n d : ℕ) (E : Fin n → Representation T d) (D : Representation T d)
        → listed d (on_last E D) ≡ append (listed d E) (listed d (λ (k : Fin 1). D)) }
{}

/// The conjugate of a member is equivalent to the member with its traces, and there is just one: the first
/// that is found will do. Its traces are those of the member at the conjugate places, with the phases.
pub fn turn_by_traces<N: InField>()
    ensures row { (T : FactorSystem N.field.ring) (H : Subgroup T) (Q : CyclicQuotient H) (d : ℕ) (D : Representation H.table d) (n : Fin H.table.places)
        → trace (conjugate Q D n) ≡ N.field.mul (N.field.mul (T.phase (H.member n) Q.generator) (T.phase-invertible Q.generator (H.member (Q.conj n))).inverse)
        (trace (D.at (Q.conj n))) }
    ensures turns { (T : FactorSystem N.field.ring) (H : Subgroup T) (Q : CyclicQuotient H) (L : Representations H.table) (l m : Fin L.count) → IsFull L
        → ((n : Fin H.table.places) → trace (conjugate Q (L.member l) n) ≡ trace ((L.member m).at n)) → Equivalent (conjugate Q (L.member l)) (L.member m).at }
    ensures exists { (T : FactorSystem N.field.ring) (H : Subgroup T) (Q : CyclicQuotient H) (L : Representations H.table) (l : Fin L.count) → IsFull L
        → (m : Fin L.count) × ((n : Fin H.table.places) → trace (conjugate Q (L.member l) n) ≡ trace ((L.member m).at n)) }
    ensures one { (T : FactorSystem N.field.ring) (H : Subgroup T) (Q : CyclicQuotient H) (L : Representations H.table) (l m k : Fin L.count) → IsFull L
        → ((n : Fin H.table.places) → trace (conjugate Q (L.member l) n) ≡ trace ((L.member m).at n))
        → ((n : Fin H.table.places) → trace (conjugate Q (L.member l) n) ≡ trace ((L.member k).at n)) → m ≡ k }
{}

/// The extensions of a member that is equivalent to its conjugate, by the multiples of one matrix by the roots
/// of 1, are a list over it; there are such extensions, and their matrices are those written out. That by z
/// times a matrix is the extension by the matrix, times z to the exponent of each place.
pub fn extensions_by_roots<N: InField>()
    ensures list { (T : FactorSystem N.field.ring) (H : Subgroup T) (Q : CyclicQuotient H) (L : Representations H.table) (turn : Fin L.count → Fin L.count)
        (l : Fin L.count) (u : Matrix N.field.ring (L.size l) (L.size l)) (roots : RootsOfOne N.field.ring Q.index)
        (E : Fin Q.index → Representation T (L.size l)) → IsFull L → turn l ≡ l → StandsForGenerator Q (L.member l) u
        → ((a : Fin Q.index) → IsExtension Q (L.member l) (scale N.field.ring (roots.root a) u) (E a)) → AreOver Q L turn l (listed (L.size l) E) }
    ensures exists { (T : FactorSystem N.field.ring) (H : Subgroup T) (Q : CyclicQuotient H) (d : ℕ) (D : Representation H.table d)
        (u : Matrix N.field.ring d d) (roots : RootsOfOne N.field.ring Q.index) (a : Fin Q.index) → StandsForGenerator Q D u
        → (E : Representation T d) × IsExtension Q D (scale N.field.ring (roots.root a) u) E
        × ((x : Fin T.places) → E.at x ≡ extension_matrix Q D (scale N.field.ring (roots.root a) u) x) }
    ensures by_matrix { (T : FactorSystem N.field.ring) (H : Subgroup T) (Q : CyclicQuotient H) (d : ℕ) (D : Representation H.table d)
        (u : Matrix N.field.ring d d) (E : Representation T d) → StandsForGenerator Q D u
        → ((x : Fin T.places) → E.at x ≡ extension_matrix Q D u x) → IsExtension Q D u E }
    ensures powers { (T : FactorSystem N.field.ring) (H : Subgroup T) (Q : CyclicQuotient H) (d : ℕ) (D : Representation H.table d)
        (u : Matrix N.field.ring d d) (z : N.field.Carrier) (A B : Representation T d) → IsExtension Q D u A → IsExtension Q D (scale N.field.ring z u) B
        → (x : Fin T.places) → (B.at x ≡ scale N.field.ring (number_power N.field.ring z (to_nat (Q.exponent x))) (A.at x))
        × (trace (B.at x) ≡ N.field.mul (number_power N.field.ring z (to_nat (Q.exponent x))) (trace (A.at x))) }
{}

/// An induced family alone is a list over the least of an orbit of several members, and no family is one over
/// the others; a family with the matrices that are written out is induced.
pub fn list_of_induced<N: InRing>()
    ensures list { (T : FactorSystem N.ring) (H : Subgroup T) (Q : CyclicQuotient H) (L : Representations H.table) (turn : Fin L.count → Fin L.count)
        (l : Fin L.count) (e : ℕ) (E : Representation T e) → (turn l ≡ l → ⊥) → IsLeastOfOrbit turn Q.index l → IsInduced Q (L.member l) E
        → AreOver Q L turn l (listed e (λ (k : Fin 1). E)) }
    ensures none { (T : FactorSystem N.ring) (H : Subgroup T) (Q : CyclicQuotient H) (L : Representations H.table) (turn : Fin L.count → Fin L.count)
        (l : Fin L.count) → (turn l ≡ l → ⊥) → (IsLeastOfOrbit turn Q.index l → ⊥) → AreOver Q L turn l (none T) }
    ensures by_matrix { (T : FactorSystem N.ring) (H : Subgroup T) (Q : CyclicQuotient H) (d : ℕ) (D : Representation H.table d)
        (E : Representation T (times Q.index d)) → ((x : Fin T.places) → E.at x ≡ induced_matrix Q D x) → IsInduced Q D E }
{}

/// A full list in another order is full.
pub fn full_in_any_order<N: InField>()
    ensures rearranged { (T : FactorSystem N.field.ring) (M : Representations T) (n : ℕ) (s : Fin n → Fin M.count) (t : Fin M.count → Fin n)
        → ((i : Fin M.count) → s (t i) ≡ i) → ((i : Fin n) → t (s i) ≡ i) → IsFull M → IsFull (rearranged M s) }
    ensures same { (T : FactorSystem N.field.ring) (L M : Representations T) (s : Fin L.count → Fin M.count) (t : Fin M.count → Fin L.count)
        → ((i : Fin M.count) → s (t i) ≡ i) → ((i : Fin L.count) → t (s i) ≡ i) → ((i : Fin L.count) → family L i ≡ family M (s i)) → IsFull M → IsFull L }
{}

/// Whether an index is the least of its orbit: one comparison tells for the index 2, and two for the index 3.
pub fn least_of_orbit<N: InRing>()
    ensures two { (n : ℕ) (turn : Fin n → Fin n) (p : ℕ) (l : Fin n) → p ≡ 2 → (to_nat l < to_nat (turn l)) ↔ IsLeastOfOrbit turn p l }
    ensures three { (n : ℕ) (turn : Fin n → Fin n) (p : ℕ) (l : Fin n) → p ≡ 3
        → ((to_nat l < to_nat (turn l)) × (to_nat l < to_nat (turn (turn l)))) ↔ IsLeastOfOrbit turn p l }
{}
