// Projective representations as families of matrices on twisted tables: the definitions stand in
// specs/, the laws in proofs/. The main laws are the contracts of the functions below.
#![tactic(auto)]

ghost use Rattle.std.specs.Prelude.{ℕ, ◌≡◌, ◌<◌};
ghost use Rattle.irr_algebra.specs.Ring.{whole};
ghost use Rattle.irr_algebra.specs.Fin.{Fin};
ghost use Rattle.irr_algebra.specs.Matrix.{Matrix, ◌·◌, combination, scale, trace};
ghost use Rattle.irr_algebra.specs.Homomorphism.{Homomorphism};
ghost use Rattle.irr_algebra.specs.Action.{Equivalent, HasDimension, IsIntertwiner, IsIrreducible, IsSimple};
ghost use Rattle.irr_theory.specs.FactorSystem.{FactorSystem, Representation};
ghost use Rattle.irr_theory.specs.Representations.{Representations, IsComplete, IsFull};
ghost use Rattle.irr_theory.specs.Traces.{back, trace_sum};
ghost use Rattle.irr_theory.specs.Scalars.{map_families};
ghost use Rattle.irr_theory.specs.Induced.{Blocks};
ghost use Rattle.irr_theory.specs.Reciprocity.{Cosets, IsReciprocal, EmbeddedPart};
ghost use Rattle.irr_theory.specs.Extension.{CyclicExtension, extension};
ghost use Rattle.irr_theory.specs.OnePlace.{one_list};

use irr_algebra::{InField, InRing};

/// Schur's lemma: a simple family is irreducible, and an irreducible family with an intertwiner into
/// a simple one that is not 0 is equivalent to it.
pub fn schur_lemma<N: InField>()
    ensures simple { (T : FactorSystem N.field.ring) (d : ℕ) (A : Representation T d) → IsSimple A.at → IsIrreducible A.at }
    ensures equivalent { (T : FactorSystem N.field.ring) (a b : ℕ) (A : Representation T a) (B : Representation T b) → IsIrreducible A.at → 0 < b → IsSimple B.at
        → (x : Matrix N.field.ring b a) → IsIntertwiner A.at B.at x → (i : Fin b) (j : Fin a) → (x.at i j ≡ N.field.zero → ⊥)
        → Equivalent A.at B.at }
{}

/// A list of simple, pairwise inequivalent families whose squared sizes add up to the number of places
/// is a complete list, also over each larger field; and where there is one, complete lists are full.
pub fn full_is_complete<N: InField, M: InField>()
    ensures complete { (T : FactorSystem N.field.ring) (L : Representations T) → IsFull L → IsComplete L }
    ensures over_larger_field { (φ : Homomorphism N.field.ring M.field.ring) (T : FactorSystem N.field.ring) (L : Representations T) → IsFull L → IsComplete (map_families φ L) }
    ensures full { (T : FactorSystem N.field.ring) (L M : Representations T) → IsFull L → IsComplete M → IsFull M }
{}

/// The dimension of a space of intertwiners, by traces.
pub fn dimension_by_traces<N: InField>()
    ensures { (T : FactorSystem N.field.ring) (a b n : ℕ) (A : Representation T a) (B : Representation T b) → HasDimension A.at B.at n
        → N.field.mul (whole N.field.ring T.places) (whole N.field.ring n) ≡ trace_sum A B }
{}

/// A matrix from the traces of its products with a simple family.
pub fn matrix_by_traces<N: InField>()
    ensures { (T : FactorSystem N.field.ring) (d : ℕ) (A : Representation T d) → 0 < d → IsSimple A.at → (m : Matrix N.field.ring d d)
        → combination N.field.ring T.places (λ i. trace (m · A.at i)) (back A)
        ≡ scale N.field.ring (N.field.mul (whole N.field.ring T.places) (N.field.inverse (whole N.field.ring d))) m }
{}

/// An induced representation is irreducible where that of the little group on its first block is.
pub fn induced_is_irreducible<N: InField>()
    ensures { (g i e d : ℕ) (s : Fin g → Matrix N.field.ring e e) (b : Fin i → Matrix N.field.ring d d)
        → Blocks s b → IsIrreducible b → IsIrreducible s }
{}

/// Frobenius reciprocity: the intertwiners of an induced representation are as many as those of its part.
pub fn frobenius_reciprocity<N: InRing>()
    ensures { (g i e d m n k : ℕ) (H : Cosets (Fin g) (Fin i))
        (s : Fin g → Matrix N.ring e e) (b : Fin i → Matrix N.ring d d) (t : Fin g → Matrix N.ring m m) (c : Fin i → Matrix N.ring n n)
        (S : EmbeddedPart H s b) (U : EmbeddedPart H t c) → IsReciprocal S U → HasDimension b c k → HasDimension s t k }
{}

/// The extension of a representation of a normal subgroup with cyclic quotient is a representation.
pub fn extension_multiplies<N: InRing>()
    ensures { (g i d : ℕ) (product : Fin g → Fin g → Fin g) (s : Fin i → Matrix N.ring d d) (h : CyclicExtension product s) (k l : Fin g)
        → extension h k · extension h l ≡ extension h (product k l) }
{}

/// On the table of one place the list of the 1 by 1 unit matrix is full and complete, over each ring.
pub fn one_place_list<N: InRing>()
    ensures full { IsFull (one_list N.ring) }
    ensures complete { IsComplete (one_list N.ring) }
{}
