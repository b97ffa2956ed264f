//! Laws of sizes, spans and projections, as contracts.
ghost use Rattle.std.specs.Prelude.{ℕ, ◌≡◌, ◌+◌, ◌*◌, ◌<◌, ◌≤◌};
ghost use Rattle.irr_algebra.specs.Ring.{whole};
ghost use Rattle.irr_algebra.specs.Fin.{Fin};
ghost use Rattle.irr_algebra.specs.Matrix.{Matrix, ◌·◌, ◌⊕◌, column, scale, trace, unit};
ghost use Rattle.irr_algebra.specs.Pair.{kron};
ghost use Rattle.irr_algebra.specs.Span.{IsIndependent, InSpan};
ghost use Rattle.irr_number.specs.Number.{Number, numbers};
ghost use Rattle.irr_canonical.specs.RootSum.{IsRootSum};
ghost use Rattle.irr_mat.specs.Rank.{HasRank};
ghost use Rattle.irr_mat.specs.Size.{IsWithin};

/// How many powers of z the entries of sums, products and multiples need, and over which denominator.
pub fn sizes_of_matrices()
    ensures unit { (N n : ℕ) → IsWithin N 1 1 (unit (numbers N) n) }
    ensures more { (N r c s t d : ℕ) (a : Matrix (numbers N) r c) → s ≤ t → IsWithin N s d a → IsWithin N t d a }
    ensures sum { (N r c s d t e : ℕ) (a b : Matrix (numbers N) r c) → IsWithin N s d a → IsWithin N t e b → IsWithin N (e * s + d * t) (d * e) (a ⊕ b) }
    ensures same_denominator { (N r c s d t : ℕ) (a b : Matrix (numbers N) r c) → IsWithin N s d a → IsWithin N t d b → IsWithin N (s + t) d (a ⊕ b) }
    ensures multiple { (N r c s d t e : ℕ) (x : Number N) (a : Matrix (numbers N) r c) → IsRootSum N s d x → IsWithin N t e a → IsWithin N (s * t) (d * e) (scale (numbers N) x a) }
    ensures product { (N r m c s d t e : ℕ) (a : Matrix (numbers N) r m) (b : Matrix (numbers N) m c) → IsWithin N s d a → IsWithin N t e b → IsWithin N (m * (s * t)) (d * e) (a · b) }
    ensures kronecker { (N r c p q s d t e : ℕ) (a : Matrix (numbers N) r c) (b : Matrix (numbers N) p q) → IsWithin N s d a → IsWithin N t e b → IsWithin N (s * t) (d * e) (kron a b) }
    ensures trace { (N n s d : ℕ) (a : Matrix (numbers N) n n) → IsWithin N s d a → IsRootSum N (n * s) d (trace a) }
{}

/// A list whose span holds an independent list is at least as long.
pub fn length_of_spanning_list()
    ensures { (N m r k : ℕ) → 0 < N → (p : Matrix (numbers N) m r) (s : Matrix (numbers N) m k) → IsIndependent p → ((j : Fin r) → InSpan s (column p j)) → r ≤ k }
{}

/// The trace of a projection is its rank.
pub fn trace_of_projection()
    ensures { (N n k : ℕ) → 0 < N → (a : Matrix (numbers N) n n) → a · a ≡ a → HasRank a k → trace a ≡ whole (numbers N) k }
{}
