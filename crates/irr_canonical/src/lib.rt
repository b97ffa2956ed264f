//! The canonical form of a number of order N, and what is read off it: denominator, size, coefficients.
//! The definitions stand in specs/, the laws in proofs/; those that a reader meets first are the contracts of the functions below.
#![tactic(auto)]

ghost use Rattle.std.specs.Prelude.{ℕ, ℤ, pos, List, slice_index_or, ◌≡◌, ◌≢◌, ◌+◌, ◌*◌, ◌<◌, ◌≤◌, ◌↔◌};
ghost use Rattle.std.specs.Int.{◌∣◌};
ghost use Rattle.irr_algebra.specs.Ring.{whole};
ghost use Rattle.irr_number.specs.Basis.{IsCanonical};
ghost use Rattle.irr_number.specs.Element.{Element};
ghost use Rattle.irr_number.specs.Fraction.{Fraction};
ghost use Rattle.irr_number.specs.Lift.{lift};
ghost use Rattle.irr_number.specs.Number.{Number, number, numbers, root_power};
ghost use Rattle.irr_number.specs.Prime.{IsPrime};
ghost use Rattle.irr_canonical.specs.Coefficient.{canonical, denominator, number_of, over, size};
ghost use Rattle.irr_canonical.specs.PowerSum.{power_sum};
ghost use Rattle.irr_canonical.specs.RootSum.{IsRootSum};
ghost use Rattle.irr_canonical.specs.Reduction.{IsFreeAt, IsFreeBelow, IsInBasis, IsReducedAt};

/// The canonical form of a number is its one fraction with coefficients in the basis and in lowest terms,
/// and numbers are equal exactly where their canonical forms are.
pub fn canonical_form_of_number()
    ensures is_canonical { (N : ℕ) → 0 < N → (x : Number N) → IsCanonical N (canonical N x) }
    ensures stands_for { (N : ℕ) → 0 < N → (x : Number N) → number N (canonical N x) ≡ x }
    ensures unique { (N : ℕ) → 0 < N → (a : Fraction (Element N)) (x : Number N) → IsCanonical N a → number N a ≡ x → canonical N x ≡ a }
    ensures equality { (N : ℕ) → 0 < N → (x y : Number N) → (x ≡ y) ↔ (canonical N x ≡ canonical N y) }
{}

/// A number is the sum of its coefficients times powers of z, over its denominator; and so is the number
/// of a list of coefficients over a denominator, which is 0 where the denominator is.
pub fn coefficients_of_number()
    ensures sum { (N : ℕ) → 0 < N → (x : Number N) → (numbers N).mul (whole (numbers N) (denominator N x)) x ≡ power_sum N (canonical N x).num.at }
    ensures listed { (N : ℕ) (xs : List ℤ) (d : ℕ) → 0 < d → (numbers N).mul (whole (numbers N) d) (number_of N xs d) ≡ power_sum N (λ j. slice_index_or xs j (pos 0)) }
    ensures none { (N : ℕ) (xs : List ℤ) → number_of N xs 0 ≡ (numbers N).zero }
{}

/// For each prime p that divides N, in any order, take from each coefficient that of the top power in its class
/// modulo N/p: the number stays, and in the end the coefficients are in the basis. They are the same for every order.
pub fn reduction_to_basis()
    ensures number { (N p : ℕ) → 0 < N → IsPrime p → p ∣ N → (f g : ℕ → ℤ) → IsReducedAt N p f g → (d : ℕ) (q : 0 < d) → number N (over N g d q) ≡ number N (over N f d q) }
    ensures frees { (N p : ℕ) (f g : ℕ → ℤ) → IsReducedAt N p f g → IsFreeAt N p g }
    ensures keeps { (N p q : ℕ) → 0 < N → IsPrime p → p ∣ N → IsPrime q → p ≢ q → (f g : ℕ → ℤ) → IsReducedAt N p f g → IsFreeAt N q f → IsFreeAt N q g }
    ensures basis { (N k : ℕ) → 0 < N → N < k → (f : ℕ → ℤ) → IsFreeBelow N k f → IsInBasis N f }
    ensures unique { (N : ℕ) → 0 < N → (f g : ℕ → ℤ) → IsInBasis N f → IsInBasis N g → (d : ℕ) (q : 0 < d) → number N (over N f d q) ≡ number N (over N g d q) → (j : ℕ) → j < N → f j ≡ g j }
{}

/// Sums of powers of z with signs, over a denominator: how many powers sums, products and lifts need.
pub fn sums_of_powers()
    ensures root { (N j : ℕ) → IsRootSum N 1 1 (root_power N j) }
    ensures sum { (N s t d e : ℕ) (x y : Number N) → IsRootSum N s d x → IsRootSum N t e y → IsRootSum N (e * s + d * t) (d * e) ((numbers N).add x y) }
    ensures negative { (N s d : ℕ) (x : Number N) → IsRootSum N s d x → IsRootSum N s d ((numbers N).neg x) }
    ensures product { (N s t d e : ℕ) (x y : Number N) → IsRootSum N s d x → IsRootSum N t e y → IsRootSum N (s * t) (d * e) ((numbers N).mul x y) }
    ensures lift { (N M s d : ℕ) (h : 0 < N) (v : N ∣ M) (x : Number N) → IsRootSum N s d x → IsRootSum M s d ((lift N M h v).map x) }
{}

/// A sum of at most s powers of z over d has a denominator that divides d, and a size of at most s times N.
pub fn size_of_sum_of_powers()
    ensures denominator { (N s d : ℕ) → 0 < N → (x : Number N) → IsRootSum N s d x → denominator N x ∣ d }
    ensures size { (N s d : ℕ) → 0 < N → (x : Number N) → IsRootSum N s d x → size N x ≤ s * N }
{}
