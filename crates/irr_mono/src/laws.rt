//! Laws of monomial matrices, as contracts.
ghost use Rattle.std.specs.Prelude.{ℕ, ◌≡◌, ◌<◌, ◌≤◌, ◌↔◌, List, length, slice_index};
ghost use Rattle.irr_algebra.specs.Matrix.{Matrix};
ghost use Rattle.irr_number.specs.Number.{numbers, root_power};
ghost use Rattle.irr_mat.specs.Size.{IsWithin};
ghost use Rattle.irr_mono.specs.Monomial.{AreRules, IsMonomial, PowersFit, monomial};

/// The entries of a monomial matrix are 0 or powers of z, and such entries can be compared with powers of z.
pub fn size_of_monomial_matrix()
    ensures within { (N n : ℕ) (place exp : List ℕ) → IsWithin N 1 1 (monomial N n place exp) }
    ensures fits { (N r c : ℕ) (a : Matrix (numbers N) r c) → N ≤ 12000 → IsWithin N 1 1 a → PowersFit N a }
{}

/// A square matrix is monomial exactly where it is the matrix of its rows and exponents; the rows and the powers of its columns
/// are determined.
pub fn rows_and_powers_of_monomial_matrix()
    ensures matrix { (N n : ℕ) (a : Matrix (numbers N) n n) (place exp : List ℕ)
        → IsMonomial N a place exp ↔ ((length place ≡ n) × AreRules N place exp × (a ≡ monomial N n place exp)) }
    ensures unique { (N r c : ℕ) (a : Matrix (numbers N) r c) (place exp rows exponents : List ℕ) → 0 < N
        → IsMonomial N a place exp → IsMonomial N a rows exponents
        → (j : ℕ) → j < c → (slice_index place j ≡ slice_index rows j) × (root_power N (slice_index exp j) ≡ root_power N (slice_index exponents j)) }
{}
