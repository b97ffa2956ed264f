// The numbers that are met where a representation is extended have their roots: the definitions stand
// in specs/, the laws in proofs/. The main laws are the contracts of the functions below.
#![tactic(auto)]

ghost use Rattle.std.specs.Prelude.{ℕ, ◌≡◌, ◌⊎◌, ◌<◌, ◌+◌, ◌*◌, suc, List};
ghost use Rattle.irr_algebra.specs.Ring.{whole};
ghost use Rattle.irr_algebra.specs.Sum.{sum};
ghost use Rattle.irr_algebra.specs.Fin.{Fin, to_nat};
ghost use Rattle.irr_algebra.specs.Matrix.{Matrix, scale, trace, unit};
ghost use Rattle.irr_theory.specs.FactorSystem.{FactorSystem, Representation};
ghost use Rattle.irr_theory.specs.Extension.{matrix_power};
ghost use Rattle.irr_eigen.specs.Power.{power, Root, IsPrimitiveRoot};
ghost use Rattle.irr_eigen.specs.Eigenspace.{Eigenspaces, Occurs, IsMatrixRoot, IsSumOfRoots};
ghost use Rattle.irr_eigen.specs.ListSum.{AddsUp, occurrences};
ghost use Rattle.irr_eigen.specs.Step.{Cycle, Subtable, IsOutside, IsStep, HasExponents, at_place, cycle_numbers, exponent_sum, lifted_power, restricted, top_matrix};

use irr_algebra::InField;

/// A number has a p-th root, for p = 2 or 3, where it is the p-th power of a matrix with a trace other
/// than 0; and where that power is the number times a matrix with p-th powers as eigenvalues.
pub fn root_by_trace<N: InField>()
    ensures of_number { (p d : ℕ) (c : N.field.Carrier) (u : Matrix N.field.ring d d) → (p ≡ 2) ⊎ (p ≡ 3)
        → matrix_power u p ≡ scale N.field.ring c (unit N.field.ring d) → (trace u ≡ N.field.zero → ⊥) → Root N.field.ring p c }
    ensures of_matrix { (p d k : ℕ) (c : N.field.Carrier) (v u : Matrix N.field.ring d d) (w : Fin k → N.field.Carrier) → (p ≡ 2) ⊎ (p ≡ 3)
        → IsMatrixRoot p c v u w → (trace u ≡ N.field.zero → ⊥) → Root N.field.ring p c }
{}

/// A matrix with a power that is the power of a number other than 0 has this number times the roots of
/// 1 as eigenvalues, and the space is the sum of their eigenspaces.
pub fn eigenspaces_of_power<N: InField>()
    ensures { (n d : ℕ) (v : Matrix N.field.ring d d) (t z : N.field.Carrier) → (t ≡ N.field.zero → ⊥) → IsPrimitiveRoot N.field.ring (suc n) z
        → matrix_power v (suc n) ≡ scale N.field.ring (power N.field.ring t (suc n)) (unit N.field.ring d)
        → Eigenspaces v (λ (i : Fin (suc n)). N.field.mul t (power N.field.ring z (to_nat i))) }
{}

/// Where the space is the sum of eigenspaces, each eigenvalue occurs so often as the trace of the
/// projection on its eigenspace says; with roots of 1 that is a mean over the traces of the powers.
pub fn eigenvalue_occurs<N: InField>()
    ensures dimension { (d k : ℕ) (v : Matrix N.field.ring d d) (values : Fin k → N.field.Carrier) (e : Eigenspaces v values)
        → ((a b : Fin k) → values a ≡ values b → a ≡ b) → (a : Fin k) → (n : ℕ) × Occurs v (values a) n × (trace (e.projection a) ≡ whole N.field.ring n) }
    ensures only_dimension { (d k : ℕ) (v : Matrix N.field.ring d d) (values : Fin k → N.field.Carrier) (e : Eigenspaces v values)
        → ((a b : Fin k) → values a ≡ values b → a ≡ b) → (a : Fin k) (n : ℕ) → Occurs v (values a) n → trace (e.projection a) ≡ whole N.field.ring n }
    ensures mean { (n d : ℕ) (v : Matrix N.field.ring d d) (t z : N.field.Carrier) → (t ≡ N.field.zero → ⊥) → IsPrimitiveRoot N.field.ring (suc n) z
        → matrix_power v (suc n) ≡ scale N.field.ring (power N.field.ring t (suc n)) (unit N.field.ring d)
        → (i : Fin (suc n)) (y : N.field.Carrier) → N.field.mul (N.field.mul t (power N.field.ring z (to_nat i))) y ≡ N.field.one
        → (m : ℕ) → Occurs v (N.field.mul t (power N.field.ring z (to_nat i))) m
        → N.field.mul (whole N.field.ring (suc n)) (whole N.field.ring m)
        ≡ sum N.field.ring (suc n) (λ j. N.field.mul (power N.field.ring y (to_nat j)) (trace (matrix_power v (to_nat j)))) }
{}

/// Where r is a p-th root of c, the trace is r times a sum that takes one p-th root of each eigenvalue,
/// as often as it occurs. So some such sum s meets `s^p * c = trace^p`.
pub fn trace_by_roots<N: InField>()
    ensures trace { (p d k : ℕ) (z c r : N.field.Carrier) (v u : Matrix N.field.ring d d) (w : Fin k → N.field.Carrier) (times : Fin k → ℕ)
        → 0 < p → IsPrimitiveRoot N.field.ring p z → (r ≡ N.field.zero → ⊥) → power N.field.ring r p ≡ c → IsMatrixRoot p c v u w
        → ((a b : Fin k) → power N.field.ring (w a) p ≡ power N.field.ring (w b) p → a ≡ b)
        → ((a : Fin k) → Occurs v (power N.field.ring (w a) p) (times a))
        → (s : N.field.Carrier) × IsSumOfRoots N.field.ring p z w times s × (trace u ≡ N.field.mul r s) }
    ensures kept_sum { (p d k : ℕ) (z c : N.field.Carrier) (v u : Matrix N.field.ring d d) (w : Fin k → N.field.Carrier) (times : Fin k → ℕ)
        → (p ≡ 2) ⊎ (p ≡ 3) → IsPrimitiveRoot N.field.ring p z → IsMatrixRoot p c v u w
        → ((a b : Fin k) → power N.field.ring (w a) p ≡ power N.field.ring (w b) p → a ≡ b)
        → ((a : Fin k) → Occurs v (power N.field.ring (w a) p) (times a)) → (trace u ≡ N.field.zero → ⊥)
        → (s : N.field.Carrier) × IsSumOfRoots N.field.ring p z w times s × (N.field.mul (power N.field.ring s p) c ≡ power N.field.ring (trace u) p) }
{}

/// A sum of roots is made by going through a list that names each eigenvalue as often as it occurs, in
/// any order, and adding one of its p roots for each.
pub fn sum_over_list<N: InField>()
    ensures { (p k : ℕ) (z s : N.field.Carrier) (w : Fin k → N.field.Carrier) (times : Fin k → ℕ) → IsSumOfRoots N.field.ring (suc p) z w times s
        → (l : List (Fin k)) → ((a : Fin k) → occurrences a l ≡ times a)
        → AddsUp N.field.ring (λ a (j : Fin (suc p)). N.field.mul (w a) (power N.field.ring z (to_nat j))) l s }
{}

/// From a sum with `s^p * c = trace^p` there are a p-th root of c, and a multiple of u whose p-th power is
/// v and whose trace is the sum.
pub fn root_by_sum<N: InField>()
    ensures root { (p : ℕ) (c t s : N.field.Carrier) → 0 < p → (t ≡ N.field.zero → ⊥)
        → N.field.mul (power N.field.ring s p) c ≡ power N.field.ring t p → Root N.field.ring p c }
    ensures multiple { (p d : ℕ) (c s : N.field.Carrier) (v u : Matrix N.field.ring d d) → (trace u ≡ N.field.zero → ⊥) → matrix_power u p ≡ scale N.field.ring c v
        → N.field.mul (power N.field.ring s p) c ≡ power N.field.ring (trace u) p
        → matrix_power (scale N.field.ring (N.field.mul s (N.field.inverse (trace u))) u) p ≡ v }
    ensures multiple_trace { (d : ℕ) (s : N.field.Carrier) (u : Matrix N.field.ring d d) → (trace u ≡ N.field.zero → ⊥)
        → trace (scale N.field.ring (N.field.mul s (N.field.inverse (trace u))) u) ≡ s }
{}

/// On a table with powers of z as phases: where the order n of the place g divides that of z and the sum
/// of the exponents of g with its powers, g has a cycle, and the roots that are added up are powers of z.
pub fn cycle_of_exponents<N: InField>()
    ensures cycle { (T : FactorSystem N.field.ring) (order : ℕ) (z : N.field.Carrier) (x : Fin T.places → Fin T.places → ℕ) (g : Fin T.places) (n q y : ℕ)
        → HasExponents T order z x → 0 < n → 0 < q → order ≡ n * q → (lifted_power (at_place T g) n).place ≡ T.start → exponent_sum T x g n ≡ n * y
        → (cycle : Cycle T g) × (cycle.order ≡ n) × (cycle.number ≡ power N.field.ring z y) × (cycle.root ≡ power N.field.ring z q) }
    ensures powers { (T : FactorSystem N.field.ring) (g : Fin T.places) (cycle : Cycle T g) (z : N.field.Carrier) (q y : ℕ)
        → cycle.number ≡ power N.field.ring z y → cycle.root ≡ power N.field.ring z q → (m : ℕ) (i : Fin m) (j : ℕ)
        → N.field.mul (cycle_numbers cycle m i) (power N.field.ring (power N.field.ring cycle.root m) j) ≡ power N.field.ring z (y + to_nat i * q + j * m * q) }
{}

/// On a twisted table: the scalar of a step has its root, and some sum of roots meets the trace.
pub fn root_of_step<N: InField>()
    ensures root { (S T : FactorSystem N.field.ring) (part : Subtable S T) (d : ℕ) (D : Representation S d) (g : Fin T.places) (p : ℕ) (c : N.field.Carrier) (u : Matrix N.field.ring d d)
        → (p ≡ 2) ⊎ (p ≡ 3) → IsOutside part g p → IsStep part D g p c u → Cycle T g → (trace u ≡ N.field.zero → ⊥) → Root N.field.ring p c }
    ensures order { (S T : FactorSystem N.field.ring) (part : Subtable S T) (d : ℕ) (D : Representation S d) (g : Fin T.places) (p : ℕ) (c : N.field.Carrier) (u : Matrix N.field.ring d d)
        → (p ≡ 2) ⊎ (p ≡ 3) → IsOutside part g p → IsStep part D g p c u → (cycle : Cycle T g) → (m : ℕ) × (cycle.order ≡ suc m * p) }
    ensures kept_sum { (S T : FactorSystem N.field.ring) (part : Subtable S T) (d : ℕ) (D : Representation S d) (g : Fin T.places) (p : ℕ) (c : N.field.Carrier) (u : Matrix N.field.ring d d)
        → (p ≡ 2) ⊎ (p ≡ 3) → (h : IsStep part D g p c u) (cycle : Cycle T g) (m : ℕ) → cycle.order ≡ suc m * p
        → (trace u ≡ N.field.zero → ⊥) → (times : Fin (suc m) → ℕ)
        → ((i : Fin (suc m)) → Occurs (top_matrix T D g p h.top) (power N.field.ring (cycle_numbers cycle (suc m) i) p) (times i))
        → (s : N.field.Carrier) × IsSumOfRoots N.field.ring p (power N.field.ring cycle.root (suc m)) (cycle_numbers cycle (suc m)) times s
        × (N.field.mul (power N.field.ring s p) c ≡ power N.field.ring (trace u) p) }
{}

/// The matrix at g of a family on the whole table is a step with the scalar 1, from the family's
/// restriction; and a sum that meets the trace gives a multiple of u that is a step with the scalar 1.
pub fn step_of_scalar_one<N: InField>()
    ensures of_family { (S T : FactorSystem N.field.ring) (part : Subtable S T) (d : ℕ) (A : Representation T d) (g : Fin T.places) (p : ℕ) (top : Fin S.places)
        → part.place top ≡ (lifted_power (at_place T g) p).place → IsStep part (restricted part A) g p N.field.one (A.at g) }
    ensures of_sum { (S T : FactorSystem N.field.ring) (part : Subtable S T) (d : ℕ) (D : Representation S d) (g : Fin T.places) (p : ℕ) (c s : N.field.Carrier) (u : Matrix N.field.ring d d)
        → IsStep part D g p c u → (trace u ≡ N.field.zero → ⊥) → N.field.mul (power N.field.ring s p) c ≡ power N.field.ring (trace u) p
        → IsStep part D g p N.field.one (scale N.field.ring (N.field.mul s (N.field.inverse (trace u))) u) }
{}
