//! Rational numbers as the numbers of order 1, their order, and lowest terms.
//! The definitions stand in specs/, the laws in proofs/. The laws that a reader meets first are the
//! contracts of the functions below.
#![tactic(auto)]

ghost use Rattle.std.specs.Prelude.{ℕ, ℤ, pos, List, length, ◌≡◌, ◌<◌, ◌*◌, ◌/◌, ◌+ℤ◌, ◌*ℤ◌, neg_ℤ, ◌≤ℤ◌, ◌<ℤ◌, ◌⊎◌, ◌↔◌};
ghost use Rattle.std.specs.Int.{◌∣◌, IsGcd, int_div_euclid};
ghost use Rattle.std.specs.Int.RustNames.{int_div, unsigned_abs};
ghost use Rattle.irr_algebra.specs.Ring.{whole};
ghost use Rattle.irr_algebra.specs.Fin.{Fin};
ghost use Rattle.irr_algebra.specs.Matrix.{Matrix, ◌·◌, ◌⊕◌, unit};
ghost use Rattle.irr_number.specs.Integers.{integers};
ghost use Rattle.irr_rational.specs.Integer.{integer, whole_matrix};
ghost use Rattle.irr_rational.specs.Rational.{Rational, rationals, ratio, IsWhole};
ghost use Rattle.irr_rational.specs.Order.{◌≤ℚ◌, ◌<ℚ◌, IsFloor, IsBelow, IsAtMost};
ghost use Rattle.irr_rational.specs.Ratio.{AreLowest, IsLowest, entry, ratios};

use irr_algebra::{InField, InRing};

/// The whole numbers in a ring are added, multiplied and negated as whole numbers.
pub fn whole_numbers_in_ring<N: InRing>()
    ensures one { integer N.ring (pos 1) ≡ N.ring.one }
    ensures sum { (a b : ℤ) → integer N.ring (a +ℤ b) ≡ N.ring.add (integer N.ring a) (integer N.ring b) }
    ensures product { (a b : ℤ) → integer N.ring (a *ℤ b) ≡ N.ring.mul (integer N.ring a) (integer N.ring b) }
    ensures negative { (a : ℤ) → integer N.ring (neg_ℤ a) ≡ N.ring.neg (integer N.ring a) }
{}

/// Over a field of characteristic 0 different whole numbers stay different.
pub fn whole_numbers_in_field<N: InField>()
    ensures { (a b : ℤ) → integer N.field.ring a ≡ integer N.field.ring b → a ≡ b }
{}

/// Matrices of whole numbers are added and multiplied as those over the ring.
pub fn matrices_of_whole_numbers<N: InRing>()
    ensures unit { (n : ℕ) → whole_matrix N.ring (unit integers n) ≡ unit N.ring n }
    ensures sum { (m n : ℕ) (a b : Matrix integers m n) → whole_matrix N.ring (a ⊕ b) ≡ whole_matrix N.ring a ⊕ whole_matrix N.ring b }
    ensures product { (l m n : ℕ) (a : Matrix integers l m) (b : Matrix integers m n) → whole_matrix N.ring (a · b) ≡ whole_matrix N.ring a · whole_matrix N.ring b }
{}

/// Each rational is a ratio of a whole number and a positive denominator, and two ratios are equal
/// exactly where their cross products are. Over 0 a ratio is 0.
pub fn ratio_of_rational()
    ensures exists { (x : Rational) → (a : ℤ) × (b : ℕ) × (0 < b) × (ratio a b ≡ x) }
    ensures same { (a c : ℤ) (b d : ℕ) → 0 < b → 0 < d → (ratio a b ≡ ratio c d) ↔ ((a *ℤ pos d) ≡ (c *ℤ pos b)) }
    ensures factor { (a : ℤ) (b k : ℕ) → 0 < b → 0 < k → ratio (pos k *ℤ a) (k * b) ≡ ratio a b }
    ensures whole_number { (k : ℤ) → integer rationals k ≡ ratio k 1 }
    ensures none { (a : ℤ) → ratio a 0 ≡ rationals.zero }
{}

/// Ratios are added, multiplied and negated as fractions.
pub fn operations_on_ratios()
    ensures sum { (a c : ℤ) (b d : ℕ) → 0 < b → 0 < d → rationals.add (ratio a b) (ratio c d) ≡ ratio ((a *ℤ pos d) +ℤ (c *ℤ pos b)) (b * d) }
    ensures product { (a c : ℤ) (b d : ℕ) → 0 < b → 0 < d → rationals.mul (ratio a b) (ratio c d) ≡ ratio (a *ℤ c) (b * d) }
    ensures negative { (a : ℤ) (b : ℕ) → 0 < b → rationals.neg (ratio a b) ≡ ratio (neg_ℤ a) b }
{}

/// A ratio is a whole number exactly where its denominator divides its numerator, and n times each of
/// some ratios in lowest terms over one denominator is whole exactly where the denominator divides n.
pub fn whole_ratios()
    ensures one { (a : ℤ) (b : ℕ) → 0 < b → IsWhole (ratio a b) ↔ (b ∣ unsigned_abs a) }
    ensures multiples { (m : ℕ) (a : Fin m → ℤ) (b n : ℕ) → AreLowest a b
        → ((i : Fin m) → IsWhole (rationals.mul (whole rationals n) (ratio (a i) b))) ↔ (b ∣ n) }
{}

/// Sums, products and negatives of whole numbers are whole. Whether a rational is whole is decided, and
/// it is one whole number at most.
pub fn whole_rationals()
    ensures sum { (x y : Rational) → IsWhole x → IsWhole y → IsWhole (rationals.add x y) }
    ensures product { (x y : Rational) → IsWhole x → IsWhole y → IsWhole (rationals.mul x y) }
    ensures negative { (x : Rational) → IsWhole x → IsWhole (rationals.neg x) }
    ensures decided { (x : Rational) → IsWhole x ⊎ (IsWhole x → ⊥) }
    ensures unique { (x : Rational) (a b : IsWhole x) → a.number ≡ b.number }
{}

/// The order of the rational numbers is total and decided, and is kept where a number is added to both
/// sides or a factor that is not negative is put before them.
pub fn order_of_rationals()
    ensures reflexive { (x : Rational) → x ≤ℚ x }
    ensures antisymmetric { (x y : Rational) → x ≤ℚ y → y ≤ℚ x → x ≡ y }
    ensures transitive { (x y z : Rational) → x ≤ℚ y → y ≤ℚ z → x ≤ℚ z }
    ensures total { (x y : Rational) → (x ≤ℚ y) ⊎ (y <ℚ x) }
    ensures sum { (x y z : Rational) → x ≤ℚ y → rationals.add x z ≤ℚ rationals.add y z }
    ensures product { (x y z : Rational) → rationals.zero ≤ℚ z → x ≤ℚ y → rationals.mul z x ≤ℚ rationals.mul z y }
{}

/// Ratios have the order of their cross products, and whole numbers their own.
pub fn order_of_ratios()
    ensures ratio { (a c : ℤ) (b d : ℕ) → 0 < b → 0 < d → (ratio a b ≤ℚ ratio c d) ↔ ((a *ℤ pos d) ≤ℤ (c *ℤ pos b)) }
    ensures ratio_below { (a c : ℤ) (b d : ℕ) → 0 < b → 0 < d → (ratio a b <ℚ ratio c d) ↔ ((a *ℤ pos d) <ℤ (c *ℤ pos b)) }
    ensures whole_number { (k l : ℤ) → (integer rationals k ≤ℚ integer rationals l) ↔ (k ≤ℤ l) }
{}

/// Each rational has one floor, and for a ratio it is the quotient whose remainder is not negative.
/// What is left over it is at least 0 and below 1.
pub fn floor_of_rational()
    ensures exists { (x : Rational) → (k : ℤ) × IsFloor x k }
    ensures unique { (x : Rational) (k l : ℤ) → IsFloor x k → IsFloor x l → k ≡ l }
    ensures ratio { (a : ℤ) (b : ℕ) (k : ℤ) → 0 < b → IsFloor (ratio a b) k ↔ (((k *ℤ pos b) ≤ℤ a) × (a <ℤ ((k +ℤ pos 1) *ℤ pos b))) }
    ensures quotient { (a : ℤ) (b : ℕ) → 0 < b → IsFloor (ratio a b) (int_div_euclid a (pos b)) }
    ensures at_least { (x : Rational) (k : ℤ) → IsFloor x k → rationals.zero ≤ℚ rationals.add x (rationals.neg (integer rationals k)) }
    ensures below { (x : Rational) (k : ℤ) → IsFloor x k → rationals.add x (rationals.neg (integer rationals k)) <ℚ rationals.one }
    ensures sum { (x : Rational) (k l : ℤ) → IsFloor x k → IsFloor (rationals.add x (integer rationals l)) (k +ℤ l) }
{}

/// The lexicographic order of lists of rational numbers is a strict order, and of two lists one stands
/// before the other or they are the same.
pub fn lexicographic_order()
    ensures irreflexive { (n : ℕ) (f : Fin n → Rational) → IsBelow f f → ⊥ }
    ensures transitive { (n : ℕ) (f g h : Fin n → Rational) → IsBelow f g → IsBelow g h → IsBelow f h }
    ensures total { (n : ℕ) (f g : Fin n → Rational) → IsBelow f g ⊎ (((i : Fin n) → f i ≡ g i) ⊎ IsBelow g f) }
{}

/// The same or lexicographically before: a total order, and what is at most place by place is at most.
pub fn lexicographic_at_most()
    ensures transitive { (n : ℕ) (f g h : Fin n → Rational) → IsAtMost f g → IsAtMost g h → IsAtMost f h }
    ensures antisymmetric { (n : ℕ) (f g : Fin n → Rational) → IsAtMost f g → IsAtMost g f → (i : Fin n) → f i ≡ g i }
    ensures total { (n : ℕ) (f g : Fin n → Rational) → IsAtMost f g ⊎ IsBelow g f }
    ensures each { (n : ℕ) (f g : Fin n → Rational) → ((i : Fin n) → f i ≤ℚ g i) → IsAtMost f g }
{}

/// Each rational has one form in lowest terms, and whether a form is in lowest terms is decided: it is
/// exactly where 1 is the greatest common divisor, and the quotients by that divisor are.
pub fn lowest_terms_of_rational()
    ensures exists { (x : Rational) → (a : ℤ) × (b : ℕ) × IsLowest a b × (ratio a b ≡ x) }
    ensures unique { (a c : ℤ) (b d : ℕ) → IsLowest a b → IsLowest c d → ratio a b ≡ ratio c d → (b ≡ d) × (a ≡ c) }
    ensures decided { (a : ℤ) (b : ℕ) → IsLowest a b ⊎ (IsLowest a b → ⊥) }
    ensures divisor { (a : ℤ) (b : ℕ) → 0 < b → IsLowest a b ↔ IsGcd (unsigned_abs a) b 1 }
    ensures reduced { (a : ℤ) (b g : ℕ) → 0 < b → IsGcd (unsigned_abs a) b g → IsLowest (int_div a (pos g)) (b / g) × (ratio (int_div a (pos g)) (b / g) ≡ ratio a b) }
{}

/// Each list of rationals has one common form in lowest terms, and whether a form is is decided.
pub fn lowest_terms_of_rationals()
    ensures exists { (n : ℕ) (f : Fin n → Rational) → (a : Fin n → ℤ) × (b : ℕ) × AreLowest a b × ((i : Fin n) → ratio (a i) b ≡ f i) }
    ensures unique { (n : ℕ) (a c : Fin n → ℤ) (b d : ℕ) → AreLowest a b → AreLowest c d → ((i : Fin n) → ratio (a i) b ≡ ratio (c i) d)
        → (b ≡ d) × ((i : Fin n) → a i ≡ c i) }
    ensures decided { (n : ℕ) (a : Fin n → ℤ) (b : ℕ) → AreLowest a b ⊎ (AreLowest a b → ⊥) }
{}

/// Each n rationals have one list of n whole numbers that is them over a common denominator in lowest terms.
pub fn listed_lowest_terms()
    ensures exists { (n : ℕ) (f : Fin n → Rational)
        → (xs : List ℤ) × (b : ℕ) × (length xs ≡ n) × AreLowest {n = n} (entry xs) b × ((i : Fin n) → ratios xs b i ≡ f i) }
    ensures unique { (n : ℕ) (xs ys : List ℤ) (b d : ℕ) → length xs ≡ n → length ys ≡ n → AreLowest {n = n} (entry xs) b → AreLowest {n = n} (entry ys) d
        → ((i : Fin n) → ratios xs b i ≡ ratios ys d i) → (b ≡ d) × (xs ≡ ys) }
{}
