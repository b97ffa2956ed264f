// Laws of the printed forms of whole numbers, below the bounds of std's printing.
ghost use Rattle.std.specs.Prelude.{ℕ, ℤ, List, ◌≡◌, ◌<◌, ◌^◌, ◌++◌, ◌↔◌};
ghost use Rattle.std.specs.Int.RustNames.{unsigned_abs};
ghost use Rattle.std.specs.Fmt.{decimal, signed_decimal};
ghost use Rattle.std.specs.Str.Parse.{AllDigits, IsNumeral, digits_value};
ghost use Rattle.irr_digits.specs.DigitRun.{BeginsWithDigit, HasNoLeadingZero};

/// The printed form of a number is one digit or more, with no leading zero, and its value in base 10 is
/// the number; and digits are a printed form exactly where they have no leading zero.
pub fn decimal_digits()
    ensures numeral { (n : ℕ) → n < 2 ^ 64 → IsNumeral 10 (decimal n) }
    ensures leading { (n : ℕ) → n < 2 ^ 64 → HasNoLeadingZero (decimal n) }
    ensures value { (n : ℕ) → n < 2 ^ 64 → digits_value 10 (decimal n) ≡ n }
    ensures printed { (ds : List ℕ) → IsNumeral 10 ds → digits_value 10 ds < 2 ^ 64
        → (decimal (digits_value 10 ds) ≡ ds) ↔ HasNoLeadingZero ds }
{}

/// A text parts in one way into digits and a rest that begins with no digit. So where such a rest follows
/// a number's printed form, the text is that of one number at most.
pub fn unique_numbers()
    ensures run { (xs ys s t : List ℕ) → AllDigits 10 xs → AllDigits 10 ys → ¬ (BeginsWithDigit s) → ¬ (BeginsWithDigit t)
        → xs ++ s ≡ ys ++ t → (xs ≡ ys) × (s ≡ t) }
    ensures natural { (m n : ℕ) (s t : List ℕ) → m < 2 ^ 64 → n < 2 ^ 64 → ¬ (BeginsWithDigit s) → ¬ (BeginsWithDigit t)
        → decimal m ++ s ≡ decimal n ++ t → (m ≡ n) × (s ≡ t) }
    ensures whole { (k l : ℤ) (s t : List ℕ) → unsigned_abs k < 2 ^ 63 → unsigned_abs l < 2 ^ 63 → ¬ (BeginsWithDigit s) → ¬ (BeginsWithDigit t)
        → signed_decimal k ++ s ≡ signed_decimal l ++ t → (k ≡ l) × (s ≡ t) }
{}
