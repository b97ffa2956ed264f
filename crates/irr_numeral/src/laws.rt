// Laws of the texts of numbers.
ghost use Rattle.std.specs.Prelude.{ℕ, List, ◌≡◌, ◌<◌, ◌≤◌, ◌^◌};
ghost use Rattle.irr_number.specs.Number.{Number};
ghost use Rattle.irr_canonical.specs.Coefficient.{denominator, size};
ghost use Rattle.irr_text.specs.NumberText.{number_text};
ghost use Rattle.irr_numeral.specs.declared.limits.TheConstants.{COEFFICIENT_LIMIT, DENOMINATOR_LIMIT};
ghost use Rattle.irr_numeral.specs.declared.read.NumberError.{NumberError};
ghost use Rattle.irr_numeral.specs.declared.read.NumberError.TheVariants.{Memory};
ghost use Rattle.irr_numeral.specs.NumberFault.{IsFault};
ghost use Rattle.irr_numeral.specs.WrittenNumber.{AreTerms, WrittenTerm, spelled};
ghost use Rattle.irr_numeral.specs.WrittenValue.{IsReadAs};

/// A text is spelled by one list of terms at most. So it is read as one number at most, and where it is
/// read, the one fault is want of memory.
pub fn texts_read_in_one_way()
    ensures terms { (ts us : List WrittenTerm) → AreTerms ts → AreTerms us → spelled ts ≡ spelled us → ts ≡ us }
    ensures number { (n : ℕ) (text : List ℕ) (x y : Number n) → IsReadAs n text x → IsReadAs n text y → x ≡ y }
    ensures fault { (n : ℕ) (text : List ℕ) (x : Number n) (e : NumberError) → IsReadAs n text x → IsFault n text e → e ≡ Memory }
{}

/// What is printed within the limits is read as the same number.
pub fn printed_numbers_are_read()
    ensures { (n : ℕ) → 0 < n → n < 2 ^ 64 → (x : Number n) → denominator n x ≤ DENOMINATOR_LIMIT
        → size n x ≤ COEFFICIENT_LIMIT → IsReadAs n (number_text n x) x }
{}
