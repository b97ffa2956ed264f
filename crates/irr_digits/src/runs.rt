// Runs of digits and their values.
ghost use Rattle.std.specs.Prelude.{ℕ, ◌≡◌, ◌<◌, ◌≤◌, ◌↔◌, length, take, drop, IfSome, IsNone};
ghost use Rattle.std.specs.Str.Parse.{AllDigits, IsNumeral, digits_value};
ghost use Rattle.irr_digits.specs.DigitRun.{BeginsWithDigit};

/// The length of the longest front of `text` that has only digits.
#[tactic(auto, using(crate::proofs::Numerals::run_more))]
pub fn digit_run(text: &[u8]) -> usize
    ensures within { result ≤ length text.now }
    ensures digits { AllDigits 10 (take result text.now) }
    ensures longest { ¬ (BeginsWithDigit (drop result text.now)) }
{
    let mut run = 0;
    while run < text.len() && text[run].is_ascii_digit() {
        run += 1;
    }
    run
}

/// The number that `digits` write in base 10, where it is at most `cap`. Leading zeros are allowed.
pub fn capped_value(digits: &[u8], cap: u64) -> Option<u64>
    requires { AllDigits 10 digits.now }
    ensures value { IfSome result (λ n. n ≡ digits_value 10 digits.now) }
    ensures above { IsNone result ↔ (cap < digits_value 10 digits.now) }
{
    let mut value = 0u64;
    for digit in digits {
        value = value.checked_mul(10)?.checked_add(u64::from(digit - b'0'))?;
    }
    (value <= cap).then_some(value)
}
