use crate::{capped_value, decimal_digits, digit_run, unique_numbers};

#[test]
fn runs_end_at_the_first_byte_that_is_no_digit(rt: HostRuntime) {
    decimal_digits();
    unique_numbers();
    for (text, run) in [("", 0), ("x1", 0), ("007/12", 3), ("12", 2)] {
        assert_eq!(rt; digit_run(text.as_bytes()), run, "at {text}");
    }
}

#[test]
fn values_are_read_up_to_the_cap(rt: HostRuntime) {
    for (digits, cap, value) in [
        ("0012", 12, Some(12)),
        ("0012", 11, None),
        ("18446744073709551615", u64::MAX, Some(u64::MAX)),
        ("18446744073709551616", u64::MAX, None),
    ] {
        assert_eq!(rt; capped_value(digits.as_bytes(), cap), value, "at {digits}");
    }
}
