use crate::{Fraction, Ratio, Vec3, gcd, lcm_checked};
use std::cmp::Ordering;

#[test]
fn divisors_and_multiples(rt: HostRuntime) {
    for (a, b, divisor, multiple) in [
        (0u64, 0u64, 0u64, Some(0u64)),
        (0, 7, 7, Some(0)),
        (12, 18, 6, Some(36)),
        (100_000, 99_999, 1, Some(9_999_900_000)),
        (1 << 63, 3, 1, None),
    ] {
        assert!(rt; gcd(a, b) == divisor);
        assert!(rt; lcm_checked(a, b) == multiple);
    }
}

#[test]
fn vectors_in_lowest_terms(rt: HostRuntime) {
    let half = Vec3::new([0, 6, -2], 4);
    assert!(rt; half.num == [0, 3, -1]);
    assert!(rt; half.den == 2);
    let reduced = half.reduce();
    assert!(rt; reduced.num == [0, 1, 1]);
    assert!(rt; reduced.den == 2);
    assert!(rt; Vec3::new([1, 0, 0], 3).cmp(&Vec3::new([1, 0, 0], 2)) == Ordering::Less);
    assert!(rt; Vec3::new([2, 5, 0], 4).cmp(&Vec3::new([1, 2, 0], 2)) == Ordering::Greater);
    assert!(rt; Vec3::new([2, 4, 0], 4) == Vec3::new([1, 2, 0], 2));
}

#[test]
fn fractions_over_two_types(rt: HostRuntime) {
    let long = Ratio::new(6i64, -4);
    assert!(rt; long.num == -3);
    assert!(rt; long.den == 2);
    assert!(rt; long.floor() == -2);
    let short = Ratio::new(7i32, 21);
    assert!(rt; short.num == 1);
    assert!(rt; short.den == 3);
    assert!(rt; short.floor() == 0);
}

#[test]
fn fractions_in_lowest_terms(rt: HostRuntime) {
    let half = Fraction::new(-2, 4);
    assert!(rt; half.num == -1 && half.den == 2);
}
