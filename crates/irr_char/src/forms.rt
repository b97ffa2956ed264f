// Canonical forms with a positive denominator.
ghost use Rattle.std.specs.Prelude.{◌<◌};

/// The terms of a canonical form, by increasing exponent, over a positive denominator.
#[derive(Drop)]
pub(crate) struct Form {
    pub(crate) den: u64,
    pub(crate) terms: Vec<(u32, i128)>,
    pub ghost positive: { 0 < den },
}
