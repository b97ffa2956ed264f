// The sign of the phase.

/// The sign s of the phase exp(s*2*pi*i*k.t) that a translation t has at a wave vector k.
#[derive(Clone, Copy, Debug, PartialEq, Eq)]
pub enum Phase {
    Minus,
    Plus,
}
