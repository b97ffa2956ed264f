//! Wave vectors.
#![tactic(auto)]

mod action;
mod equivalence;
mod laws;
mod periods;
mod read;
mod reciprocal;
mod reduction;
mod shape;
mod wave;

pub use action::act;
pub use equivalence::equivalent;
pub use laws::{
    centrings_of_group, one_wave_vector_is_written, printed_waves_are_read, wave_vectors_of_group,
};
pub use periods::period;
pub use read::{WaveError, read_wave};
pub use reduction::reduced;
pub use wave::Wave;

#[cfg(test)]
mod tests;
