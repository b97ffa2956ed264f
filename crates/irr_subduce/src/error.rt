// Why a subgroup is refused.
ghost use Rattle.std.specs.Prelude.{◌≡◌};

use irr_close::CloseError;
use thiserror::Error;

/// Why generators in a setting give no subgroup.
#[derive(Clone, Copy, Debug, PartialEq, Eq, Error)]
pub enum SubError {
    /// The determinant of P is 0.
    #[error("the basis is singular")]
    Singular,
    /// At 0 a column of P is no translation of the group; else the image of the generator with this number, counted from 1, is not in
    /// the group.
    #[error("not a subgroup: {0}")]
    NotSubgroup(u32),
    /// More than 48 rotations are generated, or an entry of one is above 9 in absolute value.
    #[error("more than 48 rotations, or an entry above 9")]
    Rotations,
    /// The least common denominator of the generators' vectors is above 100,000.
    #[error("a common denominator above 100000")]
    Denominator,
    /// The translations modulo the whole ones are more than 32.
    #[error("more than 32 centrings")]
    Centrings,
    /// No memory was found.
    #[error("out of memory")]
    Memory,
}

impl SubError {
    ghost use Rattle.irr_subduce.specs.CloseErrors.{sub_error};

    /// The refusal of the generators in the new basis.
    pub(crate) fn of_close(error: CloseError) -> SubError
        ensures { result ≡ sub_error error }
    {
        match error {
            CloseError::Rotations => SubError::Rotations,
            CloseError::Denominator => SubError::Denominator,
            CloseError::Centrings => SubError::Centrings,
            CloseError::Memory => SubError::Memory,
        }
    }
}
