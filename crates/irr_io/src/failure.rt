// The answer of a read or a write that failed.
use thiserror::Error;

/// A read or a write that failed, and that its source or sink counted.
#[derive(Clone, Copy, Debug, PartialEq, Eq, Error)]
#[error("a read or a write failed")]
pub struct Failed;
