//! Want of memory, as an answer of its own.
#![tactic(auto)]

use std::alloc::{AllocError, AllocFailed};
use thiserror::Error;

/// No memory was found. No other fault is ever reported as this one.
#[derive(Clone, Copy, Debug, PartialEq, Eq, Error)]
#[error("out of memory")]
pub struct Memory;

impl From<AllocError> for Memory {
    fn from(_error: AllocError) -> Memory {
        Memory
    }
}

impl<T: Drop> From<AllocFailed<T>> for Memory {
    fn from(_error: AllocFailed<T>) -> Memory {
        Memory
    }
}
