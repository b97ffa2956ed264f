// Sources, and reading one to its end.
ghost use Rattle.std.specs.Prelude.{◌≡◌, ◌+◌, ◌<◌, ◌≤◌, ⊤, length, take, drop, IfOk, OnOk, OnErr, IsErrOf, vec_len};
ghost use Rattle.irr_io.specs.declared.reading.InFault.TheVariants.{Read, Memory};
ghost use Rattle.irr_io.specs.Count.{NeverFalls, CountsOne, CountsAtMost};
ghost use Rattle.irr_io.specs.Views.{SourceView, IsAtEnd, Takes, TakesAll, Took, ReadFailed};

use crate::Failed;
use std::alloc::{AllocError, Global};
use thiserror::Error;

/// What gives bytes.
pub trait Source {
    // The bytes that are still to come and the number of reads, where they are told, and how many reads
    // failed, as a count of 64 bits.
    ghost view: { Self → SourceView };

    /// Puts the next bytes at the start of `buf` and returns how many, which is 0 only at the end of
    /// input or where `buf` is empty. A read that fails is counted and takes nothing.
    fn read(&mut self, buf: &mut [u8]) -> Result<usize, Failed>
        ensures fits { IfOk result (λ n. n ≤ length buf.new) }
        ensures taken { IfOk result (λ n. Takes (view self.old) (view self.new) (take n buf.new)) }
        ensures end { IfOk result (λ n. n ≡ 0 → 0 < length buf.old → IsAtEnd (view self.new)) }
        ensures kept { OnErr result ((view self.new).left ≡ (view self.old).left) }
        ensures failed { OnErr result (ReadFailed (view self.old) (view self.new)) }
        ensures never_falls { NeverFalls (view self.old).faults (view self.new).faults }
        ensures counted { CountsOne (view self.old).reads (view self.new).reads };
}

/// Why a source was not read to its end.
#[derive(Clone, Copy, Debug, PartialEq, Eq, Error)]
pub enum InFault {
    /// A read failed.
    #[error("a read failed")]
    Read,
    /// More bytes came than the limit allows.
    #[error("more bytes than the limit")]
    TooLong,
    /// Memory was wanting.
    #[error("out of memory")]
    Memory,
}

impl From<Failed> for InFault {
    ghost from_gives = { λ _ fault. fault ≡ Read };

    fn from(_failed: Failed) -> InFault {
        InFault::Read
    }
}

impl From<AllocError> for InFault {
    ghost from_gives = { λ _ fault. fault ≡ Memory };

    fn from(_refused: AllocError) -> InFault {
        InFault::Memory
    }
}

// The room for the first read; it doubles whenever it is full.
const FIRST_ROOM: usize = 4 * 1024;

/// Reads `source` to its end, and returns all bytes, at most `limit` of them. Refused at the first
/// read that fails, as soon as more bytes came, and for want of memory.
pub fn read_all<I: Source>(alloc: Global, source: &mut I, limit: usize) -> Result<Vec<u8>, InFault>
    ensures all { IfOk result (λ bytes. TakesAll (I.view source.old) (I.view source.new) bytes.items) }
    ensures within { IfOk result (λ bytes. vec_len bytes ≤ limit) }

    // Too long only after more than `limit` bytes came, and a failed read only before that.
    ensures too_long { IsErrOf result InFault.TooLong
        → Took (I.view source.old) (I.view source.new) (λ piece. limit < length piece) }
    ensures early { IsErrOf result InFault.Read
        → Took (I.view source.old) (I.view source.new) (λ piece. length piece ≤ limit) }
    ensures failed { IsErrOf result InFault.Read → ReadFailed (I.view source.old) (I.view source.new) }

    // What is left after a refusal is a rear part of what was left.
    ensures suffix { OnErr result (Took (I.view source.old) (I.view source.new) (λ _. ⊤)) }

    ensures never_falls { NeverFalls (I.view source.old).faults (I.view source.new).faults }
    ensures reads { CountsAtMost (limit + 2) (I.view source.old).reads (I.view source.new).reads }
{
    let mut bytes = Vec::new(alloc);
    let mut filled = 0;
    while filled <= limit {
        make_room(&mut bytes, filled, limit)?;
        let n = read_after(source, &mut bytes, filled)?;
        if n == 0 {
            bytes.truncate(filled);
            return Ok(bytes);
        }
        filled += n;
    }
    Err(InFault::TooLong)
}

// One read, into `bytes` after the first `filled`.
fn read_after<I: Source>(
    source: &mut I,
    bytes: &mut Vec<u8>,
    filled: usize,
) -> Result<usize, Failed>
    requires { filled < vec_len bytes.old }
    ensures front { take filled bytes.new.items ≡ take filled bytes.old.items }
    ensures fits { IfOk result (λ n. filled + n ≤ length bytes.new.items) }
    ensures taken { IfOk result (λ n. Takes (I.view source.old) (I.view source.new)
        (take n (drop filled bytes.new.items))) }
    ensures end { IfOk result (λ n. n ≡ 0 → IsAtEnd (I.view source.new)) }
    ensures kept { OnErr result ((I.view source.new).left ≡ (I.view source.old).left) }
    ensures failed { OnErr result (ReadFailed (I.view source.old) (I.view source.new)) }
    ensures never_falls { NeverFalls (I.view source.old).faults (I.view source.new).faults }
    ensures counted { CountsOne (I.view source.old).reads (I.view source.new).reads }
{
    source.read(&mut bytes[filled..])
}

// Where the first `filled` are all of `bytes`, makes it longer by zeros: to twice its length, or to
// `limit` bytes and one more.
fn make_room(bytes: &mut Vec<u8>, filled: usize, limit: usize) -> Result<(), AllocError>
    requires within { filled ≤ vec_len bytes.old }
    requires below { filled ≤ limit }
    ensures front { take filled bytes.new.items ≡ take filled bytes.old.items }
    ensures within { filled ≤ vec_len bytes.new }
    ensures room { OnOk result (filled < vec_len bytes.new) }
{
    if filled < bytes.len() {
        return Ok(());
    }
    let more = filled.max(FIRST_ROOM - 1).min(limit - filled);
    bytes.resize(filled + more + 1, 0)
}
