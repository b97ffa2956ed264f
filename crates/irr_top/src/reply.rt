// What a command replies, before it is written.
ghost use Rattle.std.specs.Prelude.{◌≡◌};
ghost use Rattle.irr_top.specs.declared.reply.NoReply.TheVariants.{Memory as want_of_memory};

use crate::status::Status;
use irr_memory::Memory;

/// A text, and the status of the run that writes it.
#[derive(Drop)]
pub(crate) struct Reply {
    pub(crate) status: Status,
    pub(crate) text: Vec<u8>,
}

/// Why there is no reply.
#[derive(Debug, Drop)]
pub(crate) enum NoReply {
    /// The first order of those that are needed that is above the limit.
    OrderTooLarge(u64),
    /// No memory was found.
    Memory,
}

impl From<Memory> for NoReply {
    ghost from_gives = { λ _ r. r ≡ want_of_memory };

    fn from(_error: Memory) -> NoReply {
        NoReply::Memory
    }
}
