ghost use Rattle.std.specs.Prelude.{◌≡◌};

use vrl_io::Failed;
use vrl_value::Memory;

/// Why a batch was not read. Each further call answers the same.
#[derive(Clone, Copy, Debug, PartialEq, Eq)]
pub enum BatchFault {
    /// The source failed.
    ReadFault,
    /// The reader has taken 2^40 bytes, and more follow.
    TooMuch,
    /// Want of memory.
    Memory,
}

impl From<Failed> for BatchFault {
    ghost use Rattle.vrl_batch.specs.declared.fault.BatchFault.{BatchFault};

    ghost from_gives = { λ _ fault. fault ≡ BatchFault.ReadFault };

    fn from(_failed: Failed) -> BatchFault {
        BatchFault::ReadFault
    }
}

impl From<Memory> for BatchFault {
    ghost use Rattle.vrl_batch.specs.declared.fault.BatchFault.{BatchFault};

    ghost from_gives = { λ _ fault. fault ≡ BatchFault.Memory };

    fn from(_refused: Memory) -> BatchFault {
        BatchFault::Memory
    }
}
