ghost use Rattle.std.specs.Prelude.{◌≡◌, Some, codes};

use std::alloc::{AllocError, AllocFailed};
use std::error::Error;
use std::fmt;
use vrl_value::Memory;

/// A device did not do what was asked of it. Its count of faults has risen.
#[derive(Clone, Copy, Debug, PartialEq, Eq)]
pub struct Failed;

impl fmt::Display for Failed {
    ghost output = { λ _. Some (codes "the device failed") };

    fn fmt<W: fmt::Write>(&self, f: &mut fmt::Formatter<W>) -> fmt::Result {
        write!(f, "the device failed")
    }
}

impl Error for Failed {}

/// Why a store gave no bytes. `Failed` and `Memory` turn into it where `?` passes them on.
#[derive(Clone, Copy, Debug, PartialEq, Eq)]
pub enum LoadFault {
    /// The store failed: the name stands at the end of its list of failures.
    Failed,
    /// Want of memory: an allocation was refused. The list of failures stands as it was.
    Memory,
}

impl fmt::Display for LoadFault {
    ghost use Rattle.vrl_io.specs.Faults.{text_of};

    ghost output = { λ fault. Some (text_of fault) };

    fn fmt<W: fmt::Write>(&self, f: &mut fmt::Formatter<W>) -> fmt::Result {
        match self {
            LoadFault::Failed => write!(f, "the store failed"),
            LoadFault::Memory => write!(f, "out of memory"),
        }
    }
}

impl Error for LoadFault {}

impl From<Memory> for LoadFault {
    ghost use Rattle.vrl_io.specs.declared.fault.LoadFault.{LoadFault};

    ghost from_gives = { λ _ fault. fault ≡ LoadFault.Memory };

    fn from(_refused: Memory) -> LoadFault {
        LoadFault::Memory
    }
}

impl From<AllocError> for LoadFault {
    ghost use Rattle.vrl_io.specs.declared.fault.LoadFault.{LoadFault};

    ghost from_gives = { λ _ fault. fault ≡ LoadFault.Memory };

    fn from(_refused: AllocError) -> LoadFault {
        LoadFault::Memory
    }
}

impl<T: Drop> From<AllocFailed<T>> for LoadFault {
    ghost use Rattle.vrl_io.specs.declared.fault.LoadFault.{LoadFault};

    ghost from_gives = { λ _ fault. fault ≡ LoadFault.Memory };

    fn from(_refused: AllocFailed<T>) -> LoadFault {
        LoadFault::Memory
    }
}

impl From<Failed> for LoadFault {
    ghost use Rattle.vrl_io.specs.declared.fault.LoadFault.{LoadFault};

    ghost from_gives = { λ _ fault. fault ≡ LoadFault.Failed };

    fn from(_failed: Failed) -> LoadFault {
        LoadFault::Failed
    }
}
