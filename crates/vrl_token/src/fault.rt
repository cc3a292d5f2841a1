use std::alloc::{AllocError, AllocFailed};
use std::error::Error;
use std::fmt;
use vrl_diag::Diagnostic;
use vrl_value::Memory;

/// Why a text has no tokens, or tokens have no tree.
#[derive(Clone, Copy, Debug, PartialEq, Eq)]
pub enum SyntaxFault {
    /// This is wrong with the text.
    Fault(Diagnostic),
    /// Want of memory.
    Memory,
}

impl fmt::Display for SyntaxFault {
    ghost use Rattle.std.specs.Prelude.{Some};
    ghost use Rattle.vrl_token.specs.OnFault.{fault_text};

    ghost output = { λ fault. Some (fault_text fault) };

    fn fmt<W: fmt::Write>(&self, f: &mut fmt::Formatter<W>) -> fmt::Result {
        match self {
            SyntaxFault::Fault(fault) => {
                let code = fault.code;
                write!(f, "error {code}")
            }
            SyntaxFault::Memory => write!(f, "out of memory"),
        }
    }
}

impl Error for SyntaxFault {}

impl From<Memory> for SyntaxFault {
    ghost use Rattle.std.specs.Prelude.{◌≡◌};
    ghost use Rattle.vrl_token.specs.declared.fault.SyntaxFault.{SyntaxFault};

    ghost from_gives = { λ _ fault. fault ≡ SyntaxFault.Memory };

    fn from(_refused: Memory) -> SyntaxFault {
        SyntaxFault::Memory
    }
}

impl From<AllocError> for SyntaxFault {
    ghost use Rattle.std.specs.Prelude.{◌≡◌};
    ghost use Rattle.vrl_token.specs.declared.fault.SyntaxFault.{SyntaxFault};

    ghost from_gives = { λ _ fault. fault ≡ SyntaxFault.Memory };

    fn from(_refused: AllocError) -> SyntaxFault {
        SyntaxFault::Memory
    }
}

impl<T: Drop> From<AllocFailed<T>> for SyntaxFault {
    ghost use Rattle.std.specs.Prelude.{◌≡◌};
    ghost use Rattle.vrl_token.specs.declared.fault.SyntaxFault.{SyntaxFault};

    ghost from_gives = { λ _ fault. fault ≡ SyntaxFault.Memory };

    fn from(_refused: AllocFailed<T>) -> SyntaxFault {
        SyntaxFault::Memory
    }
}
