use std::error::Error;
use std::fmt;
use vrl_value::Memory;

/// Why a value was not set at a path.
#[derive(Clone, Copy, Debug, PartialEq, Eq)]
pub enum SetFault {
    /// The result would be nested deeper than the limit of 128.
    TooDeep,
    /// Want of memory.
    Memory,
}

impl fmt::Display for SetFault {
    ghost use Rattle.vrl_path.specs.Fault.{fault_text};
    ghost use Rattle.std.specs.Prelude.{Some};

    ghost output = { λ fault. Some (fault_text fault) };

    fn fmt<W: fmt::Write>(&self, f: &mut fmt::Formatter<W>) -> fmt::Result {
        match self {
            SetFault::TooDeep => write!(f, "nested deeper than 128"),
            SetFault::Memory => write!(f, "out of memory"),
        }
    }
}

impl Error for SetFault {}

impl From<Memory> for SetFault {
    ghost use Rattle.std.specs.Prelude.{◌≡◌};
    ghost use Rattle.vrl_path.specs.declared.fault.SetFault.TheVariants as fault;

    ghost from_gives = { λ _ result. result ≡ fault.Memory };

    fn from(_want: Memory) -> SetFault {
        SetFault::Memory
    }
}
