ghost use Rattle.std.specs.Prelude.{◌≡◌};

use std::alloc::{AllocError, AllocFailed};
use vrl_path::SetFault;
use vrl_value::{Chars, Memory, Value};

/// Why an expression ends without a value.
#[derive(Drop)]
pub enum Stop {
    /// With an error: its text.
    Error(Chars),
    /// With an `abort`: its message, where there is one.
    Aborted(Option<Chars>),
    /// With a `return`: the value that is returned.
    Returned(Value),
    /// With an error of a call that is written with `!`: its text.
    Banged(Chars),
    /// A root, or the value of a call, would be nested too deeply.
    Deep,
    /// Want of memory.
    Memory,
}

impl From<Memory> for Stop {
    ghost use Rattle.std.specs.Prelude.{◌≡◌};
    ghost use Rattle.vrl_store.specs.declared.stop.Stop.TheVariants as stop;

    ghost from_gives = { λ _ result. result ≡ stop.Memory };

    fn from(_refused: Memory) -> Stop {
        Stop::Memory
    }
}

impl From<AllocError> for Stop {
    ghost use Rattle.std.specs.Prelude.{◌≡◌};
    ghost use Rattle.vrl_store.specs.declared.stop.Stop.TheVariants as stop;

    ghost from_gives = { λ _ result. result ≡ stop.Memory };

    fn from(_refused: AllocError) -> Stop {
        Stop::Memory
    }
}

impl<T: Drop> From<AllocFailed<T>> for Stop {
    ghost use Rattle.std.specs.Prelude.{◌≡◌};
    ghost use Rattle.vrl_store.specs.declared.stop.Stop.TheVariants as stop;

    ghost from_gives = { λ _ result. result ≡ stop.Memory };

    fn from(_refused: AllocFailed<T>) -> Stop {
        Stop::Memory
    }
}

impl From<SetFault> for Stop {
    ghost use Rattle.vrl_store.specs.Results.{IsStopFor};

    ghost from_gives = { IsStopFor };

    fn from(fault: SetFault) -> Stop {
        match fault {
            SetFault::TooDeep => Stop::Deep,
            SetFault::Memory => Stop::Memory,
        }
    }
}
