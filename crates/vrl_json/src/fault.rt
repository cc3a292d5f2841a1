use json::Invalid;
use std::error::Error;
use std::fmt;
use vrl_value::Memory;

/// Why no value was read from bytes.
#[derive(Clone, Copy, Debug, PartialEq, Eq)]
pub enum JsonFault {
    /// The bytes are no JSON text (RFC 8259) in UTF-8, or one that nests deeper than 127.
    NotJson,
    /// They are one, and a number of its value is not a whole number of 64 bits with a sign.
    NotWhole,
    /// Want of memory.
    Memory,
}

impl fmt::Display for JsonFault {
    ghost use Rattle.std.specs.Prelude.{Some};
    ghost use Rattle.vrl_json.specs.Faults.{text_of};

    ghost output = { λ fault. Some (text_of fault) };

    fn fmt<W: fmt::Write>(&self, f: &mut fmt::Formatter<W>) -> fmt::Result {
        match self {
            JsonFault::NotJson => write!(f, "not JSON"),
            JsonFault::NotWhole => write!(f, "not whole numbers"),
            JsonFault::Memory => write!(f, "out of memory"),
        }
    }
}

impl Error for JsonFault {}

impl From<Memory> for JsonFault {
    ghost use Rattle.std.specs.Prelude.{◌≡◌};
    ghost use Rattle.vrl_json.specs.declared.fault.JsonFault.{JsonFault};

    ghost from_gives = { λ _ fault. fault ≡ JsonFault.Memory };

    fn from(_refused: Memory) -> JsonFault {
        JsonFault::Memory
    }
}

impl From<Invalid> for JsonFault {
    ghost use Rattle.std.specs.Prelude.{◌≡◌};
    ghost use Rattle.vrl_json.specs.declared.fault.JsonFault.{JsonFault};

    ghost from_gives = { λ _ fault. fault ≡ JsonFault.NotJson };

    fn from(_invalid: Invalid) -> JsonFault {
        JsonFault::NotJson
    }
}
