use crate::refusal::Refusal;
use std::fmt;
use vrl_json::JsonFault;
use vrl_value::{Chars, Memory};

/// Why a kind file has no kind.
#[derive(Drop)]
pub enum KindFault {
    /// The file has more than `FILE_LIMIT` bytes.
    TooLong,
    /// It is no JSON text (RFC 8259) in UTF-8, or one with a number that is not whole.
    NotJson,
    /// A value in it is at fault: the JSON Pointer (RFC 6901) of the first one, which is empty for the whole.
    Bad(Chars),
    /// Want of memory.
    Memory,
}

impl fmt::Display for KindFault {
    ghost use Rattle.std.specs.Prelude.{Some};
    ghost use Rattle.vrl_kindfile.specs.Lines.{text_of};

    ghost output = { λ fault. Some (text_of fault) };

    fn fmt<W: fmt::Write>(&self, f: &mut fmt::Formatter<W>) -> fmt::Result {
        match self {
            KindFault::TooLong => write!(f, "kind file: too long"),
            KindFault::NotJson => write!(f, "kind file: not JSON"),
            KindFault::Bad(pointer) => {
                let pointer = pointer.as_str();
                write!(f, "kind file: bad kind at {pointer}")
            }
            KindFault::Memory => write!(f, "out of memory"),
        }
    }
}

impl From<Memory> for KindFault {
    ghost use Rattle.std.specs.Prelude.{◌≡◌};
    ghost use Rattle.vrl_kindfile.specs.declared.fault.KindFault.TheVariants as fault;

    ghost from_gives = { λ _ given. given ≡ fault.Memory };

    fn from(_refused: Memory) -> KindFault {
        KindFault::Memory
    }
}

impl From<JsonFault> for KindFault {
    ghost use Rattle.std.specs.Prelude.{◌≡◌};
    ghost use Rattle.vrl_kindfile.specs.Lines.{of_json};

    ghost from_gives = { λ refused given. given ≡ of_json refused };

    fn from(refused: JsonFault) -> KindFault {
        match refused {
            JsonFault::NotJson | JsonFault::NotWhole => KindFault::NotJson,
            JsonFault::Memory => KindFault::Memory,
        }
    }
}

impl From<Refusal> for KindFault {
    ghost use Rattle.std.specs.Prelude.{◌≡◌};
    ghost use Rattle.vrl_kindfile.specs.Lines.{of_refusal};

    ghost from_gives = { λ refused given. given ≡ of_refusal refused };

    fn from(refused: Refusal) -> KindFault {
        match refused {
            Refusal::Bad(pointer) => KindFault::Bad(pointer),
            Refusal::Memory => KindFault::Memory,
        }
    }
}
