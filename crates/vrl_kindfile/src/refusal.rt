use vrl_value::{Chars, Memory};

// Why a description, or a part of one, has no kind.
#[derive(Drop)]
pub(crate) enum Refusal {
    // The pointer of the first value at fault, from the value that was read.
    Bad(Chars),
    // Want of memory.
    Memory,
}

impl From<Memory> for Refusal {
    ghost use Rattle.std.specs.Prelude.{◌≡◌};
    ghost use Rattle.vrl_kindfile.specs.declared.refusal.Refusal.TheVariants as refusal;

    ghost from_gives = { λ _ given. given ≡ refusal.Memory };

    fn from(_refused: Memory) -> Refusal {
        Refusal::Memory
    }
}
