ghost use Rattle.std.specs.Prelude.{◌≡◌};

use std::error::Error;
use std::fmt;
use std::marker::Model;
use vrl_value::Memory;

/// Numbers in order. A contract sees their list.
#[derive(Debug, Drop)]
pub struct Numbers {
    numbers: Vec<u32>,
}

impl Model for Numbers {
    ghost use Rattle.std.specs.Prelude.{List, ℕ};

    ghost Value = { List ℕ };

    ghost view = { λ n. n.numbers.items };
}

impl Numbers {
    /// These numbers, which it keeps.
    pub fn new(numbers: Vec<u32>) -> Numbers
        ensures { result ≡ numbers.items }
    {
        Numbers { numbers }
    }

    /// The numbers, borrowed.
    pub fn as_slice(&self) -> &[u32]
        ensures { result.now ≡ self.now }
    {
        &self.numbers
    }

    /// The vector that holds the numbers.
    pub fn into_vec(self) -> Vec<u32>
        ensures { result.items ≡ self }
    {
        self.numbers
    }
}

/// Why regex literals weren't built.
#[derive(Debug, Drop)]
pub enum BuildFault {
    /// Some are malformed: the numbers of all of these, ascending from 0 for the first literal.
    Malformed(Numbers),
    /// Want of memory; also where one would take more than the budget that the crate `regex` has
    /// for a pattern.
    Memory,
}

impl fmt::Display for BuildFault {
    ghost use Rattle.std.specs.Prelude.{Some};
    ghost use Rattle.vrl_pattern.specs.Malformed.{fault_text};

    ghost output = { λ fault. Some (fault_text fault) };

    fn fmt<W: fmt::Write>(&self, f: &mut fmt::Formatter<W>) -> fmt::Result {
        match self {
            BuildFault::Malformed(_) => write!(f, "malformed regex literal"),
            BuildFault::Memory => write!(f, "out of memory"),
        }
    }
}

impl Error for BuildFault {}

impl From<Memory> for BuildFault {
    ghost use Rattle.std.specs.Prelude.{◌≡◌};
    ghost use Rattle.vrl_pattern.specs.declared.fault.BuildFault.{BuildFault};

    ghost from_gives = { λ _ fault. fault ≡ BuildFault.Memory };

    fn from(_refused: Memory) -> BuildFault {
        BuildFault::Memory
    }
}
