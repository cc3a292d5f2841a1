ghost use Rattle.std.specs.Prelude.{◌≡◌, pos, slice_index_or, Some};

use crate::clock::Clock;
use std::marker::Model;
use std::vec::IntoIter;
use vrl_value::Moment;

/// Tells chosen moments in order, and after the last of them 1970-01-01T00:00:00Z. A contract sees
/// the list of those to come.
#[derive(Drop)]
pub struct MemoryClock {
    moments: IntoIter<Moment>,
}

impl Model for MemoryClock {
    ghost use Rattle.std.specs.Prelude.{List, ℤ};
    ghost use Rattle.std.specs.Vec.Iter.{into_iter_items};

    ghost Value = { List ℤ };

    ghost view = { λ c. into_iter_items c.moments };
}

impl MemoryClock {
    /// A clock that will tell these moments.
    pub fn new(moments: Vec<Moment>) -> MemoryClock
        ensures { result ≡ moments.items }
    {
        MemoryClock {
            moments: moments.into_iter(),
        }
    }
}

impl Clock for MemoryClock {
    ghost ahead = { λ moments. Some (λ i. slice_index_or moments i (pos 0)) };

    fn moment(&mut self) -> Moment {
        self.moments.next().unwrap_or(Moment::epoch())
    }
}
