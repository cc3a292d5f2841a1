use std::sync::atomic::{AtomicU64, Ordering};
use vrl_batch::Gate;

/// A gate at which place 0 and place 32 meet: each notes that it has come, and then waits for the
/// other one, for so many turns. It notes a miss where that doesn't come.
#[derive(Drop)]
pub struct Meeting {
    first: AtomicU64,
    second: AtomicU64,
    missed: AtomicU64,
    turns: u32,
}

impl Meeting {
    /// A gate that no place has passed, where each waits for so many turns.
    pub fn within(turns: u32) -> Meeting {
        Meeting {
            first: AtomicU64::new(0),
            second: AtomicU64::new(0),
            missed: AtomicU64::new(0),
            turns,
        }
    }

    /// Whether a place has waited in vain.
    pub fn is_missed(&self) -> bool {
        self.missed.load(Ordering::SeqCst) == 1
    }

    fn meet(&self, mine: &AtomicU64, other: &AtomicU64) {
        mine.store(1, Ordering::SeqCst);
        for _ in 0..self.turns {
            if other.load(Ordering::SeqCst) == 1 {
                return;
            }
        }
        self.missed.store(1, Ordering::SeqCst);
    }
}

impl Gate for Meeting {
    fn pass(&self, place: usize) {
        if place == 0 {
            self.meet(&self.first, &self.second);
        }
        if place == 32 {
            self.meet(&self.second, &self.first);
        }
    }
}
