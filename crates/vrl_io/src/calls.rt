ghost use Rattle.std.specs.Prelude.{◌≡◌};
ghost use Rattle.vrl_io.specs.Calls.{first_call, next_fails, after_call};

use std::marker::Model;

// The calls of a device, numbered from 0, and which of them fail.
#[derive(Drop)]
pub(crate) struct Calls {
    failing: Vec<u64>,
    // Wider than the numbers in the list, so that no call is taken for another.
    next: u128,
}

impl Model for Calls {
    ghost use Rattle.vrl_io.specs.Calls.{CallNumbers};

    ghost Value = { CallNumbers };

    ghost view = { λ c. record { failing = c.failing.items; next = c.next } };
}

impl Calls {
    // None was made yet, and those with these numbers will fail.
    pub(crate) fn new(failing: Vec<u64>) -> Calls
        ensures { result ≡ first_call failing.items }
    {
        Calls { failing, next: 0 }
    }

    // Counts a call, and answers whether it fails.
    pub(crate) fn count(&mut self) -> bool
        ensures fails { result ≡ next_fails self.old }
        ensures counted { self.new ≡ after_call self.old }
    {
        let number = self.next;
        self.next = number.saturating_add(1);
        self.failing
            .iter()
            .any(|failing| u128::from(*failing) == number)
    }
}
