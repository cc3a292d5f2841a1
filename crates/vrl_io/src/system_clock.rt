ghost use Rattle.std.specs.Prelude.{◌≡◌, pos, min, None};
ghost use Rattle.std.specs.Duration.{as_nanos};
ghost use Rattle.vrl_value.specs.Moment.{last_nanos};

use crate::clock::Clock;
use std::marker::Model;
use std::rt;
use std::time::Duration;
use vrl_value::Moment;

/// The clock of a runtime. It does not tell the moments to come. A contract sees the runtime.
#[derive(Drop)]
pub struct SystemClock<R> {
    rt: R,
}

impl<R> Model for SystemClock<R> {
    ghost Value = { R };

    ghost view = { λ c. c.rt };
}

impl<R> SystemClock<R> {
    /// The clock of this runtime.
    pub fn new(rt: R) -> SystemClock<R>
        ensures { result ≡ rt }
    {
        SystemClock { rt }
    }
}

// The moment that comes this long after 1970, or the last one, where that is later.
fn moment_after(since_1970: Duration) -> Moment
    ensures { result ≡ pos (min (as_nanos since_1970) last_nanos) }
{
    Moment::new(since_1970.as_nanos() as i128).unwrap_or(Moment::last())
}

impl<R: rt::Clock> Clock for SystemClock<R> {
    ghost ahead = { λ _. None };

    /// The time now, the last moment where it is later, and 1970 where the clock can't be read.
    fn moment(&mut self) -> Moment {
        match self.rt.since_1970() {
            Ok(since_1970) => moment_after(since_1970),
            Err(_) => Moment::epoch(),
        }
    }
}
