ghost use Rattle.std.specs.Prelude.{ℕ, ℤ, Option};
ghost use Rattle.vrl_io.specs.Moments.{Advances};

use vrl_value::Moment;

/// Tells the time.
pub trait Clock {
    /// The moments to come, from the next on, where it tells them.
    ghost ahead: { Self → Option (ℕ → ℤ) };

    /// The next moment. This can't fail: a clock that can't be read tells a moment of its own
    /// choice.
    fn moment(&mut self) -> Moment
        ensures { Advances (ahead self.old) result (ahead self.new) };
}
