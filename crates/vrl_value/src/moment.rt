ghost use Rattle.std.specs.Prelude.{◌≡◌, pos, IsSome, IfSome, ◌↔◌};
ghost use Rattle.vrl_value.specs.Moment.{IsInRange, last_nanos};

use std::marker::Model;

const LEAST: i128 = -62_167_219_200_000_000_000;

const GREATEST: i128 = 253_402_127_999_999_999_999;

/// A point in time: nanoseconds since 1970-01-01T00:00:00Z, leap seconds not counted, from
/// 0000-01-01T00:00:00Z to 9999-12-29T23:59:59.999999999Z. A contract sees that number.
#[derive(Clone, Copy)]
pub struct Moment {
    nanos: i128,
}

impl Model for Moment {
    ghost use Rattle.std.specs.Prelude.{ℤ};
    ghost use Rattle.vrl_value.specs.Moment.{IsInRange};

    ghost Value = { ℤ };

    ghost view = { λ m. m.nanos };

    ghost invariant = { λ m. IsInRange m.nanos };

    ghost inverse = { λ n. record { nanos = n } };
}

impl Moment {
    /// 1970-01-01T00:00:00Z.
    pub fn epoch() -> Moment
        ensures { result ≡ pos 0 }
    {
        Moment { nanos: 0 }
    }

    /// 9999-12-29T23:59:59.999999999Z, the last moment.
    pub fn last() -> Moment
        ensures { result ≡ pos last_nanos }
    {
        Moment { nanos: GREATEST }
    }

    /// The moment that is this many nanoseconds after 1970-01-01T00:00:00Z, or before it, where the
    /// number is negative. `None`: the number is out of the range.
    pub fn new(nanos: i128) -> Option<Moment>
        ensures range { IsSome result ↔ IsInRange nanos }
        ensures value { IfSome result (λ m. m ≡ nanos) }
    {
        if LEAST <= nanos && nanos <= GREATEST {
            Some(Moment { nanos })
        } else {
            None
        }
    }

    /// Nanoseconds since 1970-01-01T00:00:00Z.
    pub fn nanos(&self) -> i128
        ensures value { result ≡ self.now }
        ensures range { IsInRange result }
    {
        self.nanos
    }
}
