//! The units in which moments are counted.
ghost use Rattle.std.specs.Prelude.{◌≡◌, pos};
ghost use Rattle.fn_time.specs.Unit.{is_nanoseconds, is_unit, nanos_in};

use vrl_builtin::is_one_of;

/// Whether a unit has this name.
pub(crate) fn is_unit(name: &str) -> bool
    ensures { result ≡ is_unit name.now }
{
    is_one_of(
        name,
        &["seconds", "milliseconds", "microseconds", "nanoseconds"],
    )
}

/// Whether it is the unit of which a moment may have more than 64 bits hold.
pub(crate) fn is_nanoseconds(name: &str) -> bool
    ensures { result ≡ is_nanoseconds name.now }
{
    name == "nanoseconds"
}

/// How many nanoseconds the unit of a name has.
pub(crate) fn nanos_in(name: &str) -> i64
    ensures { result ≡ pos (nanos_in name.now) }
{
    match name {
        "nanoseconds" => 1,
        "microseconds" => 1_000,
        "milliseconds" => 1_000_000,
        _ => 1_000_000_000,
    }
}
