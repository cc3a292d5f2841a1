//! Texts of moments.
ghost use Rattle.std.specs.Prelude.{◌≡◌, IfOk, IsTrue};
ghost use Rattle.jiff_core.specs.declared.error.Error.TheVariants.{OutOfMemory};
ghost use Rattle.vrl_value.specs.Moment.{IsInRange};
ghost use Rattle.fn_time.specs.Format.{is_shown_format};
ghost use Rattle.fn_time.specs.FormatTimestamp.{shows_moments};
ghost use Rattle.fn_time.specs.Shown.{shown_by, text_shown};

use crate::read::is_rfc_3339;
use jiff::{Error, Timestamp};
use std::alloc::Global;
use vrl_value::{Chars, Memory, Moment};

// The instant of a moment.
fn instant_of(moment: Moment) -> Timestamp
    ensures instant { result.nanosecond ≡ moment }
    ensures range { IsInRange result.nanosecond }
{
    match Timestamp::from_nanosecond(moment.nanos()) {
        Ok(instant) => instant,
        Err(_fault) => unreachable!(),
    }
}

// Want of memory, which is all that keeps jiff's strftime from a text here.
fn memory_of(_fault: Error) -> Memory
    requires { _fault ≡ OutOfMemory }
{
    Memory
}

// What jiff's strftime shows of a clock in UTC. `Memory`: want of memory.
fn shown_by(alloc: Global, format: &str, moment: Moment) -> Result<Chars, Memory>
    requires { IsTrue (is_shown_format format.now) }
    ensures { IfOk result (λ text. text ≡ shown_by format.now moment) }
{
    match instant_of(moment).strftime(alloc, format) {
        Ok(text) => Ok(Chars::new(text)),
        Err(fault) => Err(memory_of(fault)),
    }
}

/// The text of a moment under a format. `Memory`: want of memory.
pub(crate) fn text_shown(alloc: Global, format: &str, moment: Moment) -> Result<Chars, Memory>
    requires { IsTrue (shows_moments format.now) }
    ensures { IfOk result (λ text. text ≡ text_shown format.now moment) }
{
    if is_rfc_3339(format) {
        moment.text(alloc)
    } else {
        shown_by(alloc, format, moment)
    }
}
