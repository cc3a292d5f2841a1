//! The text of a moment.
ghost use Rattle.std.specs.Prelude.{◌≡◌, ◌<◌, IfOk};
ghost use Rattle.jiff.specs.Words.{civil_nanos};
ghost use Rattle.vrl_value.specs.Moment.{IsInRange};
ghost use Rattle.vrl_value.specs.MomentText.{fewest_places, moment_text};

use crate::lists::Chars;
use crate::memory::Memory;
use crate::moment::Moment;
use jiff::Timestamp;
use jiff::civil::DateTime;
use jiff::fmt::temporal::DateTimePrinter;
use jiff::tz::Offset;
use std::alloc::Global;

impl Moment {
    /// The text of RFC 3339 in UTC: `YYYY-MM-DDThh:mm:ssZ`, with `.` and three, six or nine digits
    /// before `Z` where the fraction of the second isn't zero, the fewest that lose nothing.
    /// `Memory`: want of memory.
    pub fn text(&self, alloc: Global) -> Result<Chars, Memory>
        ensures { IfOk result (λ text. text ≡ moment_text self.now) }
    {
        let shown = utc_clock(self.nanos());
        let places = places_of(shown.subsec_nanosecond() as u32);
        let printer = DateTimePrinter::new().precision(Some(places));
        let written = printer.datetime_text(shown.to_plain());
        let text = written.as_str();
        Ok(Chars::new(format!(in alloc; "{text}Z")?))
    }
}

// What a clock in UTC shows so many nanoseconds after 1970-01-01T00:00:00Z.
fn utc_clock(nanos: i128) -> DateTime
    requires { IsInRange nanos }
    ensures { civil_nanos result ≡ nanos }
{
    match Timestamp::from_nanosecond(nanos) {
        Ok(timestamp) => Offset::UTC.to_datetime(timestamp),
        Err(_) => unreachable!(),
    }
}

// How many digits of a fraction in nanoseconds are written.
fn places_of(nanos: u32) -> u8
    ensures { result ≡ fewest_places nanos }
{
    if nanos == 0 {
        0
    } else if nanos % 1_000_000 == 0 {
        3
    } else if nanos % 1_000 == 0 {
        6
    } else {
        9
    }
}
