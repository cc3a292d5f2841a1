//! Moments read from texts.
ghost use Rattle.std.specs.Prelude.{◌≡◌, IsTrue};
ghost use Rattle.fn_time.specs.Clock.{moment_at};
ghost use Rattle.fn_time.specs.Format.{is_read_format};
ghost use Rattle.fn_time.specs.ParseTimestamp.{reads_moments};
ghost use Rattle.fn_time.specs.Read.{is_rfc_3339, moment_read, read_by, timestamp_read, TimestampsAreRead};

use jiff::Timestamp;
use vrl_value::Moment;

/// `%+` reads the moment that a text names by RFC 3339, and nothing where it names none. This takes
/// no time: it is a law about the definitions.
pub fn timestamps_are_read()
    ensures { TimestampsAreRead }
{}

// The moment that a text names by RFC 3339. `None`: it names none.
fn timestamp_read(text: &str) -> Option<Moment>
    ensures { result ≡ timestamp_read text.now }
{
    Moment::read(text)
}

// The moment of an instant. `None`: it is out of the range.
fn moment_of(instant: Timestamp) -> Option<Moment>
    ensures { result ≡ moment_at instant.nanosecond }
{
    Moment::new(instant.as_nanosecond())
}

// The moment that jiff's strptime reads. `None`: it reads none, or the moment is out of the range.
fn read_by(format: &str, text: &str) -> Option<Moment>
    requires { IsTrue (is_read_format format.now) }
    ensures { result ≡ read_by format.now text.now }
{
    match Timestamp::strptime(format, text) {
        Ok(instant) => moment_of(instant),
        Err(_fault) => None,
    }
}

/// Whether the format is `%+`, which stands for timestamps of RFC 3339.
pub(crate) fn is_rfc_3339(format: &str) -> bool
    ensures { result ≡ is_rfc_3339 format.now }
{
    format == "%+"
}

/// The moment that a text names under a format. `None`: the format doesn't read the text, or the
/// moment is out of the range.
pub(crate) fn moment_read(format: &str, text: &str) -> Option<Moment>
    requires { IsTrue (reads_moments format.now) }
    ensures { result ≡ moment_read format.now text.now }
{
    if is_rfc_3339(format) {
        timestamp_read(text)
    } else {
        read_by(format, text)
    }
}
