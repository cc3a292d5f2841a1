//! Moments read from texts.
ghost use Rattle.std.specs.Prelude.{◌≡◌, ◌^◌, ◌<◌, ◌≤◌, ℤ, pos, neg_ℤ, not, position, IfSome, IfNone, OnSome};
ghost use Rattle.std.specs.Char.{is_ascii_digit};
ghost use Rattle.vrl_value.specs.Rfc3339.{IsReading};
ghost use Rattle.jiff.specs.Words.{civil_nanos, IsBetween};
ghost use Rattle.vrl_value.specs.Scan.{IsSmall, IsOnClock, IsNamed, written_clock, Gives, number_at, behind, behind_letter, fraction_at, nanos_at, offset_at, zone_at, written_at};

use crate::moment::Moment;
use jiff::civil::{Date, DateTime, Time};
use jiff::tz::Offset;

// What a timestamp writes: the numbers of its parts, and how many seconds its clock is ahead of
// UTC.
#[derive(Clone, Copy)]
struct Written {
    year: u32,
    month: u32,
    day: u32,
    hour: u32,
    minute: u32,
    second: u32,
    nanosecond: u32,
    offset: i32,
}

// The number of so many digits, and what is left.
fn number(text: &[u8], digits: usize) -> Option<(u32, &[u8])>
    requires { digits ≤ 9 }
    ensures value { Gives (λ n. (n.0, n.1.now)) result (number_at digits text.now) }
    ensures bound { IfSome result (λ n. n.0 < 10 ^ digits) }
{
    let mut number = 0;
    let mut rest = text;
    for _ in 0..digits {
        let (digit, behind) = rest.split_first()?;
        if !digit.is_ascii_digit() {
            return None;
        }
        number = number * 10 + (digit - b'0') as u32;
        rest = behind;
    }
    Some((number, rest))
}

// The number of two digits behind a sign.
#[tactic(auto, unfolding(crate::specs::Scan::behind))]
fn number_behind(text: &[u8], sign: u8) -> Option<(u32, &[u8])>
    ensures value { Gives (λ n. (n.0, n.1.now)) result (behind sign text.now) }
    ensures bound { IfSome result (λ n. n.0 < 100) }
{
    let (first, rest) = text.split_first()?;
    if *first == sign {
        number(rest, 2)
    } else {
        None
    }
}

// The number of two digits behind the letter between date and time.
#[tactic(auto, unfolding(crate::specs::Scan::behind_letter))]
fn number_behind_letter(text: &[u8]) -> Option<(u32, &[u8])>
    ensures value { Gives (λ n. (n.0, n.1.now)) result (behind_letter text.now) }
    ensures bound { IfSome result (λ n. n.0 < 100) }
{
    let (first, rest) = text.split_first()?;
    if *first == b'T' || *first == b't' {
        number(rest, 2)
    } else {
        None
    }
}

// The fraction of a second in nanoseconds, where there is one.
#[tactic(auto, unfolding(crate::specs::Scan::fraction_at))]
fn fraction(text: &[u8]) -> Option<(u32, &[u8])>
    ensures value { Gives (λ n. (n.0, n.1.now)) result (fraction_at text.now) }
    ensures bound { IfSome result (λ n. n.0 < 1_000_000_000) }
{
    match text.split_first() {
        Some((first, digits)) if *first == b'.' => nanoseconds(digits),
        _ => Some((0, text)),
    }
}

// The nanoseconds of one to nine digits of a fraction.
#[tactic(auto, unfolding(crate::specs::Scan::nanos_at))]
fn nanoseconds(text: &[u8]) -> Option<(u32, &[u8])>
    ensures value { Gives (λ n. (n.0, n.1.now)) result (nanos_at text.now) }
    ensures bound { IfSome result (λ n. n.0 < 1_000_000_000) }
{
    let places = digits_len(text)?;
    if places == 0 || places > 9 {
        return None;
    }
    let (number, rest) = number(text, places)?;
    Some((number * 10u32.pow(9 - places as u32), rest))
}

// How many digits stand in front of something else.
fn digits_len(text: &[u8]) -> Option<usize>
    ensures { result ≡ position (λ byte. not (is_ascii_digit byte)) text.now }
{
    text.iter().position(|byte| !byte.is_ascii_digit())
}

// The seconds of hours and minutes, which are the whole text.
#[tactic(auto, unfolding(crate::specs::Scan::offset_at))]
fn offset(text: &[u8]) -> Option<u32>
    ensures value { Gives (λ seconds. seconds) result (offset_at text.now) }
    ensures bound { IfSome result (λ seconds. seconds < 86_400) }
{
    let (hours, rest) = number(text, 2)?;
    let (minutes, rest) = number_behind(rest, b':')?;
    if hours > 23 || minutes > 59 || !rest.is_empty() {
        return None;
    }
    Some(hours * 3600 + minutes * 60)
}

// How many seconds a clock with this zone, which is the whole text, is ahead of UTC.
#[tactic(auto, unfolding(crate::specs::Scan::zone_at))]
fn zone(text: &[u8]) -> Option<i32>
    ensures value { Gives (λ seconds. seconds) result (zone_at text.now) }
    ensures bound { IfSome result (IsBetween (neg_ℤ (pos 86_400)) (pos 86_400)) }
{
    let (first, rest) = text.split_first()?;
    match *first {
        b'Z' | b'z' if rest.is_empty() => Some(0),
        b'+' => Some(offset(rest)? as i32),
        b'-' => Some(-(offset(rest)? as i32)),
        _ => None,
    }
}

// The parts of a timestamp, which is the whole text.
#[tactic(auto, unfolding(crate::specs::Scan::written_at))]
fn parts(text: &[u8]) -> Option<Written>
    ensures value { Gives (λ parts. parts) result (written_at text.now) }
    ensures bound { IfSome result IsSmall }
{
    let (year, rest) = number(text, 4)?;
    let (month, rest) = number_behind(rest, b'-')?;
    let (day, rest) = number_behind(rest, b'-')?;
    let (hour, rest) = number_behind_letter(rest)?;
    let (minute, rest) = number_behind(rest, b':')?;
    let (second, rest) = number_behind(rest, b':')?;
    let (nanosecond, rest) = fraction(rest)?;
    let offset = zone(rest)?;
    Some(Written {
        year,
        month,
        day,
        hour,
        minute,
        second,
        nanosecond,
        offset,
    })
}

// What the clock shows. `None`: the calendar doesn't have the date, or no clock shows the time.
fn clock(parts: Written) -> Option<DateTime>
    requires { IsSmall parts }
    ensures some { IfSome result (λ shown. civil_nanos shown ≡ written_clock parts) }
    ensures valid { OnSome result (IsOnClock parts) }
    ensures none { IfNone result (¬ (IsOnClock parts)) }
{
    let Ok(date) = Date::new(parts.year as i16, parts.month as i8, parts.day as i8) else {
        return None;
    };
    let Ok(time) = Time::new(
        parts.hour as i8,
        parts.minute as i8,
        parts.second as i8,
        parts.nanosecond as i32,
    ) else {
        return None;
    };
    Some(DateTime::from_parts(date, time))
}

// The moment that the parts name. `None`: they name none in the range.
fn moment_of(parts: Written) -> Option<Moment>
    requires { IsSmall parts }
    ensures some { IfSome result (λ moment. IsNamed parts moment) }
    ensures none { IfNone result ((nanos : ℤ) → ¬ (IsNamed parts nanos)) }
{
    let shown = clock(parts)?;
    let Ok(offset) = Offset::from_seconds(parts.offset) else {
        return None;
    };
    let Ok(timestamp) = offset.to_timestamp(shown) else {
        return None;
    };
    Moment::new(timestamp.as_nanosecond())
}

impl Moment {
    /// The moment that a text names by RFC 3339: `YYYY-MM-DD`, `T` or `t`, `hh:mm:ss`, where there
    /// is one a fraction of `.` and one to nine digits, and then `Z`, `z` or a sign and `hh:mm`.
    /// Hours end at 23, and minutes and seconds at 59. `None`: the text has another form, or the
    /// calendar doesn't have the date, or the moment is out of the range.
    pub fn read(text: &str) -> Option<Moment>
        ensures some { IfSome result (λ moment. IsReading text.now moment) }
        ensures none { IfNone result ((nanos : ℤ) → ¬ (IsReading text.now nanos)) }
    {
        moment_of(parts(text.as_bytes())?)
    }
}
