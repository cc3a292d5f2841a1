ghost use Rattle.std.specs.Prelude.{◌≡◌, ◌&&◌, Some, None, if◌then◌else◌, nat_le, option_map};
ghost use Rattle.std.specs.Str.{all_ascii_digits};
ghost use Rattle.remap_words.specs.Numbers.{number_in};
ghost use Rattle.remap_words.specs.View.{mode_of_read};
ghost use Rattle.remap_words.specs.Words.{generate_of, jobs_of, kind_file_of, mode_of, name_of};

use crate::invocation::Mode;

/// A name, unless it is empty.
pub(crate) fn name(text: &str) -> Option<&str>
    ensures { option_map (λ name. name.now) result ≡ name_of text.now }
{
    if text.is_empty() { None } else { Some(text) }
}

/// The name of the kind file, where there is one; it is not empty.
pub(crate) fn kind(text: Option<&str>) -> Option<Option<&str>>
    ensures { option_map (option_map (λ name. name.now)) result ≡ kind_file_of
        (option_map (λ text. text.now) text.entry) }
{
    match text {
        Some(text) => Some(Some(name(text)?)),
        None => Some(None),
    }
}

/// The number of workers.
pub(crate) fn jobs(text: Option<&str>) -> Option<u32>
    ensures { result ≡ jobs_of (option_map (λ text. text.now) text.entry) }
{
    match text {
        Some(text) => Some(number(text, 2, 1, 32)? as u32),
        None => Some(1),
    }
}

/// What is done with the script.
pub(crate) fn mode(check: bool, envelope: bool, text: Option<&str>) -> Option<Mode>
    ensures { option_map mode_of_read result ≡ mode_of check envelope (option_map (λ text. text.now) text.entry) }
{
    match text {
        Some(text) => if check || envelope {
            None
        } else {
            generate(text)
        },
        None => Some(if check { Mode::Check } else { Mode::Lines }),
    }
}

/// How many lines are made, and from which seed.
fn generate(text: &str) -> Option<Mode>
    ensures { option_map mode_of_read result ≡ generate_of text.now }
{
    let (count, seed) = text.split_once(':')?;
    let count = number(count, 7, 1, 1_000_000)?;
    let seed = number(seed, 10, 0, 4_294_967_295)?;
    Some(Mode::Generate { count, seed })
}

/// The number that one to `most` digits write, where it is from `low` to `high`.
fn number(text: &str, most: usize, low: u64, high: u64) -> Option<u64>
    ensures { result ≡ number_in most low high text.now }
{
    if text.is_empty() || text.len() > most || !is_digits(text) {
        return None;
    }
    match text.parse::<u64>() {
        Ok(number) => within(number, low, high),
        Err(_) => None,
    }
}

fn within(number: u64, low: u64, high: u64) -> Option<u64>
    ensures { result ≡ if nat_le low number && nat_le number high then Some number else None }
{
    if number < low || number > high {
        None
    } else {
        Some(number)
    }
}

fn is_digits(text: &str) -> bool
    ensures { result ≡ all_ascii_digits text.now }
{
    let bytes = text.as_bytes();
    for byte in bytes {
        if !byte.is_ascii_digit() {
            return false;
        }
    }
    true
}
