ghost use Rattle.std.specs.Prelude.{◌≡◌, Option, Some, None, Err, IfErr, IfOk, option_map, true};
ghost use Rattle.clap.specs.Words.{kind_of};
ghost use Rattle.remap_words.specs.Command.{AreMatchesOf, IsAnswer, fault_by};
ghost use Rattle.remap_words.specs.Uses.{has_short};
ghost use Rattle.remap_words.specs.Uses as uses;
ghost use Rattle.remap_words.specs.View.{IsInBounds, invocation_of, texts};
ghost use Rattle.remap_words.specs.Words.{Settings, Invocation as Asked, invocation_given, words_mean};

use crate::command::matches_of;
use crate::invocation::{Invocation, WordsFault};
use crate::value::{jobs, kind, mode, name};
use clap::error::ErrorKind;
use clap::{ArgMatches, Error};
use std::alloc::Global;

/// Reads the words behind the program's name. The answer is `Refused` only where they mean nothing,
/// and wherever they mean nothing it is `Refused` unless memory runs out. A word with one hyphen,
/// which is no option, is refused before memory is asked for.
pub fn read_words<'a>(alloc: Global, words: &'a [String]) -> Result<Invocation<'a>, WordsFault>
    ensures read { IfOk result (λ i. words_mean (texts words.now) ≡ Some (invocation_of i)) }
    ensures bounds { IfOk result (λ i. IsInBounds (invocation_of i)) }
    ensures refused { result ≡ Err WordsFault.Refused → words_mean (texts words.now) ≡ None }
    ensures short { has_short (texts words.now) ≡ true → result ≡ Err WordsFault.Refused }
{
    if has_short_option(words) {
        return Err(WordsFault::Refused);
    }
    answer(matches_of(alloc, words))
}

/// What is answered where `clap` answers so. Only its want of memory is ours.
fn answer<'a>(parsed: Result<ArgMatches<'a>, Error>) -> Result<Invocation<'a>, WordsFault>
    ensures ok { IfOk parsed.entry (λ m. (g : Settings) → AreMatchesOf g m → IsAnswer (invocation_given g) result) }
    ensures err { IfErr parsed.entry (λ e. result ≡ Err (fault_by (kind_of e))) }
{
    match parsed {
        Ok(matches) => or_refused(invocation(&matches)),
        Err(error) => Err(fault_of(&error)),
    }
}

/// Whether a word before the first `--` begins with one hyphen alone, as `-` does.
fn has_short_option(words: &[String]) -> bool
    ensures { result ≡ has_short (texts words.now) }
{
    for word in words {
        let word = word.as_str();
        if word == "--" {
            return false;
        }
        if is_short(word) {
            return true;
        }
    }
    false
}

/// Whether the word is a hyphen alone, or before anything but a second one.
fn is_short(word: &str) -> bool
    ensures { result ≡ uses.is_short word.now }
{
    match word.as_bytes() {
        [b'-'] => true,
        [b'-', second, ..] => *second != b'-',
        _ => false,
    }
}

/// What is read of the matches, unless the values are refused.
fn invocation<'a>(matches: &ArgMatches<'a>) -> Option<Invocation<'a>>
    ensures { (g : Settings) → AreMatchesOf g matches.now
        → option_map invocation_of result ≡ invocation_given g }
{
    let script = name(matches.get_str("script")?)?;
    let kind = kind(matches.get_str("kind"))?;
    let jobs = jobs(matches.get_str("jobs"))?;
    let envelope = matches.get_flag("envelope");
    let check = matches.get_flag("check");
    let mode = mode(check, envelope, matches.get_str("generate"))?;
    Some(Invocation {
        script,
        kind,
        jobs,
        drop_on_error: matches.get_flag("drop-on-error"),
        keep_on_abort: matches.get_flag("keep-on-abort"),
        envelope,
        mode,
    })
}

fn or_refused<'a>(invocation: Option<Invocation<'a>>) -> Result<Invocation<'a>, WordsFault>
    ensures { (i : Option Asked) → option_map invocation_of invocation.entry ≡ i → IsAnswer i result }
{
    match invocation {
        Some(invocation) => Ok(invocation),
        None => Err(WordsFault::Refused),
    }
}

fn fault_of(error: &Error) -> WordsFault
    ensures { result ≡ fault_by (kind_of error.now) }
{
    match error.kind() {
        ErrorKind::OutOfMemory => WordsFault::Memory,
        _ => WordsFault::Refused,
    }
}
