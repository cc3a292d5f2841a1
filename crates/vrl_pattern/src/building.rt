ghost use Rattle.std.specs.Prelude.{◌≡◌, ◌≢◌, ◌≤◌, ◌^◌, ◌++◌, [], ◌∷◌, true, false, Err, IfOk, IsErr, OnOk, MatchOption, if◌then◌else◌};
ghost use Rattle.vrl_pattern.specs.Built.{AreBuilt, IsBuiltOf};
ghost use Rattle.vrl_pattern.specs.Malformed.{is_malformed, malformed_from};
ghost use Rattle.vrl_pattern.specs.Verdict.{IsVerdict};

use regex::{Error, Regex};
use std::alloc::Global;
use vrl_value::{Chars, Memory};

// The regex of a source. `None`: the source is malformed. `Memory`: want of memory, or the pattern
// is over the crate's budget.
fn built(alloc: Global, source: &str) -> Result<Option<Regex>, Memory>
    ensures { IfOk result (λ built. MatchOption built
        (is_malformed source.now ≡ true)
        (λ regex. (is_malformed source.now ≡ false) × IsBuiltOf source.now regex)) }
{
    verdict(Regex::new(alloc, source))
}

// What is told of a source that the crate `regex` read so. `Memory`: it wanted memory, or the
// pattern is over its budget.
fn verdict(reading: Result<Regex, Error>) -> Result<Option<Regex>, Memory>
    requires { reading ≢ Err Error.Internal }
    ensures { IsVerdict reading result }
{
    match reading {
        Ok(regex) => Ok(Some(regex)),
        Err(Error::Syntax(_)) => Ok(None),
        Err(Error::CompiledTooBig | Error::OutOfMemory) => Err(Memory),
        Err(Error::Internal) => unreachable!(),
    }
}

// A place as a number. `Memory`: it is past those of a `u32`.
fn number_at(place: usize) -> Result<u32, Memory>
    ensures number { IfOk result (λ number. number ≡ place) }
    ensures memory { IsErr result → 2 ^ 32 ≤ place }
{
    match u32::try_from(place) {
        Ok(number) => Ok(number),
        Err(_) => Err(Memory),
    }
}

/// What was built of some sources, one after the other.
#[derive(Drop)]
pub(crate) struct Building {
    // The regexes of those that are well formed.
    pub(crate) regexes: Vec<Regex>,
    // The numbers of those that are malformed, ascending from 0 for the first source.
    pub(crate) malformed: Vec<u32>,
}

impl Building {
    // The next source, which has this number, is built. `Memory`: want of memory, a pattern over
    // the crate's budget, or a number past those of a `u32`.
    fn add(&mut self, alloc: Global, number: usize, source: &str) -> Result<(), Memory>
        ensures malformed { OnOk result
            (self.new.malformed.items ≡ self.old.malformed.items ++ (if is_malformed source.now then number ∷ []
            else [])) }
        ensures regexes { OnOk result (is_malformed source.now ≡ false → (regex : Regex)
            × (self.new.regexes.items ≡ self.old.regexes.items ++ regex ∷ []) × IsBuiltOf source.now regex) }
    {
        match built(alloc, source)? {
            Some(regex) => self.regexes.push(regex)?,
            None => self.malformed.push(number_at(number)?)?,
        }
        Ok(())
    }

    /// What is built of all of these sources. `Memory`: want of memory, a pattern over the crate's
    /// budget, or a number past those of a `u32`.
    pub(crate) fn of(alloc: Global, sources: &[Chars]) -> Result<Building, Memory>
        ensures malformed { IfOk result (λ all. all.malformed.items ≡ malformed_from 0 sources.now) }
        ensures regexes { IfOk result (λ all. all.malformed.items ≡ [] → AreBuilt sources.now all.regexes.items) }
    {
        let mut all = Building {
            regexes: Vec::new(alloc),
            malformed: Vec::new(alloc),
        };
        for (number, source) in sources.iter().enumerate() {
            all.add(alloc, number, source.as_str())?;
        }
        Ok(all)
    }
}
