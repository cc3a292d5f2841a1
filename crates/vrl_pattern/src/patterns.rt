ghost use Rattle.std.specs.Prelude.{◌≡◌, ◌≢◌, ◌<◌, [], IfOk, IfErr, OnOk, length, slice_index_or};
ghost use Rattle.vrl_pattern.specs.Built.{IsBuiltOf};
ghost use Rattle.vrl_pattern.specs.Groups.{groups_of};
ghost use Rattle.vrl_pattern.specs.Malformed.{malformed_from, IsFaultOf};

use crate::building::Building;
use crate::fault::{BuildFault, Numbers};
use crate::groups::group_names;
use regex::Regex;
use std::alloc::Global;
use std::marker::Model;
use vrl_value::{Chars, Memory, Names};

/// The regex literals of a script, built. A contract sees the list of their sources, none of which
/// is malformed.
///
/// It doesn't change, so threads share it; each searches by [`Searches`](crate::Searches) of its
/// own.
pub struct Patterns {
    sources: Vec<Chars>,
    regexes: Vec<Regex>,
}

impl Model for Patterns {
    ghost use Rattle.std.specs.Prelude.{List, ℕ};
    ghost use Rattle.vrl_pattern.specs.Built.{AreBuilt};

    ghost Value = { List (List ℕ) };

    ghost view = { λ p. p.sources.items };

    ghost invariant = { λ p. AreBuilt p.sources.items p.regexes.items };
}

// Written out, so that a proof sees one call where a table is let go.
impl Drop for Patterns {
    fn drop(self) {
        let Patterns {
            sources: _sources,
            regexes: _regexes,
        } = self;
    }
}

// An equal list of texts. `Memory`: want of memory.
fn copy_of(alloc: Global, texts: &[Chars]) -> Result<Vec<Chars>, Memory>
    ensures { IfOk result (λ copy. copy.items ≡ texts.now) }
{
    let mut copy = Vec::with_capacity(alloc, texts.len())?;
    for text in texts {
        copy.push(text.copy(alloc)?)?;
    }
    Ok(copy)
}

// That there are none of the numbers of malformed sources. `Malformed`: there are these.
fn none_malformed(numbers: Vec<u32>) -> Result<(), BuildFault>
    ensures none { OnOk result (numbers.items ≡ []) }
    ensures some { IfErr result (λ fault. (fault ≡ BuildFault.Malformed numbers.items) × (numbers.items ≢ [])) }
{
    if numbers.is_empty() {
        return Ok(());
    }
    Err(BuildFault::Malformed(Numbers::new(numbers)))
}

impl Patterns {
    /// Builds the regexes of these sources. `Malformed`: the numbers of all that the grammar of the
    /// crate `regex` doesn't read, or that nest deeper than it allows, at least one. `Memory`: want
    /// of memory, also where a pattern would take more than that crate's budget.
    pub fn build(alloc: Global, sources: &Names) -> Result<Patterns, BuildFault>
        ensures sources { IfOk result (λ patterns. patterns ≡ sources.now) }
        ensures formed { IfOk result (λ _. malformed_from 0 sources.now ≡ []) }
        ensures refused { IfErr result (IsFaultOf sources.now) }
    {
        let Building { regexes, malformed } = Building::of(alloc, sources.as_slice())?;
        none_malformed(malformed)?;
        Ok(Patterns {
            sources: copy_of(alloc, sources.as_slice())?,
            regexes,
        })
    }

    /// All sources in order, borrowed.
    pub fn sources(&self) -> &[Chars]
        ensures { result.now ≡ self.now }
    {
        &self.sources
    }

    /// All sources in order, copied. `Memory`: want of memory.
    pub fn copy_sources(&self, alloc: Global) -> Result<Names, Memory>
        ensures { IfOk result (λ sources. sources ≡ self.now) }
    {
        Ok(Names::new(copy_of(alloc, &self.sources)?))
    }

    /// The names of the capturing groups of the regex with this number: one for each, from group 0
    /// on, which is the whole match; that of a group without a name is empty. `Memory`: want of
    /// memory.
    pub fn names(&self, alloc: Global, number: u32) -> Result<Names, Memory>
        requires { number < length self.now }
        ensures { IfOk result (λ names. names ≡ groups_of (slice_index_or self.now number [])) }
    {
        group_names(alloc, self.sources[number as usize].as_str())
    }

    // The regex with this number.
    pub(crate) fn regex(&self, number: u32) -> &Regex
        requires { number < length self.now }
        ensures { IsBuiltOf (slice_index_or self.now number []) result.now }
    {
        &self.regexes[number as usize]
    }
}
