ghost use Rattle.std.specs.Prelude.{◌≡◌, ◌↔◌, ◌+◌, ◌∷◌, [], IfOk, IsTrue, List, OnOk, get_or, length, reverse, set, suc};
ghost use Rattle.vrl_token.specs.Depths.{AreCounts, IsProgress, IsTally, first_of, held, levels_of, nesting_behind, nesting_inside, numbers_of};
ghost use Rattle.vrl_token.specs.Nesting.{IsDeepAt, IsTooDeep, count_in, is_counted, last_nesting, nesting_in, own_nesting, parts, stretches_behind, stretches_from, without_innermost};
ghost use Rattle.vrl_token.specs.Reading.{backwards};
ghost use Rattle.vrl_token.specs.declared.token.Token.{Token as SpecToken};

use crate::before::{Before, is_closing, is_opening};
use crate::token::{Spanned, Token};
use std::alloc::Global;
use vrl_value::Memory;

// How deep tokens may be nested.
const DEPTH: usize = 64;

// How many bodies of closures may be open at once.
const BODIES: usize = 4;

// Whether a token takes a level of the syntax tree.
fn is_level(token: &Token) -> bool
    ensures { result ≡ is_counted token.now }
{
    matches!(
        token,
        Token::Assign
            | Token::MergeAssign
            | Token::Coalesce
            | Token::Or
            | Token::And
            | Token::Equal
            | Token::Unequal
            | Token::Less
            | Token::AtMost
            | Token::More
            | Token::AtLeast
            | Token::Merge
            | Token::Plus
            | Token::Minus
            | Token::Times
            | Token::Not
            | Token::Arrow
            | Token::If
            | Token::Return
            | Token::Abort
    )
}

// How many levels of the syntax tree a token takes.
fn levels(token: &Token) -> usize
    ensures { result ≡ levels_of token.now }
{
    if is_level(token) { 1 } else { 0 }
}

// How deep the syntax tree of a token is nested by itself.
fn own_nesting(token: &Token) -> usize
    ensures { result ≡ held (own_nesting token.now) }
{
    match token {
        Token::Template(_, holes) => holes.as_slice().len().saturating_mul(2).saturating_add(1),
        _ => 0,
    }
}

// Whether a token stands between two stretches of one level.
fn is_parting(token: &Token) -> bool
    ensures { result ≡ parts token.now }
{
    matches!(token, Token::Separator | Token::Comma | Token::Else)
}

// The stretches that go on at a place, each with a number.
struct Stretches {
    innermost: usize,
    // The numbers of those that hold it, from the outermost on.
    around: Vec<usize>,
}

// Written out, so that the stretches are let go by one call.
impl Drop for Stretches {
    fn drop(self) {
        let Stretches {
            innermost: _,
            around: _,
        } = self;
    }
}

impl Stretches {
    // A stretch outside all brackets.
    fn new(alloc: Global, number: usize) -> Stretches
        ensures { numbers_of result ≡ number ∷ [] }
    {
        Stretches {
            innermost: number,
            around: Vec::new(alloc),
        }
    }

    // Begins a stretch inside the innermost one.
    fn open(&mut self, number: usize) -> Result<(), Memory>
        ensures { OnOk result (numbers_of self.new ≡ number ∷ numbers_of self.old) }
    {
        self.around.push(self.innermost)?;
        self.innermost = number;
        Ok(())
    }

    // Goes back to the stretch around the innermost one, where there is one.
    fn close(&mut self)
        ensures { numbers_of self.new ≡ without_innermost (numbers_of self.old) }
    {
        if let Some(outer) = self.around.pop() {
            self.innermost = outer;
        }
    }

    // Takes one more token; a stretch that begins behind it has the number.
    fn add(&mut self, token: &Token, number: usize) -> Result<(), Memory>
        ensures { OnOk result (numbers_of self.new ≡ stretches_from token.now number (numbers_of self.old)) }
    {
        if is_opening(token) {
            return self.open(number);
        }
        if is_closing(token) {
            self.close();
            return Ok(());
        }
        if is_parting(token) {
            self.innermost = number;
        }
        Ok(())
    }

    // With nestings as numbers: the nesting of a stretch that begins behind the token and has this
    // count.
    fn nesting_behind(&self, token: &Token, count: usize) -> usize
        ensures { result ≡ nesting_behind token.now count (numbers_of self.now) }
    {
        if is_opening(token) {
            return nesting_inside(Some(self.innermost), count);
        }
        nesting_inside(self.outer(), count)
    }

    // The number of the stretch around the innermost one.
    fn outer(&self) -> Option<usize>
        ensures { result ≡ first_of (reverse self.now.around.items) }
    {
        self.around.last().copied()
    }
}

// The nesting of a stretch that has this count, in a bracket of one that has this nesting.
fn nesting_inside(around: Option<usize>, count: usize) -> usize
    ensures { result ≡ nesting_inside around count }
{
    match around {
        Some(nesting) => nesting.saturating_add(1).saturating_add(count),
        None => count,
    }
}

// How many counted tokens each stretch has so far, by the place at which it begins.
struct Tally {
    counts: Vec<usize>,
    stretches: Stretches,
}

// Written out, so that a tally is let go by one call.
impl Drop for Tally {
    fn drop(self) {
        let Tally {
            counts: _,
            stretches: _,
        } = self;
    }
}

impl Tally {
    // Before all tokens.
    fn start(alloc: Global) -> Result<Tally, Memory>
        ensures { IfOk result (λ tally. IsTally [] tally) }
    {
        let mut counts = Vec::new(alloc);
        counts.push(0)?;
        Ok(Tally {
            counts,
            stretches: Stretches::new(alloc, 0),
        })
    }

    // Adds levels to the count of the innermost stretch.
    fn count(&mut self, levels: usize)
        ensures stretches { self.new.stretches ≡ self.old.stretches }
        ensures counts { let at = self.old.stretches.innermost in self.new.counts.items ≡ set self.old.counts.items at
            (held (get_or self.old.counts.items at 0 + levels)) }
    {
        let place = self.stretches.innermost;
        if place < self.counts.len() {
            self.counts[place] = self.counts[place].saturating_add(levels);
        }
    }

    // Takes one more token.
    fn add(&mut self, token: &Token) -> Result<(), Memory>
        ensures { OnOk result ((before : List SpecToken) → IsTally before self.old
            → IsTally (token.now ∷ before) self.new) }
    {
        let place = self.counts.len();
        self.count(levels(token));
        self.counts.push(0)?;
        self.stretches.add(token, place)?;
        Ok(())
    }

    // How many counted tokens each stretch has.
    fn into_counts(self) -> Vec<usize>
        ensures { result ≡ self.counts }
    {
        let Tally {
            counts,
            stretches: _,
        } = self;
        counts
    }
}

// How many counted tokens each stretch has, by the place at which it begins.
fn counts_of(alloc: Global, tokens: &[Spanned]) -> Result<Vec<usize>, Memory>
    ensures { IfOk result (λ counts. AreCounts (backwards tokens.now) counts.items) }
{
    let mut tally = Tally::start(alloc)?;
    for spanned in tokens {
        tally.add(&spanned.token)?;
    }
    Ok(tally.into_counts())
}

// How far a walk over tokens has come: how deep the stretches are nested that go on there, and what
// the tokens before it say.
struct Progress {
    nestings: Stretches,
    before: Before,
    // How deep the last of these tokens is nested by itself.
    last: usize,
}

// Written out, so that it is let go by one call.
impl Drop for Progress {
    fn drop(self) {
        let Progress {
            nestings: _,
            before: _,
            last: _,
        } = self;
    }
}

impl Progress {
    // Before all tokens; the stretch there has this count.
    fn start(alloc: Global, count: usize) -> Progress
        ensures { (all : List SpecToken) → count ≡ held (count_in 0 all) → IsProgress all [] result }
    {
        Progress {
            nestings: Stretches::new(alloc, count),
            before: Before::start(alloc),
            last: 0,
        }
    }

    // Behind one more token; a stretch that begins there has this count.
    fn add(&mut self, token: &Token, count: usize) -> Result<(), Memory>
        ensures { OnOk result ((all before : List SpecToken) → count ≡ held (count_in (suc (length before)) all)
            → IsProgress all before self.old → IsProgress all (token.now ∷ before) self.new) }
    {
        let nesting = self.nestings.nesting_behind(token, count);
        self.nestings.add(token, nesting)?;
        self.before.add(token)?;
        self.last = own_nesting(token);
        Ok(())
    }

    // How deep the syntax tree is nested here and in the last token.
    fn depth(&self) -> usize
        ensures { (all before : List SpecToken) → IsProgress all before self.now
            → result ≡ held (nesting_in all (stretches_behind before) + last_nesting before) }
    {
        self.nestings.innermost.saturating_add(self.last)
    }

    // Whether the tokens are nested too deeply here.
    fn is_deep(&self) -> bool
        ensures { (all before : List SpecToken) → IsProgress all before self.now → IsTrue result ↔ IsDeepAt all before }
    {
        self.depth() > DEPTH || self.before.bodies() > BODIES
    }
}

/// Whether tokens are nested too deeply: a nesting over 64, or more than four open bodies of
/// closures. Goes over the tokens twice, since the count of a stretch takes in its tokens behind an
/// inner bracket.
pub(crate) fn is_nested_too_deeply(alloc: Global, tokens: &[Spanned]) -> Result<bool, Memory>
    ensures { IfOk result (λ deep. IsTrue deep ↔ IsTooDeep (backwards tokens.now)) }
{
    let counts = counts_of(alloc, tokens)?;
    let mut progress = Progress::start(alloc, counts[0]);
    if progress.is_deep() {
        return Ok(true);
    }
    for (before, spanned) in tokens.iter().enumerate() {
        progress.add(&spanned.token, counts[before + 1])?;
        if progress.is_deep() {
            return Ok(true);
        }
    }
    Ok(false)
}
