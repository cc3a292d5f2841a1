ghost use Rattle.std.specs.Prelude.{◌≡◌, ◌<◌, codes, false, length, map, take, true, All, IfOk, IfSome, IsErr, Option};
ghost use Rattle.vrl_value.specs.Tree.{Tree, object};
ghost use Rattle.vrl_value.specs.View.{tree_of};
ghost use Rattle.vrl_kind.specs.Kinds.{tags_at};
ghost use Rattle.vrl_kind.specs.Sets.{SameSets};
ghost use Rattle.vrl_builtin.specs.Rows.{boolean_or, literal_at, named, regex_given, told};
ghost use Rattle.vrl_builtin.specs.View.{givens_of, Applies};
ghost use Rattle.vrl_builtin.specs.declared.failing.Applied.TheVariants as applied;
ghost use Rattle.vrl_pattern.specs.Matches.{all_matches};
ghost use Rattle.vrl_pattern.specs.Places.{AreParts};
ghost use Rattle.fn_search.specs.Fields.{fields, fields_kind};
ghost use Rattle.fn_search.specs.Known.{listed};
ghost use Rattle.fn_search.specs.ParseRegex.{accepts, all_parsed, match_object, names_given, parse_regex_all_row, parse_regex_row, parsed};
ghost use Rattle.fn_search.specs.ParseRegexLaw.{parse_regex-law, parse_regex_all-law};
ghost use Rattle.fn_search.specs.Sources.{source_at};

use crate::cut::length_of;
use crate::fields::{fields_kind, match_object};
use std::alloc::Global;
use vrl_builtin::{
    Applied, Arguments, Builtin, Givens, Parameter, Setting, Tags, array_of, fail,
    optional_literal, required, required_literal,
};
use vrl_kind::Kind;
use vrl_pattern::{Groups, Patterns, Searches};
use vrl_value::{Chars, Items, Memory, Value};

/// `parse_regex(value: string, pattern: regex literal, numeric_groups: boolean literal = false)`:
/// object. The text of each group of the first match that has a name, at that name; null for a
/// group that took no part. With `numeric_groups` each group's text stands also at its number, from
/// 0 for the whole match. It always may fail: `no match`.
/// `parse_regex("k=v", r'(?P<a>\w)=(?P<b>\w)')` is `{"a":"k","b":"v"}`.
#[derive(Clone, Copy)]
pub struct ParseRegex;

/// `parse_regex_all(value: string, pattern: regex literal, numeric_groups: boolean literal =
/// false)`: array of what `parse_regex` gives, for each match from the left. It never fails. `parse_regex_all("ab",
/// r'(?P<c>.)')` is `[{"c":"a"},{"c":"b"}]`.
#[derive(Clone, Copy)]
pub struct ParseRegexAll;

static PARAMETERS: [Parameter; 3] = [
    required!("value", Tags::STRING),
    required_literal!("pattern", Tags::REGEX),
    optional_literal!("numeric_groups", Tags::BOOLEAN),
];

// Whether the literal at a place is one that is allowed there.
fn accepts(place: usize, literal: &Value) -> bool
    ensures { result ≡ accepts place (tree_of literal.now) }
{
    match literal {
        Value::Pattern(_) => place == 1,
        Value::Bool(_) => place != 1,
        _ => false,
    }
}

// ---- the kind

// The number of a regex that is given as a literal. `None`: none is.
fn pattern_given(given: &Givens) -> Option<u32>
    ensures { result ≡ regex_given (literal_at 1 (givens_of given.now)) }
{
    match given.literal(1) {
        Some(Value::Pattern(number)) => Some(*number),
        _ => None,
    }
}

// Whether fields by number are wanted, by the literal that is given.
fn numbered_given(given: &Givens) -> bool
    ensures { result ≡ boolean_or false (literal_at 2 (givens_of given.now)) }
{
    match given.literal(2) {
        Some(Value::Bool(truth)) => *truth,
        _ => false,
    }
}

// The kind of the object of a match. `Memory`: want of memory.
fn object_kind(
    alloc: Global,
    pattern: Option<u32>,
    numbered: bool,
    patterns: &Patterns,
) -> Result<Kind, Memory>
    requires { IfSome pattern (λ n. n < length patterns.now) }
    ensures { IfOk result (λ kind. SameSets (tags_at kind) (fields_kind (names_given patterns.now pattern) numbered)) }
{
    match pattern {
        Some(number) => {
            let names = patterns.names(alloc, number)?;
            fields_kind(alloc, names.as_slice(), numbered)
        }
        None => fields_kind(alloc, &[], numbered),
    }
}

// ---- the call

// The objects of the first so many matches. `Memory`: want of memory.
fn objects(
    alloc: Global,
    names: &[Chars],
    numbered: bool,
    text: &str,
    matches: &[Groups],
) -> Result<Vec<Value>, Memory>
    requires { All (AreParts text.now) matches.now }
    ensures { IfOk result
        (λ objects. map tree_of objects.items ≡ map
        (λ groups. object (fields names.now numbered text.now groups)) matches.now) }
{
    let mut objects = Vec::new(alloc);
    let mut left = matches;
    while let Some((first, others)) = left.split_first() {
        objects.push(match_object(alloc, names, numbered, text, first.as_slice())?)?;
        left = others;
    }
    Ok(objects)
}

// The objects of the first so many matches of a regex. `Memory`: want of memory.
fn objects_of(
    alloc: Global,
    searches: &Searches<'_>,
    number: u32,
    numbered: bool,
    text: &str,
    most: u64,
) -> Result<Vec<Value>, Memory>
    requires { number < length searches.now }
    ensures { IfOk result
        (λ objects. map tree_of objects.items ≡ map (match_object (source_at number searches.now) numbered text.now)
        (take most (all_matches (source_at number searches.now) text.now))) }
{
    let names = searches.names(alloc, number)?;
    let matches = searches.groups(alloc, number, text, most)?;
    objects(alloc, names.as_slice(), numbered, text, matches.as_slice())
}

// What the first match comes to, where the objects are those of the first match alone, or else out
// of memory for them.
fn answer_of_first(objects: Result<Vec<Value>, Memory>) -> Applied
    ensures answer { (first : Option Tree)
        → IfOk objects (λ objects. map tree_of objects.items ≡ listed first)
        → Applies true (named (codes "parse_regex") (told (λ v. v) (codes "no match") first)) result }
    ensures memory { result ≡ applied.Memory → IsErr objects }
{
    match objects {
        Ok(mut objects) => match objects.pop() {
            Some(object) => Applied::Value(object),
            None => fail("parse_regex", "no match"),
        },
        Err(_memory) => Applied::Memory,
    }
}

// What is answered of the first match.
fn parsed(
    alloc: Global,
    searches: &Searches<'_>,
    pattern: Option<u32>,
    numbered: bool,
    text: &str,
) -> Applied
    requires { IfSome pattern (λ n. n < length searches.now) }
    ensures { Applies true (named (codes "parse_regex") (parsed searches.now pattern numbered text.now)) result }
{
    match pattern {
        Some(number) => { answer_of_first(objects_of(alloc, searches, number, numbered, text, 1)) }
        None => fail("parse_regex", "no match"),
    }
}

// What is answered of all matches. `Memory`: want of memory.
fn all_parsed(
    alloc: Global,
    searches: &Searches<'_>,
    pattern: Option<u32>,
    numbered: bool,
    text: &str,
) -> Result<Value, Memory>
    requires { IfSome pattern (λ n. n < length searches.now) }
    ensures { IfOk result (λ value. tree_of value ≡ all_parsed searches.now pattern numbered text.now) }
{
    let _length = length_of(text);
    match pattern {
        Some(number) => {
            let objects = objects_of(alloc, searches, number, numbered, text, u64::MAX)?;
            Ok(Value::List(Items::new(objects)))
        }
        None => Ok(Value::List(Items::new(Vec::new(alloc)))),
    }
}

impl Builtin for ParseRegex {
    ghost row = { λ _. parse_regex_row };

    ghost uses_memory = { λ _ arguments. true };

    fn name(&self) -> &'static str {
        "parse_regex"
    }

    fn parameters(&self) -> &'static [Parameter] {
        &PARAMETERS
    }

    fn accepts(&self, place: usize, literal: &Value) -> bool {
        accepts(place, literal)
    }

    fn result_kind(
        &self,
        alloc: Global,
        given: &Givens,
        patterns: &Patterns,
    ) -> Result<Kind, Memory> {
        object_kind(alloc, pattern_given(given), numbered_given(given), patterns)
    }

    fn may_fail(&self, _given: &Givens) -> bool {
        true
    }

    fn apply(
        &self,
        alloc: Global,
        arguments: &Arguments<'_>,
        setting: &Setting<'_, '_>,
    ) -> Applied {
        let (text, numbered) = (arguments.text(0, ""), arguments.boolean(2, false));
        let pattern = arguments.optional_regex(1);
        parsed(alloc, setting.searches, pattern, numbered, text)
    }

    ghost law = { λ _. parse_regex-law };
}

impl Builtin for ParseRegexAll {
    ghost row = { λ _. parse_regex_all_row };

    ghost uses_memory = { λ _ arguments. true };

    fn name(&self) -> &'static str {
        "parse_regex_all"
    }

    fn parameters(&self) -> &'static [Parameter] {
        &PARAMETERS
    }

    fn accepts(&self, place: usize, literal: &Value) -> bool {
        accepts(place, literal)
    }

    fn result_kind(
        &self,
        alloc: Global,
        given: &Givens,
        patterns: &Patterns,
    ) -> Result<Kind, Memory> {
        let object = object_kind(alloc, pattern_given(given), numbered_given(given), patterns)?;
        array_of(alloc, object)
    }

    fn may_fail(&self, _given: &Givens) -> bool {
        false
    }

    fn apply(
        &self,
        alloc: Global,
        arguments: &Arguments<'_>,
        setting: &Setting<'_, '_>,
    ) -> Applied {
        let (text, numbered) = (arguments.text(0, ""), arguments.boolean(2, false));
        let pattern = arguments.optional_regex(1);
        Applied::value(all_parsed(alloc, setting.searches, pattern, numbered, text))
    }

    ghost law = { λ _. parse_regex_all-law };
}
