ghost use Rattle.std.specs.Prelude.{◌≡◌, ◌≤◌, ◌+◌, ◌-◌, ◌++◌, [], ◌∷◌, true, All, IfOk, IfSome, IsCharBoundary, length, map, option_map, slice_range, take};
ghost use Rattle.std.specs.List.{range_with_len};
ghost use Rattle.regex.specs.Locations.{location, location_count, AreLocationsOf};
ghost use Rattle.regex.specs.Patterns.{find_all_str, find_str, span};
ghost use Rattle.regex.specs.Search.{first_or_all, next_match, Answers};
ghost use Rattle.regex.specs.Strings.{matcher_pattern, IsWrittenBy};
ghost use Rattle.vrl_value.specs.Tree.{string};
ghost use Rattle.vrl_value.specs.View.{items_of, items_of_trees, tree_of};
ghost use Rattle.vrl_pattern.specs.Matches.{cut, group_place, parts_of};
ghost use Rattle.vrl_pattern.specs.Places.{place_span, AreParts, IsPart};

use crate::place::{Groups, Matches, Place};
use regex::{CaptureLocations, Matcher, Template};
use std::alloc::Global;
use vrl_value::{Chars, Items, Memory, Value};

/// Where the leftmost match lies that begins at `from` or behind it. `None`: there is none.
pub(crate) fn place_from(matcher: &mut Matcher<'_>, text: &str, from: usize) -> Option<Place>
    ensures found { option_map place_span result
        ≡ option_map span (find_str (matcher_pattern matcher.old) text.now from) }
    ensures within { IfSome result (λ place. IsPart text.now (place_span place)) }
    ensures behind { IfSome result (λ place. from ≤ place.start) }
    ensures same { matcher_pattern matcher.new ≡ matcher_pattern matcher.old }
{
    let found = matcher.find_at(text, from)?;
    Some(Place {
        start: found.start(),
        end: found.end(),
    })
}

// ---- groups

// Where a group lies that was read. `None`: it took no part.
fn place_of(span: Option<(usize, usize)>) -> Option<Place>
    ensures { option_map place_span result ≡ span }
{
    match span {
        Some((start, end)) => Some(Place { start, end }),
        None => None,
    }
}

// Where each group lies that was read. `Memory`: want of memory.
fn groups_in(alloc: Global, locations: &CaptureLocations) -> Result<Groups, Memory>
    ensures { IfOk result
        (λ groups. groups ≡ map (location locations.now) (range_with_len 0 (location_count locations.now))) }
{
    let mut places = Vec::with_capacity(alloc, locations.len())?;
    for number in 0..locations.len() {
        places.push(place_of(locations.get(number)))?;
    }
    Ok(Groups::new(places))
}

// Writes the groups of the next match to `locations`: the one behind a match that ended at `after -
// 1`, or the first one, where `after` is 0. Returns one more than where it ends. `None`: there is
// no other.
fn read_next(
    matcher: &mut Matcher<'_>,
    locations: &mut CaptureLocations,
    text: &str,
    after: usize,
) -> Option<usize>
    ensures found { Answers result (next_match true (matcher_pattern matcher.old) text.now after)
        (λ m next. (next ≡ m.trace.end + 1) × AreLocationsOf m locations.new) }
    ensures count { location_count locations.new ≡ location_count locations.old }
    ensures same { matcher_pattern matcher.new ≡ matcher_pattern matcher.old }
{
    let Some(found) = matcher.captures_read_at(locations, text, after.saturating_sub(1)) else {
        return None;
    };
    let reached = found.end();
    if reached >= after {
        return Some(reached + 1);
    }
    // It is empty, and stands where the last one ended.
    let Some(later) = matcher.captures_read_at(locations, text, after) else {
        return None;
    };
    Some(later.end() + 1)
}

// Where the groups of the first so many matches lie, for as many groups as there is room for.
// `Memory`: want of memory.
fn first_groups(
    alloc: Global,
    matcher: &mut Matcher<'_>,
    locations: &mut CaptureLocations,
    text: &str,
    most: u64,
) -> Result<Vec<Groups>, Memory>
    ensures found { IfOk result (λ found. found.items
        ≡ map (λ m. map (group_place m) (range_with_len 0 (location_count locations.old)))
        (take most (find_all_str (matcher_pattern matcher.old) text.now))) }
    ensures same { matcher_pattern matcher.new ≡ matcher_pattern matcher.old }
{
    let mut found = Vec::new(alloc);
    let mut after = 0;
    let mut left = most;
    while left > 0 {
        let Some(next) = read_next(matcher, locations, text, after) else {
            return Ok(found);
        };
        found.push(groups_in(alloc, locations)?)?;
        after = next;
        left -= 1;
    }
    Ok(found)
}

/// Where the groups of the first so many matches lie, for as many groups as there is room for; each
/// part lies between characters. `Memory`: want of memory.
pub(crate) fn places(
    alloc: Global,
    matcher: &mut Matcher<'_>,
    locations: &mut CaptureLocations,
    text: &str,
    most: u64,
) -> Result<Matches, Memory>
    ensures found { IfOk result (λ found. found
        ≡ map (λ m. map (group_place m) (range_with_len 0 (location_count locations.old)))
        (take most (find_all_str (matcher_pattern matcher.old) text.now))) }
    ensures within { IfOk result (λ found. All (AreParts text.now) found) }
    ensures same { matcher_pattern matcher.new ≡ matcher_pattern matcher.old }
{
    let found = first_groups(alloc, matcher, locations, text, most)?;
    Ok(Matches::new(found))
}

// ---- parts

// A text as a value. `Memory`: want of memory.
fn text_of(alloc: Global, text: &str) -> Result<Value, Memory>
    ensures { IfOk result (λ value. tree_of value ≡ string text.now) }
{
    Ok(Value::Text(Chars::copy_of(alloc, text)?))
}

// Where the next match lies: the one behind a match that ended at `after - 1`, or the first one,
// where `after` is 0. `None`: there is no other.
fn next_place(matcher: &mut Matcher<'_>, text: &str, after: usize) -> Option<Place>
    ensures found { option_map place_span result
        ≡ option_map span (next_match true (matcher_pattern matcher.old) text.now after) }
    ensures within { IfSome result (λ place. IsPart text.now (place_span place)) }
    ensures behind { IfSome result (λ place. after - 1 ≤ place.start) }
    ensures same { matcher_pattern matcher.new ≡ matcher_pattern matcher.old }
{
    let Some(found) = place_from(matcher, text, after.saturating_sub(1)) else {
        return None;
    };
    if found.end >= after {
        return Some(found);
    }
    // It is empty, and stands where the last one ended.
    place_from(matcher, text, after)
}

// The parts of a text in front of the first so many matches, and where the rest begins. `Memory`:
// want of memory.
fn first_parts(
    alloc: Global,
    matcher: &mut Matcher<'_>,
    text: &str,
    most: u64,
) -> Result<(Vec<Value>, usize), Memory>
    ensures parts { IfOk result (λ (parts, rest).
        map tree_of parts.items ++ string (slice_range text.now rest (length text.now)) ∷ []
        ≡ map string (cut text.now 0 (take most (find_all_str (matcher_pattern matcher.old) text.now)))) }
    ensures within { IfOk result (λ (_, rest). IsCharBoundary text.now rest) }
    ensures same { matcher_pattern matcher.new ≡ matcher_pattern matcher.old }
{
    let mut parts = Vec::new(alloc);
    let mut start = 0;
    let mut after = 0;
    let mut left = most;
    while left > 0 {
        let Some(place) = next_place(matcher, text, after) else {
            return Ok((parts, start));
        };
        parts.push(text_of(alloc, &text[start..place.start])?)?;
        start = place.end;
        after = place.end + 1;
        left -= 1;
    }
    Ok((parts, start))
}

/// The parts of a text between the matches, at most so many. `Memory`: want of memory.
pub(crate) fn split(
    alloc: Global,
    matcher: &mut Matcher<'_>,
    text: &str,
    limit: u64,
) -> Result<Items, Memory>
    ensures parts { IfOk result (λ parts. items_of parts
        ≡ items_of_trees (map string (parts_of text.now limit (find_all_str (matcher_pattern matcher.old) text.now)))) }
    ensures same { matcher_pattern matcher.new ≡ matcher_pattern matcher.old }
{
    if limit == 0 {
        return Ok(Items::new(Vec::new(alloc)));
    }
    let (mut parts, rest) = first_parts(alloc, matcher, text, limit - 1)?;
    parts.push(text_of(alloc, &text[rest..])?)?;
    Ok(Items::new(parts))
}

// ---- replacing

/// The text with the first so many matches replaced by what the template writes; with each, where
/// the number is 0. `Memory`: want of memory.
pub(crate) fn replaced_by(
    alloc: Global,
    matcher: &mut Matcher<'_>,
    text: &str,
    template: &Template,
    limit: usize,
) -> Result<Chars, Memory>
    ensures written { IfOk result
        (λ changed. IsWrittenBy template.now text.now
        (first_or_all limit (find_all_str (matcher_pattern matcher.old) text.now)) changed) }
    ensures same { matcher_pattern matcher.new ≡ matcher_pattern matcher.old }
{
    Ok(Chars::new(matcher.replacen(alloc, text, limit, template)?))
}
