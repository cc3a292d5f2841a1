// Kind files, and how the kinds that they declare and their refusals are told.
use crate::sharing::shareable;
use std::alloc::Global;
use std::process::Abort;
use vrl_kind::print;
use vrl_kindfile::{KindFault, files_have_one_answer, read_kind_file};
use vrl_value::{Chars, Memory};

// The text of a refusal.
fn fault_told(alloc: Global, fault: &KindFault) -> Result<Chars, Memory> {
    Ok(Chars::new(format!(in alloc; "{fault}")?))
}

// The text of the kind that a file declares, or of its refusal.
fn told(alloc: Global, file: &str) -> Result<Chars, Memory> {
    match read_kind_file(alloc, file.as_bytes()) {
        Ok(kind) => print(alloc, &shareable(kind)),
        Err(KindFault::Memory) => Err(Memory),
        Err(fault) => fault_told(alloc, &fault),
    }
}

// Files, and how each is told.
fn expect_told(rt: &impl Abort, alloc: Global, rows: &[(&str, &str)]) -> Result<(), Memory> {
    for (file, wanted) in rows {
        let text = told(alloc, file)?;
        assert!(rt; text.as_str() == *wanted, "at {file:?}");
    }
    Ok(())
}

const DECLARED: [(&str, &str); 12] = [
    (
        "{\"object\":{\"m\":\"string\"},\"rest\":\"nothing\"}",
        "{\"m\": string}",
    ),
    (
        " {\"rest\":\"nothing\",\"object\":{\"e\":\"json\",\"d\":\"null\",\"c\":\"boolean\",\"b\":\"integer\",\"a\":\"string\"}}\n",
        "{\"a\": string, \"b\": integer, \"c\": boolean, \"d\": null, \"e\": json}",
    ),
    (
        "{\"object\":{\"a\":[\"string\",\"null\"]}}",
        "{\"a\": string|null, ..json}",
    ),
    (
        "{\"object\":{\"a\":[[\"null\"],[[\"string\"],\"integer\"]]},\"rest\":\"nothing\"}",
        "{\"a\": string|integer|null}",
    ),
    (
        "{\"object\":{\"a\":{\"array\":[\"integer\",{\"optional\":\"string\"}],\"rest\":\"nothing\"}},\"rest\":\"nothing\"}",
        "{\"a\": [integer, ?string]}",
    ),
    (
        "{\"object\":{\"a\":{\"array\":[],\"rest\":\"string\"}},\"rest\":\"integer\"}",
        "{\"a\": [..string], ..integer}",
    ),
    ("{\"object\":{}}", "{..json}"),
    ("{\"object\":{},\"rest\":\"nothing\"}", "{}"),
    ("{\"object\":{\"a\":{\"optional\":\"json\"}}}", "{..json}"),
    (
        "{\"object\":{\"a\":{\"optional\":[\"integer\",{\"object\":{},\"rest\":\"null\"}]}},\"rest\":\"nothing\"}",
        "{\"a\"?: integer|{..null}}",
    ),
    (
        "[{\"object\":{\"a\":\"integer\"},\"rest\":\"nothing\"},{\"object\":{\"b\":\"string\"},\"rest\":\"nothing\"}]",
        "{\"a\"?: integer, \"b\"?: string}",
    ),
    (
        "{\"object\":{\"a\":\"null\",\"a\":\"string\"},\"rest\":[\"integer\",\"null\"]}",
        "{\"a\": string, ..integer|null}",
    ),
];

#[test]
fn kind_files_declare_kinds(rt: HostRuntime) -> Result<(), Memory> {
    files_have_one_answer();
    expect_told(&rt, rt.alloc(), &DECLARED)
}

const REFUSED: [(&str, &str); 26] = [
    ("{", "kind file: not JSON"),
    ("", "kind file: not JSON"),
    ("{\"object\":{\"m\":1.5}}", "kind file: not JSON"),
    (
        "{\"object\":{\"m\":\"text\"}}",
        "kind file: bad kind at /object/m",
    ),
    ("3", "kind file: bad kind at "),
    ("[]", "kind file: bad kind at "),
    ("{}", "kind file: bad kind at "),
    ("{\"rest\":\"json\"}", "kind file: bad kind at "),
    ("{\"array\":[],\"object\":{}}", "kind file: bad kind at "),
    (
        "{\"object\":{\"m\":1},\"others\":\"json\"}",
        "kind file: bad kind at ",
    ),
    ("{\"optional\":{\"object\":{}}}", "kind file: bad kind at "),
    // All descriptions are right, but more than objects is allowed.
    ("\"json\"", "kind file: bad kind at "),
    ("[\"null\",{\"object\":{}}]", "kind file: bad kind at "),
    ("{\"array\":[\"null\"]}", "kind file: bad kind at "),
    // The first fault, by names and places, a value before its parts.
    ("[\"null\",1]", "kind file: bad kind at /1"),
    (
        "[{\"object\":{}},[\"null\",[\"json\",null]]]",
        "kind file: bad kind at /1/1/1",
    ),
    (
        "{\"object\":{\"b\":1,\"a\":{\"object\":7}},\"rest\":2}",
        "kind file: bad kind at /object/a/object",
    ),
    (
        "{\"rest\":true,\"object\":[]}",
        "kind file: bad kind at /object",
    ),
    (
        "{\"rest\":{\"optional\":\"null\"},\"object\":{}}",
        "kind file: bad kind at /rest",
    ),
    (
        "{\"object\":{\"m\":\"nothing\"}}",
        "kind file: bad kind at /object/m",
    ),
    (
        "{\"object\":{\"m\":{\"optional\":\"null\",\"rest\":\"json\"}}}",
        "kind file: bad kind at /object/m",
    ),
    (
        "{\"object\":{\"m\":{\"optional\":{\"optional\":\"null\"}}}}",
        "kind file: bad kind at /object/m/optional",
    ),
    (
        "{\"object\":{\"m\":{\"array\":{}}}}",
        "kind file: bad kind at /object/m/array",
    ),
    (
        "{\"object\":{\"m\":{\"array\":[\"null\",\"string\",\"any\"]}}}",
        "kind file: bad kind at /object/m/array/2",
    ),
    (
        "{\"object\":{\"~0/\u{e9}\":0}}",
        "kind file: bad kind at /object/~00~1\u{e9}",
    ),
    ("{\"object\":{\"\":0}}", "kind file: bad kind at /object/"),
];

#[test]
fn kind_files_are_refused(rt: HostRuntime) -> Result<(), Memory> {
    expect_told(&rt, rt.alloc(), &REFUSED)
}

// A text so often, behind what there is.
fn add_times(text: &mut String, part: &str, count: usize) -> Result<(), Memory> {
    for _copy in 0..count {
        text.push_str(part)?;
    }
    Ok(())
}

// Numbered fields behind what there is, up to this count.
fn add_fields(alloc: Global, text: &mut String, count: usize) -> Result<(), Memory> {
    for index in 1..count {
        text.push_str(format!(in alloc; ",\"{index}\":\"null\"")?.as_str())?;
    }
    Ok(())
}

// What a file has so many of.
#[derive(Clone, Copy)]
enum Measure {
    Places,
    Fields,
    Levels,
    Bytes,
}

// Of a file, the text before what is repeated, with the first place or field.
fn front(measure: Measure) -> &'static str {
    match measure {
        Measure::Places => "{\"object\":{\"m\":{\"array\":[\"null\"",
        Measure::Fields => "{\"object\":{\"0\":\"null\"",
        Measure::Levels => "{\"object\":{\"m\":",
        Measure::Bytes => "",
    }
}

// The text behind it.
fn back(measure: Measure) -> &'static str {
    match measure {
        Measure::Places => "]}}}",
        Measure::Fields => "}}",
        Measure::Levels => "}}",
        Measure::Bytes => "{\"object\":{}}",
    }
}

// Arrays in one another, this many, around a kind.
fn add_levels(text: &mut String, count: usize) -> Result<(), Memory> {
    add_times(text, "{\"array\":[", count)?;
    text.push_str("\"null\"")?;
    add_times(text, "]}", count)
}

// What is repeated.
fn add_middle(
    alloc: Global,
    text: &mut String,
    measure: Measure,
    count: usize,
) -> Result<(), Memory> {
    match measure {
        Measure::Places => add_times(text, ",\"null\"", count.saturating_sub(1)),
        Measure::Fields => add_fields(alloc, text, count),
        Measure::Levels => add_levels(text, count),
        Measure::Bytes => add_times(text, " ", count),
    }
}

// A file with as much of this.
fn add_file(
    alloc: Global,
    text: &mut String,
    measure: Measure,
    count: usize,
) -> Result<(), Memory> {
    text.push_str(front(measure))?;
    add_middle(alloc, text, measure, count)?;
    text.push_str(back(measure))?;
    Ok(())
}

// How the kind of such a file is told, or its refusal.
fn file_told(alloc: Global, measure: Measure, count: usize) -> Result<Chars, Memory> {
    let mut text = String::new(alloc);
    add_file(alloc, &mut text, measure, count)?;
    told(alloc, text.as_str())
}

// Whether the text is the refusal, or tells an object where there is none.
fn is_told(text: &str, refusal: Option<&str>) -> bool {
    match refusal {
        Some(wanted) => text == wanted,
        None => text.starts_with('{'),
    }
}

// Files with so much of something, and how they are refused.
fn expect_refusals(
    rt: &impl Abort,
    alloc: Global,
    rows: &[(Measure, usize, Option<&'static str>)],
) -> Result<(), Memory> {
    for (measure, count, refusal) in rows {
        let text = file_told(alloc, *measure, *count)?;
        assert!(rt; is_told(text.as_str(), *refusal), "at {count:?}");
    }
    Ok(())
}

const LIMITS: [(Measure, usize, Option<&str>); 8] = [
    (Measure::Places, 64, None),
    (
        Measure::Places,
        65,
        Some("kind file: bad kind at /object/m/array"),
    ),
    // The kind itself is a node.
    (Measure::Fields, 999, None),
    (Measure::Fields, 1000, Some("kind file: bad kind at ")),
    // The object is a level.
    (Measure::Levels, 31, None),
    (Measure::Levels, 32, Some("kind file: bad kind at ")),
    // The description itself has 13 bytes.
    (Measure::Bytes, 65_523, None),
    (Measure::Bytes, 65_524, Some("kind file: too long")),
];

#[test]
fn kind_files_have_limits(rt: HostRuntime) -> Result<(), Memory> {
    expect_refusals(&rt, rt.alloc(), &LIMITS)
}
