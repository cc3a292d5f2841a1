// Kinds of what is read, written and removed at paths of a field and a place.
ghost use Rattle.std.specs.Prelude.{IfOk};
ghost use Rattle.vrl_path.specs.Steps.{IsWritable};

use crate::kinds::kind_of_words;
use crate::paths::place_from_end;
use std::alloc::Global;
use std::process::Abort;
use vrl_kind::{Kind, print};
use vrl_path::{Path, Step};
use vrl_place::{may_be_absent, read_kind, remove_kind, write_kind};
use vrl_value::{Chars, Memory};

// To a field, if there is a name, and to a place of it, if there is one.
pub(crate) fn path_to(alloc: Global, name: &str, place: Option<u16>) -> Result<Path, Memory>
    ensures { IfOk result (λ path. IsWritable path) }
{
    let mut steps = Vec::new(alloc);
    if !name.is_empty() {
        steps.push(Step::Field(Chars::copy_of(alloc, name)?))?;
    }
    if let Some(place) = place {
        steps.push(Step::Place(place as i64))?;
    }
    Ok(Path::new(steps))
}

// The same, whatever the sign of the place.
fn signed_path_to(alloc: Global, name: &str, place: Option<i64>) -> Result<Path, Memory> {
    let mut steps = Vec::new(alloc);
    if !name.is_empty() {
        steps.push(Step::Field(Chars::copy_of(alloc, name)?))?;
    }
    if let Some(place) = place {
        steps.push(Step::Place(place))?;
    }
    Ok(Path::new(steps))
}

// To a place of a field, or of the whole if there is no name, so far from the last one, and to a field of that
// place, if there is a name behind it.
fn path_from_end(alloc: Global, name: &str, distance: u16, behind: &str) -> Result<Path, Memory>
    ensures { IfOk result (λ path. IsWritable path) }
{
    let mut steps = Vec::new(alloc);
    if !name.is_empty() {
        steps.push(Step::Field(Chars::copy_of(alloc, name)?))?;
    }
    steps.push(Step::Place(place_from_end(distance)))?;
    if !behind.is_empty() {
        steps.push(Step::Field(Chars::copy_of(alloc, behind)?))?;
    }
    Ok(Path::new(steps))
}

fn read_told(alloc: Global, words: &str, path: &Path) -> Result<Chars, Memory> {
    let kind = kind_of_words(alloc, words)?;
    print(alloc, &read_kind(alloc, &kind, path)?)
}

// How the kind of what is read at a path of the kind of words is told.
fn read(alloc: Global, words: &str, name: &str, place: Option<i64>) -> Result<Chars, Memory> {
    read_told(alloc, words, &signed_path_to(alloc, name, place)?)
}

// Words, a path, and how the kind of what is read there is told.
fn expect_reads(
    rt: &impl Abort,
    alloc: Global,
    rows: &[(&str, &str, Option<i64>, &str)],
) -> Result<(), Memory> {
    for (words, name, place, told) in rows {
        let text = read(alloc, words, name, *place)?;
        assert!(rt; text.as_str() == *told, "at {words:?}");
    }
    Ok(())
}

fn write(alloc: Global, words: &str, path: &Path, new: &str) -> Result<Kind, Memory>
    requires { IsWritable path.now }
{
    let mut kind = kind_of_words(alloc, words)?;
    write_kind(alloc, &mut kind, path, kind_of_words(alloc, new)?)?;
    Ok(kind)
}

fn remove(alloc: Global, words: &str, path: &Path) -> Result<Kind, Memory> {
    let mut kind = kind_of_words(alloc, words)?;
    remove_kind(alloc, &mut kind, path)?;
    Ok(kind)
}

// The kind of words after the kind of new words is written at a path of it, or, if there are none,
// after what stands there is removed.
fn changed(alloc: Global, words: &str, path: &Path, new: Option<&str>) -> Result<Kind, Memory>
    requires { IsWritable path.now }
{
    match new {
        Some(new) => write(alloc, words, path, new),
        None => remove(alloc, words, path),
    }
}

// How that kind is told.
fn change(
    alloc: Global,
    words: &str,
    name: &str,
    place: Option<u16>,
    new: Option<&str>,
) -> Result<Chars, Memory> {
    let path = path_to(alloc, name, place)?;
    print(alloc, &changed(alloc, words, &path, new)?)
}

// Words, a path, the words of what is written there, and how the kind is told then.
fn expect_writes(
    rt: &impl Abort,
    alloc: Global,
    rows: &[(&str, &str, Option<u16>, &str, &str)],
) -> Result<(), Memory> {
    for (words, name, place, new, told) in rows {
        let text = change(alloc, words, name, *place, Some(new))?;
        assert!(rt; text.as_str() == *told, "at {words:?}");
    }
    Ok(())
}

// Whether what stands at a path of the kind of words may be absent.
fn absent(alloc: Global, words: &str, name: &str, place: Option<u16>) -> Result<bool, Memory> {
    let path = path_to(alloc, name, place)?;
    Ok(may_be_absent(&kind_of_words(alloc, words)?, &path))
}

// Words, a path, how the kind is told without what stands there, and whether that may be absent.
fn expect_removals(
    rt: &impl Abort,
    alloc: Global,
    rows: &[(&str, &str, Option<u16>, &str, bool)],
) -> Result<(), Memory> {
    for (words, name, place, told, wanted) in rows {
        assert!(rt;
            absent(alloc, words, name, *place)? == *wanted,
            "at {words:?}"
        );
        let left = change(alloc, words, name, *place, None)?;
        assert!(rt; left.as_str() == *told, "at {words:?}");
    }
    Ok(())
}

const READS: [(&str, &str, Option<i64>, &str); 25] = [
    ("{\"a\":\"s\"}|{}", "a", None, "string|null"),
    ("{\"a\":\"s\"}", "a", None, "string"),
    ("{\"a\":\"s\"}", "b", None, "null"),
    // The first, the middle and the last field, and names between and around them.
    ("{\"a\":1,\"b\":\"s\",\"c\":true}", "a", None, "integer"),
    ("{\"a\":1,\"b\":\"s\",\"c\":true}", "b", None, "string"),
    ("{\"a\":1,\"b\":\"s\",\"c\":true}", "c", None, "boolean"),
    ("{\"b\":1,\"d\":\"s\"}", "c", None, "null"),
    // A name that is a front of another.
    ("{\"ab\":1,\"b\":\"s\"}", "a", None, "null"),
    ("{\"a\":1,\"abc\":\"s\"}", "abc", None, "string"),
    ("{\"a\":\"s\"}|1", "a", None, "string|null"),
    ("integer", "a", None, "null"),
    ("never", "a", None, "never"),
    ("json", "a", None, "json"),
    ("any", "a", Some(3), "any"),
    ("{\"a\":[1]}", "a", Some(0), "integer"),
    ("{\"a\":[1]}", "a", Some(1), "null"),
    ("{\"a\":[1]}|{\"a\":\"s\"}", "a", Some(0), "integer|null"),
    ("[..string]", "", Some(0), "string|null"),
    ("{\"a\":1}", "", None, "{\"a\": integer}"),
    // From the end.
    ("[\"s\",1]", "", Some(-1), "string|integer|null"),
    ("[\"s\",1]", "", Some(-3), "string|integer|null"),
    ("[]", "", Some(-1), "null"),
    ("integer", "", Some(-1), "null"),
    (
        "{\"a\":[true,[1]]}",
        "a",
        Some(-2),
        "boolean|null|[integer]",
    ),
    ("[..string]", "", Some(-1), "string|null"),
];

#[test]
fn kinds_are_read_at_paths(rt: HostRuntime) -> Result<(), Memory> {
    expect_reads(&rt, rt.alloc(), &READS)
}

const WRITES: [(&str, &str, Option<u16>, &str, &str); 25] = [
    (
        "{..json}",
        "a",
        Some(1),
        "integer",
        "{\"a\": [json, integer, ..json], ..json}",
    ),
    ("integer", "a", None, "string", "{\"a\": string}"),
    ("never", "", Some(0), "integer", "[integer]"),
    (
        "{\"b\":1}",
        "a",
        None,
        "string",
        "{\"a\": string, \"b\": integer}",
    ),
    (
        "{\"b\":1}|1",
        "a",
        None,
        "string",
        "{\"a\": string, \"b\"?: integer}",
    ),
    // A name before all, between two and behind all.
    (
        "{\"b\":1,\"d\":1}",
        "a",
        None,
        "string",
        "{\"a\": string, \"b\": integer, \"d\": integer}",
    ),
    (
        "{\"b\":1,\"d\":1}",
        "c",
        None,
        "string",
        "{\"b\": integer, \"c\": string, \"d\": integer}",
    ),
    (
        "{\"b\":1,\"d\":1}",
        "e",
        None,
        "string",
        "{\"b\": integer, \"d\": integer, \"e\": string}",
    ),
    // The first, the middle and the last field.
    (
        "{\"a\":1,\"b\":1,\"c\":1}",
        "a",
        None,
        "string",
        "{\"a\": string, \"b\": integer, \"c\": integer}",
    ),
    (
        "{\"a\":1,\"b\":1,\"c\":1}",
        "b",
        None,
        "string",
        "{\"a\": integer, \"b\": string, \"c\": integer}",
    ),
    (
        "{\"a\":1,\"b\":1,\"c\":1}",
        "c",
        None,
        "string",
        "{\"a\": integer, \"b\": integer, \"c\": string}",
    ),
    // A name that is a front of another, and one that another is a front of.
    (
        "{\"ab\":1,\"b\":1}",
        "a",
        None,
        "string",
        "{\"a\": string, \"ab\": integer, \"b\": integer}",
    ),
    (
        "{\"a\":1,\"b\":1}",
        "ab",
        None,
        "string",
        "{\"a\": integer, \"ab\": string, \"b\": integer}",
    ),
    ("[\"s\",1]", "", Some(1), "[]", "[string, []]"),
    ("[\"s\",1]", "", Some(0), "[]", "[[], integer]"),
    ("[\"s\"]", "", Some(2), "integer", "[string, null, integer]"),
    (
        "[\"s\"]|{}",
        "",
        Some(1),
        "integer",
        "[string|null, integer]",
    ),
    (
        "[\"s\",1,1]|{}",
        "",
        Some(1),
        "string",
        "[string|null, string, ?integer]",
    ),
    (
        "{\"a\":\"s\"}",
        "a",
        Some(1),
        "integer",
        "{\"a\": [null, integer]}",
    ),
    ("any", "a", None, "integer", "{\"a\": integer, ..any}"),
    ("{\"a\":1}", "", None, "string", "string"),
    // Among fields that are known.
    (
        "{\"a\":1,\"c\":1}",
        "b",
        None,
        "string",
        "{\"a\": integer, \"b\": string, \"c\": integer}",
    ),
    (
        "{\"a\":1}",
        "b",
        None,
        "string",
        "{\"a\": integer, \"b\": string}",
    ),
    (
        "{\"a\":[1],\"b\":1}",
        "a",
        Some(0),
        "string",
        "{\"a\": [string], \"b\": integer}",
    ),
    (
        "{\"a\":[1],\"b\":1}",
        "b",
        Some(0),
        "string",
        "{\"a\": [integer], \"b\": [string]}",
    ),
];

#[test]
fn kinds_are_written_at_paths(rt: HostRuntime) -> Result<(), Memory> {
    expect_writes(&rt, rt.alloc(), &WRITES)
}

const REMOVALS: [(&str, &str, Option<u16>, &str, bool); 19] = [
    ("[\"s\",1]", "", Some(0), "[integer]", false),
    ("[\"s\",1,[]]", "", Some(1), "[string, []]", false),
    ("[\"s\",1]", "", Some(2), "[string, integer]", true),
    ("[1]|[1,\"s\"]", "", Some(0), "[?string]", false),
    ("[1]|[1,\"s\"]", "", Some(1), "[integer]", true),
    (
        "[1,\"s\",true]|[]",
        "",
        Some(0),
        "[?string, ?boolean]",
        true,
    ),
    ("[1]|1", "", Some(0), "integer|[]", true),
    ("[..integer]", "", Some(0), "[..integer]", true),
    ("{\"a\":1,\"b\":1}", "a", None, "{\"b\": integer}", false),
    (
        "{\"a\":1,\"b\":1,\"c\":1}",
        "b",
        None,
        "{\"a\": integer, \"c\": integer}",
        false,
    ),
    ("{\"a\":1,\"b\":1}", "b", None, "{\"a\": integer}", false),
    // A name that is a front of another.
    ("{\"a\":1,\"ab\":1}", "a", None, "{\"ab\": integer}", false),
    (
        "json",
        "a",
        None,
        "string|integer|boolean|null|[..json]|{\"a\"?: never, ..json}",
        true,
    ),
    (
        "{\"a\":[1,\"s\"]}",
        "a",
        Some(0),
        "{\"a\": [string]}",
        false,
    ),
    ("{\"a\":1}", "a", Some(0), "{\"a\": integer}", true),
    ("{\"a\":1}|[]", "b", None, "[]|{\"a\": integer}", true),
    ("integer", "", None, "integer", false),
    // Among fields that are known.
    (
        "{\"a\":[1,\"s\"],\"b\":1}",
        "a",
        Some(0),
        "{\"a\": [string], \"b\": integer}",
        false,
    ),
    (
        "{a absent, ..json}",
        "b",
        None,
        "{\"a\"?: never, \"b\"?: never, ..json}",
        true,
    ),
];

#[test]
fn kinds_are_removed_at_paths(rt: HostRuntime) -> Result<(), Memory> {
    expect_removals(&rt, rt.alloc(), &REMOVALS)
}

// Words, a field or the whole, how far from its last place, a field behind that or none, the words of what is
// written there, or none for a removal, and how the kind is told then.
const FROM_END: [(&str, &str, u16, &str, Option<&str>, &str); 19] = [
    // Arrays of one length, and of others.
    (
        "[1,2,3]",
        "",
        1,
        "",
        Some("string"),
        "[integer, string, integer]",
    ),
    (
        "[1,2,3]",
        "",
        2,
        "",
        Some("string"),
        "[string, integer, integer]",
    ),
    (
        "[1,2,3]",
        "",
        3,
        "",
        Some("string"),
        "[..string|integer|null]",
    ),
    (
        "[1]|[1,true]",
        "",
        0,
        "",
        Some("string"),
        "[..string|integer|boolean|null]",
    ),
    ("any", "", 0, "", Some("integer"), "[..any]"),
    (
        "[1]|{}",
        "",
        0,
        "",
        Some("string"),
        "[..string|integer|null]",
    ),
    ("never", "", 0, "", Some("string"), "[..string|null]"),
    ("[1,\"s\"]", "", 0, "", None, "[integer]"),
    ("[1,\"s\"]", "", 1, "", None, "[string]"),
    ("[1,\"s\"]", "", 2, "", None, "[integer, string]"),
    ("[..integer]", "", 0, "", None, "[..integer]"),
    (
        "[1]|[1,\"s\"]|true",
        "",
        0,
        "",
        None,
        "boolean|[..string|integer]",
    ),
    ("integer", "", 0, "", None, "integer"),
    // Behind a field, and with a field behind.
    (
        "{\"a\":[1,2]}",
        "a",
        0,
        "",
        Some("string"),
        "{\"a\": [integer, string]}",
    ),
    ("{\"a\":[1,\"s\"]}", "a", 0, "", None, "{\"a\": [integer]}"),
    (
        "[{\"a\":1}]",
        "",
        0,
        "a",
        Some("string"),
        "[{\"a\": string}]",
    ),
    (
        "[..integer]",
        "",
        0,
        "a",
        Some("string"),
        "[..integer|null|{\"a\": string}]",
    ),
    ("[{\"a\":1}]", "", 0, "a", None, "[{}]"),
    ("[{\"a\":1}]|[]", "", 0, "a", None, "[..{\"a\"?: integer}]"),
];

#[test]
fn kinds_are_changed_from_the_end(rt: HostRuntime) -> Result<(), Memory> {
    let alloc = rt.alloc();
    for (words, name, distance, behind, new, told) in &FROM_END {
        let path = path_from_end(alloc, name, *distance, behind)?;
        let text = print(alloc, &changed(alloc, words, &path, *new)?)?;
        assert!(rt; text.as_str() == *told, "at {words:?}");
    }
    Ok(())
}
