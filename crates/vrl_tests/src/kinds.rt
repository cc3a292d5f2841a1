// Kinds, made by words and by JSON values, and how they are told in text.
use crate::sharing::shareable;
use std::alloc::Global;
use std::process::Abort;
use vrl_json::{JsonFault, Scratch, from_line};
use vrl_kind::{
    Kind, Rest, cut, flatten, has, inhabits, join, kind_of, levels, nodes, overlaid, parts, print,
    within, without,
};
use vrl_value::{Chars, Memory, Tag, Value};

// The value of a text, or null where it has none.
fn value_of(alloc: Global, text: &str) -> Result<Value, Memory> {
    match from_line(alloc, text.as_bytes(), &mut Scratch::new(alloc)) {
        Ok(value) => Ok(value),
        Err(JsonFault::Memory) => Err(Memory),
        Err(_) => Ok(Value::Null),
    }
}

// An array or an object of which only the rest is known.
fn open(alloc: Global, is_list: bool, rest: Rest) -> Result<Kind, Memory> {
    if is_list {
        Kind::list(alloc, Vec::new(alloc), rest)
    } else {
        Kind::object(alloc, Vec::new(alloc), rest)
    }
}

// An array with a rest of this kind.
fn list_of(alloc: Global, kind: Kind) -> Result<Kind, Memory> {
    open(alloc, true, Rest::Exact(Box::new(alloc, kind)?))
}

// The tag of a word that is the name of one.
fn tag_of(word: &str) -> Option<Tag> {
    match word {
        "string" => Some(Tag::Text),
        "integer" => Some(Tag::Int),
        "timestamp" => Some(Tag::Time),
        "regex" => Some(Tag::Pattern),
        "array" => Some(Tag::List),
        "object" => Some(Tag::Object),
        "absent" => Some(Tag::Absent),
        _ => None,
    }
}

// The word of the rest of an array of which only that is known.
fn rest_of(word: &str) -> Option<&str> {
    match word {
        "[..string]" => Some("string"),
        "[..integer]" => Some("integer"),
        "[..exactly any]" => Some("any"),
        "[..exactly json]" => Some("json"),
        "[..exactly never]" => Some("never"),
        _ => None,
    }
}

// The kind of the value of a text.
fn kind_of_text(alloc: Global, text: &str) -> Result<Kind, Memory> {
    kind_of(alloc, &value_of(alloc, text)?)
}

// The kind of a word that tells no rest, or else that of a JSON value.
fn kind_of_name(alloc: Global, word: &str) -> Result<Kind, Memory> {
    match word {
        "never" => Ok(Kind::never()),
        "any" => Ok(Kind::any(alloc)),
        "json" => Ok(Kind::json(alloc)),
        _ => match tag_of(word) {
            Some(tag) => Ok(Kind::of(alloc, tag)),
            None => kind_of_text(alloc, word),
        },
    }
}

// An array with one place.
fn list_around(alloc: Global, kind: Kind) -> Result<Kind, Memory> {
    let mut places = Vec::new(alloc);
    places.push(kind)?;
    Kind::list(alloc, places, Rest::Nothing)
}

// Arrays in one another, this many, around a number.
fn nest(alloc: Global, depth: u64) -> Result<Kind, Memory> {
    let mut kind = Kind::of(alloc, Tag::Int);
    for _level in 0..depth {
        kind = list_around(alloc, kind)?;
    }
    Ok(kind)
}

// An object with one field.
fn object_with(alloc: Global, name: Chars, kind: Kind) -> Result<Kind, Memory> {
    let mut fields = Vec::new(alloc);
    fields.push((name, kind))?;
    Kind::object(alloc, fields, Rest::Json)
}

// An object that lacks a field.
fn object_lacking(alloc: Global, name: &str) -> Result<Kind, Memory> {
    let name = Chars::copy_of(alloc, name)?;
    object_with(alloc, name, Kind::of(alloc, Tag::Absent))
}

// The kind of a word, or else that of a JSON value.
pub(crate) fn kind_of_word(alloc: Global, word: &str) -> Result<Kind, Memory> {
    match word {
        "[..json]" => open(alloc, true, Rest::Json),
        "{..json}" => open(alloc, false, Rest::Json),
        "{a absent, ..json}" => object_lacking(alloc, "a"),
        "32 arrays" => nest(alloc, 32),
        "33 arrays" => nest(alloc, 33),
        _ => match rest_of(word) {
            Some(rest) => list_of(alloc, kind_of_name(alloc, rest)?),
            None => kind_of_name(alloc, word),
        },
    }
}

// The join of a kind and that of a word.
fn join_word(alloc: Global, kind: &Kind, word: &str) -> Result<Kind, Memory> {
    join(alloc, kind, &kind_of_word(alloc, word)?)
}

// The join of the kinds of words, which stand between strokes.
pub(crate) fn kind_of_words(alloc: Global, words: &str) -> Result<Kind, Memory> {
    let mut kind = Kind::never();
    for word in words.split('|') {
        kind = join_word(alloc, &kind, word)?;
    }
    Ok(kind)
}

// Whether the value of a text is of the join of the kinds of words.
fn is_of(alloc: Global, text: &str, words: &str) -> Result<bool, Memory> {
    let kind = kind_of_words(alloc, words)?;
    Ok(inhabits(&value_of(alloc, text)?, &kind))
}

// A value, words, and whether the value is of the join of their kinds.
fn expect_inhabits(
    rt: &impl Abort,
    alloc: Global,
    rows: &[(&str, &str, bool)],
) -> Result<(), Memory> {
    for (value, words, wanted) in rows {
        let is_of_kind = is_of(alloc, value, words)?;
        assert!(rt; is_of_kind == *wanted, "at {words:?}");
    }
    Ok(())
}

// What is made of a kind.
#[derive(Clone, Copy)]
enum Change {
    Nothing,
    Parts,
    Flat,
    WithoutNull,
    Cut,
}

fn changed(alloc: Global, change: Change, kind: &Kind) -> Result<Kind, Memory> {
    match change {
        Change::Nothing => kind.copy(alloc),
        Change::Parts => parts(alloc, kind),
        Change::Flat => Ok(flatten(alloc, kind)),
        Change::WithoutNull => without(alloc, kind, Tag::Null),
        Change::Cut => cut(alloc, kind),
    }
}

// How what is made of the join of the kinds of words is told.
fn told(alloc: Global, change: Change, words: &str) -> Result<Chars, Memory> {
    let kind = kind_of_words(alloc, words)?;
    print(alloc, &changed(alloc, change, &kind)?)
}

// Whether what is made of it is within it.
fn is_within(alloc: Global, change: Change, words: &str) -> Result<bool, Memory> {
    let kind = kind_of_words(alloc, words)?;
    Ok(within(&changed(alloc, change, &kind)?, &kind))
}

// Words, and how what is made of the join of their kinds is told.
fn expect_told(
    rt: &impl Abort,
    alloc: Global,
    change: Change,
    rows: &[(&str, &str)],
) -> Result<(), Memory> {
    for (words, wanted) in rows {
        let text = told(alloc, change, words)?;
        assert!(rt; text.as_str() == *wanted, "at {words:?}");
    }
    Ok(())
}

// Words, where what is made of the join of their kinds is within it.
fn expect_within(
    rt: &impl Abort,
    alloc: Global,
    change: Change,
    rows: &[&str],
) -> Result<(), Memory> {
    for words in rows {
        assert!(rt; is_within(alloc, change, words)?, "at {words:?}");
    }
    Ok(())
}

const JOINS: [(&str, &str); 29] = [
    ("{a absent, ..json}", "{\"a\"?: never, ..json}"),
    ("never", "never"),
    ("any", "any"),
    ("json", "json"),
    ("string", "string"),
    ("timestamp|regex", "timestamp|regex"),
    ("absent", "never"),
    ("array", "[..any]"),
    ("object", "{..any}"),
    ("null|string", "string|null"),
    ("json|any", "any"),
    ("json|never", "json"),
    (
        "json|timestamp",
        "string|integer|boolean|null|timestamp|[..json]|{..json}",
    ),
    ("[..string]", "[..string]"),
    ("[..exactly any]", "[..any]"),
    ("[..exactly json]", "[..json]"),
    ("[..exactly never]", "[]"),
    ("[1]|[]", "[?integer]"),
    ("[1,\"s\"]|[1]", "[integer, ?string]"),
    ("[1]|1", "integer|[integer]"),
    ("[..integer]|[1]", "[..integer]"),
    ("[..integer]|[\"s\"]", "[?string|integer, ..integer]"),
    ("[..integer]|[..string]", "[..string|integer]"),
    ("[..json]|[[1]]", "[..json]"),
    (
        "{\"a\":1}|{\"b\":\"s\"}",
        "{\"a\"?: integer, \"b\"?: string}",
    ),
    (
        "{\"b\":1,\"a\":[true]}",
        "{\"a\": [boolean], \"b\": integer}",
    ),
    ("{..json}|{\"a\":1}", "{..json}"),
    ("{\"a\":1}|{\"a\":null}|[]", "[]|{\"a\": integer|null}"),
    (
        "{\"q\\\"\\\\\\n\\u0001\u{e9}\":1}",
        "{\"q\\\"\\\\\\n\\u0001\u{e9}\": integer}",
    ),
];

#[test]
fn kinds_are_joined_and_told(rt: HostRuntime) -> Result<(), Memory> {
    expect_told(&rt, rt.alloc(), Change::Nothing, &JOINS)
}

const VALUES: [(&str, &str, bool); 13] = [
    (
        "{\"a\":[null,true],\"b\":1}",
        "{\"a\":[null,true],\"b\":1}",
        true,
    ),
    ("{\"a\":[null,true],\"b\":1}", "json", true),
    ("{\"a\":[null,true],\"b\":1}", "any", true),
    ("{\"a\":[null,true],\"b\":1}", "integer", false),
    ("{\"a\":[null,true],\"b\":1}", "{\"b\":1}", false),
    ("{\"a\":1}", "{\"a\":1}|{\"b\":1}", true),
    ("{}", "{\"a\":1}|{\"b\":1}", true),
    ("{\"c\":1}", "{\"a\":1}|{\"b\":1}", false),
    ("{\"a\":\"s\"}", "{\"a\":1}|{\"b\":1}", false),
    ("[1,2]", "[..integer]", true),
    ("[1,\"s\"]", "[..integer]", false),
    ("[]", "[1]", false),
    ("[1]", "[1,1]|[]", true),
];

#[test]
fn values_are_of_kinds(rt: HostRuntime) -> Result<(), Memory> {
    expect_inhabits(&rt, rt.alloc(), &VALUES)
}

const OBJECTS: &str = "{\"a\":\"s\",\"b\":1}|{\"b\":1}";

const ARRAYS: &str = "[1,null]|[..string]";

const PARTS: [(&str, &str); 3] = [
    (OBJECTS, "string|integer"),
    ("null|string", "never"),
    (ARRAYS, "string|integer|null"),
];

const FLAT: [(&str, &str); 3] = [
    (OBJECTS, "{..any}"),
    ("null|string", "string|null"),
    (ARRAYS, "[..any]"),
];

const WITHOUT_NULL: [(&str, &str); 3] = [
    (OBJECTS, "{\"a\"?: string, \"b\": integer}"),
    ("null|string", "string"),
    (ARRAYS, "[?string|integer, ?string|null, ..string]"),
];

#[test]
fn kinds_are_changed(rt: HostRuntime) -> Result<(), Memory> {
    expect_told(&rt, rt.alloc(), Change::Parts, &PARTS)?;
    expect_told(&rt, rt.alloc(), Change::Flat, &FLAT)?;
    expect_told(&rt, rt.alloc(), Change::WithoutNull, &WITHOUT_NULL)?;
    let words = [OBJECTS, "null|string", ARRAYS];
    expect_within(&rt, rt.alloc(), Change::WithoutNull, &words)
}

// The objects of one kind with the fields of those of another put over their own, where both have
// some.
fn objects_over(alloc: Global, lower: &Kind, upper: &Kind) -> Result<Kind, Memory> {
    if !has(lower, Tag::Object) {
        return Ok(Kind::never());
    }
    if !has(upper, Tag::Object) {
        return Ok(Kind::never());
    }
    overlaid(alloc, lower, upper)
}

// How that is told of the joins of the kinds of words.
fn told_over(alloc: Global, lower: &str, upper: &str) -> Result<Chars, Memory> {
    let lower = kind_of_words(alloc, lower)?;
    print(
        alloc,
        &objects_over(alloc, &lower, &kind_of_words(alloc, upper)?)?,
    )
}

// Words, words, and how the objects of their kinds, the second ones over the first, are told.
fn expect_over(rt: &impl Abort, alloc: Global, rows: &[(&str, &str, &str)]) -> Result<(), Memory> {
    for (lower, upper, wanted) in rows {
        let text = told_over(alloc, lower, upper)?;
        assert!(rt; text.as_str() == *wanted, "at {upper:?}");
    }
    Ok(())
}

const OVER: [(&str, &str, &str); 7] = [
    (
        "{\"a\":1}",
        "{\"b\":\"s\"}",
        "{\"a\": integer, \"b\": string}",
    ),
    ("{\"a\":1}", "{\"a\":\"s\"}", "{\"a\": string}"),
    ("{\"a\":1}", "{\"a\":\"s\"}|{}", "{\"a\": string|integer}"),
    ("{}", "{\"a\":1}|{}", "{\"a\"?: integer}"),
    ("{..json}", "{\"a\":1}", "{\"a\": integer, ..json}"),
    ("{\"a\":1}", "{..json}", "{\"a\": json, ..json}"),
    ("[1]|{\"a\":1}|{}", "null|{}", "{\"a\"?: integer}"),
];

#[test]
fn objects_are_put_over_others(rt: HostRuntime) -> Result<(), Memory> {
    expect_over(&rt, rt.alloc(), &OVER)
}

// Whether the deepest arrays that a cut keeps have so many levels and nodes.
fn are_deepest(alloc: Global) -> Result<bool, Memory> {
    let kept = shareable(kind_of_word(alloc, "32 arrays")?);
    Ok(levels(&kept) == 32 && nodes(&kept) == 33 && has(&kept, Tag::List))
}

#[test]
fn kinds_are_cut(rt: HostRuntime) -> Result<(), Memory> {
    assert!(rt; are_deepest(rt.alloc())?);
    expect_within(&rt, rt.alloc(), Change::Cut, &["32 arrays"])?;
    expect_told(&rt, rt.alloc(), Change::Cut, &[("33 arrays", "[..any]")])
}
