use crate::sharing::shareable;
use std::alloc::Global;
use std::cmp::Ordering;
use std::collections::BTreeMap;
use std::process::Abort;
use vrl_value::{Bytes, Chars, Fields, Items, Memory, Moment, Names, Tag, Value};

// Whether a text is what it was made of, and so is its copy.
fn is_text_kept(alloc: Global, wanted: &str) -> Result<bool, Memory> {
    let text = Chars::new(String::from_str(alloc, wanted)?);
    let copy = text.copy(alloc)?;
    Ok(copy.as_str() == wanted && text.into_string().as_str() == wanted)
}

// Whether bytes are this text; `None`: they are none.
fn is_text_read(alloc: Global, bytes: &[u8], wanted: Option<&str>) -> Result<bool, Memory> {
    match Chars::from_utf8(Vec::from_slice(alloc, bytes)?) {
        Ok(text) => Ok(Some(text.as_str()) == wanted),
        Err(_bytes) => Ok(wanted.is_none()),
    }
}

fn are_bytes_kept(alloc: Global, wanted: &[u8]) -> Result<bool, Memory> {
    let bytes = shareable(Bytes::new(Vec::from_slice(alloc, wanted)?));
    let same = bytes.as_slice() == wanted;
    Ok(same && bytes.into_vec().as_slice() == wanted)
}

fn are_names_kept(alloc: Global) -> Result<bool, Memory> {
    let names = shareable(Names::new(vec![in alloc; Chars::copy_of(alloc, "a")?]?));
    let same = names.as_slice().len() == 1;
    Ok(same && names.into_vec().len() == 1)
}

#[test]
fn lists(rt: HostRuntime) -> Result<(), Memory> {
    let alloc = rt.alloc();
    assert!(rt; is_text_kept(alloc, "a\u{e9}")?);
    assert!(rt; is_text_read(alloc, b"a\xc3\xa9", Some("a\u{e9}"))?);
    assert!(rt; is_text_read(alloc, b"a\xc3", None)?);
    assert!(rt; are_bytes_kept(alloc, b"\xff\n")?);
    assert!(rt; are_names_kept(alloc)?);
    let told = format!(in alloc; "{}", Memory)?;
    assert!(rt; told.as_str() == "out of memory");
    Ok(())
}

// Numbers of nanoseconds, and whether they are moments.
fn expect_range(rt: &impl Abort, rows: &[(i128, bool)]) {
    for (nanos, is_moment) in rows {
        let moment = Moment::new(*nanos);
        assert!(rt;
            moment.is_some() == *is_moment && moment.is_none_or(|moment| moment.nanos() == *nanos),
            "{nanos}"
        );
    }
}

// Texts, and what is written of the moments that they name; nothing where they name none.
fn expect_texts(rt: &impl Abort, alloc: Global, rows: &[(&str, &str)]) -> Result<(), Memory> {
    for (text, written) in rows {
        let is_right = match Moment::read(text) {
            Some(moment) => moment.text(alloc)?.as_str() == *written,
            None => written.is_empty(),
        };
        assert!(rt; is_right, "{text}");
    }
    Ok(())
}

const RANGE: [(i128, bool); 4] = [
    (-62_167_219_200_000_000_001, false),
    (-62_167_219_200_000_000_000, true),
    (253_402_127_999_999_999_999, true),
    (253_402_128_000_000_000_000, false),
];

const TEXTS: [(&str, &str); 45] = [
    ("2024-01-02T03:04:05.5+01:00", "2024-01-02T02:04:05.500Z"),
    ("1970-01-01T00:00:00Z", "1970-01-01T00:00:00Z"),
    (
        "1969-12-31t23:59:59.000000001z",
        "1969-12-31T23:59:59.000000001Z",
    ),
    (
        "2024-01-02T03:04:05.1234567Z",
        "2024-01-02T03:04:05.123456700Z",
    ),
    ("2024-01-02T03:04:05.12345Z", "2024-01-02T03:04:05.123450Z"),
    ("2024-01-02T03:04:05.000000000Z", "2024-01-02T03:04:05Z"),
    ("2024-01-01T00:00:00-00:00", "2024-01-01T00:00:00Z"),
    ("1900-02-28T23:59:59-00:01", "1900-03-01T00:00:59Z"),
    ("2000-02-28T23:59:59-00:01", "2000-02-29T00:00:59Z"),
    ("2000-03-01T00:00:00+23:59", "2000-02-29T00:01:00Z"),
    ("0000-02-29T00:00:00Z", "0000-02-29T00:00:00Z"),
    ("0000-01-01T00:01:00+00:01", "0000-01-01T00:00:00Z"),
    (
        "9999-12-30T00:00:59.999999999+00:01",
        "9999-12-29T23:59:59.999999999Z",
    ),
    ("2023-02-29T00:00:00Z", ""),
    ("1900-02-29T00:00:00Z", ""),
    ("2024-04-31T00:00:00Z", ""),
    ("2024-00-01T00:00:00Z", ""),
    ("2024-13-01T00:00:00Z", ""),
    ("2024-01-00T00:00:00Z", ""),
    ("2024-01-01T24:00:00Z", ""),
    ("2024-01-01T00:60:00Z", ""),
    ("2024-01-01T00:00:60Z", ""),
    ("2024-01-01T00:00:00+24:00", ""),
    ("2024-01-01T00:00:00+00:60", ""),
    ("0000-01-01T00:00:00+00:01", ""),
    ("9999-12-30T00:00:00Z", ""),
    ("9999-12-31T23:59:59+23:59", ""),
    ("2024-01-01T00:00:00.1234567890Z", ""),
    ("2024-01-01T00:00:00.Z", ""),
    ("2024-01-01T00:00:00.5", ""),
    ("2024-01-01T00:00:00,5Z", ""),
    ("2024-01-01T00:00:00", ""),
    ("2024-01-01T00:00Z", ""),
    ("2024-01-01", ""),
    ("2024-01-01T00:00:00+0100", ""),
    ("2024-01-01T00:00:00+01", ""),
    ("2024-01-01T00:00:00Z ", ""),
    ("2024-01-01T00:00:00ZZ", ""),
    ("2024-01-01T00:00:00+01:00Z", ""),
    (" 2024-01-01T00:00:00Z", ""),
    ("2024-01-01 00:00:00Z", ""),
    ("2024-1-01T00:00:00Z", ""),
    ("+002024-01-01T00:00:00Z", ""),
    ("\u{662}024-01-01T00:00:00Z", ""),
    ("", ""),
];

#[test]
fn moments(rt: HostRuntime) -> Result<(), Memory> {
    expect_range(&rt, &RANGE);
    assert!(rt;
        Moment::epoch().nanos() == 0 && Moment::last().nanos() == 253_402_127_999_999_999_999
    );
    expect_texts(&rt, rt.alloc(), &TEXTS)?;
    Ok(())
}

// A value of each sort, in the order of the tags.
fn each_sort(alloc: Global) -> Result<Vec<Value>, Memory> {
    let mut fields = Fields::new(BTreeMap::new(alloc));
    fields.insert(
        Chars::copy_of(alloc, "a")?,
        Value::List(Items::new(vec![in alloc; Value::Null]?)),
    )?;
    vec![in alloc;
        Value::Text(Chars::copy_of(alloc, "b")?),
        Value::Int(-1),
        Value::Bool(true),
        Value::Null,
        Value::Time(Moment::epoch()),
        Value::Pattern(0),
        Value::List(Items::new(Vec::new(alloc))),
        Value::Object(fields),
    ]
    .map_err(Memory::from)
}

// A copy of a value is equal to that at its place alone.
fn expect_equal_at(
    rt: &impl Abort,
    alloc: Global,
    values: &[Value],
    value: &Value,
    place: usize,
) -> Result<(), Memory> {
    let copy = value.copy(alloc)?;
    for (i, other) in values.iter().enumerate() {
        assert!(rt; copy.same(other) == (i == place), "at {place} and {i}");
    }
    Ok(())
}

// The tag and the depth of each value, which is equal to its copy and to no other.
fn expect_values(
    rt: &impl Abort,
    alloc: Global,
    values: &[Value],
    rows: &[(Tag, u64)],
) -> Result<(), Memory> {
    for (i, (value, (tag, depth))) in values.iter().zip(rows).enumerate() {
        assert!(rt; value.tag() == *tag && value.depth() == *depth, "at {i}");
        expect_equal_at(rt, alloc, values, value, i)?;
    }
    Ok(())
}

const SORTS: [(Tag, u64); 8] = [
    (Tag::Text, 0),
    (Tag::Int, 0),
    (Tag::Bool, 0),
    (Tag::Null, 0),
    (Tag::Time, 0),
    (Tag::Pattern, 0),
    (Tag::List, 1),
    (Tag::Object, 2),
];

// How a value stands to the one of its own sort; it has no order to the others.
fn expect_order(rt: &impl Abort, values: &[Value], other: &Value, order: Option<Ordering>) {
    for (i, value) in values.iter().enumerate() {
        let wanted = if value.tag() == other.tag() {
            order
        } else {
            None
        };
        assert!(rt; other.compare(value) == wanted, "at {i}");
    }
}

#[test]
fn values(rt: HostRuntime) -> Result<(), Memory> {
    let values = shareable(each_sort(rt.alloc())?);
    assert!(rt; values.len() == SORTS.len());
    expect_values(&rt, rt.alloc(), &values, &SORTS)
}

#[test]
fn orders(rt: HostRuntime) -> Result<(), Memory> {
    let values = each_sort(rt.alloc())?;
    let text = Chars::copy_of(rt.alloc(), "a\u{e9}")?;
    expect_order(&rt, &values, &Value::Text(text), Some(Ordering::Less));
    expect_order(&rt, &values, &Value::Int(3), Some(Ordering::Greater));
    let last = Value::Time(Moment::last());
    expect_order(&rt, &values, &last, Some(Ordering::Greater));
    expect_order(&rt, &values, &Value::Null, None);
    Ok(())
}

// Puts a field there.
fn insert(fields: &mut Fields, alloc: Global, name: &str, value: Value) -> Result<(), Memory> {
    let name = Chars::copy_of(alloc, name)?;
    fields.insert(name, value)
}

// `{"a":true,"b":null}`, where `a` was 1 before.
fn make_fields(alloc: Global) -> Result<Fields, Memory> {
    let mut fields = Fields::new(BTreeMap::new(alloc));
    insert(&mut fields, alloc, "a", Value::Int(1))?;
    insert(&mut fields, alloc, "b", Value::Null)?;
    insert(&mut fields, alloc, "a", Value::Bool(true))?;
    Ok(fields)
}

const TAGS: [(&str, Option<Tag>); 3] = [
    ("a", Some(Tag::Bool)),
    ("b", Some(Tag::Null)),
    ("c", None),
];

// The tag of each of these fields; `None`: there is no such field.
fn expect_tags(rt: &impl Abort, fields: &Fields, rows: &[(&str, Option<Tag>)]) {
    for (name, tag) in rows {
        assert!(rt; fields.get(name).map(Value::tag) == *tag, "at {name}");
    }
}

#[test]
fn fields(rt: HostRuntime) -> Result<(), Memory> {
    let fields = make_fields(rt.alloc())?;
    let copy = fields.copy(rt.alloc())?;
    expect_tags(&rt, &copy, &TAGS);
    assert!(rt; copy.as_map().len() == 2);
    assert!(rt; copy.into_map().len() == 2);
    Ok(())
}
