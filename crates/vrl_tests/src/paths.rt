ghost use Rattle.std.specs.Prelude.{◌≡◌, negsuc, IfOk};
ghost use Rattle.vrl_path.specs.Steps.{IsWritable};

use crate::nesting::nested_arrays;
use std::alloc::Global;
use std::collections::BTreeMap;
use std::process::Abort;
use vrl_path::{Path, SetFault, Step, exists, get, put, remove, set};
use vrl_value::{Chars, Fields, Items, Memory, Value};

// `.a`
fn field(alloc: Global) -> Result<Path, Memory>
    ensures { IfOk result (λ path. IsWritable path) }
{
    let mut steps = Vec::new(alloc);
    steps.push(Step::Field(Chars::copy_of(alloc, "a")?))?;
    Ok(Path::new(steps))
}

// A place of `.a`, from 0 to 65,535.
fn part(alloc: Global, place: u16) -> Result<Path, Memory>
    ensures { IfOk result (λ path. IsWritable path) }
{
    let mut steps = Vec::new(alloc);
    steps.push(Step::Field(Chars::copy_of(alloc, "a")?))?;
    steps.push(Step::Place(place as i64))?;
    Ok(Path::new(steps))
}

// The place so far from the last one.
pub(crate) fn place_from_end(distance: u16) -> i64
    ensures { result ≡ negsuc distance }
{
    -1 - distance as i64
}

// A place of `.a` that counts from the end: 0 is the last.
fn part_from_end(alloc: Global, distance: u16) -> Result<Path, Memory>
    ensures { IfOk result (λ path. IsWritable path) }
{
    let mut steps = Vec::new(alloc);
    steps.push(Step::Field(Chars::copy_of(alloc, "a")?))?;
    steps.push(Step::Place(place_from_end(distance)))?;
    Ok(Path::new(steps))
}

// A place of `.a`, whatever its sign.
fn signed_part(alloc: Global, place: i64) -> Result<Path, Memory> {
    let mut steps = Vec::new(alloc);
    steps.push(Step::Field(Chars::copy_of(alloc, "a")?))?;
    steps.push(Step::Place(place))?;
    Ok(Path::new(steps))
}

// `{"a":part}`
fn object(alloc: Global, part: Value) -> Result<Value, Memory> {
    let mut fields = Fields::new(BTreeMap::new(alloc));
    fields.insert(Chars::copy_of(alloc, "a")?, part)?;
    Ok(Value::Object(fields))
}

// An array of these numbers, null where one is below 0.
fn array(alloc: Global, numbers: &[i64]) -> Result<Value, Memory> {
    let mut items = Vec::new(alloc);
    for number in numbers {
        items.push(if *number < 0 {
            Value::Null
        } else {
            Value::Int(*number)
        })?;
    }
    Ok(Value::List(Items::new(items)))
}

// Whether the number read at `.a[place]` in `{"a":[1,2]}` is this one.
fn expect_read(
    rt: &impl Abort,
    alloc: Global,
    place: i64,
    wanted: Option<i64>,
) -> Result<(), Memory> {
    let value = object(alloc, array(alloc, &[1, 2])?)?;
    let path = signed_part(alloc, place)?;
    let found = match get(&value, &path) {
        Some(Value::Int(number)) => Some(*number),
        _ => None,
    };
    assert!(rt;
        found == wanted && exists(&value, &path) == wanted.is_some(),
        "at {place}"
    );
    Ok(())
}

const READS: [(i64, Option<i64>); 6] = [
    (0, Some(1)),
    (1, Some(2)),
    (2, None),
    (-1, Some(2)),
    (-2, Some(1)),
    (-3, None),
];

#[test]
fn reads(rt: HostRuntime) -> Result<(), Memory> {
    let alloc = rt.alloc();
    for (place, wanted) in &READS {
        expect_read(&rt, alloc, *place, *wanted)?;
    }
    let null = object(alloc, Value::Null)?;
    assert!(rt; exists(&null, &field(alloc)?) && exists(&null, &Path::new(Vec::new(alloc))));
    let empty = object(alloc, array(alloc, &[])?)?;
    assert!(rt; get(&empty, &signed_part(alloc, -1)?).is_none());
    Ok(())
}

// Whether a number is set at a place of `.a`.
fn is_set(alloc: Global, value: &mut Value, place: u16, number: i64) -> Result<bool, Memory> {
    let path = part(alloc, place)?;
    Ok(set(alloc, value, &path, Value::Int(number)).is_ok())
}

// The number that is removed at a place of `.a`, if one is.
fn removed(alloc: Global, value: &mut Value, place: i64) -> Result<Option<i64>, Memory> {
    let path = signed_part(alloc, place)?;
    match remove(value, &path) {
        Some(Value::Int(number)) => Ok(Some(number)),
        Some(_other) => Ok(None),
        None => Ok(None),
    }
}

// Whether a value is `{"a":[..]}` with these numbers, null where one is below 0.
fn has_numbers(alloc: Global, value: &Value, numbers: &[i64]) -> Result<bool, Memory> {
    let wanted = object(alloc, array(alloc, numbers)?)?;
    Ok(value.same(&wanted))
}

#[test]
fn sets(rt: HostRuntime) -> Result<(), Memory> {
    let alloc = rt.alloc();
    let mut value = object(alloc, Value::Text(Chars::copy_of(alloc, "t")?))?;
    assert!(rt; is_set(alloc, &mut value, 2, 1)?);
    assert!(rt; has_numbers(alloc, &value, &[-1, -1, 1])?);
    Ok(())
}

// Numbers of `.a`, how far from the end 9 is set there, and the numbers then.
const FROM_END: [(&[i64], u16, &[i64]); 6] = [
    (&[1, 2, 3], 1, &[1, 9, 3]),
    (&[1], 0, &[9]),
    (&[1], 1, &[9, 1]),
    (&[1], 3, &[9, -1, -1, 1]),
    (&[], 0, &[9]),
    (&[], 2, &[9, -1, -1]),
];

// Whether these numbers are there once 9 is set so far from the end.
fn is_set_from_end(
    alloc: Global,
    value: &mut Value,
    distance: u16,
    wanted: &[i64],
) -> Result<bool, Memory> {
    let path = part_from_end(alloc, distance)?;
    let is_done = set(alloc, value, &path, Value::Int(9)).is_ok();
    Ok(is_done && has_numbers(alloc, value, wanted)?)
}

#[test]
fn sets_from_end(rt: HostRuntime) -> Result<(), Memory> {
    let alloc = rt.alloc();
    for (numbers, distance, wanted) in &FROM_END {
        let mut value = object(alloc, array(alloc, numbers)?)?;
        assert!(rt;
            is_set_from_end(alloc, &mut value, *distance, wanted)?,
            "{distance} from the end"
        );
    }
    let mut missing = Value::Null;
    assert!(rt; is_set_from_end(alloc, &mut missing, 2, &[9, -1, -1])?);
    Ok(())
}

// A place of a place of `.a`, both so far from the end.
fn part_of_part(alloc: Global, outer: u16, inner: u16) -> Result<Path, Memory>
    ensures { IfOk result (λ path. IsWritable path) }
{
    let mut steps = Vec::new(alloc);
    steps.push(Step::Field(Chars::copy_of(alloc, "a")?))?;
    steps.push(Step::Place(place_from_end(outer)))?;
    steps.push(Step::Place(place_from_end(inner)))?;
    Ok(Path::new(steps))
}

// An array of arrays of these numbers.
fn arrays(alloc: Global, rows: &[&[i64]]) -> Result<Value, Memory> {
    let mut items = Vec::new(alloc);
    for row in rows {
        items.push(array(alloc, row)?)?;
    }
    Ok(Value::List(Items::new(items)))
}

#[test]
fn sets_in_arrays_of_arrays(rt: HostRuntime) -> Result<(), Memory> {
    let alloc = rt.alloc();
    let mut value = object(alloc, arrays(alloc, &[&[1, 2]])?)?;
    let path = part_of_part(alloc, 1, 2)?;
    assert!(rt; set(alloc, &mut value, &path, Value::Int(9)).is_ok());
    let wanted = object(alloc, arrays(alloc, &[&[9, -1, -1], &[1, 2]])?)?;
    assert!(rt; value.same(&wanted));
    Ok(())
}

// A place of `.a` from which a number is removed of 1, 2 and 3, the number, and what is left.
const REMOVALS: [(i64, Option<i64>, &[i64]); 5] = [
    (0, Some(1), &[2, 3]),
    (3, None, &[1, 2, 3]),
    (-1, Some(3), &[1, 2]),
    (-3, Some(1), &[2, 3]),
    (-4, None, &[1, 2, 3]),
];

#[test]
fn removals(rt: HostRuntime) -> Result<(), Memory> {
    let alloc = rt.alloc();
    for (place, wanted, left) in &REMOVALS {
        let mut value = object(alloc, array(alloc, &[1, 2, 3])?)?;
        assert!(rt;
            removed(alloc, &mut value, *place)? == *wanted,
            "at {place}"
        );
        assert!(rt; has_numbers(alloc, &value, left)?, "left at {place}");
    }
    Ok(())
}

// Sets `.a` to arrays in one another, this many; `put` where it may be too deep.
fn set_nest(alloc: Global, value: &mut Value, depth: u64) -> Result<Result<(), SetFault>, Memory> {
    let field = field(alloc)?;
    let inner = nested_arrays(alloc, depth)?;
    Ok(set(alloc, value, &field, inner))
}

fn put_nest(alloc: Global, value: &mut Value, depth: u64) -> Result<bool, Memory> {
    let field = field(alloc)?;
    let inner = nested_arrays(alloc, depth)?;
    Ok(put(alloc, value, &field, inner).is_ok())
}

#[test]
fn depths(rt: HostRuntime) -> Result<(), Memory> {
    let alloc = rt.alloc();
    let mut value = Value::Object(Fields::new(BTreeMap::new(alloc)));
    assert!(rt; set_nest(alloc, &mut value, 128)? == Err(SetFault::TooDeep));
    assert!(rt; value.depth() == 1 && !exists(&value, &field(alloc)?));
    assert!(rt; set_nest(alloc, &mut value, 127)?.is_ok() && value.depth() == 128);
    assert!(rt; put_nest(alloc, &mut value, 128)? && value.depth() == 129);
    Ok(())
}
