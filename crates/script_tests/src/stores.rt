ghost use Rattle.std.specs.Prelude.{◌≡◌, IfOk};
ghost use Rattle.vrl_path.specs.Steps.{IsWritable};
ghost use Rattle.vrl_store.specs.StoreView.{count_of, IsKnown};

// The event, the metadata and two other variables of a run, step by step.
use crate::running::json_of;
use std::alloc::Global;
use std::process::Abort;
use vrl_path::{Path, SetFault, Step};
use vrl_store::{Base, Store, TargetPath};
use vrl_tests::nested_arrays;
use vrl_value::{Chars, Memory, Value};

// Where something is done.
#[derive(Clone, Copy)]
enum Root {
    Event,
    Metadata,
    X,
    Y,
}

// What is done: a value is written, or arrays nested as deep as this, or one is taken, or a block
// ends before which so many variables were there.
#[derive(Clone, Copy)]
enum Act {
    Write(&'static str),
    WriteDeep(u64),
    Take,
    Leave(usize),
}

// What is done, at which root, and at which field of it, where it is at one; what it gives, where
// `deep` is a write that isn't done; what is read then of the event, of the metadata and of the two
// variables; and how many of these are there.
type Row = (
    Act,
    Root,
    &'static str,
    &'static str,
    &'static str,
    &'static str,
    &'static str,
    &'static str,
    usize,
);

const STEPS: [Row; 20] = [
    (
        Act::Write("1"),
        Root::Event,
        "a",
        "null",
        "{\"a\":1}",
        "{\"m\":1}",
        "null",
        "null",
        0,
    ),
    (
        Act::Write("2"),
        Root::Y,
        "b",
        "null",
        "{\"a\":1}",
        "{\"m\":1}",
        "null",
        "{\"b\":2}",
        1,
    ),
    (
        Act::WriteDeep(128),
        Root::Y,
        "b",
        "\"deep\"",
        "{\"a\":1}",
        "{\"m\":1}",
        "null",
        "{\"b\":2}",
        1,
    ),
    (
        Act::WriteDeep(2),
        Root::Y,
        "c",
        "null",
        "{\"a\":1}",
        "{\"m\":1}",
        "null",
        "{\"b\":2,\"c\":[[null]]}",
        1,
    ),
    (
        Act::Take,
        Root::Y,
        "c",
        "[[null]]",
        "{\"a\":1}",
        "{\"m\":1}",
        "null",
        "{\"b\":2}",
        1,
    ),
    (
        Act::WriteDeep(128),
        Root::X,
        "b",
        "\"deep\"",
        "{\"a\":1}",
        "{\"m\":1}",
        "null",
        "{\"b\":2}",
        1,
    ),
    (
        Act::Take,
        Root::X,
        "b",
        "null",
        "{\"a\":1}",
        "{\"m\":1}",
        "null",
        "{\"b\":2}",
        1,
    ),
    (
        Act::Take,
        Root::X,
        "",
        "null",
        "{\"a\":1}",
        "{\"m\":1}",
        "null",
        "{\"b\":2}",
        2,
    ),
    (
        Act::Write("[3]"),
        Root::X,
        "",
        "null",
        "{\"a\":1}",
        "{\"m\":1}",
        "[3]",
        "{\"b\":2}",
        2,
    ),
    (
        Act::Take,
        Root::Event,
        "a",
        "1",
        "{}",
        "{\"m\":1}",
        "[3]",
        "{\"b\":2}",
        2,
    ),
    (
        Act::Leave(1),
        Root::Event,
        "",
        "null",
        "{}",
        "{\"m\":1}",
        "null",
        "{\"b\":2}",
        1,
    ),
    (
        Act::Take,
        Root::Y,
        "",
        "{\"b\":2}",
        "{}",
        "{\"m\":1}",
        "null",
        "null",
        1,
    ),
    (
        Act::Write("[4]"),
        Root::Event,
        "",
        "null",
        "[4]",
        "{\"m\":1}",
        "null",
        "null",
        1,
    ),
    (
        Act::Take,
        Root::Event,
        "",
        "[4]",
        "{}",
        "{\"m\":1}",
        "null",
        "null",
        1,
    ),
    (
        Act::Write("2"),
        Root::Metadata,
        "n",
        "null",
        "{}",
        "{\"m\":1,\"n\":2}",
        "null",
        "null",
        1,
    ),
    (
        Act::WriteDeep(128),
        Root::Metadata,
        "n",
        "\"deep\"",
        "{}",
        "{\"m\":1,\"n\":2}",
        "null",
        "null",
        1,
    ),
    (
        Act::Take,
        Root::Metadata,
        "m",
        "1",
        "{}",
        "{\"n\":2}",
        "null",
        "null",
        1,
    ),
    (
        Act::Leave(0),
        Root::Event,
        "",
        "null",
        "{}",
        "{\"n\":2}",
        "null",
        "null",
        0,
    ),
    (
        Act::Take,
        Root::Metadata,
        "",
        "{\"n\":2}",
        "{}",
        "{}",
        "null",
        "null",
        0,
    ),
    (
        Act::Write("3"),
        Root::Metadata,
        "",
        "null",
        "{}",
        "3",
        "null",
        "null",
        0,
    ),
];

// A root, or a field of it.
fn target_path(alloc: Global, root: Root, field: &str) -> Result<TargetPath, Memory>
    ensures base { IfOk result (λ target. IsKnown 3 target.base) }
    ensures writable { IfOk result (λ target. IsWritable target.path) }
{
    let base = match root {
        Root::Event => Base::Event,
        Root::Metadata => Base::Variable(0),
        Root::X => Base::Variable(1),
        Root::Y => Base::Variable(2),
    };
    let mut steps = Vec::new(alloc);
    if !field.is_empty() {
        steps.push(Step::Field(Chars::copy_of(alloc, field)?))?;
    }
    Ok(TargetPath {
        base,
        path: Path::new(steps),
    })
}

// Writes a value, and gives null, or `deep` where it isn't written.
fn write(
    alloc: Global,
    store: &mut Store,
    target: &TargetPath,
    value: Value,
) -> Result<Value, Memory>
    requires base { IsKnown (count_of store.old) target.now.base }
    requires writable { IsWritable target.now.path }
    ensures { count_of store.new ≡ count_of store.old }
{
    match store.write(alloc, target, value) {
        Ok(()) => Ok(Value::Null),
        Err(SetFault::TooDeep) => Ok(Value::Text(Chars::copy_of(alloc, "deep")?)),
        Err(SetFault::Memory) => Err(Memory),
    }
}

// Does a step, and gives what it gives; null for a block that ends.
fn done(
    alloc: Global,
    store: &mut Store,
    act: Act,
    root: Root,
    field: &str,
) -> Result<Value, Memory>
    requires { count_of store.old ≡ 3 }
    ensures { count_of store.new ≡ 3 }
{
    let target = target_path(alloc, root, field)?;
    match act {
        Act::Write(text) => write(alloc, store, &target, json_of(alloc, text)?),
        Act::WriteDeep(depth) => write(alloc, store, &target, nested_arrays(alloc, depth)?),
        Act::Take => store.take(alloc, &target),
        Act::Leave(count) => {
            if count <= store.count() {
                store.leave(count);
            }
            Ok(Value::Null)
        }
    }
}

// Whether a root, read whole, is this value.
fn stands(alloc: Global, store: &Store, root: Root, wanted: &str) -> Result<bool, Memory>
    requires { count_of store.now ≡ 3 }
{
    let target = target_path(alloc, root, "")?;
    Ok(store.read(&target).same(&json_of(alloc, wanted)?))
}

// Does the step of a row. Whether all is as it says.
fn goes(alloc: Global, store: &mut Store, row: &Row) -> Result<bool, Memory>
    requires { count_of store.old ≡ 3 }
    ensures { count_of store.new ≡ 3 }
{
    let (act, root, field, given, event, metadata, x, y, count) = row;
    let found = done(alloc, store, *act, *root, field)?;
    let is_given = found.same(&json_of(alloc, given)?);
    let is_event = stands(alloc, store, Root::Event, event)?;
    let is_metadata = stands(alloc, store, Root::Metadata, metadata)?;
    let is_x = stands(alloc, store, Root::X, x)?;
    let is_y = stands(alloc, store, Root::Y, y)?;
    let are_roots = is_event & is_metadata & is_x & is_y;
    Ok(is_given & are_roots & (store.count() == *count))
}

// A store of an empty event, metadata and two other variables.
fn started(alloc: Global) -> Result<Store, Memory>
    ensures { IfOk result (λ store. count_of store ≡ 3) }
{
    let event = json_of(alloc, "{}")?;
    let metadata = json_of(alloc, "{\"m\":1}")?;
    Store::start(alloc, event, metadata, false, 3)
}

fn expect_steps(rt: &impl Abort, alloc: Global, rows: &[Row]) -> Result<(), Memory> {
    let mut store = started(alloc)?;
    for row in rows {
        let goes = goes(alloc, &mut store, row)?;
        assert!(rt; goes, "at {} {}", row.2, row.4);
    }
    Ok(())
}

#[test]
fn steps(rt: HostRuntime) -> Result<(), Memory> {
    expect_steps(&rt, rt.alloc(), &STEPS)
}
