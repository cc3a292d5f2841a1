// What every test here uses: values of texts, calls of a function by its name, and the tags that a
// kind allows.
ghost use Rattle.std.specs.Prelude.{◌≡◌, length, map, option_map, IfOk, IsTrue};
ghost use Rattle.vrl_builtin.specs.Conditions.{arguments_below, below_if, literals_below, AreGiven};
ghost use Rattle.vrl_builtin.specs.View.{arguments_of, given_tree, givens_of};
ghost use Rattle.vrl_table.specs.Table.{row_of};
ghost use Rattle.vrl_value.specs.Regexes.{regexes_below};
ghost use Rattle.vrl_value.specs.View.{tree_of};

use crate::fitting::{are_arguments, are_given};
use std::alloc::Global;
use std::process::Abort;
use vrl_builtin::{Applied, Arguments, Given, Givens, Setting};
use vrl_json::{JsonFault, Scratch, from_line, json_needs_no_sources, lines_are_json};
use vrl_kind::{Kind, kind_of, print};
use vrl_pattern::{Patterns, Searches};
use vrl_table::{Fun, apply, lookup, may_fail, parameters, result_kind};
use vrl_value::{Chars, Memory, Moment, Names, Tag, Value};

// A value of JSON.
fn json_of(alloc: Global, text: &str) -> Result<Value, Memory>
    ensures { IfOk result (λ value. IsTrue (regexes_below 1 (tree_of value))) }
{
    lines_are_json();
    json_needs_no_sources();
    match from_line(alloc, text.as_bytes(), &mut Scratch::new(alloc)) {
        Ok(value) => Ok(value),
        Err(JsonFault::Memory) => Err(Memory),
        Err(_fault) => Ok(Value::Null),
    }
}

// The moment of a number of nanoseconds behind `t`.
fn moment_of(text: &str) -> Option<Moment> {
    let nanos = text.strip_prefix('t')?.parse::<i128>().ok()?;
    Moment::new(nanos)
}

// A value of a text: a number of nanoseconds behind `t`, the one regex as `r0`, or else JSON.
fn value_of(alloc: Global, text: &str) -> Result<Value, Memory>
    ensures { IfOk result (λ value. IsTrue (regexes_below 1 (tree_of value))) }
{
    if text == "r0" {
        return Ok(Value::Pattern(0));
    }
    match moment_of(text) {
        Some(moment) => Ok(Value::Time(moment)),
        None => json_of(alloc, text),
    }
}

fn argument_of(alloc: Global, part: &str) -> Result<Option<Value>, Memory>
    ensures { IfOk result (λ argument. IsTrue (below_if 1 (option_map tree_of argument))) }
{
    if part.is_empty() {
        return Ok(None);
    }
    Ok(Some(value_of(alloc, part)?))
}

// The values of a text, which stand between `;`, where nothing between two stands for no argument.
fn values_of(alloc: Global, text: &str) -> Result<Vec<Option<Value>>, Memory>
    ensures { IfOk result (λ values. IsTrue (arguments_below 1 (map (option_map tree_of) values.items))) }
{
    let mut values = Vec::new(alloc);
    for part in text.split(';') {
        values.push(argument_of(alloc, part)?)?;
    }
    Ok(values)
}

// These values as arguments.
fn arguments_of(alloc: Global, values: &[Option<Value>]) -> Result<Arguments<'_>, Memory>
    ensures { IfOk result (λ arguments. arguments_of arguments ≡ map (option_map tree_of) values.now) }
{
    let mut arguments = Vec::with_capacity(alloc, values.len())?;
    for value in values {
        arguments.push(value.as_ref())?;
    }
    Ok(Arguments::new(arguments))
}

// What is known of an argument: nothing, a kind by its name, or a literal.
fn given_of(alloc: Global, part: &str) -> Result<Given, Memory>
    ensures { IfOk result (λ given. IsTrue (below_if 1 (given_tree given).literal)) }
{
    let kind = match part {
        "" => None,
        "any" => Some(Kind::any(alloc)),
        "integer" => Some(Kind::of(alloc, Tag::Int)),
        "string" => Some(Kind::of(alloc, Tag::Text)),
        _ => return literal_of(alloc, part),
    };
    Ok(Given {
        kind,
        literal: None,
    })
}

fn literal_of(alloc: Global, part: &str) -> Result<Given, Memory>
    ensures { IfOk result (λ given. IsTrue (below_if 1 (given_tree given).literal)) }
{
    let value = value_of(alloc, part)?;
    Ok(Given {
        kind: Some(kind_of(alloc, &value)?),
        literal: Some(value),
    })
}

// What is known of the arguments of a text, which stands between `;`.
fn givens_of(alloc: Global, text: &str) -> Result<Givens, Memory>
    ensures { IfOk result (λ given. IsTrue (literals_below 1 (givens_of given))) }
{
    let mut givens = Vec::new(alloc);
    for part in text.split(';') {
        givens.push(given_of(alloc, part)?)?;
    }
    Ok(Givens::new(givens))
}

// The regexes of a script that has one.
fn one_pattern(alloc: Global) -> Result<Patterns, Memory>
    ensures { IfOk result (λ patterns. length patterns ≡ 1) }
{
    let mut sources = Vec::new(alloc);
    sources.push(Chars::copy_of(alloc, "a")?)?;
    match Patterns::build(alloc, &Names::new(sources)) {
        Ok(patterns) => Ok(patterns),
        Err(_fault) => Err(Memory),
    }
}

// What a call of the function of a name answers: a value, or a text of an error behind `!`.
fn answers(alloc: Global, function: Fun, arguments: &str, wanted: &str) -> Result<bool, Memory> {
    let values = values_of(alloc, arguments)?;
    let arguments = arguments_of(alloc, &values)?;
    if !are_arguments(parameters(function), &arguments) {
        return Ok(false);
    }
    let patterns = one_pattern(alloc)?;
    let searches = Searches::new(&patterns);
    let setting = Setting {
        moment: Moment::epoch(),
        searches: &searches,
    };
    is_answer(alloc, apply(alloc, function, &arguments, &setting), wanted)
}

fn is_answer(alloc: Global, answer: Applied, wanted: &str) -> Result<bool, Memory> {
    match answer {
        Applied::Value(value) => Ok(value.same(&value_of(alloc, wanted)?)),
        Applied::Failed(failure) => {
            Ok(wanted.strip_prefix('!') == Some(failure.text(alloc)?.as_str()))
        }
        Applied::Memory => Err(Memory),
    }
}

// Rows of a function's name, its arguments, and its answer.
pub(crate) fn expect_answers(
    rt: &impl Abort,
    alloc: Global,
    rows: &[(&str, &str, &str)],
) -> Result<(), Memory> {
    for (name, arguments, wanted) in rows {
        let is_answered = match lookup(name) {
            Some(function) => answers(alloc, function, arguments, wanted)?,
            None => false,
        };
        assert!(rt; is_answered, "at {name}({arguments})");
    }
    Ok(())
}

// The kind of the result of a call, as it is told.
fn told_kind(alloc: Global, function: Fun, given: &Givens) -> Result<Chars, Memory>
    requires given { AreGiven (row_of function) (givens_of given.now) }
    requires regexes { IsTrue (literals_below 1 (givens_of given.now)) }
{
    let patterns = one_pattern(alloc)?;
    let kind = result_kind(alloc, function, given, &patterns)?;
    print(alloc, &kind)
}

fn is_judged(
    alloc: Global,
    function: Fun,
    given: &str,
    kind: &str,
    fails: bool,
) -> Result<bool, Memory> {
    let given = givens_of(alloc, given)?;
    if !are_given(parameters(function), &given) {
        return Ok(false);
    }
    let told = told_kind(alloc, function, &given)?;
    Ok(told.as_str() == kind && may_fail(function, &given) == fails)
}

// Rows of a function's name, what is known of its arguments, the kind of its result, and whether it
// may fail.
pub(crate) fn expect_judged(
    rt: &impl Abort,
    alloc: Global,
    rows: &[(&str, &str, &str, bool)],
) -> Result<(), Memory> {
    for (name, given, kind, fails) in rows {
        let is_so = match lookup(name) {
            Some(function) => is_judged(alloc, function, given, kind, *fails)?,
            None => false,
        };
        assert!(rt; is_so, "at {name}({given})");
    }
    Ok(())
}
