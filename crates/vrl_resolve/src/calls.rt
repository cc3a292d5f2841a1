ghost use Rattle.std.specs.Prelude.{◌≡◌, ◌≢◌, ◌≤◌, Bool, drop, length, map, option_map, Err, IfOk, IsTrue};
ghost use Rattle.vrl_value.specs.Look.{item_at};
ghost use Rattle.vrl_value.specs.View.{tree_of};
ghost use Rattle.vrl_builtin.specs.Conditions.{arguments_below, AreArguments};
ghost use Rattle.vrl_builtin.specs.Rows.{Answer};
ghost use Rattle.vrl_builtin.specs.View.{argument_tree, arguments_of, parameter_row, setting_of, Applies};
ghost use Rattle.vrl_table.specs.Table.{row_of};
ghost use Rattle.vrl_store.specs.StoreView.{count_of, present_of, store_in, AreNames, IsFront, Names};
ghost use Rattle.vrl_store.specs.Results.{Ends, Gives};
ghost use Rattle.vrl_store.specs.WellFormed.{AreWellFormed, IsWellFormedStore};
ghost use Rattle.vrl_resolve.specs.Calls.{acts, answer_outcome, argument_in, argument_text, called, first_unfit, unfit_tag, within_limit};
ghost use Rattle.vrl_resolve.specs.Fits.{AllFit, AreGiven, IsCallee};
ghost use Rattle.vrl_resolve.specs.Linked.{linked_of, parts_view};
ghost use Rattle.vrl_resolve.specs.LinkedMeaning.{callee_in, no_body};
ghost use Rattle.vrl_resolve.specs.Looks.{argument_values, AreOf, AreReadable, IsReadable};
ghost use Rattle.vrl_resolve.specs.Plain as spec;
ghost use Rattle.vrl_resolve.specs.Plain.{plain_value, AllPlain};

use crate::laws::meanings_stay_well_formed;
use crate::node::{Callee, Form, Node};
use crate::walk::Context;
use std::alloc::Global;
use vrl_builtin::{Applied, Arguments, Builtin, Parameter};
use vrl_path::DEPTH_LIMIT;
use vrl_store::{Stop, Store};
use vrl_table::{Fun, apply, parameters};
use vrl_value::{Chars, Memory, Tag, Value};

/// How many of a call's arguments are run before it: those up to the last one that is neither a
/// literal nor a path. Those behind only look, and are looked at where they stand.
pub(crate) fn run_before(args: &[Node]) -> usize
    ensures within { result ≤ length args.now }
    ensures plain { AllPlain (map linked_of (drop result args.now)) }
{
    let mut count = args.len();
    while count > 0 && is_plain(&args[count - 1]) {
        count -= 1;
    }
    count
}

// Whether a node is a literal or a path, whose value stands somewhere already.
fn is_plain(node: &Node) -> bool
    ensures { result ≡ spec.is_plain (linked_of node.now) }
{
    matches!(&node.form, Form::Literal(_) | Form::Read(_))
}

/// The value of a literal or of a path, where it stands. `None`: the node is something else.
pub(crate) fn peek<'a>(store: &'a Store, node: &'a Node) -> Option<&'a Value>
    requires readable { IsReadable (count_of store.now) (linked_of node.now) }
    ensures { (names : Names) → AreNames names store.now
        → option_map (λ value. tree_of value.now) result ≡ plain_value names (linked_of node.now)
        (store_in names store.now) }
{
    match &node.form {
        Form::Literal(value) => Some(value),
        Form::Read(place) => Some(store.read(place)),
        _ => None,
    }
}

// The value of the argument at a place: one of those that were run, or else one that is looked at
// where it stands.
fn argument<'a>(
    store: &'a Store,
    run: &'a [Value],
    args: &'a [Node],
    place: usize,
) -> Option<&'a Value>
    requires plain { AllPlain (map linked_of (drop (length run.now) args.now)) }
    requires readable { AreReadable (count_of store.now) (map linked_of args.now) }
    ensures { (names : Names) → AreNames names store.now
        → option_map (λ value. tree_of value.now) result ≡ item_at place
        (argument_values names (store_in names store.now) run.now args.now) }
{
    match run.get(place) {
        Some(value) => Some(value),
        None => match args.get(place) {
            Some(node) => peek(store, node),
            None => None,
        },
    }
}

// The arguments of a function, in the order of its parameters. `Memory`: want of memory.
fn arguments<'a>(
    store: &'a Store,
    alloc: Global,
    run: &'a [Value],
    args: &'a [Node],
    places: &[Option<usize>],
) -> Result<Arguments<'a>, Memory>
    requires plain { AllPlain (map linked_of (drop (length run.now) args.now)) }
    requires readable { AreReadable (count_of store.now) (map linked_of args.now) }
    ensures { IfOk result
        (λ arguments. (names : Names) → AreNames names store.now
        → arguments_of arguments ≡ map
        (argument_in (argument_values names (store_in names store.now) run.now args.now)) places.now) }
{
    let mut arguments = Vec::with_capacity(alloc, places.len())?;
    for place in places {
        let argument = match place {
            Some(place) => argument(store, run, args, *place),
            None => None,
        };
        arguments.push(argument)?;
    }
    Ok(Arguments::new(arguments))
}

/// What a call comes to, whose first arguments were run and gave these values.
pub(crate) fn act(
    store: &mut Store,
    context: &Context<'_, '_>,
    callee: &Callee,
    run: Vec<Value>,
    args: &[Node],
) -> Result<Value, Stop>
    requires names { AreNames context.now.names.now store.old }
    requires callee { IsCallee (length context.now.names.now) (parts_view args.now) callee.now }
    requires fits { AllFit (length context.now.names.now) (length context.now.setting.searches.now)
        (parts_view args.now) }
    requires plain { AllPlain (map linked_of (drop (length run.items) args.now)) }
    requires of_args { AreOf (map linked_of args.now) (map tree_of run.items) }
    requires run { AreWellFormed (length context.now.setting.searches.now) (map tree_of run.items) }
    requires formed { IsWellFormedStore (length context.now.setting.searches.now)
        (store_in context.now.names.now store.old) }
    ensures ends { let before = store_in context.now.names.now store.old in Ends
        (acts (setting_of context.now.setting) (callee_in context.now.names.now callee.now) no_body
        (argument_values context.now.names.now before run.items args.now) before)
        (store_in context.now.names.now store.new) result }
    ensures front { IsFront (present_of store.old) (present_of store.new) }
    ensures as_many { count_of store.new ≡ count_of store.old }
{
    match callee {
        Callee::Function(function, places) => {
            call_function(store, context, *function, places, &run, args)
        }
        Callee::Deletion(place) => within_limit(store.take(context.alloc, place)?),
        Callee::Existence(place) => Ok(Value::Bool(store.is_there(place))),
        Callee::Nothing => Err(Stop::Error(Chars::new(String::new(context.alloc)))),
    }
}

// What a function answers to its arguments, of which the first were run and gave these values.
fn call_function(
    store: &Store,
    context: &Context<'_, '_>,
    function: Fun,
    places: &[Option<usize>],
    run: &[Value],
    args: &[Node],
) -> Result<Value, Stop>
    requires names { AreNames context.now.names.now store.now }
    requires given { AreGiven 0 (row_of function).parameters (row_of function).accepts
        (parts_view args.now) places.now }
    requires fits { AllFit (length context.now.names.now) (length context.now.setting.searches.now)
        (parts_view args.now) }
    requires plain { AllPlain (map linked_of (drop (length run.now) args.now)) }
    requires of_args { AreOf (map linked_of args.now) (map tree_of run.now) }
    requires run { AreWellFormed (length context.now.setting.searches.now) (map tree_of run.now) }
    requires formed { IsWellFormedStore (length context.now.setting.searches.now)
        (store_in context.now.names.now store.now) }
    ensures { Gives
        (called (setting_of context.now.setting) (row_of function)
        (map (argument_in
        (argument_values context.now.names.now
        (store_in context.now.names.now store.now) run.now args.now)) places.now)) result }
{
    meanings_stay_well_formed();
    let arguments = arguments(store, context.alloc, run, args, places)?;
    answer(context, function, &arguments)
}

// What a function answers to its arguments. `Error`: one has a tag that its parameter doesn't
// allow, or the function fails; `Deep`: its value is nested too deeply.
fn answer(
    context: &Context<'_, '_>,
    function: Fun,
    arguments: &Arguments<'_>,
) -> Result<Value, Stop>
    // But for their tags they are arguments that the function takes.
    requires arguments { first_unfit 0 (row_of function).parameters (arguments_of arguments.now) ≡ None
        → AreArguments (row_of function) (arguments_of arguments.now) }
    requires regexes { IsTrue (arguments_below (length context.now.setting.searches.now) (arguments_of arguments.now)) }
    ensures { Gives (called (setting_of context.now.setting) (row_of function) (arguments_of arguments.now)) result }
{
    if let Some((parameter, tag)) = first_unfit(parameters(function), arguments) {
        let text = argument_text(context.alloc, function.name(), parameter, tag)?;
        return Err(Stop::Error(text));
    }
    answered(
        context.alloc,
        apply(context.alloc, function, arguments, &context.setting),
    )
}

// What a call ends with that came to this, whose value may be nested too deeply. `Memory`: it came
// to that, or out of memory for the text of an error.
fn answered(alloc: Global, applied: Applied) -> Result<Value, Stop>
    ensures gives { (uses : Bool) (answer : Answer) → Applies uses answer applied
        → Gives (answer_outcome answer) result }
    ensures value { (value : Value) → applied ≡ Applied.Value value → result ≢ Err Stop.Memory }
{
    match applied {
        Applied::Value(value) => within_limit(value),
        Applied::Failed(failure) => Err(Stop::Error(failure.text(alloc)?)),
        Applied::Memory => Err(Stop::Memory),
    }
}

// The tag of an argument, where its parameter doesn't allow it.
fn unfit_tag(parameter: &Parameter, argument: Option<&Value>) -> Option<Tag>
    ensures { result ≡ unfit_tag (parameter_row parameter.now) (argument_tree argument.entry) }
{
    let tag = argument?.tag();
    if parameter.allowed.contains(tag) {
        None
    } else {
        Some(tag)
    }
}

// The first argument, in the order of the parameters, whose tag its parameter doesn't allow: the
// parameter's name, and the tag.
fn first_unfit(
    parameters: &'static [Parameter],
    arguments: &Arguments<'_>,
) -> Option<(&'static str, Tag)>
    ensures { option_map (λ unfit. (unfit.0.now, unfit.1)) result ≡ first_unfit 0 (map parameter_row parameters.now)
        (arguments_of arguments.now) }
{
    let mut place = 0;
    let mut left = parameters;
    while let Some((parameter, others)) = left.split_first() {
        if let Some(tag) = unfit_tag(parameter, arguments.get(place)) {
            return Some((parameter.name, tag));
        }
        place += 1;
        left = others;
    }
    None
}

/// The text of the error that an argument has a tag which its parameter doesn't allow. `Memory`:
/// want of memory.
pub(crate) fn argument_text(
    alloc: Global,
    name: &str,
    parameter: &str,
    tag: Tag,
) -> Result<Chars, Memory>
    ensures { IfOk result (λ text. text ≡ argument_text name.now parameter.now tag) }
{
    let word = tag.word();
    let text = format!(in alloc; "{name}: argument {parameter} is {word}")?;
    Ok(Chars::new(text))
}

/// A call's value, unless it is nested too deeply.
pub(crate) fn within_limit(value: Value) -> Result<Value, Stop>
    ensures gives { Gives (within_limit (tree_of value)) result }
    ensures no_want { result ≢ Err Stop.Memory }
{
    if value.depth() > DEPTH_LIMIT {
        return Err(Stop::Deep);
    }
    Ok(value)
}
