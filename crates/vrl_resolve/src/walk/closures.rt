//! Calls that run a closure: the parts of a collection, bound one by one, and what is made of what
//! the runs give.
ghost use Rattle.std.specs.Prelude.{◌≡◌, ◌∷◌, [], length, true};
ghost use Rattle.vrl_value.specs.Tree.{array as array_tree, object as object_tree};
ghost use Rattle.vrl_value.specs.View.{items_of, members_of, tree_of};
ghost use Rattle.vrl_binding.specs.Binding.{collection_parameters};
ghost use Rattle.vrl_store.specs.Outcomes.{on_value};
ghost use Rattle.vrl_store.specs.WellFormed.{AreWellFormed, IsWellFormed};
ghost use Rattle.vrl_resolve.specs.Calls as called;
ghost use Rattle.vrl_resolve.specs.Calls.{acts, first_unfit, items_in, iterated};
ghost use Rattle.vrl_resolve.specs.Iterating.{body_in, bound_values, bound_variables, takes_arrays};
ghost use Rattle.vrl_resolve.specs.Linked.{iteration_of, parts_view};
ghost use Rattle.vrl_resolve.specs.LinkedMeaning.{all_mean, body_means, form_in, slots_in};
ghost use Rattle.vrl_resolve.specs.Fits.{AreKnownSlots, IsKnownSlot};
ghost use Rattle.vrl_resolve.specs.Walking.{meant, names_in, setting_in, store_at, AllFitIn, EndsAsked, EndsIn, FitsIn, IsReadyStore, Stays};

use crate::iteration::{
    Bindings, bind, field_bindings, finish_fields, finish_items, first_of, is_body_asked,
    item_bindings, no_fields, push_item, put_field, refuse, takes_arrays, unbind, values_in,
};
use crate::laws::meanings_stay_well_formed;
use crate::node::{Iteration, Loop, Node};
use crate::walk::{Context, items, values};
use vrl_store::{Stop, Store, banged};
use vrl_value::{Chars, Fields, Items, Tag, Value};

// A call that runs a closure.
#[cycle(walk)]
pub(super) fn iteration(
    store: &mut Store,
    context: &Context<'_, '_>,
    iteration: &Iteration,
) -> Result<Value, Stop>
    requires ready { IsReadyStore context.now store.old }
    requires fits { FitsIn context.now (iteration_of iteration.now) }
    ensures ended { EndsIn context.now (meant context.now (iteration_of iteration.now) store.old) store.new result }
    ensures stays { Stays store.old store.new }
{
    let value = iterate(
        store,
        context,
        iteration.function,
        &iteration.args,
        &iteration.body,
    );
    if iteration.bang {
        return banged(value);
    }
    value
}

#[cycle(walk)]
fn iterate(
    store: &mut Store,
    context: &Context<'_, '_>,
    function: Loop,
    args: &[Node],
    body: &[Node],
) -> Result<Value, Stop>
    requires ready { IsReadyStore context.now store.old }
    requires slots { AreKnownSlots (length (names_in context.now)) (slots_in function) }
    requires args { AllFitIn context.now (parts_view args.now) }
    requires body { AllFitIn context.now (parts_view body.now) }
    ensures ended { EndsIn context.now
        (on_value (all_mean (names_in context.now) (setting_in context.now) (parts_view args.now) []
        (store_at context.now store.old))
        (λ vs after. acts (setting_in context.now) (called.iteration (form_in function))
        (body_in context.now function (parts_view body.now)) (items_in vs) after)) store.new result }
    ensures stays { Stays store.old store.new }
{
    meanings_stay_well_formed();
    let run = values(store, context, args)?;
    match first_of(run) {
        Some(collection) => over(store, context, function, collection, body),
        None => Ok(Value::Null),
    }
}

// The runs of a closure for the parts of a collection, and what is made of them.
#[cycle(walk)]
fn over(
    store: &mut Store,
    context: &Context<'_, '_>,
    function: Loop,
    collection: Value,
    body: &[Node],
) -> Result<Value, Stop>
    requires ready { IsReadyStore context.now store.old }
    requires slots { AreKnownSlots (length (names_in context.now)) (slots_in function) }
    requires fits { AllFitIn context.now (parts_view body.now) }
    requires formed { IsWellFormed (length (setting_in context.now).sources) (tree_of collection) }
    ensures ended { EndsIn context.now
        (iterated (form_in function) (body_in context.now function (parts_view body.now)) (tree_of collection)
        (first_unfit 0 (collection_parameters (form_in function)) (Some (tree_of collection) ∷ []))
        (store_at context.now store.old)) store.new result }
    ensures stays { Stays store.old store.new }
{
    match collection {
        Value::List(items) => {
            if !takes_arrays(function) {
                return refuse(context.alloc, function, Tag::List);
            }
            over_items(store, context, function, items, body)
        }
        Value::Object(fields) => over_fields(store, context, function, fields, body),
        other => refuse(context.alloc, function, other.tag()),
    }
}

#[cycle(walk)]
fn over_items(
    store: &mut Store,
    context: &Context<'_, '_>,
    function: Loop,
    items: Items,
    body: &[Node],
) -> Result<Value, Stop>
    requires ready { IsReadyStore context.now store.old }
    requires slots { AreKnownSlots (length (names_in context.now)) (slots_in function) }
    requires fits { AllFitIn context.now (parts_view body.now) }
    requires takes { takes_arrays function ≡ true }
    requires formed { IsWellFormed (length (setting_in context.now).sources) (array_tree (items_of items)) }
    ensures ended { EndsIn context.now
        (iterated (form_in function) (body_in context.now function (parts_view body.now))
        (array_tree (items_of items)) None (store_at context.now store.old)) store.new result }
    ensures stays { Stays store.old store.new }
{
    meanings_stay_well_formed();
    let mut made = Vec::new(context.alloc);
    let mut place = 0;
    let items = values_in(items);
    for item in items {
        let (bindings, held) = item_bindings(context.alloc, function, place, item)?;
        let given = run(store, context, is_body_asked(function), bindings, body)?;
        push_item(function, &mut made, held, given)?;
        place += 1;
    }
    finish_items(function, made)
}

#[cycle(walk)]
fn over_fields(
    store: &mut Store,
    context: &Context<'_, '_>,
    function: Loop,
    fields: Fields,
    body: &[Node],
) -> Result<Value, Stop>
    requires ready { IsReadyStore context.now store.old }
    requires slots { AreKnownSlots (length (names_in context.now)) (slots_in function) }
    requires fits { AllFitIn context.now (parts_view body.now) }
    requires formed { IsWellFormed (length (setting_in context.now).sources) (object_tree (members_of fields)) }
    ensures ended { EndsIn context.now
        (iterated (form_in function) (body_in context.now function (parts_view body.now))
        (object_tree (members_of fields)) None (store_at context.now store.old)) store.new result }
    ensures stays { Stays store.old store.new }
{
    meanings_stay_well_formed();
    let mut made = no_fields(context.alloc);
    for (name, part) in fields.into_map() {
        let (bindings, held) = field_bindings(context.alloc, function, Chars::new(name), part)?;
        let given = run(store, context, is_body_asked(function), bindings, body)?;
        put_field(&mut made, held, given)?;
    }
    finish_fields(context.alloc, function, made)
}

// Items with variables bound to values. Behind them, by whatever end, only those that were there
// before are there, and those that were bound have the values that they had.
#[cycle(walk)]
fn run(
    store: &mut Store,
    context: &Context<'_, '_>,
    is_asked: bool,
    bindings: Bindings,
    body: &[Node],
) -> Result<Value, Stop>
    requires ready { IsReadyStore context.now store.old }
    requires slots { AreKnownSlots (length (names_in context.now)) (bound_variables bindings) }
    requires values { AreWellFormed (length (setting_in context.now).sources) (bound_values bindings) }
    requires fits { AllFitIn context.now (parts_view body.now) }
    ensures ended { EndsAsked is_asked
        (body_means (names_in context.now) (setting_in context.now) (bound_variables bindings)
        (parts_view body.now) (bound_values bindings) (store_at context.now store.old))
        (store_at context.now store.new) result }
    ensures stays { Stays store.old store.new }
{
    match bindings {
        Bindings::One(slot, value) => run_with(store, context, is_asked, slot, value, body),
        Bindings::Two(first, key, second, value) => {
            let count = store.count();
            let hidden = bind(store, first, key)?;
            let given = run_with(store, context, is_asked, second, value, body);
            unbind(store, count, first, hidden);
            given
        }
    }
}

// The same with one variable.
#[cycle(walk)]
fn run_with(
    store: &mut Store,
    context: &Context<'_, '_>,
    is_asked: bool,
    slot: Option<usize>,
    value: Value,
    body: &[Node],
) -> Result<Value, Stop>
    requires ready { IsReadyStore context.now store.old }
    requires slot { IsKnownSlot (length (names_in context.now)) slot }
    requires value { IsWellFormed (length (setting_in context.now).sources) (tree_of value) }
    requires fits { AllFitIn context.now (parts_view body.now) }
    ensures ended { EndsAsked is_asked
        (body_means (names_in context.now) (setting_in context.now) (slot ∷ [])
        (parts_view body.now) (tree_of value ∷ []) (store_at context.now store.old))
        (store_at context.now store.new) result }
    ensures stays { Stays store.old store.new }
{
    let count = store.count();
    let hidden = bind(store, slot, value)?;
    let given = items(store, context, is_asked, body);
    unbind(store, count, slot, hidden);
    given
}
