ghost use Rattle.std.specs.Prelude.{◌≡◌, length, true, IfOk, IsErr, IsTrue};
ghost use Rattle.vrl_value.specs.Regexes.{regexes_below};
ghost use Rattle.vrl_value.specs.Tree.{IsOrdered};
ghost use Rattle.vrl_value.specs.View.{tree_of};
ghost use Rattle.vrl_store.specs.Kept.{IsShallow};
ghost use Rattle.vrl_store.specs.Outcomes as meaning;
ghost use Rattle.vrl_store.specs.StoreView.{store_in, AreNames, Names as VariableNames};
ghost use Rattle.vrl_store.specs.Results.{Stops};
ghost use Rattle.vrl_store.specs.WellFormed.{IsWellFormed};
ghost use Rattle.vrl_resolve.specs.Leaving.{AreTold, IsEarly, IsHandled, IsHandledStop, IsValued, MayWant, MayWantAt};
ghost use Rattle.vrl_resolve.specs.Meaning.{IsUnhandled};
ghost use Rattle.vrl_resolve.specs.Program.{ended_over, program_of, IsRan, IsWellFormedRan};
ghost use Rattle.vrl_resolve.specs.Walking.{EndsAsked};

use crate::laws::meanings_stay_well_formed;
use crate::program::Program;
use crate::ran::{Ended, Produced, Ran};
use crate::walk::{Context, items};
use std::alloc::Global;
use vrl_builtin::Setting;
use vrl_path::DEPTH_LIMIT;
use vrl_pattern::Searches;
use vrl_store::{Stop, Store};
use vrl_value::{Memory, Moment, Names, Value};

impl Program {
    /// What searches for its regexes write to. A thread keeps it from run to run. This takes no
    /// memory.
    #[tactic(auto, unfolding(crate::specs::Program::program_of))]
    pub fn searches(&self) -> Searches<'_>
        ensures { result ≡ (program_of self.now).sources }
    {
        Searches::new(&self.patterns)
    }
}

/// Runs a program over an event with its metadata, at a moment, from which it ends with no error
/// that it doesn't handle. The value and the variables that it gives are gathered only where they
/// are asked for, since this takes time and memory. Each regex in the event and in the metadata is
/// one of the program's, and `searches` are [`Program::searches`]. `Memory`: out of memory; the
/// event and the metadata are gone then.
pub fn run(
    alloc: Global,
    program: &Program,
    searches: &Searches<'_>,
    event: Value,
    metadata: Value,
    moment: Moment,
    is_asked: bool,
) -> Result<Ran, Memory>
    requires searches { searches.now ≡ (program_of program.now).sources }
    requires handled { ¬ IsUnhandled
        (ended_over (program_of program.now) moment (tree_of event) (tree_of metadata)).outcome }
    requires event { IsTrue (regexes_below (length (program_of program.now).sources) (tree_of event)) }
    requires metadata { IsTrue (regexes_below (length (program_of program.now).sources) (tree_of metadata)) }
    ensures ran { IfOk result
        (IsRan is_asked (ended_over (program_of program.now) moment (tree_of event) (tree_of metadata))) }
    ensures below { IfOk result (IsWellFormedRan (length (program_of program.now).sources)) }
{
    let are_shallow = are_within(&event, &metadata);
    run_measured(
        alloc,
        program,
        searches,
        event,
        metadata,
        are_shallow,
        moment,
        is_asked,
    )
}

// Whether both are nested at most 128 deep. What is in memory is in order.
fn are_within(event: &Value, metadata: &Value) -> bool
    ensures shallow { IsTrue result → IsShallow (tree_of event.now) × IsShallow (tree_of metadata.now) }
    ensures ordered { IsOrdered (tree_of event.now) × IsOrdered (tree_of metadata.now) }
{
    let is_first_within = event.depth() <= DEPTH_LIMIT;
    let is_second_within = metadata.depth() <= DEPTH_LIMIT;
    is_first_within && is_second_within
}

/// As [`run`], over an event and metadata whose members are known to be in order, and which are
/// known to be nested at most 128 deep where the flag says so. They aren't walked to find this
/// out.
#[tactic(auto, unfolding(crate::specs::Program::program_of))]
pub fn run_measured(
    alloc: Global,
    program: &Program,
    searches: &Searches<'_>,
    event: Value,
    metadata: Value,
    are_shallow: bool,
    moment: Moment,
    is_asked: bool,
) -> Result<Ran, Memory>
    requires searches { searches.now ≡ (program_of program.now).sources }
    requires handled { ¬ IsUnhandled
        (ended_over (program_of program.now) moment (tree_of event) (tree_of metadata)).outcome }
    requires event { IsWellFormed (length (program_of program.now).sources) (tree_of event) }
    requires metadata { IsWellFormed (length (program_of program.now).sources) (tree_of metadata) }
    requires shallow { IsTrue are_shallow → IsShallow (tree_of event) × IsShallow (tree_of metadata) }
    ensures ran { IfOk result
        (IsRan is_asked (ended_over (program_of program.now) moment (tree_of event) (tree_of metadata))) }
    ensures below { IfOk result (IsWellFormedRan (length (program_of program.now).sources)) }
{
    meanings_stay_well_formed();
    let context = Context {
        alloc,
        setting: Setting { moment, searches },
        names: &program.names,
    };
    let count = program.names.as_slice().len();
    let mut store = Store::start(alloc, event, metadata, are_shallow, count)?;
    let end = items(&mut store, &context, is_asked, &program.items);
    left(alloc, &program.names, store, is_asked, end)
}

// What a run leaves that ended so. `Memory`: want of memory, at a value that is asked for or where
// it ended with that.
fn left(
    alloc: Global,
    names: &Names,
    store: Store,
    is_asked: bool,
    end: Result<Value, Stop>,
) -> Result<Ran, Memory>
    requires names { AreNames names.now store }
    requires handled { IsHandled end }
    ensures ran { IfOk result (λ ran. (meant : meaning.Ended)
        → EndsAsked is_asked meant (store_in names.now store) end
        → IsRan is_asked meant ran) }
    ensures told { IfOk result AreTold }
    ensures want { IsErr result → MayWant is_asked end }
{
    match end {
        Ok(value) => valued(alloc, names, store, is_asked, value),
        Err(stop) => stopped(alloc, names, store, is_asked, stop),
    }
}

// What a run leaves that ended with a value. `Memory`: want of memory, where the value is asked
// for.
fn valued(
    alloc: Global,
    names: &Names,
    store: Store,
    is_asked: bool,
    value: Value,
) -> Result<Ran, Memory>
    requires { AreNames names.now store }
    ensures valued { IfOk result (IsValued is_asked (tree_of value) (store_in names.now store)) }
    ensures want { IsErr result → is_asked ≡ true }
{
    if !is_asked {
        return Ok(early(store, Ended::Value(None)));
    }
    let (event, metadata, variables) = store.into_parts(alloc, names)?;
    Ok(Ran {
        ended: Ended::Value(Some(Produced { value, variables })),
        event,
        metadata,
    })
}

// What a run leaves that ended without a value, or by a `return`. `Memory`: want of memory, at a
// `return` whose value is asked for or where it ended with that.
fn stopped(
    alloc: Global,
    names: &Names,
    store: Store,
    is_asked: bool,
    stop: Stop,
) -> Result<Ran, Memory>
    requires names { AreNames names.now store }
    requires handled { IsHandledStop stop }
    ensures ran { IfOk result
        (λ ran. (meant : meaning.Ended) → Stops meant (store_in names.now store) stop → IsRan is_asked meant ran) }
    ensures told { IfOk result AreTold }
    ensures want { IsErr result → MayWantAt is_asked stop }
{
    match stop {
        Stop::Returned(value) => valued(alloc, names, store, is_asked, value),
        Stop::Error(_) => unreachable!(),
        Stop::Aborted(message) => Ok(early(store, Ended::Aborted(message))),
        Stop::Banged(text) => Ok(early(store, Ended::Banged(text))),
        Stop::Deep => Ok(early(store, Ended::Deep)),
        Stop::Memory => Err(Memory),
    }
}

// What a run leaves of which nothing but the event and the metadata is told.
fn early(store: Store, ended: Ended) -> Ran
    ensures { (names : VariableNames) → AreNames names store → IsEarly ended (store_in names store) result }
{
    let (event, metadata) = store.into_roots();
    Ran {
        ended,
        event,
        metadata,
    }
}
