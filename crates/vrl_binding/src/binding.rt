ghost use Rattle.std.specs.Prelude.{◌≡◌, map, position, bytes_eq, IfOk};
ghost use Rattle.std.specs.List.{list_any};
ghost use Rattle.vrl_builtin.specs.View.{parameter_row};
ghost use Rattle.vrl_syntax.specs.View.{args_of};
ghost use Rattle.vrl_binding.specs.Binding.{binding, bound_from, first_missing, has_twice, is_keyword, is_repeated, is_unknown, is_wrong_number, keywords_of, names_of, positional_at, IsBound};

use std::alloc::Global;
use std::marker::Model;
use vrl_builtin::Parameter;
use vrl_syntax::{Arg, Args};
use vrl_value::Memory;

/// For each parameter of a function, the place of its argument among those of the call, where it has one. A
/// contract sees the list.
#[derive(Drop)]
pub struct Bound {
    places: Vec<Option<usize>>,
}

impl Model for Bound {
    ghost use Rattle.std.specs.Prelude.{List, ℕ, Option};

    ghost Value = { List (Option ℕ) };

    ghost view = { λ b. b.places.items };
}

impl Bound {
    /// These places, which it keeps.
    pub fn new(places: Vec<Option<usize>>) -> Bound
        ensures { result ≡ places.items }
    {
        Bound { places }
    }

    /// The places, borrowed.
    pub fn as_slice(&self) -> &[Option<usize>]
        ensures { result.now ≡ self.now }
    {
        &self.places
    }

    /// The vector that holds the places.
    pub fn into_vec(self) -> Vec<Option<usize>>
        ensures { result.items ≡ self }
    {
        self.places
    }
}

/// Why the arguments of a call aren't bound.
#[derive(Drop)]
pub enum BindFault {
    /// There are more arguments than parameters, or a keyword stands twice.
    Number,
    /// The argument at this place is the first with a keyword that is no parameter's name.
    Unknown(usize),
    /// The parameter at this place is the first that is required and has no argument.
    Missing(usize),
    /// Want of memory.
    Memory,
}

impl From<Memory> for BindFault {
    ghost use Rattle.std.specs.Prelude.{◌≡◌};
    ghost use Rattle.vrl_binding.specs.declared.binding.BindFault.{BindFault};

    ghost from_gives = { λ _ fault. fault ≡ BindFault.Memory };

    fn from(_refused: Memory) -> BindFault {
        BindFault::Memory
    }
}

// Whether the argument has this keyword.
fn has_keyword(argument: &Arg, name: &str) -> bool
    ensures { result ≡ is_keyword name.now argument.now.name }
{
    match &argument.name {
        Some(keyword) => keyword.as_str() == name,
        None => false,
    }
}

// Whether some argument has this keyword.
fn some_has_keyword(arguments: &[Arg], name: &str) -> bool
    ensures { result ≡ list_any (λ argument. is_keyword name.now argument.name) arguments.now }
{
    arguments.iter().any(|argument| has_keyword(argument, name))
}

// Whether the argument has a keyword that one of these has too.
fn is_repeated(argument: &Arg, others: &[Arg]) -> bool
    ensures { result ≡ is_repeated argument.now.name (names_of others.now) }
{
    match &argument.name {
        Some(keyword) => some_has_keyword(others, keyword.as_str()),
        None => false,
    }
}

// Whether some keyword stands twice.
fn has_keyword_twice(arguments: &[Arg]) -> bool
    ensures { result ≡ has_twice (names_of arguments.now) }
{
    let mut left = arguments;
    while let Some((first, rest)) = left.split_first() {
        if is_repeated(first, rest) {
            return true;
        }
        left = rest;
    }
    false
}

// Whether there are more arguments than parameters, or some keyword stands twice.
fn is_wrong_number(parameters: &[Parameter], arguments: &[Arg]) -> bool
    ensures { result ≡ is_wrong_number (map parameter_row parameters.now) (names_of arguments.now) }
{
    arguments.len() > parameters.len() || has_keyword_twice(arguments)
}

// Whether it is the parameter's name.
fn is_name(parameter: &Parameter, name: &str) -> bool
    ensures { result ≡ bytes_eq parameter.now.name.now name.now }
{
    parameter.name == name
}

// Whether some parameter has this name.
fn some_is_name(parameters: &[Parameter], name: &str) -> bool
    ensures { result ≡ list_any (λ parameter. bytes_eq parameter.name.now name.now) parameters.now }
{
    parameters.iter().any(|parameter| is_name(parameter, name))
}

// Whether the argument has a keyword that is no parameter's name.
fn is_unknown(parameters: &[Parameter], argument: &Arg) -> bool
    ensures { result ≡ is_unknown (map parameter_row parameters.now) argument.now.name }
{
    match &argument.name {
        Some(keyword) => !some_is_name(parameters, keyword.as_str()),
        None => false,
    }
}

// The place of the first argument with a keyword that is no parameter's name.
fn first_unknown(parameters: &[Parameter], arguments: &[Arg]) -> Option<usize>
    ensures { result ≡ position
        (λ argument. is_unknown (map parameter_row parameters.now) argument.name) arguments.now }
{
    arguments
        .iter()
        .position(|argument| is_unknown(parameters, argument))
}

// The place of the argument with a keyword.
fn place_of_keyword(arguments: &[Arg], name: &str) -> Option<usize>
    ensures { result ≡ position (λ argument. is_keyword name.now argument.name) arguments.now }
{
    arguments
        .iter()
        .position(|argument| has_keyword(argument, name))
}

// The place of the argument without a keyword before which so many others without one stand.
fn place_of_positional(arguments: &[Arg], index: usize) -> Option<usize>
    ensures { result ≡ positional_at index (names_of arguments.now) }
{
    let mut before = index;
    for (place, argument) in arguments.iter().enumerate() {
        if argument.name.is_none() {
            if before == 0 {
                return Some(place);
            }
            before -= 1;
        }
    }
    None
}

// For each parameter the place of its argument: the one with its name as a keyword, or else the next one
// without a keyword.
fn places_of(
    alloc: Global,
    parameters: &[Parameter],
    arguments: &[Arg],
) -> Result<Vec<Option<usize>>, Memory>
    ensures { IfOk result
        (λ places. places.items ≡ bound_from 0 (map parameter_row parameters.now) (names_of arguments.now)) }
{
    let mut places = Vec::with_capacity(alloc, parameters.len())?;
    let mut taken = 0;
    let mut left = parameters;
    while let Some((parameter, others)) = left.split_first() {
        match place_of_keyword(arguments, parameter.name) {
            Some(place) => places.push(Some(place))?,
            None => {
                places.push(place_of_positional(arguments, taken))?;
                taken += 1;
            }
        }
        left = others;
    }
    Ok(places)
}

// The place of the first parameter that is required and has no argument.
fn first_missing(parameters: &[Parameter], places: &[Option<usize>]) -> Option<usize>
    ensures { result ≡ first_missing (map parameter_row parameters.now) places.now }
{
    let mut place = 0;
    let mut left = parameters;
    let mut bound = places;
    while let Some((parameter, others)) = left.split_first() {
        let (argument, rest) = bound.split_first()?;
        if parameter.required && argument.is_none() {
            return Some(place);
        }
        place += 1;
        left = others;
        bound = rest;
    }
    None
}

/// Binds the arguments of a call to parameters: an argument with a keyword to the parameter of this name, and
/// the i-th one without to the i-th parameter that no keyword names. `Number`: there are more arguments than
/// parameters, or a keyword stands twice. Else `Unknown`: the place of the first argument whose keyword is no
/// parameter's name. Else `Missing`: the place of the first required parameter without an argument. `Memory`:
/// want of memory.
pub fn bind_to(
    alloc: Global,
    parameters: &[Parameter],
    arguments: &Args,
) -> Result<Bound, BindFault>
    ensures { IsBound (binding (map parameter_row parameters.now) (keywords_of (args_of arguments.now))) result }
{
    let arguments = arguments.as_slice();
    if is_wrong_number(parameters, arguments) {
        return Err(BindFault::Number);
    }
    if let Some(place) = first_unknown(parameters, arguments) {
        return Err(BindFault::Unknown(place));
    }
    let places = places_of(alloc, parameters, arguments)?;
    match first_missing(parameters, &places) {
        Some(place) => Err(BindFault::Missing(place)),
        None => Ok(Bound::new(places)),
    }
}
