// How the arguments of a call are bound to the parameters of a function, or of a form that runs a
// closure. What is expected is worked out from the parameters in the manual.
use std::alloc::Global;
use std::process::Abort;
use vrl_binding::{BindFault, Bound, bind_to, collection_parameters, collections};
use vrl_builtin::{Parameter, Tags};
use vrl_diag::Span;
use vrl_syntax::{Arg, Args, CallForm, Expr, Form};
use vrl_table::{bind, lookup, parameters};
use vrl_value::{Chars, Memory, Tag, Value};

const SPAN: Span = Span { start: 2, end: 5 };

// An argument with a keyword, or at `-` one without.
fn argument(alloc: Global, keyword: &str) -> Result<Arg, Memory> {
    let name = match keyword {
        "-" => None,
        _ => Some(Chars::copy_of(alloc, keyword)?),
    };
    Ok(Arg {
        name,
        span: SPAN,
        value: Expr {
            span: SPAN,
            form: Form::Literal(Value::Null),
        },
    })
}

// The arguments with these keywords, which stand between commas.
fn arguments_of(alloc: Global, keywords: &str) -> Result<Args, Memory> {
    let mut arguments = Vec::new(alloc);
    for keyword in keywords.split(',') {
        if !keyword.is_empty() {
            arguments.push(argument(alloc, keyword)?)?;
        }
    }
    Ok(Args::new(arguments))
}

fn is_place(place: Option<usize>, wanted: char) -> bool {
    match place {
        Some(place) => wanted.to_digit(10).map(|digit| digit as usize) == Some(place),
        None => wanted == '-',
    }
}

// Whether these are the places of a text: for each parameter that of its argument, a digit, or `-`
// where it has none.
fn are_places(places: &[Option<usize>], wanted: &str) -> bool {
    let mut left = places;
    for digit in wanted.chars() {
        let Some((place, others)) = left.split_first() else {
            return false;
        };
        if !is_place(*place, digit) {
            return false;
        }
        left = others;
    }
    left.is_empty()
}

fn is_number(place: usize, wanted: Option<&str>) -> bool {
    match wanted {
        Some(digits) => digits.parse::<usize>().ok() == Some(place),
        None => false,
    }
}

fn is_fault(fault: BindFault, wanted: &str) -> Result<bool, Memory> {
    match fault {
        BindFault::Number => Ok(wanted == "number"),
        BindFault::Unknown(place) => Ok(is_number(place, wanted.strip_prefix("unknown "))),
        BindFault::Missing(place) => Ok(is_number(place, wanted.strip_prefix("missing "))),
        BindFault::Memory => Err(Memory),
    }
}

fn is_wanted(bound: Result<Bound, BindFault>, wanted: &str) -> Result<bool, Memory> {
    match bound {
        Ok(bound) => Ok(are_places(bound.as_slice(), wanted)),
        Err(fault) => is_fault(fault, wanted),
    }
}

// Whether this comes of binding to the parameters of a function, and to those of its entry in the
// table; or to those of a form.
fn is_bound_to(alloc: Global, name: &str, arguments: &Args, wanted: &str) -> Result<bool, Memory> {
    if let Some(function) = lookup(name) {
        let is_given = is_wanted(bind_to(alloc, parameters(function), arguments), wanted)?;
        let is_found = is_wanted(bind(alloc, function, arguments), wanted)?;
        return Ok(is_given && is_found);
    }
    match CallForm::named(name) {
        Some(form) => is_wanted(
            bind_to(alloc, collection_parameters(form), arguments),
            wanted,
        ),
        None => Ok(false),
    }
}

fn is_bound(alloc: Global, name: &str, keywords: &str, wanted: &str) -> Result<bool, Memory> {
    let arguments = arguments_of(alloc, keywords)?;
    is_bound_to(alloc, name, &arguments, wanted)
}

// Rows of a function's name, the keywords of the arguments, and what comes of binding them: places,
// or `number`, or `unknown ` or `missing ` and a place.
fn expect_bound(rt: &impl Abort, alloc: Global, rows: &[(&str, &str, &str)]) -> Result<(), Memory> {
    for (name, keywords, wanted) in rows {
        let is_so = is_bound(alloc, name, keywords, wanted)?;
        assert!(rt; is_so, "at {name}({keywords})");
    }
    Ok(())
}

const BINDINGS: [(&str, &str, &str); 75] = [
    // An argument without a keyword is that of the next parameter that no keyword names.
    ("now", "", ""),
    ("upcase", "-", "0"),
    ("upcase", "value", "0"),
    ("mod", "-,-", "01"),
    ("mod", "value,modulus", "01"),
    ("mod", "modulus,value", "10"),
    ("mod", "-,modulus", "01"),
    ("mod", "modulus,-", "10"),
    ("mod", "-,value", "10"),
    ("mod", "value,-", "01"),
    ("replace", "-,-,-,-", "0123"),
    ("replace", "-,-,-", "012-"),
    ("replace", "count,with,pattern,value", "3210"),
    ("replace", "-,pattern,-", "012-"),
    ("replace", "-,-,pattern", "021-"),
    ("replace", "-,count,-,-", "0231"),
    ("replace", "with,-,count,-", "1302"),
    ("replace", "value,-,-,-", "0123"),
    ("starts_with", "-,-", "01-"),
    ("starts_with", "case_sensitive,-,-", "120"),
    ("slice", "-,end,-", "021"),
    ("slice", "start,-", "10-"),
    ("truncate", "limit,-,suffix", "102"),
    ("parse_key_value", "-", "0--"),
    ("parse_key_value", "-,-", "01-"),
    ("parse_key_value", "-,field_delimiter", "0-1"),
    ("parse_key_value", "field_delimiter,-,-", "120"),
    ("parse_key_value", "key_value_delimiter,-,-", "102"),
    ("parse_key_value", "key_value_delimiter,value", "10-"),
    ("for_each", "-", "0"),
    ("filter", "value", "0"),
    ("map_values", "-", "0"),
    ("map_keys", "value", "0"),
    // There are more arguments than parameters, or a keyword stands twice, whatever else is wrong.
    ("now", "-", "number"),
    ("now", "value", "number"),
    ("upcase", "-,-", "number"),
    ("upcase", "value,-", "number"),
    ("upcase", "v,-", "number"),
    ("mod", "-,-,-", "number"),
    ("mod", "modulus,-,-", "number"),
    ("int", "value,value", "number"),
    ("mod", "value,value", "number"),
    ("mod", "v,v", "number"),
    ("replace", "-,count,-,count", "number"),
    ("replace", "count,count,v", "number"),
    ("replace", "v,-,count,count", "number"),
    ("for_each", "-,-", "number"),
    ("map_keys", "value,value", "number"),
    // The first keyword that is no parameter's name, whether or not an argument is missing.
    ("upcase", "v", "unknown 0"),
    ("upcase", "values", "unknown 0"),
    ("upcase", "Value", "unknown 0"),
    ("mod", "-,v", "unknown 1"),
    ("mod", "a,b", "unknown 0"),
    ("mod", "b,a", "unknown 0"),
    ("mod", "value,b", "unknown 1"),
    ("mod", "pattern", "unknown 0"),
    ("mod", "modulus_", "unknown 0"),
    ("replace", "-,count,v,w", "unknown 2"),
    ("replace", "-,-,-,limit", "unknown 3"),
    ("filter", "values", "unknown 0"),
    ("map_keys", "key", "unknown 0"),
    // The first required parameter without an argument.
    ("upcase", "", "missing 0"),
    ("mod", "", "missing 0"),
    ("mod", "-", "missing 1"),
    ("mod", "value", "missing 1"),
    ("mod", "modulus", "missing 0"),
    ("replace", "-", "missing 1"),
    ("replace", "-,pattern", "missing 2"),
    ("replace", "with,-", "missing 1"),
    ("replace", "pattern,with,count", "missing 0"),
    ("replace", "-,-,count", "missing 2"),
    ("truncate", "-,suffix", "missing 1"),
    ("parse_key_value", "field_delimiter", "missing 0"),
    ("for_each", "", "missing 0"),
    ("map_keys", "", "missing 0"),
];

#[test]
fn arguments_are_bound(rt: HostRuntime) -> Result<(), Memory> {
    expect_bound(&rt, rt.alloc(), &BINDINGS)
}

// Whether places are borrowed and given back as they were given.
fn are_places_kept(alloc: Global) -> Result<bool, Memory> {
    let mut places = Vec::new(alloc);
    places.push(Some(1))?;
    places.push(None)?;
    let bound = Bound::new(places);
    let are_borrowed = are_places(bound.as_slice(), "1-");
    Ok(are_borrowed && are_places(&bound.into_vec(), "1-"))
}

#[test]
fn places_are_kept(rt: HostRuntime) -> Result<(), Memory> {
    assert!(rt; are_places_kept(rt.alloc())?);
    assert!(rt; matches!(BindFault::from(Memory), BindFault::Memory));
    Ok(())
}

const TAGS: [Tag; 9] = [
    Tag::Text,
    Tag::Int,
    Tag::Bool,
    Tag::Null,
    Tag::Time,
    Tag::Pattern,
    Tag::List,
    Tag::Object,
    Tag::Absent,
];

// Whether objects are allowed, arrays where it is said so, and nothing else.
fn are_collections(allowed: &Tags, arrays: bool) -> bool {
    TAGS.iter().all(|tag| {
        let is_collection = *tag == Tag::Object || (*tag == Tag::List && arrays);
        allowed.contains(*tag) == is_collection
    })
}

fn is_collection(parameter: &Parameter, arrays: bool) -> bool {
    parameter.name == "value"
        && parameter.required
        && !parameter.literal
        && are_collections(&parameter.allowed, arrays)
}

// Whether a form takes one argument alone, a collection.
fn takes_collection(form: CallForm, arrays: bool) -> bool {
    let parameters = collection_parameters(form);
    parameters.len() == 1
        && parameters
            .iter()
            .all(|parameter| is_collection(parameter, arrays))
        && are_collections(&collections(form), arrays)
}

// The forms that run a closure, and whether their collection may be an array.
const COLLECTIONS: [(CallForm, bool); 4] = [
    (CallForm::ForEach, true),
    (CallForm::Filter, true),
    (CallForm::MapValues, true),
    (CallForm::MapKeys, false),
];

#[test]
fn collections_are_taken(rt: HostRuntime) {
    for (form, arrays) in &COLLECTIONS {
        assert!(rt; takes_collection(*form, *arrays), "{form:?}");
    }
}
