ghost use Rattle.std.specs.Prelude.{◌≡◌, IfOk};
ghost use Rattle.vrl_token.specs.Paths.{Segment as Spelled};
ghost use Rattle.vrl_token.specs.Segments.{CutsDotted, CutsIndex, CutsUndotted, IsCutField, IsSaid, IsUnsigned, StepOf, field_step, place_step};

use crate::number::{number_of, split_digit_run};
use crate::quoted::{split_quoted, unescaped};
use crate::scan::{Class, split_run, strip_mark};
use std::alloc::Global;
use vrl_path::Step;
use vrl_value::{Chars, Memory};

/// A segment of a path as a script spells it.
#[derive(Clone, Copy)]
pub(crate) enum Segment<'a> {
    /// A field without quotes.
    Field(&'a str),
    /// What stands between the quotes of a field.
    Quoted(&'a str),
    /// Whether an index has a minus, and its digits.
    Index(bool, &'a str),
}

/// What is wrong with a segment.
#[derive(Clone, Copy)]
pub(crate) enum Flaw {
    /// An escape that the language doesn't have.
    Escape,
    /// An index of more than 64 bits with its sign.
    Range,
}

// Whether a text begins with a minus, and what follows it.
fn split_minus(text: &str) -> (bool, &str)
    ensures { IsUnsigned result.0 text.now result.1.now }
{
    match strip_mark(text, '-') {
        Some(unsigned) => (true, unsigned),
        None => (false, text),
    }
}

// The index that a text begins with, and what stands behind it. `None` where it begins with none.
fn split_index(text: &str) -> Option<(Segment<'_>, &str)>
    ensures { CutsIndex text.now result }
{
    let behind = strip_mark(text, '[')?;
    let (negative, unsigned) = split_minus(behind);
    let (digits, closing) = split_digit_run(unsigned)?;
    let rest = strip_mark(closing, ']')?;
    Some((Segment::Index(negative, digits), rest))
}

// The field that a text begins with, and what stands behind it. `None` where it begins with none.
fn split_field(text: &str) -> Option<(Segment<'_>, &str)>
    ensures { IsCutField text.now result }
{
    let (name, rest) = split_run(text, Class::FieldPart);
    if !name.is_empty() {
        return Some((Segment::Field(name), rest));
    }
    let (inner, rest) = split_quoted(strip_mark(text, '"')?, b'"')?;
    Some((Segment::Quoted(inner), rest))
}

/// The segment that a text behind the dot of a path begins with, and what stands behind it. `None`
/// where it begins with none.
pub(crate) fn split_undotted(text: &str) -> Option<(Segment<'_>, &str)>
    ensures { CutsUndotted text.now result }
{
    match split_index(text) {
        Some(cut) => Some(cut),
        None => split_field(text),
    }
}

/// The segment, with the dot before a field, that a text begins with, and what stands behind it.
/// `None` where it begins with none.
pub(crate) fn split_dotted(text: &str) -> Option<(Segment<'_>, &str)>
    ensures { CutsDotted text.now result }
{
    match split_index(text) {
        Some(cut) => Some(cut),
        None => split_field(strip_mark(text, '.')?),
    }
}

impl Segment<'_> {
    /// The step that the segment stands for, or what is wrong with it.
    pub(crate) fn to_step(self, alloc: Global) -> Result<Result<Step, Flaw>, Memory>
        ensures { IfOk result (λ found. (segment : Spelled) → IsSaid self.entry segment → StepOf segment found) }
    {
        match self {
            Segment::Field(name) => Ok(Ok(Step::Field(Chars::copy_of(alloc, name)?))),
            Segment::Quoted(inner) => Ok(field_step(unescaped(alloc, inner)?)),
            Segment::Index(negative, digits) => Ok(place_step(number_of(negative, digits))),
        }
    }
}

// The step of a field whose quoted name is read, or that it isn't.
fn field_step(name: Option<Chars>) -> Result<Step, Flaw>
    ensures { result ≡ field_step name }
{
    match name {
        Some(name) => Ok(Step::Field(name)),
        None => Err(Flaw::Escape),
    }
}

// The step of an index that is read, or that it isn't.
fn place_step(place: Option<i64>) -> Result<Step, Flaw>
    ensures { result ≡ place_step place }
{
    match place {
        Some(place) => Ok(Step::Place(place)),
        None => Err(Flaw::Range),
    }
}
