ghost use Rattle.std.specs.Prelude.{◌≡◌, ◌++◌, [], ◌∷◌, IfOk, OnOk, encode_utf8_all, string_bytes};
ghost use Rattle.std.specs.List.{flat_map};
ghost use Rattle.vrl_value.specs.Look.{field, place};
ghost use Rattle.vrl_kindfile.specs.Pointer.{escaped, name_text, step_text};
ghost use Rattle.vrl_kindfile.specs.Walk.{IsHere, IsLengthened, IsUnder};

use crate::refusal::Refusal;
use std::alloc::Global;
use vrl_value::{Chars, Memory};

/// The refusal of a value that is itself at fault.
pub(crate) fn refused_here(alloc: Global) -> Refusal
    ensures { IsHere result }
{
    Refusal::Bad(Chars::new(String::new(alloc)))
}

/// The refusal of a value whose member of this name was refused.
pub(crate) fn under_name(alloc: Global, name: &str, refusal: Refusal) -> Refusal
    ensures { IsUnder (field name.now) refusal result }
{
    match refusal {
        Refusal::Bad(rest) => lengthened(name_pointer(alloc, name, rest.as_str())),
        Refusal::Memory => Refusal::Memory,
    }
}

/// The refusal of a value whose item at this place was refused.
pub(crate) fn under_place(alloc: Global, index: usize, refusal: Refusal) -> Refusal
    ensures { IsUnder (place index) refusal result }
{
    match refusal {
        Refusal::Bad(rest) => lengthened(place_pointer(alloc, index, rest.as_str())),
        Refusal::Memory => Refusal::Memory,
    }
}

fn lengthened(pointer: Result<Chars, Memory>) -> Refusal
    ensures { IsLengthened pointer result }
{
    match pointer {
        Ok(pointer) => Refusal::Bad(pointer),
        Err(Memory) => Refusal::Memory,
    }
}

fn place_pointer(alloc: Global, index: usize, rest: &str) -> Result<Chars, Memory>
    ensures { IfOk result (λ pointer. pointer ≡ 47 ∷ (step_text (place index) ++ rest.now)) }
{
    Ok(Chars::new(format!(in alloc; "/{index}{rest}")?))
}

fn name_pointer(alloc: Global, name: &str, rest: &str) -> Result<Chars, Memory>
    ensures { IfOk result (λ pointer. pointer ≡ 47 ∷ (name_text name.now ++ rest.now)) }
{
    let name = escaped_name(alloc, name)?;
    let name = name.as_str();
    Ok(Chars::new(format!(in alloc; "/{name}{rest}")?))
}

fn escaped_name(alloc: Global, name: &str) -> Result<String, Memory>
    ensures { IfOk result (λ text. string_bytes text ≡ name_text name.now) }
{
    let mut text = String::with_capacity(alloc, name.len())?;
    for c in name.chars() {
        push_escaped(&mut text, c)?;
    }
    Ok(text)
}

fn push_escaped(text: &mut String, c: char) -> Result<(), Memory>
    ensures { OnOk result
        (string_bytes text.new ≡ string_bytes text.old ++ encode_utf8_all (flat_map escaped (c ∷ []))) }
{
    match c {
        '~' => text.push_str("~0")?,
        '/' => text.push_str("~1")?,
        other => text.push(other)?,
    }
    Ok(())
}
