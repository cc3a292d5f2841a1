ghost use Rattle.std.specs.Prelude.{[], ◌∷◌, List, ℕ, IfOk, OnOk};
ghost use Rattle.vrl_kind.specs.Kinds.{tags_at};
ghost use Rattle.vrl_kind.specs.Make.{named_view};
ghost use Rattle.vrl_kind.specs.Sets.{Sets, SameSets};
ghost use Rattle.fn_parse.specs.Named.{object_with};
ghost use Rattle.fn_parse.specs.PartKinds.{sets_of, AreNamed};
ghost use Rattle.fn_parse.specs.Url.{url_fields};

use std::alloc::Global;
use vrl_builtin::{either_tag, object_of_tag};
use vrl_kind::{Kind, Rest};
use vrl_value::{Chars, Memory, Tag};

/// What a part of a URL may be.
#[derive(Clone, Copy)]
enum Part {
    /// A string.
    Text,
    /// A string or null.
    TextOrNull,
    /// An integer or null.
    NumberOrNull,
    /// An object of strings.
    Texts,
}

// The kind of a part.
fn kind_of(alloc: Global, part: Part) -> Result<Kind, Memory>
    ensures { IfOk result (λ kind. SameSets (tags_at kind) (sets_of part)) }
{
    match part {
        Part::Text => Ok(Kind::of(alloc, Tag::Text)),
        Part::TextOrNull => either_tag(alloc, Tag::Text, Tag::Null),
        Part::NumberOrNull => either_tag(alloc, Tag::Int, Tag::Null),
        Part::Texts => object_of_tag(alloc, Tag::Text),
    }
}

// Puts a part's kind behind those of other fields.
fn push(
    alloc: Global,
    fields: &mut Vec<(Chars, Kind)>,
    name: &str,
    part: Part,
) -> Result<(), Memory>
    ensures { OnOk result ((others : List (List ℕ × Sets)) → AreNamed (named_view fields.old.items) others
        → AreNamed (named_view fields.new.items) ((name.now, sets_of part) ∷ others)) }
{
    let name = Chars::copy_of(alloc, name)?;
    let kind = kind_of(alloc, part)?;
    fields.push((name, kind))?;
    Ok(())
}

// Puts the kinds of a URL's parts, the last by name first.
fn push_parts(alloc: Global, fields: &mut Vec<(Chars, Kind)>) -> Result<(), Memory>
    ensures { OnOk result
        (AreNamed (named_view fields.old.items) [] → AreNamed (named_view fields.new.items) url_fields) }
{
    push(alloc, fields, "username", Part::Text)?;
    push(alloc, fields, "scheme", Part::Text)?;
    push(alloc, fields, "query", Part::Texts)?;
    push(alloc, fields, "port", Part::NumberOrNull)?;
    push(alloc, fields, "path", Part::Text)?;
    push(alloc, fields, "password", Part::Text)?;
    push(alloc, fields, "host", Part::TextOrNull)?;
    push(alloc, fields, "fragment", Part::TextOrNull)
}

/// The kind of the objects of a URL's parts. `Memory`: want of memory.
pub(crate) fn url_kind(alloc: Global) -> Result<Kind, Memory>
    ensures { IfOk result (λ kind. SameSets (tags_at kind) (object_with url_fields)) }
{
    let mut fields = Vec::new(alloc);
    push_parts(alloc, &mut fields)?;
    Kind::object(alloc, fields, Rest::Nothing)
}
