ghost use Rattle.std.specs.Prelude.{◌≡◌, None, MatchOption};
ghost use Rattle.vrl_value.specs.Tree.{string};
ghost use Rattle.vrl_kindfile.specs.Shapes.{word_tags};
ghost use Rattle.vrl_kindfile.specs.Walk.{IsWordKind};

use std::alloc::Global;
use vrl_kind::Kind;
use vrl_value::Tag;

/// The kind that a word names. `None`: it names none.
pub(crate) fn word_kind(alloc: Global, word: &str) -> Option<Kind>
    ensures { MatchOption result (word_tags word.now ≡ None) (IsWordKind word.now) }
{
    match word {
        "string" => Some(Kind::of(alloc, Tag::Text)),
        "integer" => Some(Kind::of(alloc, Tag::Int)),
        "boolean" => Some(Kind::of(alloc, Tag::Bool)),
        "null" => Some(Kind::of(alloc, Tag::Null)),
        "json" => Some(Kind::json(alloc)),
        _ => None,
    }
}
