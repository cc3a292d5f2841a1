ghost use Rattle.std.specs.Prelude.{◌≡◌, ◌↔◌, ◌<◌, IfErr, IfOk, IsTrue, length};
ghost use Rattle.vrl_kindfile.specs.Files.{IsAllowed, IsDeclared, IsRefused, file_limit};

use crate::description::description;
use crate::fault::KindFault;
use crate::pointer::refused_here;
use std::alloc::Global;
use vrl_json::{Scratch, from_line};
use vrl_kind::{Kind, LEVEL_LIMIT, NODE_LIMIT, kind_is_canonical, levels, nodes, within};
use vrl_value::Tag;

/// The most bytes of a kind file.
pub const FILE_LIMIT: usize = 65536;

/// The most places of arrays that a description tells one by one.
pub const PLACE_LIMIT: usize = 64;

/// The kind that a kind file declares: its bytes are one JSON text (RFC 8259) in UTF-8, whose value is a
/// description of objects.
///
/// A description is one of the words `"string"`, `"integer"`, `"boolean"`, `"null"` and `"json"`; an array of
/// one description or more, which is their join; `{"object": {NAME: part, ..}, "rest": rest}`; or `{"array":
/// [part, ..], "rest": rest}`, with at most `PLACE_LIMIT` parts. A part is a description, or `{"optional":
/// description}`, which allows that nothing is there. A rest, that of all other fields or places, is a
/// description or `"nothing"`; it may be left out and is `"json"` then. No other member may stand there.
///
/// The first of these that holds: `TooLong`, the file has more than `FILE_LIMIT` bytes. `NotJson`, it is no such
/// text, or a number in it is not a whole number of 64 bits with a sign. `Bad`, with the JSON Pointer (RFC
/// 6901) of the first value that is not as told above, a value before what is in it, and that in the order of
/// names or places; or with the empty pointer, where all values are, but the kind allows something besides
/// objects, has more than `NODE_LIMIT` nodes, or more than `LEVEL_LIMIT` levels. `Memory`: want of memory.
///
/// It takes time linear in the bytes for each level that the descriptions nest, times the logarithm of the
/// longest array.
pub fn read_kind_file(alloc: Global, bytes: &[u8]) -> Result<Kind, KindFault>
    ensures too_long { result ≡ Err KindFault.TooLong ↔ file_limit < length bytes.now }
    ensures refused { IfErr result (IsRefused bytes.now) }
    ensures kind { IfOk result (IsDeclared bytes.now) }
{
    if bytes.len() > FILE_LIMIT {
        return Err(KindFault::TooLong);
    }
    let value = from_line(alloc, bytes, &mut Scratch::new(alloc))?;
    let kind = description(alloc, &value)?;
    kind_is_canonical(&kind);
    if !is_allowed(alloc, &kind) {
        return Err(KindFault::from(refused_here(alloc)));
    }
    Ok(kind)
}

// Whether only objects are of the kind, and it is no larger than a kind may be.
fn is_allowed(alloc: Global, kind: &Kind) -> bool
    ensures { IsTrue result ↔ IsAllowed kind.now }
{
    if nodes(kind) > NODE_LIMIT || levels(kind) > LEVEL_LIMIT {
        return false;
    }
    within(kind, &Kind::of(alloc, Tag::Object))
}
