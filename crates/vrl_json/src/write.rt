ghost use Rattle.std.specs.Prelude.{◌≡◌, ◌≤◌, ℕ, ◌++◌, [], ◌∷◌, IfOk, IsTrue, OnOk, length};
ghost use Rattle.std.specs.Str.{IsUtf8};
ghost use Rattle.json.specs.Token.{string};
ghost use Rattle.vrl_value.specs.Depth.{depth_of};
ghost use Rattle.vrl_value.specs.MomentText.{moment_text};
ghost use Rattle.vrl_value.specs.Regexes.{regexes_below, items_regexes_below, members_regexes_below};
ghost use Rattle.vrl_value.specs.Tree.{Tree, is_json};
ghost use Rattle.vrl_value.specs.View.{tree_of, items_of, members_of};
ghost use Rattle.vrl_json.specs.Held.{IsHeld, ItemsAreHeld, MembersAreHeld};
ghost use Rattle.vrl_json.specs.Line.{line_text, reading_of, whole};
ghost use Rattle.vrl_json.specs.Tokens.{tree_tokens, items_tokens, members_tokens};

use json::Writer;
use std::alloc::{AllocError, Global};
use vrl_value::{Bytes, Chars, Fields, Items, Memory, Moment, Value};

/// The bytes for which a line takes room at first. It grows from there.
const USUAL_LENGTH: usize = 256;

/// The line of a value: its JSON text (RFC 8259) in UTF-8, compact, with the members of each object
/// in the order of their names' bytes, and without a newline. A timestamp is written as its text in
/// quotes, and a regex as its source in quotes; `sources` holds the source of each regex literal at
/// its number. It takes time linear in the line. `Memory`: want of memory.
pub fn to_line(alloc: Global, value: &Value, sources: &[Chars]) -> Result<Bytes, Memory>
    requires { IsTrue (regexes_below (length sources.now) (tree_of value.now)) }
    ensures text { IfOk result (λ bytes. bytes ≡ line_text sources.now (tree_of value.now)) }
    ensures utf8 { IfOk result IsUtf8 }
    // A value of JSON alone, nested at most as deep as a line can be, is what its line stands for.
    ensures read_back { IfOk result (λ bytes. IsTrue (is_json (tree_of value.now))
        → depth_of (tree_of value.now) ≤ 127
        → reading_of bytes ≡ whole (tree_of value.now)) }
{
    let room = Vec::with_capacity(alloc, USUAL_LENGTH)?;
    let mut out = Writer::new(room);
    write_value(alloc, value, sources, &mut out)?;
    Ok(Bytes::new(out.into_inner()))
}

/// What has no regex in it needs no sources, and may be written beside any number of them. This
/// takes no time: it is a law about the definitions.
pub fn json_needs_no_sources()
    ensures { (count : ℕ) (tree : Tree) → IsTrue (is_json tree) → IsTrue (regexes_below count tree) }
{}

#[cycle(write)]
#[inline(always)]
fn write_value(
    alloc: Global,
    value: &Value,
    sources: &[Chars],
    out: &mut Writer,
) -> Result<(), AllocError>
    requires { IsTrue (regexes_below (length sources.now) (tree_of value.now)) }
    ensures ok { OnOk result (out.new.tokens
        ≡ out.old.tokens ++ tree_tokens sources.now (tree_of value.now)) }
    ensures held { OnOk result (IsHeld (tree_of value.now)) }
    ensures before { out.new.before ≡ out.old.before }
{
    match value {
        Value::Text(text) => out.string(text.as_str()),
        Value::Int(number) => out.i64(*number),
        Value::Bool(truth) => out.boolean(*truth),
        Value::Null => out.null(),
        Value::Time(moment) => write_moment(alloc, *moment, out),
        Value::Pattern(literal) => out.string(sources[*literal as usize].as_str()),
        Value::List(items) => {
            out.begin_array()?;
            write_items(alloc, items, sources, out)
        }
        Value::Object(fields) => {
            out.begin_object()?;
            write_members(alloc, fields, sources, out)
        }
    }
}

fn write_moment(alloc: Global, moment: Moment, out: &mut Writer) -> Result<(), AllocError>
    ensures ok { OnOk result (out.new.tokens ≡ out.old.tokens ++ string (moment_text moment) ∷ []) }
    ensures before { out.new.before ≡ out.old.before }
{
    match moment.text(alloc) {
        Ok(text) => out.string(text.as_str()),
        Err(Memory) => Err(AllocError),
    }
}

#[cycle(write)]
#[inline(never)]
fn write_items(
    alloc: Global,
    items: &Items,
    sources: &[Chars],
    out: &mut Writer,
) -> Result<(), AllocError>
    requires { IsTrue (items_regexes_below (length sources.now) (items_of items.now)) }
    ensures ok { OnOk result (out.new.tokens
        ≡ out.old.tokens ++ items_tokens sources.now (items_of items.now)) }
    ensures held { OnOk result (ItemsAreHeld (items_of items.now)) }
    ensures before { out.new.before ≡ out.old.before }
{
    for item in items.as_slice() {
        write_value(alloc, item, sources, out)?;
    }
    out.end_array()
}

#[cycle(write)]
#[inline(never)]
fn write_members(
    alloc: Global,
    fields: &Fields,
    sources: &[Chars],
    out: &mut Writer,
) -> Result<(), AllocError>
    requires { IsTrue (members_regexes_below (length sources.now) (members_of fields.now)) }
    ensures ok { OnOk result (out.new.tokens
        ≡ out.old.tokens ++ members_tokens sources.now (members_of fields.now)) }
    ensures held { OnOk result (MembersAreHeld (members_of fields.now)) }
    ensures before { out.new.before ≡ out.old.before }
{
    for (name, value) in fields.as_map().iter() {
        out.key(name.as_str())?;
        write_value(alloc, value, sources, out)?;
    }
    out.end_object()
}
