ghost use Rattle.std.specs.Prelude.{◌≡◌, ◌<◌, ◌≤◌, ◌⊎◌, length, List, [], ◌∷◌, ◌++◌, ℕ, Err, Some, None, IfOk, IsTrue, IsUtf8, OnOk, false};
ghost use Rattle.json.specs.Json.{value, items, members};
ghost use Rattle.json.specs.Lex.{tokens};
ghost use Rattle.json.specs.Scratch.{room};
ghost use Rattle.serde_json.specs.Data as json;
ghost use Rattle.serde_json.specs.Read.{converted, of_items, of_json, of_members, read};
ghost use Rattle.vrl_value.specs.Depth.{depth_of};
ghost use Rattle.vrl_value.specs.Tree.{Tree, IsOrdered, is_json, items_are_json, members_are_json};
ghost use Rattle.vrl_value.specs.View.{tree_of, items_of, members_of};
ghost use Rattle.vrl_json.specs.Faults.{takes_memory};
ghost use Rattle.vrl_json.specs.Line.{not_json, not_whole, whole, reading_of, reading_of_json};
ghost use Rattle.vrl_json.specs.Drafts.{draft, draft_items, draft_members, draft_tree, TellsStandIns};

use crate::fault::JsonFault;
use crate::number::number_in;
use json::{Reader, Scratch, Token};
use std::alloc::Global;
use std::collections::BTreeMap;
use vrl_value::{Chars, Fields, Items, Memory, Value};

/// How deep arrays and objects may nest.
const NESTING_LIMIT: usize = 127;

/// The value of a line: one JSON text (RFC 8259) in UTF-8 (RFC 3629), with or without white space
/// around it. Arrays and objects nest at most 127 deep. Of equal names in an object the last
/// counts, which section 4 of RFC 8259 leaves open. It takes time linear in the bytes, times the
/// logarithm of an object's size.
///
/// `NotJson`: the bytes are no such text. `NotWhole`: they are, and a number of the value is not a
/// whole number of 64 bits with a sign in the plain form of digits; `-0` is not, nor is `1.0` or
/// `1e2`. A number at a name that a later equal name replaces is no number of the value. `Memory`:
/// want of memory, for a value that begins as a text, an array or an object, or where `scratch` has
/// not yet room for so many bytes.
///
/// `scratch` is what reading needs beside the value. Its contents don't matter; keep one from line
/// to line.
pub fn from_line(alloc: Global, bytes: &[u8], scratch: &mut Scratch) -> Result<Value, JsonFault>
    ensures value { IfOk result (λ value. reading_of bytes.now ≡ whole (tree_of value)) }
    ensures not_json { result ≡ Err JsonFault.NotJson → reading_of bytes.now ≡ not_json }
    ensures not_whole { result ≡ Err JsonFault.NotWhole → reading_of bytes.now ≡ not_whole }
    ensures memory { result ≡ Err JsonFault.Memory → IsUtf8 bytes.now
        × (IsTrue (takes_memory 127 (tokens bytes.now)) ⊎ (room scratch.old < length bytes.now)) }
{
    let Ok(text) = simdutf8::compat::from_utf8(bytes) else {
        return Err(JsonFault::NotJson);
    };
    read_text(alloc, text, scratch)
}

/// What a line stands for has neither a timestamp nor a regex in it. This takes no time: it is a
/// law about the definitions.
pub fn lines_are_json()
    ensures { (line : List ℕ) (tree : Tree) → reading_of line ≡ whole tree → IsTrue (is_json tree) }
{}

/// What a line stands for nests at most 127 deep. This takes no time: it is a law about the
/// definitions.
pub fn lines_are_shallow()
    ensures { (line : List ℕ) (tree : Tree) → reading_of line ≡ whole tree → depth_of tree ≤ 127 }
{}

/// What a line stands for is in order: the members of each object stand in the order of their
/// names' bytes, each name once. This takes no time: it is a law about the definitions.
pub fn lines_are_ordered()
    ensures { (line : List ℕ) (tree : Tree) → reading_of line ≡ whole tree → IsOrdered tree }
{}

// The value of a text. Strings with escapes are written to `scratch` first.
fn read_text(alloc: Global, text: &str, scratch: &mut Scratch) -> Result<Value, JsonFault>
    ensures value { IfOk result (λ value. reading_of_json (read text.now) ≡ whole (tree_of value)) }
    ensures not_json { result ≡ Err JsonFault.NotJson → read text.now ≡ None }
    ensures not_whole { result ≡ Err JsonFault.NotWhole → reading_of_json (read text.now) ≡ not_whole }
    ensures memory { result ≡ Err JsonFault.Memory
        → IsTrue (takes_memory 127 (tokens text.now)) ⊎ (room scratch.old < length text.now) }
{
    let Ok(mut reader) = Reader::new(text, scratch) else {
        return Err(JsonFault::Memory);
    };
    let mut has_stand_ins = false;
    let value = read_value(alloc, &mut reader, NESTING_LIMIT, &mut has_stand_ins)?;
    if reader.next().is_some() {
        return Err(JsonFault::NotJson);
    }
    if is_whole(&value, has_stand_ins) {
        Ok(value)
    } else {
        Err(JsonFault::NotWhole)
    }
}

// The next value of the reader, with a stand-in for each number that is not whole; `has_stand_ins`
// becomes true where one is made. Arrays and objects may nest `depth` deep.
#[cycle(read)]
#[inline(always)]
fn read_value(
    alloc: Global,
    reader: &mut Reader<'_>,
    depth: usize,
    has_stand_ins: &mut bool,
) -> Result<Value, JsonFault>
    ensures ok { IfOk result (λ found. (d : json.Data)
        × (converted of_json (value depth reader.old) ≡ Some (d, reader.new))
        × (tree_of found ≡ draft_tree d)
        × TellsStandIns has_stand_ins.old has_stand_ins.new (is_json (draft_tree d))) }
    ensures shorter { OnOk result (length reader.new < length reader.old) }
    ensures not_json { result ≡ Err JsonFault.NotJson → converted of_json (value depth reader.old) ≡ None }
    ensures not_whole { result ≡ Err JsonFault.NotWhole → ⊥ }
    ensures memory { result ≡ Err JsonFault.Memory → IsTrue (takes_memory depth reader.old) }
{
    let Some(token) = reader.next() else {
        return Err(JsonFault::NotJson);
    };
    match token {
        Token::String(text) => Ok(Value::Text(Chars::copy_of(alloc, text)?)),
        Token::Number(text) => match number_in(text) {
            Some(number) => Ok(draft(number, has_stand_ins)),
            None => Err(JsonFault::NotJson),
        },
        Token::Bool(truth) => Ok(Value::Bool(truth)),
        Token::Null => Ok(Value::Null),
        Token::EndObject | Token::EndArray | Token::Key(_) | Token::Bad => Err(JsonFault::NotJson),
        Token::BeginArray => {
            if depth == 0 {
                return Err(JsonFault::NotJson);
            }
            Ok(Value::List(read_items(alloc, reader, depth - 1, has_stand_ins)?))
        }
        Token::BeginObject => {
            if depth == 0 {
                return Err(JsonFault::NotJson);
            }
            Ok(Value::Object(read_fields(alloc, reader, depth - 1, has_stand_ins)?))
        }
    }
}

// The value of a number that was read. A regex, which no line has, stands in for one that is not
// whole, until it is known whether a later equal name replaces it; `has_stand_ins` becomes true
// then.
fn draft(number: Option<i64>, has_stand_ins: &mut bool) -> Value
    ensures value { tree_of result ≡ draft number }
    ensures told { TellsStandIns has_stand_ins.old has_stand_ins.new (is_json (draft number)) }
{
    match number {
        Some(number) => Value::Int(number),
        None => {
            *has_stand_ins = true;
            Value::Pattern(0)
        }
    }
}

// The values of an array that has begun, up to its end.
#[cycle(read)]
#[inline(never)]
fn read_items(
    alloc: Global,
    reader: &mut Reader<'_>,
    depth: usize,
    has_stand_ins: &mut bool,
) -> Result<Items, JsonFault>
    ensures ok { IfOk result (λ found. (ds : json.Items)
        × (converted of_items (items (value depth) (length reader.old) reader.old) ≡ Some (ds, reader.new))
        × (items_of found ≡ draft_items ds)
        × TellsStandIns has_stand_ins.old has_stand_ins.new (items_are_json (draft_items ds))) }
    ensures shorter { OnOk result (length reader.new < length reader.old) }
    ensures not_json { result ≡ Err JsonFault.NotJson
        → converted of_items (items (value depth) (length reader.old) reader.old) ≡ None }
    ensures not_whole { result ≡ Err JsonFault.NotWhole → ⊥ }
{
    let mut found = Vec::new(alloc);
    'items: while !reader.take_end_array() {
        let value = read_value(alloc, reader, depth, has_stand_ins)?;
        push(&mut found, value)?;
    }
    Ok(Items::new(found))
}

fn push(values: &mut Vec<Value>, value: Value) -> Result<(), Memory>
    ensures { OnOk result (values.new.items ≡ values.old.items ++ value ∷ []) }
{
    Ok(values.push(value)?)
}

// The members of an object that has begun, up to its end. Of equal names the last counts.
#[cycle(read)]
#[inline(never)]
fn read_fields(
    alloc: Global,
    reader: &mut Reader<'_>,
    depth: usize,
    has_stand_ins: &mut bool,
) -> Result<Fields, JsonFault>
    ensures ok { IfOk result (λ found. (ms : json.Members)
        × (converted (λ ms. of_members ms json.no_members) (members (value depth) (length reader.old) reader.old)
        ≡ Some (ms, reader.new))
        × (members_of found ≡ draft_members ms)
        × TellsStandIns has_stand_ins.old has_stand_ins.new (members_are_json (draft_members ms))) }
    ensures shorter { OnOk result (length reader.new < length reader.old) }
    ensures not_json { result ≡ Err JsonFault.NotJson
        → converted (λ ms. of_members ms json.no_members) (members (value depth) (length reader.old) reader.old)
        ≡ None }
    ensures not_whole { result ≡ Err JsonFault.NotWhole → ⊥ }
{
    let mut found = Fields::new(BTreeMap::new(alloc));
    'members: while let Some(name) = reader.next_key()? {
        let name = Chars::copy_of(alloc, name)?;
        let value = read_value(alloc, reader, depth, has_stand_ins)?;
        found.insert(name, value)?;
    }
    Ok(found)
}

// ---- whether a value has no stand-in

// Whether all numbers of a value that was read are whole. It is walked only where a stand-in was
// made: it isn't known then whether one is left in it, since a later equal name may have replaced
// it.
fn is_whole(value: &Value, has_stand_ins: bool) -> bool
    requires { has_stand_ins ≡ false → IsTrue (is_json (tree_of value.now)) }
    ensures { result ≡ is_json (tree_of value.now) }
{
    if !has_stand_ins {
        return true;
    }
    is_all_whole(value)
}

#[cycle(whole_parts)]
fn is_all_whole(value: &Value) -> bool
    ensures { result ≡ is_json (tree_of value.now) }
{
    match value {
        Value::Text(_) | Value::Int(_) | Value::Bool(_) | Value::Null => true,
        Value::Time(_) | Value::Pattern(_) => false,
        Value::List(items) => items_are_whole(items),
        Value::Object(fields) => fields_are_whole(fields),
    }
}

#[cycle(whole_parts)]
fn items_are_whole(items: &Items) -> bool
    ensures { result ≡ items_are_json (items_of items.now) }
{
    for item in items.as_slice() {
        if !is_all_whole(item) {
            return false;
        }
    }
    true
}

#[cycle(whole_parts)]
fn fields_are_whole(fields: &Fields) -> bool
    ensures { result ≡ members_are_json (members_of fields.now) }
{
    for (_name, value) in fields.as_map().iter() {
        if !is_all_whole(value) {
            return false;
        }
    }
    true
}
