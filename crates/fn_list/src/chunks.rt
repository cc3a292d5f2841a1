ghost use Rattle.std.specs.Prelude.{◌≡◌, ◌≤◌, ◌++◌, [], ◌∷◌, string_bytes, codes, false, map, IfOk, OnOk};
ghost use Rattle.vrl_value.specs.Tree.{array, string};
ghost use Rattle.vrl_value.specs.View.{items_of_trees, tree_of};
ghost use Rattle.vrl_builtin.specs.Rows.{named};
ghost use Rattle.vrl_builtin.specs.View.{Applies};
ghost use Rattle.fn_list.specs.Chunks.{chunked, chunks_row, is_small, pieces_of};
ghost use Rattle.fn_list.specs.ChunksLaw.{chunks-law};
ghost use Rattle.fn_list.specs.Pieces.{all_pieces, seen, with_character};

use std::alloc::Global;
use vrl_builtin::{
    Applied, Arguments, Builtin, Givens, Parameter, Setting, Tags, array_of_tag, fail, required,
};
use vrl_kind::Kind;
use vrl_pattern::Patterns;
use vrl_value::{Chars, Items, Memory, Tag, Value};

/// `chunks(value: string, chunk_size: integer)`: array of string. The text in pieces of so many
/// characters, the last one shorter; none for an empty text. It may fail unless the size is a
/// literal of at least 1: `chunk_size below 1`. `chunks("abcde", 2)` is `["ab","cd","e"]`.
#[derive(Clone, Copy)]
pub struct Chunks;

static PARAMETERS: [Parameter; 2] = [
    required!("value", Tags::STRING),
    required!("chunk_size", Tags::INTEGER),
];

// A text that is cut: the pieces that are full, the one that isn't, and how many characters it has
// room for.
#[derive(Drop)]
struct Cutting {
    closed: Vec<Value>,
    current: String,
    room: usize,
}

// Puts a text behind the pieces.
fn push_piece(pieces: &mut Vec<Value>, text: String) -> Result<(), Memory>
    ensures { OnOk result
        (map tree_of pieces.new.items ≡ map tree_of pieces.old.items ++ (string (string_bytes text) ∷ [])) }
{
    pieces.push(Value::Text(Chars::new(text)))?;
    Ok(())
}

// The cut text with one character more.
fn add_character(
    alloc: Global,
    cutting: Cutting,
    size: usize,
    character: char,
) -> Result<Cutting, Memory>
    ensures { IfOk result (λ cut. seen cut ≡ with_character size (seen cutting) character) }
{
    let Cutting {
        mut closed,
        mut current,
        room,
    } = cutting;
    current.push(character)?;
    if room > 1 {
        return Ok(Cutting {
            closed,
            current,
            room: room - 1,
        });
    }
    push_piece(&mut closed, current)?;
    Ok(Cutting {
        closed,
        current: String::new(alloc),
        room: size,
    })
}

// The pieces, with the one that isn't full unless it is empty.
fn all_pieces(cutting: Cutting) -> Result<Vec<Value>, Memory>
    ensures { IfOk result (λ pieces. map tree_of pieces.items ≡ all_pieces (seen cutting)) }
{
    let Cutting {
        mut closed,
        current,
        room: _,
    } = cutting;
    if !current.is_empty() {
        push_piece(&mut closed, current)?;
    }
    Ok(closed)
}

// The text in pieces of so many characters.
fn pieces(alloc: Global, text: &str, size: usize) -> Result<Value, Memory>
    requires { 1 ≤ size }
    ensures { IfOk result (λ value. tree_of value ≡ array (items_of_trees (map string (pieces_of size text.now)))) }
{
    let mut cutting = Cutting {
        closed: Vec::new(alloc),
        current: String::new(alloc),
        room: size,
    };
    for character in text.chars() {
        cutting = add_character(alloc, cutting, size, character)?;
    }
    Ok(Value::List(Items::new(all_pieces(cutting)?)))
}

// Whether the size is below 1.
fn is_small(size: i64) -> bool
    ensures { result ≡ is_small size }
{
    size < 1
}

// What is answered to a text and a size.
fn chunked(alloc: Global, text: &str, size: i64) -> Applied
    ensures { Applies false (named (codes "chunks") (chunked text.now size)) result }
{
    if is_small(size) {
        return fail("chunks", "chunk_size below 1");
    }
    Applied::value(pieces(alloc, text, size.unsigned_abs() as usize))
}

impl Builtin for Chunks {
    ghost row = { λ _. chunks_row };

    fn name(&self) -> &'static str {
        "chunks"
    }

    fn parameters(&self) -> &'static [Parameter] {
        &PARAMETERS
    }

    fn accepts(&self, _place: usize, _literal: &Value) -> bool {
        true
    }

    fn result_kind(
        &self,
        alloc: Global,
        _given: &Givens,
        _patterns: &Patterns,
    ) -> Result<Kind, Memory> {
        array_of_tag(alloc, Tag::Text)
    }

    fn may_fail(&self, given: &Givens) -> bool {
        match given.literal(1) {
            Some(Value::Int(size)) => is_small(*size),
            _ => true,
        }
    }

    fn apply(
        &self,
        alloc: Global,
        arguments: &Arguments<'_>,
        _setting: &Setting<'_, '_>,
    ) -> Applied {
        chunked(alloc, arguments.text(0, ""), arguments.integer(1, 1))
    }

    ghost law = { λ _. chunks-law };
}
