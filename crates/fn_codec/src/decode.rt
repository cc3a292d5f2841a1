ghost use Rattle.std.specs.Prelude.{◌≡◌, ◌≢◌, ℕ, List, Option, option_map, true, IfOk, IsErr};
ghost use Rattle.vrl_builtin.specs.Rows.{named};
ghost use Rattle.vrl_builtin.specs.View.{Applies};
ghost use Rattle.vrl_builtin.specs.declared.failing.Applied.TheVariants as applied;
ghost use Rattle.fn_codec.specs.Decode.{as_text, decode_row};
ghost use Rattle.fn_codec.specs.Laws.{decode-law};

use std::alloc::Global;
use vrl_builtin::{Applied, Arguments, Givens, OneTag, Parameter, Setting, Tags, fail, required};
use vrl_value::{Chars, Memory, Tag, Value};

/// A function that is told by its name, the words of its error at a text that is no such code, and
/// the bytes that it reads in others.
pub trait Decode {
    /// The name, the words, and the bytes of a text; none where it is no such code.
    ghost decode: { List ℕ × List ℕ × (List ℕ → Option (List ℕ)) };

    /// The function's name.
    fn name(&self) -> &'static str
        ensures { result.now ≡ decode.0 };

    /// The words of its error at a text that is no such code.
    fn words(&self) -> &'static str
        ensures { result.now ≡ decode.1 };

    /// The bytes of a text. `None`: it is no such code. `Memory`: want of memory.
    fn bytes(&self, alloc: Global, text: &str) -> Result<Option<Vec<u8>>, Memory>
        ensures { IfOk result (λ found. option_map (λ bytes. bytes.items) found ≡ decode.2 text.now) };
}

/// The function that reads the bytes of a text in code, and gives them as a text. It always may
/// fail: with words of its own where the text is no such code, and else with `not UTF-8` where the
/// bytes are none (RFC 3629).
#[derive(Clone, Copy)]
pub struct Decoded<F>(pub F);

static PARAMETERS: [Parameter; 1] = [required!("value", Tags::STRING)];

// The text of these bytes, or the error of the function with this name.
fn text_of(name: &'static str, bytes: Vec<u8>) -> Applied
    ensures answer { (words : List ℕ) → Applies true (named name.now (as_text words (Some bytes.items))) result }
    ensures told { result ≢ applied.Memory }
{
    match String::from_utf8(bytes) {
        Ok(text) => Applied::Value(Value::Text(Chars::new(text))),
        Err(_fault) => fail(name, "not UTF-8"),
    }
}

// What is answered of what was found: the text of the bytes, or the error in these words where the
// text is no such code. `Memory`: nothing was found for want of it.
fn answer(
    name: &'static str,
    words: &'static str,
    found: Result<Option<Vec<u8>>, Memory>,
) -> Applied
    ensures answer { (told : Option (List ℕ))
        → IfOk found (λ found. option_map (λ bytes. bytes.items) found ≡ told)
        → Applies true (named name.now (as_text words.now told)) result }
    ensures memory { result ≡ applied.Memory → IsErr found }
{
    match found {
        Ok(Some(bytes)) => text_of(name, bytes),
        Ok(None) => fail(name, words),
        Err(_memory) => Applied::Memory,
    }
}

impl<F: Decode> OneTag for Decoded<F> {
    ghost one_tag_row = { λ _. decode_row F.decode.0 F.decode.1 F.decode.2 };

    ghost uses_memory = { λ _ arguments. true };

    fn name(&self) -> &'static str {
        self.0.name()
    }

    fn parameters(&self) -> &'static [Parameter] {
        &PARAMETERS
    }

    fn tag(&self) -> Tag {
        Tag::Text
    }

    fn may_fail(&self, _given: &Givens) -> bool {
        true
    }

    fn apply(
        &self,
        alloc: Global,
        arguments: &Arguments<'_>,
        _setting: &Setting<'_, '_>,
    ) -> Applied {
        let found = self.0.bytes(alloc, arguments.text(0, ""));
        answer(self.0.name(), self.0.words(), found)
    }

    ghost one_tag = { λ _. decode-law F.decode.0 F.decode.1 F.decode.2 };
}
