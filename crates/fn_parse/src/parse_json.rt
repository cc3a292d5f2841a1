ghost use Rattle.std.specs.Prelude.{◌≡◌, codes, true, Err};
ghost use Rattle.vrl_builtin.specs.Rows.{named};
ghost use Rattle.vrl_builtin.specs.View.{Applies};
ghost use Rattle.vrl_builtin.specs.declared.failing.Applied.TheVariants as applied;
ghost use Rattle.vrl_json.specs.Line.{reading_of, Reading};
ghost use Rattle.fn_parse.specs.Json.{answer_to, parse_json_row};
ghost use Rattle.fn_parse.specs.Found.{IsRead};
ghost use Rattle.fn_parse.specs.JsonLaw.{parse_json-law};

use std::alloc::Global;
use vrl_builtin::{Applied, Arguments, Builtin, Givens, Parameter, Setting, Tags, fail, required};
use vrl_json::{JsonFault, Scratch, from_line};
use vrl_kind::Kind;
use vrl_pattern::Patterns;
use vrl_value::{Memory, Value};

/// `parse_json(value: string)`: json. The value of the one JSON text (RFC 8259) that the string is;
/// arrays and objects nest at most 127 deep, and of equal names in an object the last counts. It
/// always may fail: `not JSON`; `not whole numbers`, where a number of the value isn't a whole
/// number of 64 bits in the plain form of digits. `parse_json("[1]")` is `[1]`.
#[derive(Clone, Copy)]
pub struct ParseJson;

static PARAMETERS: [Parameter; 1] = [required!("value", Tags::STRING)];

// What is answered to a text that was read so. `Memory`: reading it ran out of memory.
fn answer(read: Result<Value, JsonFault>) -> Applied
    ensures answer { (told : Reading) → IsRead told read
        → Applies true (named (codes "parse_json") (answer_to told)) result }
    ensures memory { result ≡ applied.Memory → read ≡ Err JsonFault.Memory }
{
    match read {
        Ok(value) => Applied::Value(value),
        Err(JsonFault::NotJson) => fail("parse_json", "not JSON"),
        Err(JsonFault::NotWhole) => fail("parse_json", "not whole numbers"),
        Err(JsonFault::Memory) => Applied::Memory,
    }
}

// What is answered to a text.
fn parsed(alloc: Global, text: &str) -> Applied
    ensures { Applies true (named (codes "parse_json") (answer_to (reading_of text.now))) result }
{
    answer(from_line(alloc, text.as_bytes(), &mut Scratch::new(alloc)))
}

impl Builtin for ParseJson {
    ghost row = { λ _. parse_json_row };

    ghost uses_memory = { λ _ arguments. true };

    fn name(&self) -> &'static str {
        "parse_json"
    }

    fn parameters(&self) -> &'static [Parameter] {
        &PARAMETERS
    }

    fn accepts(&self, _place: usize, _literal: &Value) -> bool {
        true
    }

    fn result_kind(
        &self,
        alloc: Global,
        _given: &Givens,
        _patterns: &Patterns,
    ) -> Result<Kind, Memory> {
        Ok(Kind::json(alloc))
    }

    fn may_fail(&self, _given: &Givens) -> bool {
        true
    }

    fn apply(
        &self,
        alloc: Global,
        arguments: &Arguments<'_>,
        _setting: &Setting<'_, '_>,
    ) -> Applied {
        parsed(alloc, arguments.text(0, ""))
    }

    ghost law = { λ _. parse_json-law };
}
