ghost use Rattle.std.specs.Prelude.{◌≡◌, length, IfOk, IsTrue};
ghost use Rattle.vrl_value.specs.Regexes.{regexes_below};
ghost use Rattle.vrl_value.specs.View.{tree_of};
ghost use Rattle.vrl_json.specs.Line.{line_text};
ghost use Rattle.fn_parse.specs.Json.{encode_json_row};
ghost use Rattle.fn_parse.specs.JsonLaw.{encode_json-law};

use std::alloc::Global;
use vrl_builtin::{Applied, Arguments, Givens, OneTag, Parameter, Setting, Tags, required};
use vrl_json::to_line;
use vrl_value::{Chars, Memory, Tag, Value};

/// `encode_json(value: any)`: string. The compact JSON text of the value (RFC 8259), with the
/// members of each object in the order of their names' bytes; a timestamp is its text in quotes,
/// and a regex its source in quotes. It never fails. `encode_json({"a":[1,null]})` is the text
/// `{"a":[1,null]}`.
#[derive(Clone, Copy)]
pub struct EncodeJson;

static PARAMETERS: [Parameter; 1] = [required!("value", Tags::ALL)];

// The JSON text of a value, in which each regex is one of these sources, at its number. `Memory`:
// want of memory.
pub(crate) fn json_text(alloc: Global, value: &Value, sources: &[Chars]) -> Result<Chars, Memory>
    requires { IsTrue (regexes_below (length sources.now) (tree_of value.now)) }
    ensures { IfOk result (λ text. text ≡ line_text sources.now (tree_of value.now)) }
{
    match Chars::from_utf8(to_line(alloc, value, sources)?.into_vec()) {
        Ok(text) => Ok(text),
        Err(_bytes) => unreachable!(),
    }
}

impl OneTag for EncodeJson {
    ghost one_tag_row = { λ _. encode_json_row };

    fn name(&self) -> &'static str {
        "encode_json"
    }

    fn parameters(&self) -> &'static [Parameter] {
        &PARAMETERS
    }

    fn tag(&self) -> Tag {
        Tag::Text
    }

    fn may_fail(&self, _given: &Givens) -> bool {
        false
    }

    fn apply(
        &self,
        alloc: Global,
        arguments: &Arguments<'_>,
        setting: &Setting<'_, '_>,
    ) -> Applied {
        let sources = setting.searches.sources();
        Applied::text(json_text(alloc, arguments.value(0), sources))
    }

    ghost one_tag = { λ _. encode_json-law };
}
