ghost use Rattle.std.specs.Prelude.{true};
ghost use Rattle.fn_search.specs.Laws.{match-law};
ghost use Rattle.fn_search.specs.Match.{match_row};

use crate::sources::is_match;
use std::alloc::Global;
use vrl_builtin::{Applied, Arguments, Givens, OneTag, Parameter, Setting, Tags, required};
use vrl_value::Tag;

/// `match(value: string, pattern: regex)`: boolean. Whether the regex matches somewhere in the
/// text. It never fails. `match("ab", r'b$')` is true.
#[derive(Clone, Copy)]
pub struct Match;

static PARAMETERS: [Parameter; 2] = [
    required!("value", Tags::STRING),
    required!("pattern", Tags::REGEX),
];

impl OneTag for Match {
    ghost one_tag_row = { λ _. match_row };

    ghost uses_memory = { λ _ arguments. true };

    fn name(&self) -> &'static str {
        "match"
    }

    fn parameters(&self) -> &'static [Parameter] {
        &PARAMETERS
    }

    fn tag(&self) -> Tag {
        Tag::Bool
    }

    fn may_fail(&self, _given: &Givens) -> bool {
        false
    }

    fn apply(
        &self,
        alloc: Global,
        arguments: &Arguments<'_>,
        setting: &Setting<'_, '_>,
    ) -> Applied {
        let text = arguments.text(0, "");
        Applied::boolean(is_match(alloc, setting.searches, text, arguments.value(1)))
    }

    ghost one_tag = { λ _. match-law };
}
