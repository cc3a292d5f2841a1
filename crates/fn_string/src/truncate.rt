ghost use Rattle.std.specs.Prelude.{◌≡◌, ◌++◌, nat_le, IfOk};
ghost use Rattle.fn_string.specs.StrLen.{count_of_characters};
ghost use Rattle.fn_string.specs.Truncate.{limit_of, truncate_row, truncated};
ghost use Rattle.fn_string.specs.Laws.{truncate-law};

use crate::characters::{first_characters, from_character};
use std::alloc::Global;
use vrl_builtin::{
    Applied, Arguments, Givens, OneTag, Parameter, Setting, Tags, optional, required,
};
use vrl_value::{Chars, Memory, Tag};

/// `truncate(value: string, limit: integer, suffix: string = "")`: string. The text where it has at
/// most `limit` characters of Unicode; else its first ones, with the suffix behind them. A negative
/// limit counts as 0. It never fails. `truncate("abcd", 2, "..")` is `"ab.."`.
#[derive(Clone, Copy)]
pub struct Truncate;

static PARAMETERS: [Parameter; 3] = [
    required!("value", Tags::STRING),
    required!("limit", Tags::INTEGER),
    optional!("suffix", Tags::STRING),
];

// A negative limit counts as 0.
fn limit_of(limit: i64) -> usize
    ensures { result ≡ limit_of limit }
{
    if limit < 0 { 0 } else { limit as usize }
}

// Whether the text has at most so many characters.
fn is_within(text: &str, limit: usize) -> bool
    ensures { result ≡ nat_le (count_of_characters text.now) limit }
{
    from_character(text, limit).is_empty()
}

// The first text, and the second behind it. `Memory`: want of memory.
fn followed(alloc: Global, first: &str, second: &str) -> Result<Chars, Memory>
    ensures { IfOk result (λ both. both ≡ first.now ++ second.now) }
{
    let mut both = String::from_str(alloc, first)?;
    both.push_str(second)?;
    Ok(Chars::new(both))
}

// The text, cut where it has more characters than the limit. `Memory`: want of memory.
fn truncated(alloc: Global, text: &str, limit: usize, suffix: &str) -> Result<Chars, Memory>
    ensures { IfOk result (λ cut. cut ≡ truncated text.now limit suffix.now) }
{
    if is_within(text, limit) {
        Chars::copy_of(alloc, text)
    } else {
        followed(alloc, first_characters(text, limit), suffix)
    }
}

impl OneTag for Truncate {
    ghost one_tag_row = { λ _. truncate_row };

    fn name(&self) -> &'static str {
        "truncate"
    }

    fn parameters(&self) -> &'static [Parameter] {
        &PARAMETERS
    }

    fn tag(&self) -> Tag {
        Tag::Text
    }

    fn may_fail(&self, _given: &Givens) -> bool {
        false
    }

    fn apply(
        &self,
        alloc: Global,
        arguments: &Arguments<'_>,
        _setting: &Setting<'_, '_>,
    ) -> Applied {
        let limit = limit_of(arguments.integer(1, 0));
        let (text, suffix) = (arguments.text(0, ""), arguments.text(2, ""));
        Applied::text(truncated(alloc, text, limit, suffix))
    }

    ghost one_tag = { λ _. truncate-law };
}
