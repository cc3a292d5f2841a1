ghost use Rattle.std.specs.Prelude.{codes};
ghost use Rattle.vrl_value.specs.declared.value.Tag.TheVariants as tag;
ghost use Rattle.fn_type.specs.Is.{is_row};
ghost use Rattle.fn_type.specs.Laws.{is-law};

use crate::of_tag::OfTag;
use std::alloc::Global;
use vrl_builtin::{Applied, Arguments, Givens, OneTag, Parameter, Setting, Tags, required};
use vrl_value::{Tag, Value};

/// The function that tells whether a value has the tag. It never fails.
#[derive(Clone, Copy)]
pub struct Is<F>(pub F);

static PARAMETERS: [Parameter; 1] = [required!("value", Tags::ALL)];

impl<F: OfTag> OneTag for Is<F> {
    ghost one_tag_row = { λ _. is_row F.of_tag.0 F.of_tag.1 };

    fn name(&self) -> &'static str {
        self.0.name()
    }

    fn parameters(&self) -> &'static [Parameter] {
        &PARAMETERS
    }

    fn tag(&self) -> Tag {
        Tag::Bool
    }

    fn may_fail(&self, _given: &Givens) -> bool {
        false
    }

    fn apply(
        &self,
        _alloc: Global,
        arguments: &Arguments<'_>,
        _setting: &Setting<'_, '_>,
    ) -> Applied {
        Applied::Value(Value::Bool(arguments.value(0).tag() == self.0.tag()))
    }

    ghost one_tag = { λ _. is-law F.of_tag.0 F.of_tag.1 };
}

/// `is_array(value: any)`: boolean. Whether the value is an array. It never fails. `is_array([])`
/// is true.
#[derive(Clone, Copy)]
pub struct IsArray;

impl OfTag for IsArray {
    ghost of_tag = { (codes "is_array", tag.List) };

    fn name(&self) -> &'static str {
        "is_array"
    }

    fn tag(&self) -> Tag {
        Tag::List
    }
}

/// `is_boolean(value: any)`: boolean. Whether the value is a boolean. It never fails.
/// `is_boolean(false)` is true.
#[derive(Clone, Copy)]
pub struct IsBoolean;

impl OfTag for IsBoolean {
    ghost of_tag = { (codes "is_boolean", tag.Bool) };

    fn name(&self) -> &'static str {
        "is_boolean"
    }

    fn tag(&self) -> Tag {
        Tag::Bool
    }
}

/// `is_integer(value: any)`: boolean. Whether the value is a whole number. It never fails.
/// `is_integer(1)` is true.
#[derive(Clone, Copy)]
pub struct IsInteger;

impl OfTag for IsInteger {
    ghost of_tag = { (codes "is_integer", tag.Int) };

    fn name(&self) -> &'static str {
        "is_integer"
    }

    fn tag(&self) -> Tag {
        Tag::Int
    }
}

/// `is_null(value: any)`: boolean. Whether the value is null. It never fails. `is_null(0)` is
/// false.
#[derive(Clone, Copy)]
pub struct IsNull;

impl OfTag for IsNull {
    ghost of_tag = { (codes "is_null", tag.Null) };

    fn name(&self) -> &'static str {
        "is_null"
    }

    fn tag(&self) -> Tag {
        Tag::Null
    }
}

/// `is_object(value: any)`: boolean. Whether the value is an object. It never fails.
/// `is_object({})` is true.
#[derive(Clone, Copy)]
pub struct IsObject;

impl OfTag for IsObject {
    ghost of_tag = { (codes "is_object", tag.Object) };

    fn name(&self) -> &'static str {
        "is_object"
    }

    fn tag(&self) -> Tag {
        Tag::Object
    }
}

/// `is_regex(value: any)`: boolean. Whether the value is a regex. It never fails. `is_regex("a")`
/// is false.
#[derive(Clone, Copy)]
pub struct IsRegex;

impl OfTag for IsRegex {
    ghost of_tag = { (codes "is_regex", tag.Pattern) };

    fn name(&self) -> &'static str {
        "is_regex"
    }

    fn tag(&self) -> Tag {
        Tag::Pattern
    }
}

/// `is_string(value: any)`: boolean. Whether the value is a string. It never fails.
/// `is_string("a")` is true.
#[derive(Clone, Copy)]
pub struct IsString;

impl OfTag for IsString {
    ghost of_tag = { (codes "is_string", tag.Text) };

    fn name(&self) -> &'static str {
        "is_string"
    }

    fn tag(&self) -> Tag {
        Tag::Text
    }
}

/// `is_timestamp(value: any)`: boolean. Whether the value is a timestamp. It never fails.
/// `is_timestamp("2024")` is false.
#[derive(Clone, Copy)]
pub struct IsTimestamp;

impl OfTag for IsTimestamp {
    ghost of_tag = { (codes "is_timestamp", tag.Time) };

    fn name(&self) -> &'static str {
        "is_timestamp"
    }

    fn tag(&self) -> Tag {
        Tag::Time
    }
}
