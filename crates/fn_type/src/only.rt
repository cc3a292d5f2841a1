ghost use Rattle.std.specs.Prelude.{◌≡◌, Bool, codes, false};
ghost use Rattle.vrl_value.specs.Tag.{tag_of};
ghost use Rattle.vrl_value.specs.View.{tree_of};
ghost use Rattle.vrl_value.specs.declared.value.Tag.TheVariants as tag;
ghost use Rattle.vrl_kind.specs.Tags.{same_tag};
ghost use Rattle.vrl_builtin.specs.Rows.{failed, named};
ghost use Rattle.vrl_builtin.specs.View.{Applies};
ghost use Rattle.vrl_builtin.specs.Words.{value_is};
ghost use Rattle.fn_type.specs.Only.{only_answer, only_row};
ghost use Rattle.fn_type.specs.Laws.{only-law};

use crate::of_tag::OfTag;
use std::alloc::Global;
use vrl_builtin::{
    Applied, Arguments, Builtin, Givens, Parameter, Setting, Tags, fail_at_value, required,
};
use vrl_kind::Kind;
use vrl_pattern::Patterns;
use vrl_value::{Memory, Tag, Value};

/// The function that gives a value of the tag back. It may fail where the kind allows another tag:
/// `value is TAG`.
#[derive(Clone, Copy)]
pub struct Only<F>(pub F);

static PARAMETERS: [Parameter; 1] = [required!("value", Tags::ALL)];

// Whether the value has the tag.
fn has_tag(value: &Value, tag: Tag) -> bool
    ensures { result ≡ same_tag (tag_of (tree_of value.now)) tag }
{
    value.tag() == tag
}

// The error of the function with this name at a value of another tag.
fn other_tag(name: &'static str, value: &Value) -> Applied
    ensures { Applies false (failed name.now (value_is (tag_of (tree_of value.now)))) result }
{
    fail_at_value(name, value.tag())
}

// The value where it has the tag, else the error of the function with this name.
fn where_tagged(alloc: Global, name: &'static str, tag: Tag, value: &Value) -> Applied
    ensures { Applies false (named name.now (only_answer tag (tree_of value.now))) result }
{
    if has_tag(value, tag) {
        Applied::copy_of(alloc, value)
    } else {
        other_tag(name, value)
    }
}

impl<F: OfTag> Builtin for Only<F> {
    ghost row = { λ _. only_row F.of_tag.0 F.of_tag.1 };

    fn name(&self) -> &'static str {
        self.0.name()
    }

    fn parameters(&self) -> &'static [Parameter] {
        &PARAMETERS
    }

    fn accepts(&self, _place: usize, _literal: &Value) -> bool {
        true
    }

    fn result_kind(
        &self,
        alloc: Global,
        given: &Givens,
        _patterns: &Patterns,
    ) -> Result<Kind, Memory> {
        given.cut_down(alloc, 0, &Tags::only(self.0.tag()))
    }

    fn may_fail(&self, given: &Givens) -> bool {
        given.allows_other(0, self.0.tag())
    }

    fn apply(
        &self,
        alloc: Global,
        arguments: &Arguments<'_>,
        _setting: &Setting<'_, '_>,
    ) -> Applied {
        where_tagged(alloc, self.0.name(), self.0.tag(), arguments.value(0))
    }

    ghost law = { λ _. only-law F.of_tag.0 F.of_tag.1 };
}

/// `array(value: any)`: the kind of the value without what is not an array. The value, where it is
/// an array. It may fail where the kind allows another tag: `value is TAG`. `array([1])` is `[1]`.
#[derive(Clone, Copy)]
pub struct Array;

impl OfTag for Array {
    ghost of_tag = { (codes "array", tag.List) };

    fn name(&self) -> &'static str {
        "array"
    }

    fn tag(&self) -> Tag {
        Tag::List
    }
}

/// `bool(value: any)`: the kind of the value without what is not a boolean. The value, where it is
/// a boolean. It may fail where the kind allows another tag: `value is TAG`. `bool(true)` is
/// `true`.
#[derive(Clone, Copy)]
pub struct Bool;

impl OfTag for Bool {
    ghost of_tag = { (codes "bool", tag.Bool) };

    fn name(&self) -> &'static str {
        "bool"
    }

    fn tag(&self) -> Tag {
        Tag::Bool
    }
}

/// `int(value: any)`: the kind of the value without what is not a whole number. The value, where it
/// is a whole number. It may fail where the kind allows another tag: `value is TAG`. `int(3)` is
/// `3`.
#[derive(Clone, Copy)]
pub struct Int;

impl OfTag for Int {
    ghost of_tag = { (codes "int", tag.Int) };

    fn name(&self) -> &'static str {
        "int"
    }

    fn tag(&self) -> Tag {
        Tag::Int
    }
}

/// `object(value: any)`: the kind of the value without what is not an object. The value, where it
/// is an object. It may fail where the kind allows another tag: `value is TAG`. `object({"a":1})`
/// is `{"a":1}`.
#[derive(Clone, Copy)]
pub struct Object;

impl OfTag for Object {
    ghost of_tag = { (codes "object", tag.Object) };

    fn name(&self) -> &'static str {
        "object"
    }

    fn tag(&self) -> Tag {
        Tag::Object
    }
}

/// `string(value: any)`: the kind of the value without what is not a string. The value, where it is
/// a string. It may fail where the kind allows another tag: `value is TAG`. `string("a")` is `"a"`.
#[derive(Clone, Copy)]
pub struct StringValue;

impl OfTag for StringValue {
    ghost of_tag = { (codes "string", tag.Text) };

    fn name(&self) -> &'static str {
        "string"
    }

    fn tag(&self) -> Tag {
        Tag::Text
    }
}

/// `timestamp(value: any)`: the kind of the value without what is not a timestamp. The value, where
/// it is a timestamp. It may fail where the kind allows another tag: `value is TAG`.
/// `timestamp(t'2024-01-02T03:04:05Z')` is `that timestamp`.
#[derive(Clone, Copy)]
pub struct Timestamp;

impl OfTag for Timestamp {
    ghost of_tag = { (codes "timestamp", tag.Time) };

    fn name(&self) -> &'static str {
        "timestamp"
    }

    fn tag(&self) -> Tag {
        Tag::Time
    }
}
