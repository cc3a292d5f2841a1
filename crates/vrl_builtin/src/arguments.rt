ghost use Rattle.std.specs.Prelude.{◌≡◌, map, option_map, IsSome};
ghost use Rattle.vrl_value.specs.View.{items_view, members_of, tree_of};
ghost use Rattle.vrl_builtin.specs.Rows.{argument_at, boolean_at, integer_at, items_at, optional_integer, optional_members, optional_moment, optional_regex, text_at, value_at};
ghost use Rattle.vrl_builtin.specs.View.{argument_tree, arguments_of};

use vrl_value::{Fields, Moment, Value};

/// The arguments of a call, borrowed, by the places of their parameters; `None` where no argument
/// is given. A contract sees `arguments_of` them.
#[derive(Drop)]
pub struct Arguments<'a> {
    arguments: Vec<Option<&'a Value>>,
}

impl<'a> Arguments<'a> {
    /// These, which it keeps.
    pub fn new(arguments: Vec<Option<&'a Value>>) -> Arguments<'a>
        ensures { arguments_of result ≡ map argument_tree arguments.entry.items }
    {
        Arguments { arguments }
    }

    /// The arguments.
    pub fn as_slice(&self) -> &[Option<&'a Value>]
        ensures { map argument_tree result.now ≡ arguments_of self.now }
    {
        &self.arguments
    }

    /// The argument at a place, borrowed. `None`: none is given.
    pub fn get(&self, place: usize) -> Option<&Value>
        ensures { option_map (λ value. tree_of value.now) result ≡ argument_at place (arguments_of self.now) }
    {
        match self.arguments.get(place) {
            Some(argument) => *argument,
            None => None,
        }
    }

    /// The whole number at a place, and the default where none is given.
    pub fn integer(&self, place: usize, default: i64) -> i64
        ensures { result ≡ integer_at place default (arguments_of self.now) }
    {
        match self.get(place) {
            Some(Value::Int(number)) => *number,
            _ => default,
        }
    }

    /// The whole number at a place. `None`: none is given.
    pub fn optional_integer(&self, place: usize) -> Option<i64>
        ensures { result ≡ optional_integer place (arguments_of self.now) }
    {
        match self.get(place) {
            Some(Value::Int(number)) => Some(*number),
            _ => None,
        }
    }

    /// The text at a place, and the default where none is given.
    pub fn text<'b>(&'b self, place: usize, default: &'b str) -> &'b str
        ensures { result.now ≡ text_at place default.now (arguments_of self.now) }
    {
        match self.get(place) {
            Some(Value::Text(text)) => text.as_str(),
            _ => default,
        }
    }

    /// The argument at a place where one is given, borrowed.
    pub fn value(&self, place: usize) -> &Value
        requires { IsSome (argument_at place (arguments_of self.now)) }
        ensures { tree_of result.now ≡ value_at place (arguments_of self.now) }
    {
        match self.get(place) {
            Some(value) => value,
            None => unreachable!(),
        }
    }

    /// The boolean at a place, and the default where none is given.
    pub fn boolean(&self, place: usize, default: bool) -> bool
        ensures { result ≡ boolean_at place default (arguments_of self.now) }
    {
        match self.get(place) {
            Some(Value::Bool(truth)) => *truth,
            _ => default,
        }
    }

    /// The moment at a place. `None`: none is given.
    pub fn optional_moment(&self, place: usize) -> Option<Moment>
        ensures { result ≡ optional_moment place (arguments_of self.now) }
    {
        match self.get(place) {
            Some(Value::Time(moment)) => Some(*moment),
            _ => None,
        }
    }

    /// The number of the regex at a place. `None`: none is given.
    pub fn optional_regex(&self, place: usize) -> Option<u32>
        ensures { result ≡ optional_regex place (arguments_of self.now) }
    {
        match self.get(place) {
            Some(Value::Pattern(number)) => Some(*number),
            _ => None,
        }
    }

    /// The parts of the array at a place, borrowed; no part where none is given.
    pub fn items(&self, place: usize) -> &[Value]
        ensures { items_view result.now ≡ items_at place (arguments_of self.now) }
    {
        match self.get(place) {
            Some(Value::List(items)) => items.as_slice(),
            _ => &[],
        }
    }

    /// The members of the object at a place, borrowed. `None`: none is given.
    pub fn optional_fields(&self, place: usize) -> Option<&Fields>
        ensures { option_map (λ fields. members_of fields.now) result ≡ optional_members place (arguments_of self.now) }
    {
        match self.get(place) {
            Some(Value::Object(fields)) => Some(fields),
            _ => None,
        }
    }
}
