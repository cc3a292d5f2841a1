ghost use Rattle.std.specs.Borrow.{sem};
ghost use Rattle.vrl_value.specs.Lending.{LendsField, LendsItem};
ghost use Rattle.vrl_value.specs.Look.{item_at};
ghost use Rattle.vrl_value.specs.Parts.{count_of, members_count, put_item, without, without_item};
ghost use Rattle.std.specs.Prelude.{◌≡◌, ◌≤◌, ◌↔◌, false, min, IfOk, IsOk, IsSome, IsTrue, OnErr, OnOk, option_map};
ghost use Rattle.vrl_value.specs.Depth.{depth_of, items_depth, members_depth};
ghost use Rattle.vrl_value.specs.Order.{order_of};
ghost use Rattle.vrl_value.specs.Tag.{tag_of, word_of};
ghost use Rattle.vrl_value.specs.Tree.{find, is_json, members_are_json, put, put_all, takes_memory, IsOrdered, ItemsAreOrdered, MembersAreOrdered};
ghost use Rattle.vrl_value.specs.View.{items_of, items_view, members_of, members_view, tree_of};

use crate::lists::Chars;
use crate::memory::Memory;
use crate::moment::Moment;
use crate::padding;
use std::alloc::Global;
use std::cmp::Ordering;
use std::collections::BTreeMap;

/// A value of an event, a variable or an expression: one of VRL's value types but the float, which
/// the profile of whole numbers leaves out. A contract sees `tree_of` it.
#[cycle(value)]
#[derive(Drop)]
pub enum Value {
    /// A string, in UTF-8 (RFC 3629).
    Text(Chars),
    /// A whole number of 64 bits with a sign.
    Int(i64),
    /// A boolean.
    Bool(bool),
    /// Null.
    Null,
    /// A timestamp, to the nanosecond.
    Time(Moment),
    /// A regex: the number of its literal among the regex literals of the script, from 0.
    Pattern(u32),
    /// An array: values in order.
    List(Items),
    /// An object: values at names, each name once.
    Object(Fields),
}

impl Value {
    /// The sort of the value, which is never `Absent`.
    pub fn tag(&self) -> Tag
        ensures { result ≡ tag_of (tree_of self.now) }
    {
        match self {
            Value::Text(_) => Tag::Text,
            Value::Int(_) => Tag::Int,
            Value::Bool(_) => Tag::Bool,
            Value::Null => Tag::Null,
            Value::Time(_) => Tag::Time,
            Value::Pattern(_) => Tag::Pattern,
            Value::List(_) => Tag::List,
            Value::Object(_) => Tag::Object,
        }
    }

    /// How deep the value nests: 0 for one without parts; for an array or an object 1 and the
    /// greatest depth of its parts, or 1 where it is empty. 2^64 - 1 where it is deeper than that.
    /// It looks at each part once.
    #[cycle(depth)]
    pub fn depth(&self) -> u64
        ensures depth { result ≡ min (depth_of (tree_of self.now)) u64.MAX }
        // Objects are maps, at each level: what is in memory is in order.
        ensures ordered { IsOrdered (tree_of self.now) }
    {
        match self {
            Value::List(items) => items.deepest().saturating_add(1),
            Value::Object(fields) => fields.deepest().saturating_add(1),
            _ => 0,
        }
    }

    /// Whether two values are equal, with all that is in them. Regexes are where their numbers are.
    /// It looks at each part at most once.
    #[cycle(same)]
    pub fn same(&self, other: &Value) -> bool
        ensures { IsTrue result ↔ (tree_of self.now ≡ tree_of other.now) }
    {
        match (self, other) {
            (Value::Text(a), Value::Text(b)) => a.as_str() == b.as_str(),
            (Value::Int(a), Value::Int(b)) => a == b,
            (Value::Bool(a), Value::Bool(b)) => a == b,
            (Value::Null, Value::Null) => true,
            (Value::Time(a), Value::Time(b)) => a.nanos() == b.nanos(),
            (Value::Pattern(a), Value::Pattern(b)) => a == b,
            (Value::List(a), Value::List(b)) => a.same(b),
            (Value::Object(a), Value::Object(b)) => a.same(b),
            _ => false,
        }
    }

    /// The order of two integers, of two strings by their bytes, or of two timestamps. `None`: the
    /// values are another pair.
    pub fn compare(&self, other: &Value) -> Option<Ordering>
        ensures { result ≡ order_of (tree_of self.now) (tree_of other.now) }
    {
        match (self, other) {
            (Value::Int(a), Value::Int(b)) => Some(a.cmp(b)),
            (Value::Text(a), Value::Text(b)) => Some(a.as_str().cmp(b.as_str())),
            (Value::Time(a), Value::Time(b)) => Some(a.nanos().cmp(&b.nanos())),
            _ => None,
        }
    }

    /// An equal value, with all that is in it. `Memory`: want of memory, which a text, an array or
    /// an object may meet alone.
    #[cycle(copy)]
    pub fn copy(&self, alloc: Global) -> Result<Value, Memory>
        ensures equal { IfOk result (λ copy. tree_of copy ≡ tree_of self.now) }
        // Objects are maps, at each level: what is in memory is in order.
        ensures ordered { OnOk result (IsOrdered (tree_of self.now)) }
        ensures small { takes_memory (tree_of self.now) ≡ false → IsOk result }
    {
        match self {
            Value::Text(text) => Ok(Value::Text(text.copy(alloc)?)),
            Value::Int(number) => Ok(Value::Int(*number)),
            Value::Bool(truth) => Ok(Value::Bool(*truth)),
            Value::Null => Ok(Value::Null),
            Value::Time(moment) => Ok(Value::Time(*moment)),
            Value::Pattern(literal) => Ok(Value::Pattern(*literal)),
            Value::List(items) => Ok(Value::List(items.copy(alloc)?)),
            Value::Object(fields) => Ok(Value::Object(fields.copy(alloc)?)),
        }
    }
}

/// What a kind tells apart at a place: the eight sorts of value, and that nothing is there.
#[derive(Clone, Copy, Debug, PartialEq, Eq)]
pub enum Tag {
    /// A string.
    Text,
    /// A whole number, VRL's integer.
    Int,
    /// A boolean.
    Bool,
    /// Null.
    Null,
    /// A timestamp.
    Time,
    /// A regex.
    Pattern,
    /// An array.
    List,
    /// An object.
    Object,
    /// Nothing is there, as at a field that an object lacks. No value has this tag.
    Absent,
}

impl Tag {
    /// The word for the tag in messages and in kinds told as text.
    pub fn word(self) -> &'static str
        ensures { result.now ≡ word_of self }
    {
        match self {
            Tag::Text => "string",
            Tag::Int => "integer",
            Tag::Bool => "boolean",
            Tag::Null => "null",
            Tag::Time => "timestamp",
            Tag::Pattern => "regex",
            Tag::List => "array",
            Tag::Object => "object",
            Tag::Absent => "absent",
        }
    }
}

/// The parts of an array, in order.
#[cycle(value)]
pub struct Items {
    items: Vec<Value>,
}

// Written out, so that they are let go by one call.
impl Drop for Items {
    #[cycle(let_go)]
    fn drop(self) {
        let Items { items: _ } = self;
    }
}

impl Items {
    /// These values, which it keeps.
    pub fn new(items: Vec<Value>) -> Items
        ensures { items_of result ≡ items_view items.items }
    {
        Items { items }
    }

    /// The values, borrowed.
    pub fn as_slice(&self) -> &[Value]
        ensures { items_view result.now ≡ items_of self.now }
    {
        &self.items
    }

    /// How many values there are.
    pub fn len(&self) -> usize
        ensures { result ≡ count_of (items_of self.now) }
    {
        self.items.len()
    }

    /// Whether there is no value.
    pub fn is_empty(&self) -> bool
        ensures { IsTrue result ↔ (count_of (items_of self.now) ≡ 0) }
    {
        self.len() == 0
    }

    /// The value at a place, counted from 0. `None` from the number of values on.
    pub fn get(&self, place: usize) -> Option<&Value>
        ensures { option_map (λ value. tree_of value.now) result ≡ item_at place (items_of self.now) }
    {
        self.items.get(place)
    }

    /// The value at a place, counted from 0, to be changed in place. `None` from the number of
    /// values on.
    pub fn get_mut(&mut self, place: usize) -> Option<&mut Value>
        ensures* writes_back { sem 𝓛 (LendsItem self.entry place result) }
        ensures value { option_map (λ value. tree_of value.now) result ≡ item_at place (items_of self.old) }
    {
        self.items.get_mut(place)
    }

    /// Puts a value at a place behind the last one, counted from 0, with nulls in between.
    /// `Memory`: want of memory; the values stay as they were, and the new one is gone.
    pub fn push_at(&mut self, place: usize, value: Value) -> Result<(), Memory>
        requires { count_of (items_of self.old) ≤ place }
        ensures ok { OnOk result (items_of self.new ≡ put_item place (tree_of value) (items_of self.old)) }
        ensures err { OnErr result (items_of self.new ≡ items_of self.old) }
    {
        padding::push_at(&mut self.items, place, value)
    }

    /// Takes out the value at a place, counted from 0; those behind it move down by one. `None`
    /// from the number of values on; they stay as they were. It takes time linear in the number of
    /// values behind.
    pub fn remove(&mut self, place: usize) -> Option<Value>
        ensures value { option_map tree_of result ≡ item_at place (items_of self.old) }
        ensures rest { items_of self.new ≡ without_item place (items_of self.old) }
    {
        if place < self.items.len() {
            Some(self.items.remove(place))
        } else {
            None
        }
    }

    /// The vector that holds the values.
    pub fn into_vec(self) -> Vec<Value>
        ensures { items_view result.items ≡ items_of self }
    {
        let Items { items } = self;
        items
    }

    // The greatest depth of a part, 0 where there is none, and at most 2^64 - 1.
    #[cycle(depth)]
    fn deepest(&self) -> u64
        ensures depth { result ≡ min (items_depth (items_of self.now)) u64.MAX }
        ensures ordered { ItemsAreOrdered (items_of self.now) }
    {
        let mut deepest = 0;
        for item in &self.items {
            deepest = item.depth().max(deepest);
        }
        deepest
    }

    // Whether the parts are equal, one by one.
    #[cycle(same)]
    fn same(&self, other: &Items) -> bool
        ensures { IsTrue result ↔ (items_of self.now ≡ items_of other.now) }
    {
        for (i, item) in self.items.iter().enumerate() {
            let Some(part) = other.items.get(i) else {
                return false;
            };
            if !item.same(part) {
                return false;
            }
        }
        self.items.len() == other.items.len()
    }

    /// Equal values, in the same order. `Memory`: want of memory.
    #[cycle(copy)]
    pub fn copy(&self, alloc: Global) -> Result<Items, Memory>
        ensures equal { IfOk result (λ copy. items_of copy ≡ items_of self.now) }
        ensures ordered { OnOk result (ItemsAreOrdered (items_of self.now)) }
    {
        let mut copies = Vec::with_capacity(alloc, self.items.len())?;
        for item in &self.items {
            copies.push(item.copy(alloc)?)?;
        }
        Ok(Items::new(copies))
    }
}

/// The fields of an object, in the order of their names' bytes. No name comes twice.
#[cycle(value)]
pub struct Fields {
    map: BTreeMap<String, Value>,
}

// Written out, so that they are let go by one call.
impl Drop for Fields {
    #[cycle(let_go)]
    fn drop(self) {
        let Fields { map: _ } = self;
    }
}

impl Fields {
    /// The entries of a map, which it keeps.
    pub fn new(map: BTreeMap<String, Value>) -> Fields
        ensures { members_of result ≡ members_view map.entries }
    {
        Fields { map }
    }

    /// The map, borrowed.
    pub fn as_map(&self) -> &BTreeMap<String, Value>
        ensures { members_view result.now.entries ≡ members_of self.now }
    {
        &self.map
    }

    /// How many fields there are.
    pub fn len(&self) -> usize
        ensures { result ≡ members_count (members_of self.now) }
    {
        self.map.len()
    }

    /// Whether there is no field.
    pub fn is_empty(&self) -> bool
        ensures { IsTrue result ↔ (members_count (members_of self.now) ≡ 0) }
    {
        self.len() == 0
    }

    /// The value at a name. `None` where no field has the name.
    pub fn get(&self, name: &str) -> Option<&Value>
        ensures { option_map (λ value. tree_of value.now) result
            ≡ find name.now (members_of self.now) }
    {
        self.map.get(name)
    }

    /// The value at a name, to be changed in place. `None` where no field has the name.
    pub fn get_mut(&mut self, name: &str) -> Option<&mut Value>
        ensures* writes_back { sem 𝓛 (LendsField self.entry name.now result) }
        ensures value { option_map (λ value. tree_of value.now) result ≡ find name.now (members_of self.old) }
    {
        self.map.get_mut(name)
    }

    /// Takes out the value at a name. `None` where no field has the name; the fields stay as they
    /// were.
    pub fn remove(&mut self, name: &str) -> Option<Value>
        ensures value { option_map tree_of result ≡ find name.now (members_of self.old) }
        ensures rest { members_of self.new ≡ without name.now (members_of self.old) }
    {
        self.map.remove(name)
    }

    // The greatest depth of a value, 0 where there is none, and at most 2^64 - 1.
    #[cycle(depth)]
    fn deepest(&self) -> u64
        ensures depth { result ≡ min (members_depth (members_of self.now)) u64.MAX }
        ensures ordered { MembersAreOrdered (members_of self.now) }
    {
        let mut deepest = 0;
        for (_name, value) in self.map.iter() {
            deepest = value.depth().max(deepest);
        }
        deepest
    }

    // Whether the names and their values are equal, one by one.
    #[cycle(same)]
    fn same(&self, other: &Fields) -> bool
        ensures { IsTrue result ↔ (members_of self.now ≡ members_of other.now) }
    {
        let mut others = other.map.iter();
        for (name, value) in self.map.iter() {
            let Some((key, part)) = others.next() else {
                return false;
            };
            if name.as_str() != key.as_str() || !value.same(part) {
                return false;
            }
        }
        others.next().is_none()
    }

    /// Equal fields, with all that is in them. `Memory`: want of memory.
    #[cycle(copy)]
    pub fn copy(&self, alloc: Global) -> Result<Fields, Memory>
        ensures equal { IfOk result (λ copy. members_of copy ≡ members_of self.now) }
        ensures ordered { OnOk result (MembersAreOrdered (members_of self.now)) }
    {
        let mut copies = BTreeMap::new(alloc);
        for (name, value) in self.map.iter() {
            let key = String::from_str(alloc, name.as_str())?;
            drop(copies.insert(key, value.copy(alloc)?)?);
        }
        Ok(Fields::new(copies))
    }

    /// Puts a value at a name, in place of what stood there. `Memory`: want of memory, which a name
    /// that is there never meets; the fields stay as they were, and the name and the value are
    /// gone.
    pub fn insert(&mut self, name: Chars, value: Value) -> Result<(), Memory>
        ensures ok { OnOk result (members_of self.new ≡ put name (tree_of value) (members_of self.old)) }
        ensures err { OnErr result (members_of self.new ≡ members_of self.old) }
        ensures json { IsTrue (is_json (tree_of value))
            → IsTrue (members_are_json (members_of self.old))
            → IsTrue (members_are_json (members_of self.new)) }
        ensures there { IsSome (find name (members_of self.old)) → IsOk result }
    {
        self.map.insert(name.into_string(), value)?;
        Ok(())
    }

    /// Puts a copy of each of the others' fields, in place of what stood at its name. `Memory`:
    /// want of memory; some are put by then.
    pub fn put_copies(&mut self, alloc: Global, others: &Fields) -> Result<(), Memory>
        ensures { OnOk result (members_of self.new ≡ put_all (members_of others.now) (members_of self.old)) }
    {
        for (name, value) in others.map.iter() {
            let name = Chars::copy_of(alloc, name.as_str())?;
            self.insert(name, value.copy(alloc)?)?;
        }
        Ok(())
    }

    /// The map that holds the fields.
    pub fn into_map(self) -> BTreeMap<String, Value>
        ensures { members_view result.entries ≡ members_of self }
    {
        let Fields { map } = self;
        map
    }
}
