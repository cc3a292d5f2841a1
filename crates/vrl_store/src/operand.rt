ghost use Rattle.std.specs.Prelude.{◌≡◌, IfOk, OnOk};
ghost use Rattle.vrl_value.specs.Tree.{object, put_all, Members};
ghost use Rattle.vrl_value.specs.View.{members_of, tree_of};
ghost use Rattle.vrl_store.specs.Results.{operand_tree};

use std::alloc::Global;
use vrl_value::{Chars, Fields, Memory, Value};

/// A value that an operator looks at: one that it may keep, or one that stands elsewhere.
pub enum Operand<'a> {
    /// It may be kept.
    Owned(Value),
    /// It stands elsewhere.
    Borrowed(&'a Value),
}

// Written out, so that it is let go by one call.
impl Drop for Operand<'_> {
    fn drop(self) {
        match self {
            Operand::Owned(_value) => {}
            Operand::Borrowed(_value) => {}
        }
    }
}

impl Operand<'_> {
    /// The value, borrowed.
    pub fn value(&self) -> &Value
        ensures { tree_of result.now ≡ operand_tree self.now }
    {
        match self {
            Operand::Owned(value) => value,
            Operand::Borrowed(value) => value,
        }
    }

    /// The value itself, or a copy of it where it stands elsewhere. `Memory`: want of memory.
    pub fn into_value(self, alloc: Global) -> Result<Value, Memory>
        ensures { IfOk result (λ value. tree_of value ≡ operand_tree self.entry) }
    {
        match self {
            Operand::Owned(value) => Ok(value),
            Operand::Borrowed(value) => value.copy(alloc),
        }
    }

    /// Puts each field of an object among fields, in place of one with its name; what is no object
    /// has none. `Memory`: want of memory; some may be put.
    pub(crate) fn put_into(self, alloc: Global, fields: &mut Fields) -> Result<(), Memory>
        ensures { OnOk result ((ms : Members) → operand_tree self.entry ≡ object ms
            → members_of fields.new ≡ put_all ms (members_of fields.old)) }
    {
        match self {
            Operand::Owned(value) => match value {
                Value::Object(others) => put_owned(fields, others),
                _ => Ok(()),
            },
            Operand::Borrowed(value) => match value {
                Value::Object(others) => fields.put_copies(alloc, others),
                _ => Ok(()),
            },
        }
    }
}

fn put_owned(fields: &mut Fields, others: Fields) -> Result<(), Memory>
    ensures { OnOk result (members_of fields.new ≡ put_all (members_of others) (members_of fields.old)) }
{
    for (name, value) in others.into_map() {
        fields.insert(Chars::new(name), value)?;
    }
    Ok(())
}
