use std::alloc::Global;
use vrl_value::{Items, Memory, Value};

/// Arrays in one another, this many, around null. `Memory`: want of memory.
pub fn nested_arrays(alloc: Global, depth: u64) -> Result<Value, Memory> {
    let mut value = Value::Null;
    for _level in 0..depth {
        let mut items = Vec::new(alloc);
        items.push(value)?;
        value = Value::List(Items::new(items));
    }
    Ok(value)
}
