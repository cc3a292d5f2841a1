ghost use Rattle.std.specs.Prelude.{◌≡◌, ◌++◌, OnOk};
ghost use Rattle.vrl_generate.specs.Summary.{count_line, told_line};

use std::alloc::Global;
use vrl_value::Memory;

// Adds a line of the summary that tells a count. `Memory`: want of memory.
pub(crate) fn add_count(
    alloc: Global,
    text: &mut Vec<u8>,
    name: &str,
    count: u128,
) -> Result<(), Memory>
    ensures { OnOk result (text.new.items ≡ text.old.items ++ count_line name.now count) }
{
    let line = format!(in alloc; "{name} {count}\n")?;
    text.extend_from_slice(line.as_bytes())?;
    Ok(())
}

// Adds a line of the summary that tells a text. `Memory`: want of memory.
pub(crate) fn add_told(
    alloc: Global,
    text: &mut Vec<u8>,
    name: &str,
    value: &str,
) -> Result<(), Memory>
    ensures { OnOk result (text.new.items ≡ text.old.items ++ told_line name.now value.now) }
{
    let line = format!(in alloc; "{name} {value}\n")?;
    text.extend_from_slice(line.as_bytes())?;
    Ok(())
}
