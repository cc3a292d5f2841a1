ghost use Rattle.std.specs.Prelude.{◌≡◌, ◌++◌, codes, IfOk};
ghost use Rattle.std.specs.List.{flat_map};
ghost use Rattle.vrl_run.specs.Answer as spec;

use std::alloc::Global;
use vrl_kind::{Kind, print};
use vrl_state::{Known, RootKind};
use vrl_syntax::Root;
use vrl_value::Memory;

// The kinds that a script may end with, a line each, that of the metadata with envelopes alone.
// `Memory`: want of memory.
pub(crate) fn kind_lines(
    alloc: Global,
    kind: &Kind,
    known: &Known,
    envelope: bool,
) -> Result<Vec<u8>, Memory>
    ensures { IfOk result (λ lines. lines.items ≡ spec.kind_lines kind.now known.now envelope) }
{
    match known {
        Known::Dead => Ok("result never\n. never\n".as_bytes().to_vec(alloc)?),
        Known::Alive(roots) => alive_lines(alloc, kind, roots.as_slice(), envelope),
    }
}

// The kind of the value, and then that of each root. `Memory`: want of memory.
fn alive_lines(
    alloc: Global,
    kind: &Kind,
    roots: &[RootKind],
    envelope: bool,
) -> Result<Vec<u8>, Memory>
    ensures { IfOk result (λ lines. lines.items
        ≡ spec.kind_line (codes "result") kind.now ++ flat_map (spec.root_line envelope) roots.now) }
{
    let mut lines = kind_line(alloc, "result", kind)?;
    for root in roots {
        let line = root_line(alloc, root, envelope)?;
        lines.extend_from_slice(&line)?;
    }
    Ok(lines)
}

// The kind of a root that is told. `Memory`: want of memory.
fn root_line(alloc: Global, root: &RootKind, envelope: bool) -> Result<Vec<u8>, Memory>
    ensures { IfOk result (λ line. line.items ≡ spec.root_line envelope root.now) }
{
    if !is_told(&root.root, envelope) {
        return Ok(Vec::new(alloc));
    }
    kind_line(alloc, name_of(&root.root), &root.kind)
}

// Whether the kind of a root is told.
fn is_told(root: &Root, envelope: bool) -> bool
    ensures { result ≡ spec.is_told envelope root.now }
{
    envelope || !root.is_metadata()
}

// What a root is told as.
fn name_of(root: &Root) -> &str
    ensures { result.now ≡ spec.name_of root.now }
{
    match root {
        Root::Event => ".",
        Root::Name(name) => name.as_str(),
    }
}

// A name, and a kind as text. `Memory`: want of memory.
fn kind_line(alloc: Global, name: &str, kind: &Kind) -> Result<Vec<u8>, Memory>
    ensures { IfOk result (λ line. line.items ≡ spec.kind_line name.now kind.now) }
{
    let text = print(alloc, kind)?;
    let text = text.as_str();
    Ok(format!(in alloc; "{name} {text}\n")?.into_bytes())
}
