ghost use Rattle.std.specs.Prelude.{◌≡◌, ◌↔◌, IfOk, IsTrue, OnErr, OnOk, [], option_map, unwrap_or};
ghost use Rattle.vrl_path.specs.Steps.{IsWritable};
ghost use Rattle.vrl_kind.specs.Canonical.{any_kind};
ghost use Rattle.vrl_kind.specs.Cut.{flat, IsCut};
ghost use Rattle.vrl_kind.specs.KindTree.{KindTree};
ghost use Rattle.vrl_kind.specs.Kinds.{IsWithin};
ghost use Rattle.vrl_state.specs.States.{json_object, IsEither, IsLeftKind, IsRootKind};
ghost use Rattle.vrl_state.specs.States.{IsWrittenKind};

use std::alloc::Global;
use std::rc::Rc;
use vrl_kind::{
    Kind, LEVEL_LIMIT, NODE_LIMIT, Rest, equal_tags_are_one_kind, flatten, join, kind_is_canonical,
    levels, nodes,
};
use vrl_path::Path;
use vrl_place::remove_cut;
use vrl_value::Memory;

// A kind, to be shared. `Memory`: want of memory.
fn share(alloc: Global, kind: Kind) -> Result<Rc<Kind>, Memory>
    ensures { IfOk result (λ shared. shared.value ≡ kind) }
{
    Ok(Rc::new(alloc, kind)?)
}

/// The kind of an object whose fields are any of JSON: that of the metadata, and that of an event
/// which nothing else is said of. `Memory`: want of memory.
pub fn json_object(alloc: Global) -> Result<Kind, Memory>
    ensures { IfOk result (λ kind. kind ≡ json_object) }
{
    equal_tags_are_one_kind();
    let kind = Kind::object(alloc, Vec::new(alloc), Rest::Json)?;
    kind_is_canonical(&kind);
    Ok(kind)
}

// The kind of every value. `Memory`: want of memory.
pub(crate) fn any(alloc: Global) -> Result<Rc<Kind>, Memory>
    ensures { IfOk result (λ kind. kind.value ≡ any_kind) }
{
    share(alloc, Kind::any(alloc))
}

/// A kind, cut, to be shared. `Memory`: want of memory.
pub fn cut(alloc: Global, kind: Kind) -> Result<Rc<Kind>, Memory>
    ensures { IfOk result (λ small. IsCut kind small.value) }
{
    let mut small = kind;
    small.cut(alloc);
    share(alloc, small)
}

// The same of one that is shared already, which stays so where it isn't cut.
fn cut_shared(alloc: Global, kind: &Rc<Kind>) -> Result<Rc<Kind>, Memory>
    ensures { IfOk result (λ small. IsCut kind.now.value small.value) }
{
    if nodes(kind) > NODE_LIMIT || levels(kind) > LEVEL_LIMIT {
        return flattened(alloc, kind);
    }
    Ok(kind.clone()?)
}

// The same of a copy. `Memory`: want of memory.
pub(crate) fn cut_copy(alloc: Global, kind: &Kind) -> Result<Rc<Kind>, Memory>
    ensures { IfOk result (λ small. IsCut kind.now small.value) }
{
    share(alloc, vrl_kind::cut(alloc, kind)?)
}

// The outer tags of a kind, with every value inside. `Memory`: want of memory.
pub(crate) fn flattened(alloc: Global, kind: &Rc<Kind>) -> Result<Rc<Kind>, Memory>
    ensures { IfOk result (λ outer. outer.value ≡ flat kind.now.value) }
{
    share(alloc, flatten(alloc, kind))
}

// Whether a kind is within another.
pub(crate) fn within(a: &Rc<Kind>, b: &Rc<Kind>) -> bool
    ensures { IsTrue result ↔ IsWithin a.now.value b.now.value }
{
    vrl_kind::within(a, b)
}

// The kind of what is of either kind, cut. `Memory`: want of memory.
fn either(alloc: Global, a: &Kind, b: &Kind) -> Result<Rc<Kind>, Memory>
    ensures { IfOk result (λ kind. IsEither a.now b.now kind.value) }
{
    let joined = join(alloc, a, b)?;
    kind_is_canonical(&joined);
    cut(alloc, joined)
}

// The kind of what is of either of two roots' kinds. `None`: it is the first one. `Memory`: want of
// memory.
pub(crate) fn other_either(
    alloc: Global,
    a: &Rc<Kind>,
    b: &Rc<Kind>,
) -> Result<Option<Rc<Kind>>, Memory>
    requires first { IsRootKind a.now.value }
    requires second { IsRootKind b.now.value }
    ensures { IfOk result
        (λ kind. IsEither a.now.value b.now.value (unwrap_or (option_map (λ kind. kind.value) kind) a.now.value)) }
{
    if within(b, a) {
        return Ok(None);
    }
    if within(a, b) {
        return Ok(Some(b.clone()?));
    }
    Ok(Some(either(alloc, a, b)?))
}

// The same, whether or not it is the first one.
pub(crate) fn shared_either(alloc: Global, a: &Rc<Kind>, b: &Rc<Kind>) -> Result<Rc<Kind>, Memory>
    requires first { IsRootKind a.now.value }
    requires second { IsRootKind b.now.value }
    ensures { IfOk result (λ kind. IsEither a.now.value b.now.value kind.value) }
{
    match other_either(alloc, a, b)? {
        None => Ok(a.clone()?),
        Some(kind) => Ok(kind),
    }
}

// The kind of a root that is written as a whole. `Memory`: want of memory.
pub(crate) fn whole(alloc: Global, new: &Rc<Kind>) -> Result<Rc<Kind>, Memory>
    ensures { IfOk result (λ after. (old : KindTree) → IsWrittenKind old [] new.now.value after.value) }
{
    kind_is_canonical(new);
    cut_shared(alloc, new)
}

// The kind with another written at a path, cut. `Memory`: want of memory.
pub(crate) fn written(
    alloc: Global,
    kind: &Rc<Kind>,
    path: &Path,
    new: &Kind,
) -> Result<Rc<Kind>, Memory>
    requires { IsWritable path.now }
    ensures { IfOk result (λ after. IsWrittenKind kind.now.value path.now new.now after.value) }
{
    let mut own = kind.copy(alloc)?;
    write_cut(alloc, &mut own, path, new)?;
    share(alloc, own)
}

// The kind without what stands at a path, cut. `Memory`: want of memory.
pub(crate) fn taken_out(alloc: Global, kind: &Rc<Kind>, path: &Path) -> Result<Rc<Kind>, Memory>
    ensures { IfOk result (λ after. IsLeftKind kind.now.value path.now after.value) }
{
    let mut own = kind.copy(alloc)?;
    remove_cut(alloc, &mut own, path)?;
    share(alloc, own)
}

// Writes a kind at a path of another, which is then cut. `Memory`: want of memory; the kind stays
// as it was.
fn write_cut(alloc: Global, kind: &mut Kind, path: &Path, new: &Kind) -> Result<(), Memory>
    requires { IsWritable path.now }
    ensures ok { OnOk result (IsWrittenKind kind.old path.now new.now kind.new) }
    ensures err { OnErr result (kind.new ≡ kind.old) }
{
    let copy = new.copy(alloc)?;
    vrl_place::write_cut(alloc, kind, path, copy)?;
    Ok(())
}

// Writes a kind at a path of a shared one, which is then cut: in its place where nobody else has
// it. `Memory`: want of memory; the kind stays as it was.
pub(crate) fn write_shared(
    alloc: Global,
    kind: &mut Rc<Kind>,
    path: &Path,
    new: &Kind,
) -> Result<(), Memory>
    requires { IsWritable path.now }
    ensures ok { OnOk result (IsWrittenKind kind.old.value path.now new.now kind.new.value) }
    ensures err { OnErr result (kind.new.value ≡ kind.old.value) }
{
    match Rc::get_mut(kind) {
        Some(own) => write_cut(alloc, own, path, new),
        None => {
            let after = written(alloc, kind, path, new)?;
            *kind = after;
            Ok(())
        }
    }
}

// Takes out what stands at a path of a shared kind, which is then cut: in its place where nobody
// else has it. `Memory`: want of memory; the kind stays as it was.
pub(crate) fn take_out_shared(alloc: Global, kind: &mut Rc<Kind>, path: &Path) -> Result<(), Memory>
    ensures ok { OnOk result (IsLeftKind kind.old.value path.now kind.new.value) }
    ensures err { OnErr result (kind.new.value ≡ kind.old.value) }
{
    match Rc::get_mut(kind) {
        Some(own) => remove_cut(alloc, own, path),
        None => {
            let after = taken_out(alloc, kind, path)?;
            *kind = after;
            Ok(())
        }
    }
}
