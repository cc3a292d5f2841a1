ghost use Rattle.std.specs.Prelude.{◌≡◌, IfOk};
ghost use Rattle.vrl_kind.specs.Canonical.{any_kind, never_kind};

use std::alloc::Global;
use std::marker::Model;
use std::rc::Rc;
use vrl_kind::Kind;
use vrl_value::Memory;

/// The kind of a part that was judged, which may be shared, with the state where it is that of a
/// whole root. A contract sees the kind.
pub struct SharedKind {
    kind: Rc<Kind>,
}

// Written out, so that it is let go by one call.
impl Drop for SharedKind {
    fn drop(self) {
        let SharedKind { kind: _ } = self;
    }
}

impl Model for SharedKind {
    ghost use Rattle.vrl_kind.specs.KindTree.{KindTree};
    ghost use Rattle.vrl_kind.specs.KindCode.{kind_code};

    ghost Value = { KindTree };

    ghost coded = { kind_code };

    ghost view = { λ s. s.kind.value };
}

impl SharedKind {
    /// A kind, to be shared. `Memory`: want of memory.
    pub fn new(alloc: Global, kind: Kind) -> Result<SharedKind, Memory>
        ensures { IfOk result (λ shared. shared ≡ kind) }
    {
        Ok(SharedKind {
            kind: Rc::new(alloc, kind)?,
        })
    }

    /// A kind that is shared already. It takes no memory.
    pub fn of(kind: Rc<Kind>) -> SharedKind
        ensures { result ≡ kind.value }
    {
        SharedKind { kind }
    }

    /// The kind of no value. `Memory`: want of memory.
    pub fn never(alloc: Global) -> Result<SharedKind, Memory>
        ensures tree { IfOk result (λ kind. kind ≡ never_kind) }
    {
        SharedKind::new(alloc, Kind::never())
    }

    /// The kind of every value, and of none. `Memory`: want of memory.
    pub fn any(alloc: Global) -> Result<SharedKind, Memory>
        ensures tree { IfOk result (λ kind. kind ≡ any_kind) }
    {
        SharedKind::new(alloc, Kind::any(alloc))
    }

    /// The kind.
    pub fn as_kind(&self) -> &Kind
        ensures { result.now ≡ self.now }
    {
        &self.kind
    }

    /// The kind, as it is shared.
    pub fn as_shared(&self) -> &Rc<Kind>
        ensures { result.now.value ≡ self.now }
    {
        &self.kind
    }

    /// The kind alone; it is copied where others share it. `Memory`: want of memory.
    pub fn into_kind(self, alloc: Global) -> Result<Kind, Memory>
        ensures { IfOk result (λ kind. kind ≡ self) }
    {
        let SharedKind { kind } = self;
        match Rc::try_unwrap(kind) {
            Ok(kind) => Ok(kind),
            Err(shared) => shared.copy(alloc),
        }
    }
}
