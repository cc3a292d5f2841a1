ghost use Rattle.std.specs.Prelude.{◌≡◌, ◌↔◌, ◌∷◌, All, IsTrue, Some};
ghost use Rattle.vrl_syntax.specs.declared.root.Root.TheVariants.{Event};
ghost use Rattle.vrl_state.specs.RootLists as lists;
ghost use Rattle.vrl_state.specs.RootLists.{first_root, rise, rise_from, IsRootList};
ghost use Rattle.vrl_state.specs.States.{IsPresent};

use std::marker::Model;
use vrl_kind::{Kind, has};
use vrl_syntax::Root;
use vrl_value::Tag;

/// What is known at a place.
#[derive(Drop)]
pub enum Known {
    /// No way leads there.
    Dead,
    /// The event and the variables that are known, each with its kind.
    Alive(RootKinds),
}

/// A root and the kind of what stands there.
#[derive(Drop)]
pub struct RootKind {
    /// The event, or a variable.
    pub root: Root,
    /// Its kind.
    pub kind: Kind,
}

/// Roots with their kinds: the event first, then each variable once, by the bytes of its name, and
/// no kind that allows absent. A contract sees their list.
#[derive(Drop)]
pub struct RootKinds {
    roots: Vec<RootKind>,
}

impl Model for RootKinds {
    ghost use Rattle.std.specs.Prelude.{List};
    ghost use Rattle.vrl_state.specs.declared.known.RootKind.{RootKind};

    ghost Value = { List RootKind };

    ghost use Rattle.std.specs.Coded.{coded_list};
    ghost use Rattle.vrl_state.specs.contracts.known.RootKind as root_kind;

    ghost coded = { coded_list root_kind.the_row.coded };

    ghost view = { λ r. r.roots.items };

    ghost use Rattle.vrl_state.specs.RootLists.{IsRootList};

    ghost invariant = { λ r. IsRootList r.roots.items };
}

impl RootKinds {
    /// These roots with their kinds, which it keeps. [`RootKinds::may_hold`] tells whether it may.
    pub fn new(roots: Vec<RootKind>) -> RootKinds
        requires { IsRootList roots.items }
        ensures { result ≡ roots.items }
    {
        RootKinds { roots }
    }

    /// Whether these are roots that [`RootKinds::new`] takes: the event first, then variables whose
    /// names rise by their bytes, and no kind that allows absent. It takes no memory.
    pub fn may_hold(roots: &[RootKind]) -> bool
        ensures { IsTrue result ↔ IsRootList roots.now }
    {
        if !begin_with_event(roots) {
            return false;
        }
        if !are_rising(roots) {
            return false;
        }
        are_present(roots)
    }

    /// The event is listed first, then each variable once, by the bytes of its name, and no kind
    /// allows absent. It takes no memory and no time: it is a law of the type.
    pub fn are_listed(&self)
        ensures { IsRootList self.now }
    {
        let _roots = &self.roots;
    }

    // The kind of the event, and the variables with their kinds, borrowed.
    pub(crate) fn parts(&self) -> (&Kind, &[RootKind])
        ensures { self.now ≡ record { root = Event; kind = result.0.now } ∷ result.1.now }
    {
        match self.roots.split_first() {
            Some((event, variables)) => (&event.kind, variables),
            None => unreachable!(),
        }
    }

    /// The roots with their kinds, borrowed.
    pub fn as_slice(&self) -> &[RootKind]
        ensures { result.now ≡ self.now }
    {
        &self.roots
    }

    /// The vector that holds the roots with their kinds.
    pub fn into_vec(self) -> Vec<RootKind>
        ensures { result.items ≡ self }
    {
        self.roots
    }
}

// Whether the event is the first of them.
fn begin_with_event(roots: &[RootKind]) -> bool
    ensures { IsTrue result ↔ (first_root roots.now ≡ Some Event) }
{
    match roots.first() {
        None => false,
        Some(first) => matches!(&first.root, Root::Event),
    }
}

// Whether each root comes before the next one.
fn are_rising(roots: &[RootKind]) -> bool
    ensures { result ≡ rise roots.now }
{
    match roots.split_first() {
        None => true,
        Some((first, others)) => are_rising_from(&first.root, others),
    }
}

// The same behind a root.
fn are_rising_from(root: &Root, roots: &[RootKind]) -> bool
    ensures { result ≡ rise_from root.now roots.now }
{
    let mut last = root;
    let mut left = roots;
    while let Some((next, others)) = left.split_first() {
        if !is_before(last, &next.root) {
            return false;
        }
        last = &next.root;
        left = others;
    }
    true
}

// Whether a root comes before another: the event before each variable, and variables by the bytes
// of their names.
fn is_before(first: &Root, second: &Root) -> bool
    ensures { result ≡ lists.is_before first.now second.now }
{
    match (first, second) {
        (Root::Event, Root::Name(_)) => true,
        (Root::Name(first), Root::Name(second)) => first.as_str().cmp(second.as_str()).is_lt(),
        (_, Root::Event) => false,
    }
}

// Whether none of the kinds allows absent.
fn are_present(roots: &[RootKind]) -> bool
    ensures { IsTrue result ↔ All (λ r. IsPresent r.kind) roots.now }
{
    roots.iter().all(|root| !has(&root.kind, Tag::Absent))
}
