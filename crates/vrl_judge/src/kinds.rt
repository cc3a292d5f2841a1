ghost use Rattle.std.specs.Prelude.{false, find, option_copied, ◌||◌, ◌≡◌, IfOk, OnOk};
ghost use Rattle.vrl_judge.specs.Rules.{empty_tag as tag_of_empty, may_be_no_truth as may_be_another, may_be_truth as may_be_true, IsReadAt, IsScalar};
ghost use Rattle.vrl_kind.specs.Cut.{IsCut};
ghost use Rattle.vrl_kind.specs.Kinds.{found_at, root_tags};
ghost use Rattle.vrl_kind.specs.Tags.{same_tag};
ghost use Rattle.vrl_place.specs.Sets.{has_other as has_another, is_alone};
ghost use Rattle.vrl_state.specs.States.{IsCutOf, IsEither, IsRootKind};
ghost use Rattle.vrl_value.specs.View.{tree_of};
ghost use Rattle.vrl_value.specs.declared.value.Tag.TheVariants as tags;

use crate::shared_kind::SharedKind;
use std::alloc::Global;
use std::rc::Rc;
use vrl_kind::{Kind, TAGS, has, join, kind_is_canonical, kind_of};
use vrl_path::Path;
use vrl_place::read_kind;
use vrl_value::{Memory, Tag, Value};

/// A kind, cut, to be shared. `Memory`: want of memory.
pub fn cut(alloc: Global, kind: Kind) -> Result<SharedKind, Memory>
    ensures cases { IfOk result (λ small. IsCut kind small) }
{
    Ok(SharedKind::of(vrl_state::cut(alloc, kind)?))
}

/// The kind of what is of either kind, cut. `Memory`: want of memory.
pub fn either(alloc: Global, a: &Kind, b: &Kind) -> Result<SharedKind, Memory>
    ensures { IfOk result (λ kind. IsEither a.now b.now kind) }
{
    let joined = join(alloc, a, b)?;
    kind_is_canonical(&joined);
    cut(alloc, joined)
}

// Makes a kind the one of what is of it or of another, cut. `Memory`: want of memory.
pub(crate) fn widen(kind: &mut SharedKind, alloc: Global, other: &SharedKind) -> Result<(), Memory>
    ensures { OnOk result (IsEither kind.old other.now kind.new) }
{
    *kind = either(alloc, kind.as_kind(), other.as_kind())?;
    Ok(())
}

/// The kind of what is read at a path of a root's kind, cut; that of the whole root is shared.
/// `Memory`: want of memory.
pub fn read_root(alloc: Global, kind: Rc<Kind>, path: &Path) -> Result<SharedKind, Memory>
    requires { IsRootKind kind.value }
    ensures { IfOk result (λ found. IsReadAt kind.value path.now found) }
{
    if path.as_slice().is_empty() {
        return Ok(SharedKind::of(kind));
    }
    read_cut(alloc, &kind, path)
}

// The kind of what is read at a path of a kind, cut. `Memory`: want of memory.
pub(crate) fn read_cut(alloc: Global, kind: &Kind, path: &Path) -> Result<SharedKind, Memory>
    ensures { IfOk result (λ found. IsReadAt kind.now path.now found) }
{
    let found = read_kind(alloc, kind, path)?;
    kind_is_canonical(&found);
    cut(alloc, found)
}

/// The kind of a value, cut. `Memory`: want of memory.
pub fn cut_kind_of(alloc: Global, value: &Value) -> Result<SharedKind, Memory>
    ensures { IfOk result (λ kind. IsCutOf (found_at (tree_of value.now)) kind) }
{
    let kind = kind_of(alloc, value)?;
    kind_is_canonical(&kind);
    cut(alloc, kind)
}

/// The kind of a scalar's tag. `Memory`: want of memory.
pub fn scalar(alloc: Global, tag: Tag) -> Result<SharedKind, Memory>
    requires { (same_tag tag tags.List || same_tag tag tags.Object) ≡ false }
    ensures { IfOk result (λ kind. IsScalar tag kind) }
{
    let kind = Kind::of(alloc, tag);
    kind_is_canonical(&kind);
    cut(alloc, kind)
}

// Whether the kind allows this tag, and no other.
pub(crate) fn is_exactly(kind: &SharedKind, tag: Tag) -> bool
    ensures { result ≡ is_alone (root_tags kind.now) tag }
{
    has_alone(kind.as_kind(), tag)
}

// The same of a kind that isn't shared.
pub(crate) fn has_alone(kind: &Kind, tag: Tag) -> bool
    ensures { result ≡ is_alone (root_tags kind.now) tag }
{
    has(kind, tag) && !has_other(kind, tag)
}

// Whether the kind allows another tag than this.
#[tactic(auto, unfolding(vrl_place::specs::Sets::has_other))]
fn has_other(kind: &Kind, tag: Tag) -> bool
    ensures { result ≡ has_another (root_tags kind.now) tag }
{
    TAGS.iter().any(|other| has(kind, *other) && *other != tag)
}

// Whether the kind allows a boolean or null.
pub(crate) fn may_be_truth(kind: &SharedKind) -> bool
    ensures { result ≡ may_be_true kind.now }
{
    let kind = kind.as_kind();
    has(kind, Tag::Bool) || has(kind, Tag::Null)
}

// Whether the kind allows something else than a boolean or null.
#[tactic(auto, unfolding(crate::specs::Rules::some_tag))]
pub(crate) fn may_be_no_truth(kind: &SharedKind) -> bool
    ensures { result ≡ may_be_another kind.now }
{
    let kind = kind.as_kind();
    TAGS.iter().any(|tag| has(kind, *tag) && !(*tag == Tag::Bool || *tag == Tag::Null))
}

// The tag of the empty value of a kind; that of null for a regex, for several tags and for none.
pub(crate) fn empty_tag(kind: &SharedKind) -> Tag
    ensures { result ≡ tag_of_empty kind.now }
{
    match first_alone(kind, &EMPTY_TAGS) {
        Some(tag) => *tag,
        None => Tag::Null,
    }
}

// The first of these tags that the kind allows alone.
fn first_alone<'a>(kind: &SharedKind, tags: &'a [Tag]) -> Option<&'a Tag>
    ensures { option_copied result ≡ find (λ t. is_alone (root_tags kind.now) t) tags.now }
{
    tags.iter().find(|tag| is_exactly(kind, **tag))
}

const EMPTY_TAGS: [Tag; 6] = [
    Tag::Text,
    Tag::Int,
    Tag::Bool,
    Tag::Object,
    Tag::List,
    Tag::Time,
];
