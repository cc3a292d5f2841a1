ghost use Rattle.std.specs.Option.{option_map_or};
ghost use Rattle.std.specs.Prelude.{[], false, is_some, map, not, ◌&&◌, ◌≡◌, IfOk, List, OnOk, Option, Some};
ghost use Rattle.vrl_builtin.specs.TagSets.{allows};
ghost use Rattle.vrl_diag.specs.declared.diagnostic.Span.{Span as SpecSpan};
ghost use Rattle.vrl_judge.specs.Calling.{part_of, IsBangedAs};
ghost use Rattle.vrl_judge.specs.Judging.{AreEnds, AreJoinedEnds, HaveCommonScopes, IsMoved};
ghost use Rattle.vrl_syntax.specs.Stores.{left_in};
ghost use Rattle.vrl_judge.specs.Rules.{argument_at as argument_of, at, has_others as has_tags_beside, is_disjoint as has_no_tag, some_tag, Argument as JudgedArgument, IsDeleted};
ghost use Rattle.vrl_state.specs.States.{Scope};
ghost use Rattle.vrl_syntax.specs.ErrorAssignments.{empty_value as value_of_empty};
ghost use Rattle.vrl_syntax.specs.Limits.{faults_at};
ghost use Rattle.vrl_value.specs.declared.value.Tag.TheVariants as tags;

use crate::checker::Checker;
use crate::ends::Ends;
use crate::finding::Finding;
use crate::shared_kind::SharedKind;
use vrl_builtin::{Parameter, Tags};
use vrl_diag::{Span, code};
use vrl_kind::{Kind, TAGS, has, kind_is_canonical, kind_of};
use vrl_path::Path;
use vrl_syntax::{Root, empty_value};
use vrl_value::{Memory, Tag};

/// What an argument was judged to be.
#[derive(Drop)]
pub struct Argument {
    /// The kind of its value.
    pub kind: SharedKind,
    /// It may end with an error.
    pub fallible: bool,
    /// It can end with a value and has no error of its own.
    pub known: bool,
}

impl Checker<'_> {
    /// An argument that was judged last, behind others with these ends. `Memory`: want of memory.
    pub fn argument(&self, ends: &mut Ends, part: Finding) -> Result<Argument, Memory>
        requires { HaveCommonScopes ends.old part.ends }
        ensures argument { IfOk result (λ argument. argument ≡ record {
          kind = part.kind;
          fallible = is_some part.ends.fail;
          known = is_some self.now.state.known && not part.ends.poisoned;
        }) }
        ensures joined { OnOk result (AreJoinedEnds ends.old part.ends ends.new) }
        ensures scopes { OnOk result
            ((scopes : List Scope) → AreEnds scopes ends.old → AreEnds scopes part.ends → AreEnds scopes ends.new) }
    {
        let fallible = part.is_fallible();
        let known = self.is_known(&part);
        let kind = ends.absorb(self.alloc, part)?;
        Ok(Argument {
            kind,
            fallible,
            known,
        })
    }

    /// Takes out what stands at a path; a root keeps what is left in it. `Memory`: want of memory.
    pub fn take_out(&mut self, root: &Root, path: &Path) -> Result<(), Memory>
        requires { (span : SpecSpan) × (faults_at span path.now ≡ []) }
        ensures known { OnOk result (IsDeleted root.now path.now self.old.state.known self.new.state.known) }
        ensures others { IsMoved self.old self.new }
    {
        if !path.as_slice().is_empty() {
            return self.state.remove(root, path);
        }
        let left = empty_value(self.alloc, left_tag(root));
        let kind = kind_of(self.alloc, &left)?;
        kind_is_canonical(&kind);
        let shared = SharedKind::new(self.alloc, kind)?;
        self.state.assign(root, path, shared.as_shared())
    }

    /// A call, behind all but its `!`, which leaves no error; of a call that can't end with one it
    /// is 620. `Memory`: want of memory.
    pub fn banged(&mut self, span: Span, bang: bool, call: Finding) -> Result<Finding, Memory>
        ensures { IfOk result (λ finding. IsBangedAs span bang call self.old self.new finding) }
    {
        let mut call = call;
        if !bang {
            return Ok(call);
        }
        let needless = call.ends.is_needless();
        self.report(
            &mut call.ends,
            needless,
            code::ABORTING_INFALLIBLE_FUNCTION,
            span,
        )?;
        call.ends.fail = None;
        Ok(call)
    }
}

// The tag of what a `del` leaves in a root.
fn left_tag(root: &Root) -> Tag
    ensures { value_of_empty result ≡ left_in root.now }
{
    match root {
        Root::Event => Tag::Object,
        Root::Name(_) if root.is_metadata() => Tag::Object,
        Root::Name(_) => Tag::Null,
    }
}

/// Whether no tag of the kind is one of these.
pub fn is_disjoint(tags: &Tags, kind: &SharedKind) -> bool
    ensures { result ≡ has_no_tag tags.now kind.now }
{
    !has_some(tags, kind.as_kind())
}

// Whether some tag of the kind is one of these.
#[tactic(auto, unfolding(crate::specs::Rules::some_tag))]
fn has_some(tags: &Tags, kind: &Kind) -> bool
    ensures { result ≡ some_tag (allows tags.now) kind.now }
{
    TAGS.iter()
        .any(|tag| has(kind, *tag) && tags.contains(*tag))
}

/// Whether some tag of the kind is none of these.
#[tactic(auto, unfolding(crate::specs::Rules::some_tag))]
pub fn has_others(tags: &Tags, kind: &Kind) -> bool
    ensures { result ≡ has_tags_beside tags.now kind.now }
{
    TAGS.iter()
        .any(|tag| has(kind, *tag) && !tags.contains(*tag))
}

/// Whether the kind of the argument at a place has a tag that its parameter doesn't allow. `None`:
/// the parameter has no argument.
pub fn part_has_others(parameter: &Parameter, place: Option<usize>, parts: &[Argument]) -> bool
    ensures { (js : List JudgedArgument) → parts.now ≡ map part_of js
        → result ≡ option_map_or (λ g. has_tags_beside parameter.now.allowed g.judged.kind)
        (argument_of js place) false }
{
    match place {
        Some(place) => match parts.get(place) {
            Some(part) => has_others(&parameter.allowed, part.kind.as_kind()),
            None => false,
        },
        None => false,
    }
}
