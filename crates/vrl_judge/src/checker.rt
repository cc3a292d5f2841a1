ghost use Rattle.std.specs.Prelude.{is_some, not, ◌&&◌, ◌≡◌, IfOk, OnOk};
ghost use Rattle.vrl_judge.specs.Branching.{IsOrFail};
ghost use Rattle.vrl_judge.specs.Judging.{known_on, way, AreEnds, IsMoved, IsReported, IsWay};
ghost use Rattle.vrl_judge.specs.Returns.{returning};
ghost use Rattle.vrl_judge.specs.Rules.{at, if_state, when};
ghost use Rattle.vrl_kind.specs.Kinds.{root_tags};
ghost use Rattle.vrl_place.specs.Sets.{is_alone};
ghost use Rattle.vrl_state.specs.States.{IsJoined};

use crate::ends::{Ends, Returned};
use crate::finding::Finding;
use crate::kinds::is_exactly;
use crate::shared_kind::SharedKind;
use std::alloc::Global;
use vrl_diag::{Diagnostic, Span};
use vrl_pattern::Patterns;
use vrl_state::{Branch, Mark, State};
use vrl_value::{Memory, Tag};

/// What is known where a walk stands, and what it has gathered so far.
#[derive(Drop)]
pub struct Checker<'a> {
    /// The allocator of all that is made.
    pub alloc: Global,
    /// The regexes of the script.
    pub patterns: &'a Patterns,
    /// What is known where the walk stands.
    pub state: State,
    /// The codes so far, in the order in which they were found.
    pub diagnostics: Vec<Diagnostic>,
    /// The tag of the empty value of each error assignment so far.
    pub empties: Vec<Tag>,
    /// What is known before each run of each closure so far. `None`: it isn't judged.
    pub loops: Vec<Option<Branch>>,
    /// Whether the walk stands in the body of a closure.
    pub inside: bool,
}

impl Checker<'_> {
    // Whether a way leads here.
    pub(crate) fn is_alive(&self) -> bool
        ensures { result ≡ is_some self.now.state.known }
    {
        !self.state.is_dead()
    }

    // Whether the part that was judged last can end with a value and has no error of its own.
    pub(crate) fn is_known(&self, part: &Finding) -> bool
        ensures { result ≡ (is_some self.now.state.known && not part.now.ends.poisoned) }
    {
        self.is_alive() && !part.ends.poisoned
    }

    /// Whether the part that was judged last has a kind that isn't exactly this tag.
    pub fn is_other(&self, tag: Tag, part: &Finding) -> bool
        ensures { result ≡
            (is_some self.now.state.known && not part.now.ends.poisoned && not
            (is_alone (root_tags part.now.kind) tag)) }
    {
        self.is_known(part) && !is_exactly(&part.kind, tag)
    }

    /// A code, if it stands. `Memory`: want of memory.
    pub fn report(
        &mut self,
        ends: &mut Ends,
        stands: bool,
        code: u16,
        span: Span,
    ) -> Result<(), Memory>
        ensures { OnOk result (IsReported (when stands (at code span)) self.old self.new ends.old ends.new) }
    {
        if !stands {
            return Ok(());
        }
        let diagnostic = Diagnostic { code, span };
        self.diagnostics.push(diagnostic)?;
        ends.add_error(diagnostic.is_error());
        Ok(())
    }

    /// What was judged, with a code if it stands. `Memory`: want of memory.
    pub fn reported(
        &mut self,
        part: Finding,
        stands: bool,
        code: u16,
        span: Span,
    ) -> Result<Finding, Memory>
        ensures same { IfOk result (λ finding. finding ≡ record part { ends = finding.ends }) }
        ensures reported { IfOk result
            (λ finding. IsReported (when stands (at code span)) self.old self.new part.ends finding.ends) }
    {
        let mut part = part;
        self.report(&mut part.ends, stands, code, span)?;
        Ok(part)
    }

    /// What is known here, as a branch; the state stays. `None`: no way leads here, or it isn't
    /// wanted. `Memory`: want of memory.
    pub fn branch_if(&mut self, wanted: bool) -> Result<Option<Branch>, Memory>
        ensures branch { IfOk result
            (λ branch. branch ≡ way self.old.state.scopes (if_state wanted self.old.state.known)) }
        ensures checker { self.new ≡ self.old }
    {
        if !wanted || self.state.is_dead() {
            return Ok(None);
        }
        let copy = self.state.mark()?;
        Ok(Some(self.state.back(copy)))
    }

    /// It may end with an error here too, if this holds. `Memory`: want of memory.
    pub fn fail_if(&mut self, ends: &mut Ends, holds: bool) -> Result<(), Memory>
        requires { AreEnds self.old.state.scopes ends.old }
        ensures ends { OnOk result (IsOrFail ends.old (if_state holds self.old.state.known) ends.new) }
        ensures scopes { OnOk result (AreEnds self.old.state.scopes ends.new) }
        ensures checker { self.new ≡ self.old }
    {
        let point = self.branch_if(holds)?;
        ends.add_fail(point)?;
        Ok(())
    }

    // A return from here with a value of this kind. `None`: no way leads here. `Memory`: want of
    // memory.
    pub(crate) fn return_of(&mut self, kind: SharedKind) -> Result<Option<Returned>, Memory>
        ensures returned { IfOk result
            (λ returned. returned ≡ returning self.old.state.scopes kind self.old.state.known) }
        ensures checker { self.new ≡ self.old }
    {
        match self.branch_if(true)? {
            None => Ok(None),
            Some(state) => Ok(Some(Returned {
                kind: kind.into_kind(self.alloc)?,
                state,
            })),
        }
    }

    /// Goes back to a state, and gives the one that was left. `None`: no way led there.
    pub fn back(&mut self, mark: Mark) -> Option<Branch>
        ensures branch { result ≡ way self.old.state.scopes self.old.state.known }
        ensures checker { self.new ≡ record self.old { state = mark } }
    {
        let alive = self.is_alive();
        let branch = self.state.back(mark);
        if alive { Some(branch) } else { None }
    }

    /// No way leads on, unless this holds.
    pub fn go_on_if(&mut self, holds: bool)
        ensures known { self.new.state.known ≡ if_state holds self.old.state.known }
        ensures others { IsMoved self.old self.new }
    {
        if !holds {
            self.state.kill();
        }
    }

    /// What is known here or on another way. `Memory`: want of memory.
    pub fn join(&mut self, branch: Option<Branch>) -> Result<(), Memory>
        requires { IsWay self.old.state.scopes branch }
        ensures known { OnOk result (IsJoined self.old.state.known (known_on branch) self.new.state.known) }
        ensures others { IsMoved self.old self.new }
    {
        match branch {
            None => Ok(()),
            Some(branch) => self.state.join(&branch),
        }
    }

    // What is known at a branch alone; without one, no way leads on.
    pub(crate) fn go_to(&mut self, branch: Option<Branch>)
        requires { IsWay self.old.state.scopes branch }
        ensures known { self.new.state.known ≡ known_on branch }
        ensures others { IsMoved self.old self.new }
    {
        match branch {
            None => self.state.kill(),
            Some(branch) => drop(self.state.back(branch.into_mark())),
        }
    }

    // What is known where the state was marked, or here. `Memory`: want of memory.
    pub(crate) fn join_behind(&mut self, mark: Mark) -> Result<(), Memory>
        requires { mark.scopes ≡ self.old.state.scopes }
        ensures known { OnOk result (IsJoined mark.known self.old.state.known self.new.state.known) }
        ensures others { IsMoved self.old self.new }
    {
        let branch = self.back(mark);
        self.join(branch)
    }
}
