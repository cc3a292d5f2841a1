ghost use Rattle.std.specs.Prelude.{◌≡◌, Bool, List, Option, false, map, length, IsTrue};
ghost use Rattle.vrl_value.specs.Tree.{Tree};
ghost use Rattle.vrl_builtin.specs.Conditions.{arguments_below, AreArguments, AreGiven};
ghost use Rattle.vrl_builtin.specs.OneTag.{whole_row, KeepsOneTag, OneTagRow};
ghost use Rattle.vrl_builtin.specs.Rows.{named};
ghost use Rattle.vrl_builtin.specs.View.{arguments_of, givens_of, parameter_row, setting_of, Applies};
ghost use Rattle.vrl_builtin.specs.OneTagLaw.{one_tag-law};

use crate::arguments::Arguments;
use crate::builtin::Builtin;
use crate::failing::Applied;
use crate::given::Givens;
use crate::parameter::Parameter;
use crate::setting::Setting;
use std::alloc::Global;
use vrl_kind::Kind;
use vrl_pattern::Patterns;
use vrl_value::{Memory, Tag, Value};

/// A function whose results have one tag, whatever it is given, and no parts. None of its
/// parameters wants a literal. It is a [`Builtin`].
pub trait OneTag {
    /// What it takes, the tag of its results, and what it answers.
    ghost one_tag_row: { Self → OneTagRow };

    /// Whether a call with such arguments uses memory beside that for what it answers.
    ghost uses_memory: { Self → List (Option Tree) → Bool } = { λ _ arguments. false };

    /// Its name.
    fn name(&self) -> &'static str
        ensures { result.now ≡ (one_tag_row self.now).name };

    /// Its parameters, in order.
    fn parameters(&self) -> &'static [Parameter]
        ensures { map parameter_row result.now ≡ (one_tag_row self.now).parameters };

    /// The tag of its results.
    fn tag(&self) -> Tag
        ensures { result ≡ (one_tag_row self.now).tag };

    /// Whether a call with such arguments may fail though they are allowed. The condition is that
    /// of [`Builtin::may_fail`].
    fn may_fail(&self, given: &Givens) -> bool
        requires { AreGiven (whole_row (one_tag_row self.now)) (givens_of given.now) }
        ensures { result ≡ (one_tag_row self.now).may_fail (givens_of given.now) };

    /// Calls the function. The conditions are those of [`Builtin::apply`]. `Failed` comes exactly
    /// where the row has words. `Memory`: out of memory, for a text that is answered, or where the
    /// call uses memory.
    fn apply(&self, alloc: Global, arguments: &Arguments<'_>, setting: &Setting<'_, '_>) -> Applied
        requires arguments { AreArguments (whole_row (one_tag_row self.now)) (arguments_of arguments.now) }
        requires regexes { IsTrue (arguments_below (length setting.now.searches.now) (arguments_of arguments.now)) }
        ensures { Applies (uses_memory self.now (arguments_of arguments.now))
            (named (one_tag_row self.now).name
            ((one_tag_row self.now).means (arguments_of arguments.now) (setting_of setting.now))) result };

    /// What a call answers has the tag, and is an error only where the call may fail.
    ghost one_tag: { (function : Self) → KeepsOneTag (one_tag_row function) };
}

impl<F: OneTag> Builtin for F {
    ghost row = { λ f. whole_row (F.one_tag_row f) };

    ghost uses_memory = { λ f. F.OneTag.uses_memory f };

    fn name(&self) -> &'static str {
        OneTag::name(self)
    }

    fn parameters(&self) -> &'static [Parameter] {
        OneTag::parameters(self)
    }

    fn accepts(&self, _place: usize, _literal: &Value) -> bool {
        true
    }

    fn result_kind(
        &self,
        alloc: Global,
        _given: &Givens,
        _patterns: &Patterns,
    ) -> Result<Kind, Memory> {
        Ok(Kind::of(alloc, self.tag()))
    }

    fn may_fail(&self, given: &Givens) -> bool {
        OneTag::may_fail(self, given)
    }

    fn apply(
        &self,
        alloc: Global,
        arguments: &Arguments<'_>,
        setting: &Setting<'_, '_>,
    ) -> Applied {
        OneTag::apply(self, alloc, arguments, setting)
    }

    ghost law = { λ f. one_tag-law (F.one_tag_row f) (F.OneTag.one_tag f) };
}
