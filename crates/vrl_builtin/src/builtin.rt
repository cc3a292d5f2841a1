ghost use Rattle.std.specs.Prelude.{◌≡◌, Bool, List, Option, false, map, length, IfOk, IsTrue};
ghost use Rattle.vrl_value.specs.Tree.{Tree};
ghost use Rattle.vrl_value.specs.View.{tree_of};
ghost use Rattle.vrl_kind.specs.Kinds.{tags_at};
ghost use Rattle.vrl_kind.specs.Sets.{SameSets};
ghost use Rattle.vrl_builtin.specs.Conditions.{arguments_below, first_wrong, literals_below, AreArguments, AreGiven};
ghost use Rattle.vrl_builtin.specs.Law.{KeepsLaw};
ghost use Rattle.vrl_builtin.specs.Rows.{Row};
ghost use Rattle.vrl_builtin.specs.View.{arguments_of, givens_of, parameter_row, setting_of, Applies};

use crate::arguments::Arguments;
use crate::failing::Applied;
use crate::given::Givens;
use crate::parameter::Parameter;
use crate::setting::Setting;
use std::alloc::Global;
use vrl_kind::Kind;
use vrl_pattern::Patterns;
use vrl_value::{Memory, Value};

/// A function of the language.
pub trait Builtin {
    /// What it takes, what is known of its result before it is called, and what it answers.
    ghost row: { Self → Row };

    /// Whether a call with such arguments uses memory beside that for what it answers.
    ghost uses_memory: { Self → List (Option Tree) → Bool } = { λ _ arguments. false };

    /// Its name.
    fn name(&self) -> &'static str
        ensures { result.now ≡ (row self.now).name };

    /// Its parameters, in order.
    fn parameters(&self) -> &'static [Parameter]
        ensures { map parameter_row result.now ≡ (row self.now).parameters };

    /// Whether the literal is one that the function allows at the place of a parameter which wants
    /// one. Where no parameter wants one, nothing asks.
    fn accepts(&self, place: usize, literal: &Value) -> bool
        ensures { result ≡ (row self.now).accepts place (tree_of literal.now) };

    /// The place of the first parameter that wants a literal and was given one that the function
    /// doesn't allow. `None`: there is no such parameter.
    fn wrong_literal(&self, given: &Givens) -> Option<usize>
        ensures { result ≡ first_wrong (row self.now) (givens_of given.now) }
    {
        let mut place = 0;
        let mut left = self.parameters();
        while let Some((parameter, others)) = left.split_first() {
            if parameter.literal {
                if let Some(literal) = given.literal(place) {
                    if !self.accepts(place, literal) {
                        return Some(place);
                    }
                }
            }
            place += 1;
            left = others;
        }
        None
    }

    /// The kind of the result of a call with such arguments. Each required parameter has an
    /// argument, each argument for a parameter that wants a literal is one that is allowed, and
    /// each regex among the literals is one of the patterns. `Memory`: want of memory.
    fn result_kind(
        &self,
        alloc: Global,
        given: &Givens,
        patterns: &Patterns,
    ) -> Result<Kind, Memory>
        requires given { AreGiven (row self.now) (givens_of given.now) }
        requires regexes { IsTrue (literals_below (length patterns.now) (givens_of given.now)) }
        ensures { IfOk result
            (λ kind. SameSets (tags_at kind) ((row self.now).kind (givens_of given.now) patterns.now)) };

    /// Whether a call with such arguments may fail though they are allowed. The conditions are
    /// those of `result_kind` on what is given.
    fn may_fail(&self, given: &Givens) -> bool
        requires { AreGiven (row self.now) (givens_of given.now) }
        ensures { result ≡ (row self.now).may_fail (givens_of given.now) };

    /// Calls the function. Each required parameter has an argument, each argument has a tag that
    /// its parameter allows and is a literal that the function allows where one is wanted, and each
    /// regex in the arguments is one of the patterns. `Failed` comes exactly where the row has a
    /// text. `Memory`: out of memory, for a text, an array or an object that is answered, or where
    /// the call uses memory.
    fn apply(&self, alloc: Global, arguments: &Arguments<'_>, setting: &Setting<'_, '_>) -> Applied
        requires arguments { AreArguments (row self.now) (arguments_of arguments.now) }
        requires regexes { IsTrue (arguments_below (length setting.now.searches.now) (arguments_of arguments.now)) }
        ensures { Applies (uses_memory self.now (arguments_of arguments.now))
            ((row self.now).means (arguments_of arguments.now) (setting_of setting.now)) result };

    /// What a call answers is what was known of it before.
    ghost law: { (function : Self) → KeepsLaw (row function) };
}
