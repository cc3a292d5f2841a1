ghost use Rattle.std.specs.Prelude.{◌≡◌, [], ◌∷◌, true, length, IfOk};
ghost use Rattle.vrl_syntax.specs.Calls.{has_shape, is_closure_form};
ghost use Rattle.vrl_syntax.specs.View.{args_of, call_of};
ghost use Rattle.vrl_store.specs.StoreView.{Names as VariableNames};
ghost use Rattle.vrl_resolve.specs.Calls as called;
ghost use Rattle.vrl_resolve.specs.Linking.{names_in, AreSlotsOf, IsBeginning, IsCalleeIn, IsLoopBy, IsLoopIn, IsLoopOf, IsPathCallee, IsSlotOf, Numbers};

use crate::bound::{function_callee, iteration_form, path_of};
use crate::link::Linker;
use crate::node::{Callee, Loop};
use vrl_syntax::{Args, Call as SyntaxCall, CallForm};
use vrl_value::{Chars, Memory, Names};

impl Linker<'_> {
    // The function that runs the closure of a call, with the variables of its names. `None`:
    // nothing runs one. `Memory`: want of memory.
    pub(crate) fn function(&mut self, call: &SyntaxCall) -> Result<Option<Loop>, Memory>
        ensures { IfOk result
            (λ function. Numbers self.old self.new (λ names. IsLoopIn names (call_of call.now) function)) }
    {
        match &call.closure {
            Some(closure) => self.function_of(call.name.as_str(), &closure.names, &call.args),
            None => Ok(None),
        }
    }

    // The same of a closure with these names, in a call of this name with these arguments.
    // `Memory`: want of memory.
    fn function_of(
        &mut self,
        name: &str,
        names: &Names,
        args: &Args,
    ) -> Result<Option<Loop>, Memory>
        ensures { IfOk result
            (λ function. Numbers self.old self.new
            (λ variables. IsLoopBy variables name.now names.now (args_of args.now) function)) }
    {
        let form = iteration_form(self.alloc, name, names, args)?;
        match form {
            Some(form) => {
                let function = self.numbered(form, names)?;
                Ok(Some(function))
            }
            None => Ok(None),
        }
    }

    // The function of a form with the variables of a closure's names. `Memory`: want of memory.
    fn numbered(&mut self, form: CallForm, names: &Names) -> Result<Loop, Memory>
        requires closure { is_closure_form (Some form) ≡ true }
        requires shape { has_shape form names.now ≡ true }
        ensures { IfOk result
            (λ function. Numbers self.old self.new (λ variables. IsLoopOf variables form names.now function)) }
    {
        let names = names.as_slice();
        match form {
            CallForm::ForEach => {
                let (key, value) = self.two_slots(names)?;
                Ok(Loop::ForEach(key, value))
            }
            CallForm::Filter => {
                let (key, value) = self.two_slots(names)?;
                Ok(Loop::Filter(key, value))
            }
            CallForm::MapValues => {
                let value = self.one_slot(names)?;
                Ok(Loop::MapValues(value))
            }
            CallForm::MapKeys => {
                let key = self.one_slot(names)?;
                Ok(Loop::MapKeys(key))
            }
            CallForm::Del => unreachable!(),
            CallForm::Exists => unreachable!(),
        }
    }

    // The variables of two names. `Memory`: want of memory.
    fn two_slots(&mut self, names: &[Chars]) -> Result<(Option<usize>, Option<usize>), Memory>
        requires { length names.now ≡ 2 }
        ensures { IfOk result
            (λ slots. Numbers self.old self.new
            (λ variables. AreSlotsOf variables names.now (slots.0 ∷ slots.1 ∷ []))) }
    {
        let first = self.slot(names[0].as_str())?;
        let second = self.slot(names[1].as_str())?;
        Ok((first, second))
    }

    // The variable of one name. `Memory`: want of memory.
    fn one_slot(&mut self, names: &[Chars]) -> Result<Option<usize>, Memory>
        requires { length names.now ≡ 1 }
        ensures { IfOk result
            (λ slot. Numbers self.old self.new (λ variables. AreSlotsOf variables names.now (slot ∷ []))) }
    {
        self.slot(names[0].as_str())
    }

    // The variable of a closure's name; none of `_`. `Memory`: want of memory.
    fn slot(&mut self, name: &str) -> Result<Option<usize>, Memory>
        ensures { IfOk result (λ slot. Numbers self.old self.new (λ variables. IsSlotOf variables name.now slot)) }
    {
        if name == "_" {
            return Ok(None);
        }
        let number = self.number(name)?;
        Ok(Some(number))
    }

    // What a call calls that runs no closure. `Memory`: want of memory.
    pub(crate) fn callee(&mut self, call: &SyntaxCall) -> Result<Callee, Memory>
        requires { (names : VariableNames) → IsBeginning (names_in self.old) names
            → IsLoopIn names (call_of call.now) None }
        ensures { IfOk result
            (λ callee. Numbers self.old self.new (λ names. IsCalleeIn names (call_of call.now) callee)) }
    {
        if call.closure.is_some() {
            return Ok(Callee::Nothing);
        }
        let name = call.name.as_str();
        match CallForm::named(name) {
            Some(CallForm::Del) => self.deletion(&call.args),
            Some(CallForm::Exists) => self.existence(&call.args),
            _ => function_callee(self.alloc, name, &call.args),
        }
    }

    // What `del` deletes. `Memory`: want of memory.
    fn deletion(&mut self, args: &Args) -> Result<Callee, Memory>
        ensures { IfOk result
            (λ callee. Numbers self.old self.new
            (λ names. IsPathCallee names called.deletion (args_of args.now) callee)) }
    {
        match path_of(args) {
            Some((root, path)) => {
                let path = path.copy(self.alloc)?;
                Ok(Callee::Deletion(self.target_path(root, path)?))
            }
            None => Ok(Callee::Nothing),
        }
    }

    // What `exists` looks at. `Memory`: want of memory.
    fn existence(&mut self, args: &Args) -> Result<Callee, Memory>
        ensures { IfOk result
            (λ callee. Numbers self.old self.new
            (λ names. IsPathCallee names called.existence (args_of args.now) callee)) }
    {
        match path_of(args) {
            Some((root, path)) => {
                let path = path.copy(self.alloc)?;
                Ok(Callee::Existence(self.target_path(root, path)?))
            }
            None => Ok(Callee::Nothing),
        }
    }
}
