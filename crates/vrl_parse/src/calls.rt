ghost use Rattle.std.specs.Prelude.{◌<◌, ◌≤◌, IfErr, IfOk, OnOk, length};
ghost use Rattle.vrl_syntax.specs.View.{arg_of, args_of, expr_of};
ghost use Rattle.vrl_parse.specs.Descent.{a_call, argument, arguments, calling, operand as operand_rule, operand_program, program_of, refused, Runs, took};
ghost use Rattle.vrl_parse.specs.FirstWords.{OnRefusal, words_left};

use crate::parser::Parser;
use crate::stop::Stop;
use vrl_diag::Span;
use vrl_syntax::{Arg, Args, Expr};
use vrl_value::Chars;
use vrl_word::{Sign, forms};

impl<'a> Parser<'a> {
    // Takes a call, with its closure or its suffix.
    #[cycle(parser)]
    pub(crate) fn call(&mut self) -> Result<Expr, Stop>
        ensures takes { IfOk result
            (λ x. Runs operand_rule (operand_program a_call) (words_left self.old)
            (took (expr_of x) (words_left self.new))) }
        ensures refuses { IfErr result
            (OnRefusal (Runs operand_rule (operand_program a_call) (words_left self.old)
            (refused (words_left self.new)))) }
        ensures shorter { OnOk result (length self.new.rest.now < length self.old.rest.now) }
    {
        let (function, start) = self.function()?;
        self.expect(Sign::OpenParenthesis)?;
        let args = self.args()?;
        let end = self.expect(Sign::CloseParenthesis)?;
        self.behind_call(function, start, args, end)
    }

    // Takes what stands behind the arguments of a call: its closure or its suffix.
    #[cycle(parser)]
    fn behind_call(
        &mut self,
        function: (Chars, bool),
        start: Span,
        args: Args,
        end: Span,
    ) -> Result<Expr, Stop>
        ensures takes { IfOk result
            (λ x. Runs operand_rule (calling function start (args_of args) end) (words_left self.old)
            (took (expr_of x) (words_left self.new))) }
        ensures refuses { IfErr result
            (OnRefusal (Runs operand_rule (calling function start (args_of args) end) (words_left self.old)
            (refused (words_left self.new)))) }
        ensures shorter { OnOk result (length self.new.rest.now ≤ length self.old.rest.now) }
    {
        if self.is_next(Sign::Arrow) {
            let closure = self.closure()?;
            return Ok(forms::call_with_closure(self.alloc, function, start, args, closure)?);
        }
        let call = forms::call(self.alloc, function, start, args, end)?;
        Ok(self.with_suffix(call)?)
    }

    // Takes the arguments of a call, up to its closing parenthesis.
    #[cycle(parser)]
    fn args(&mut self) -> Result<Args, Stop>
        ensures takes { IfOk result
            (λ x. Runs arguments (program_of arguments) (words_left self.old)
            (took (args_of x) (words_left self.new))) }
        ensures refuses { IfErr result
            (OnRefusal (Runs arguments (program_of arguments) (words_left self.old) (refused (words_left self.new)))) }
        ensures shorter { OnOk result (length self.new.rest.now ≤ length self.old.rest.now) }
    {
        let mut args = Vec::new(self.alloc);
        loop {
            if self.is_next(Sign::CloseParenthesis) {
                return Ok(Args::new(args));
            }
            args.push(self.arg()?)?;
            let Some(_) = self.take(Sign::Comma) else {
                return Ok(Args::new(args));
            };
        }
    }

    // Takes an argument.
    #[cycle(parser)]
    fn arg(&mut self) -> Result<Arg, Stop>
        ensures takes { IfOk result
            (λ x. Runs argument (program_of argument) (words_left self.old) (took (arg_of x) (words_left self.new))) }
        ensures refuses { IfErr result
            (OnRefusal (Runs argument (program_of argument) (words_left self.old) (refused (words_left self.new)))) }
        ensures shorter { OnOk result (length self.new.rest.now < length self.old.rest.now) }
    {
        if self.is_name_before(Sign::Colon) {
            let (name, start) = self.name()?;
            self.expect(Sign::Colon)?;
            let value = self.single()?;
            return Ok(forms::named(name, start, value));
        }
        Ok(forms::unnamed(self.single()?))
    }
}
