ghost use Rattle.std.specs.Prelude.{◌<◌, ◌≤◌, IfErr, IfOk, OnOk, length};
ghost use Rattle.vrl_syntax.specs.View.{expr_of, exprs_of};
ghost use Rattle.vrl_parse.specs.Descent.{aborting, assignment as assigning, item as item_rule, merging, program_of, refused, Runs, script as script_rule, single as single_rule, took};
ghost use Rattle.vrl_parse.specs.FirstWords.{OnRefusal, words_left};

use crate::parser::Parser;
use crate::stop::Stop;
use vrl_diag::Span;
use vrl_syntax::{Expr, Exprs};
use vrl_word::{Sign, forms};

impl<'a> Parser<'a> {
    // Takes items, and the separators before, between and behind them.
    #[cycle(parser)]
    pub(crate) fn script(&mut self) -> Result<Exprs, Stop>
        ensures takes { IfOk result
            (λ x. Runs script_rule (program_of script_rule) (words_left self.old)
            (took (exprs_of x) (words_left self.new))) }
        ensures refuses { IfErr result
            (OnRefusal (Runs script_rule (program_of script_rule) (words_left self.old)
            (refused (words_left self.new)))) }
        ensures shorter { OnOk result (length self.new.rest.now ≤ length self.old.rest.now) }
    {
        let mut items = Vec::new(self.alloc);
        loop {
            if let Some(_) = self.take(Sign::Separator) {
                continue;
            }
            if self.is_done() {
                return Ok(Exprs::new(items));
            }
            if self.is_next(Sign::CloseBrace) {
                return Ok(Exprs::new(items));
            }
            items.push(self.item()?)?;
            let Some(_) = self.take(Sign::Separator) else {
                return Ok(Exprs::new(items));
            };
        }
    }

    // Takes an item.
    #[cycle(parser)]
    pub(crate) fn item(&mut self) -> Result<Expr, Stop>
        ensures takes { IfOk result
            (λ x. Runs item_rule (program_of item_rule) (words_left self.old)
            (took (expr_of x) (words_left self.new))) }
        ensures refuses { IfErr result
            (OnRefusal (Runs item_rule (program_of item_rule) (words_left self.old) (refused (words_left self.new)))) }
        ensures shorter { OnOk result (length self.new.rest.now < length self.old.rest.now) }
    {
        if !self.is_path_before(Sign::Comma) {
            return self.single();
        }
        let (target, start) = self.target()?;
        self.expect(Sign::Comma)?;
        let (error, _) = self.target()?;
        self.expect(Sign::Assign)?;
        let value = self.single()?;
        Ok(forms::both(self.alloc, start, target, error, value)?)
    }

    // Takes an expression that may be an argument.
    #[cycle(parser)]
    pub(crate) fn single(&mut self) -> Result<Expr, Stop>
        ensures takes { IfOk result
            (λ x. Runs single_rule (program_of single_rule) (words_left self.old)
            (took (expr_of x) (words_left self.new))) }
        ensures refuses { IfErr result
            (OnRefusal (Runs single_rule (program_of single_rule) (words_left self.old)
            (refused (words_left self.new)))) }
        ensures shorter { OnOk result (length self.new.rest.now < length self.old.rest.now) }
    {
        if self.is_path_before(Sign::Assign) {
            return self.assignment();
        }
        if self.is_path_before(Sign::MergeAssign) {
            return self.merge();
        }
        if let Some(start) = self.take(Sign::Return) {
            let value = self.single()?;
            return Ok(forms::return_of_value(self.alloc, start, value)?);
        }
        if let Some(start) = self.take(Sign::Abort) {
            return self.abort(start);
        }
        self.level(0)
    }

    // Takes an assignment.
    #[cycle(parser)]
    fn assignment(&mut self) -> Result<Expr, Stop>
        ensures takes { IfOk result
            (λ x. Runs single_rule assigning (words_left self.old) (took (expr_of x) (words_left self.new))) }
        ensures refuses { IfErr result
            (OnRefusal (Runs single_rule assigning (words_left self.old) (refused (words_left self.new)))) }
        ensures shorter { OnOk result (length self.new.rest.now < length self.old.rest.now) }
    {
        let (target, start) = self.target()?;
        self.expect(Sign::Assign)?;
        let value = self.single()?;
        Ok(forms::assignment(self.alloc, start, target, value)?)
    }

    // Takes an assignment that merges.
    #[cycle(parser)]
    fn merge(&mut self) -> Result<Expr, Stop>
        ensures takes { IfOk result
            (λ x. Runs single_rule merging (words_left self.old) (took (expr_of x) (words_left self.new))) }
        ensures refuses { IfErr result
            (OnRefusal (Runs single_rule merging (words_left self.old) (refused (words_left self.new)))) }
        ensures shorter { OnOk result (length self.new.rest.now < length self.old.rest.now) }
    {
        let (target, start) = self.target()?;
        self.expect(Sign::MergeAssign)?;
        let value = self.single()?;
        Ok(forms::merge(self.alloc, start, target, value)?)
    }

    // Takes the message of an `abort` that stands there, where there is one.
    #[cycle(parser)]
    fn abort(&mut self, start: Span) -> Result<Expr, Stop>
        ensures takes { IfOk result
            (λ x. Runs single_rule (aborting start) (words_left self.old) (took (expr_of x) (words_left self.new))) }
        ensures refuses { IfErr result
            (OnRefusal (Runs single_rule (aborting start) (words_left self.old) (refused (words_left self.new)))) }
        ensures shorter { OnOk result (length self.new.rest.now ≤ length self.old.rest.now) }
    {
        if self.ends_expression() {
            return Ok(forms::abort(start, None));
        }
        let message = self.single()?;
        Ok(forms::abort_with_message(self.alloc, start, message)?)
    }
}
