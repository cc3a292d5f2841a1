ghost use Rattle.std.specs.Prelude.{◌<◌, IfErr, IfOk, OnOk, length, option_map};
ghost use Rattle.vrl_syntax.specs.View.{arms_of, else_of, expr_of, exprs_of};
ghost use Rattle.vrl_parse.specs.Descent.{an_if, arms as arms_rule, operand as operand_rule, operand_program, program_of, refused, Runs, took};
ghost use Rattle.vrl_parse.specs.FirstWords.{OnRefusal, words_left};

use crate::parser::Parser;
use crate::stop::Stop;
use vrl_diag::Span;
use vrl_syntax::{Arms, Expr, Exprs};
use vrl_word::{Sign, forms};

impl<'a> Parser<'a> {
    // Takes an `if`, with all its blocks.
    #[cycle(parser)]
    pub(crate) fn conditional(&mut self) -> Result<Expr, Stop>
        ensures takes { IfOk result
            (λ x. Runs operand_rule (operand_program an_if) (words_left self.old)
            (took (expr_of x) (words_left self.new))) }
        ensures refuses { IfErr result
            (OnRefusal (Runs operand_rule (operand_program an_if) (words_left self.old)
            (refused (words_left self.new)))) }
        ensures shorter { OnOk result (length self.new.rest.now < length self.old.rest.now) }
    {
        let start = self.expect(Sign::If)?;
        let (arms, otherwise, end) = self.arms()?;
        Ok(forms::conditional(start, arms, otherwise, end))
    }

    // Takes what stands behind the word `if`: the predicates, their blocks, the block behind a last `else`,
    // and the place of the last block.
    #[cycle(parser)]
    fn arms(&mut self) -> Result<(Arms, Option<Exprs>, Span), Stop>
        ensures takes { IfOk result
            (λ x. Runs arms_rule (program_of arms_rule) (words_left self.old)
            (took (arms_of x.0, else_of (option_map exprs_of x.1), x.2) (words_left self.new))) }
        ensures refuses { IfErr result
            (OnRefusal (Runs arms_rule (program_of arms_rule) (words_left self.old) (refused (words_left self.new)))) }
        ensures shorter { OnOk result (length self.new.rest.now < length self.old.rest.now) }
    {
        let mut arms = Vec::new(self.alloc);
        loop {
            let predicate = self.level(0)?;
            let (body, end) = self.block()?;
            arms.push(forms::arm(predicate, body))?;
            let Some(_) = self.take(Sign::Else) else {
                return Ok((Arms::new(arms), None, end));
            };
            let Some(_) = self.take(Sign::If) else {
                let (otherwise, end) = self.block()?;
                return Ok((Arms::new(arms), Some(otherwise), end));
            };
        }
    }
}
