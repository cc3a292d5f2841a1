ghost use Rattle.std.specs.Prelude.{◌<◌, ◌≤◌, IfErr, IfOk, OnOk, length};
ghost use Rattle.vrl_syntax.specs.View.{expr_of};
ghost use Rattle.vrl_parse.specs.Descent.{level as level_rule, program_of, refused, Runs, took};
ghost use Rattle.vrl_parse.specs.FirstWords.{OnRefusal, words_left};

use crate::parser::Parser;
use crate::stop::Stop;
use vrl_syntax::Expr;
use vrl_word::forms;

// How many levels the operators have.
const LEVELS: usize = 8;

impl<'a> Parser<'a> {
    // Takes operands and the operators between them, those of this level and tighter ones. Each level groups to the
    // left.
    #[cycle(parser)]
    pub(crate) fn level(&mut self, level: usize) -> Result<Expr, Stop>
        requires { level ≤ LEVELS }
        ensures takes { IfOk result
            (λ x. Runs (level_rule level) (program_of (level_rule level)) (words_left self.old)
            (took (expr_of x) (words_left self.new))) }
        ensures refuses { IfErr result
            (OnRefusal (Runs (level_rule level) (program_of (level_rule level)) (words_left self.old)
            (refused (words_left self.new)))) }
        ensures shorter { OnOk result (length self.new.rest.now < length self.old.rest.now) }
    {
        if level == LEVELS {
            return self.operand();
        }
        let mut left = self.level(level + 1)?;
        while let Some((op, _)) = self.operator(level) {
            let right = self.level(level + 1)?;
            left = forms::joined(self.alloc, op, left, right)?;
        }
        Ok(left)
    }
}
