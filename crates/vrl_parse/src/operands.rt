ghost use Rattle.std.specs.Prelude.{◌<◌, ◌≤◌, IfErr, IfOk, OnOk, length};
ghost use Rattle.vrl_syntax.specs.View.{expr_of};
ghost use Rattle.vrl_parse.specs.Descent.{a_block, a_group, a_literal, a_negation, a_path, a_template, an_array, an_object, operand as operand_rule, operand_program, program_of, refused, Runs, suffixed, took};
ghost use Rattle.vrl_parse.specs.FirstWords.{OnRefusal, words_left};

use crate::parser::{Operand, Parser};
use crate::stop::Stop;
use vrl_syntax::Expr;
use vrl_value::Memory;
use vrl_word::{Sign, forms};

impl<'a> Parser<'a> {
    // Takes an operand.
    #[cycle(parser)]
    pub(crate) fn operand(&mut self) -> Result<Expr, Stop>
        ensures takes { IfOk result
            (λ x. Runs operand_rule (program_of operand_rule) (words_left self.old)
            (took (expr_of x) (words_left self.new))) }
        ensures refuses { IfErr result
            (OnRefusal (Runs operand_rule (program_of operand_rule) (words_left self.old)
            (refused (words_left self.new)))) }
        ensures shorter { OnOk result (length self.new.rest.now < length self.old.rest.now) }
    {
        match self.next_operand() {
            Operand::Negation => self.negation(),
            Operand::Call => self.call(),
            Operand::Array => self.array(),
            Operand::Group => self.group(),
            Operand::Object => self.object(),
            Operand::Block => self.braced(),
            Operand::Conditional => self.conditional(),
            Operand::Path => self.read(),
            Operand::Template => self.summed(),
            Operand::Literal => self.constant(),
        }
    }

    // Takes a negation.
    #[cycle(parser)]
    fn negation(&mut self) -> Result<Expr, Stop>
        ensures takes { IfOk result
            (λ x. Runs operand_rule (operand_program a_negation) (words_left self.old)
            (took (expr_of x) (words_left self.new))) }
        ensures refuses { IfErr result
            (OnRefusal (Runs operand_rule (operand_program a_negation) (words_left self.old)
            (refused (words_left self.new)))) }
        ensures shorter { OnOk result (length self.new.rest.now < length self.old.rest.now) }
    {
        let start = self.expect(Sign::Not)?;
        let inner = self.operand()?;
        Ok(forms::negation(self.alloc, start, inner)?)
    }

    // Takes a group and its suffix.
    #[cycle(parser)]
    fn group(&mut self) -> Result<Expr, Stop>
        ensures takes { IfOk result
            (λ x. Runs operand_rule (operand_program a_group) (words_left self.old)
            (took (expr_of x) (words_left self.new))) }
        ensures refuses { IfErr result
            (OnRefusal (Runs operand_rule (operand_program a_group) (words_left self.old)
            (refused (words_left self.new)))) }
        ensures shorter { OnOk result (length self.new.rest.now < length self.old.rest.now) }
    {
        let start = self.expect(Sign::OpenParenthesis)?;
        let inner = self.item()?;
        let end = self.expect(Sign::CloseParenthesis)?;
        let group = forms::group(self.alloc, start, inner, end)?;
        Ok(self.with_suffix(group)?)
    }

    // Takes an array and its suffix.
    #[cycle(parser)]
    fn array(&mut self) -> Result<Expr, Stop>
        ensures takes { IfOk result
            (λ x. Runs operand_rule (operand_program an_array) (words_left self.old)
            (took (expr_of x) (words_left self.new))) }
        ensures refuses { IfErr result
            (OnRefusal (Runs operand_rule (operand_program an_array) (words_left self.old)
            (refused (words_left self.new)))) }
        ensures shorter { OnOk result (length self.new.rest.now < length self.old.rest.now) }
    {
        let start = self.expect(Sign::OpenBracket)?;
        let parts = self.parts()?;
        let end = self.expect(Sign::CloseBracket)?;
        Ok(self.with_suffix(forms::array(start, parts, end))?)
    }

    // Takes an object.
    #[cycle(parser)]
    fn object(&mut self) -> Result<Expr, Stop>
        ensures takes { IfOk result
            (λ x. Runs operand_rule (operand_program an_object) (words_left self.old)
            (took (expr_of x) (words_left self.new))) }
        ensures refuses { IfErr result
            (OnRefusal (Runs operand_rule (operand_program an_object) (words_left self.old)
            (refused (words_left self.new)))) }
        ensures shorter { OnOk result (length self.new.rest.now < length self.old.rest.now) }
    {
        let start = self.expect(Sign::OpenObject)?;
        let pairs = self.pairs()?;
        let end = self.expect(Sign::CloseBrace)?;
        Ok(forms::object(start, pairs, end))
    }

    // Takes a block that is an operand.
    #[cycle(parser)]
    fn braced(&mut self) -> Result<Expr, Stop>
        ensures takes { IfOk result
            (λ x. Runs operand_rule (operand_program a_block) (words_left self.old)
            (took (expr_of x) (words_left self.new))) }
        ensures refuses { IfErr result
            (OnRefusal (Runs operand_rule (operand_program a_block) (words_left self.old)
            (refused (words_left self.new)))) }
        ensures shorter { OnOk result (length self.new.rest.now < length self.old.rest.now) }
    {
        let (body, span) = self.block()?;
        Ok(forms::block(body, span))
    }

    // Takes a path or a name that is read.
    fn read(&mut self) -> Result<Expr, Stop>
        ensures takes { IfOk result
            (λ x. Runs operand_rule (operand_program a_path) (words_left self.old)
            (took (expr_of x) (words_left self.new))) }
        ensures refuses { IfErr result
            (OnRefusal (Runs operand_rule (operand_program a_path) (words_left self.old)
            (refused (words_left self.new)))) }
        ensures shorter { OnOk result (length self.new.rest.now < length self.old.rest.now) }
    {
        let ((root, path), span) = self.path()?;
        Ok(forms::read(span, root, path))
    }

    // Takes a text with variables.
    fn summed(&mut self) -> Result<Expr, Stop>
        ensures takes { IfOk result
            (λ x. Runs operand_rule (operand_program a_template) (words_left self.old)
            (took (expr_of x) (words_left self.new))) }
        ensures refuses { IfErr result
            (OnRefusal (Runs operand_rule (operand_program a_template) (words_left self.old)
            (refused (words_left self.new)))) }
        ensures shorter { OnOk result (length self.new.rest.now < length self.old.rest.now) }
    {
        let (template, _) = self.template()?;
        Ok(template)
    }

    // Takes a literal.
    fn constant(&mut self) -> Result<Expr, Stop>
        ensures takes { IfOk result
            (λ x. Runs operand_rule (operand_program a_literal) (words_left self.old)
            (took (expr_of x) (words_left self.new))) }
        ensures refuses { IfErr result
            (OnRefusal (Runs operand_rule (operand_program a_literal) (words_left self.old)
            (refused (words_left self.new)))) }
        ensures shorter { OnOk result (length self.new.rest.now < length self.old.rest.now) }
    {
        let (value, span) = self.literal()?;
        Ok(forms::literal(span, value))
    }

    // An expression, queried by the suffix behind it where there is one.
    pub(crate) fn with_suffix(&mut self, inner: Expr) -> Result<Expr, Memory>
        ensures takes { IfOk result
            (λ x. Runs operand_rule (suffixed (expr_of inner)) (words_left self.old)
            (took (expr_of x) (words_left self.new))) }
        ensures no_longer { length self.new.rest.now ≤ length self.old.rest.now }
    {
        let Some((path, end)) = self.suffix() else {
            return Ok(inner);
        };
        let path = path.copy(self.alloc)?;
        Ok(forms::queried(self.alloc, inner, path, end)?)
    }
}
