ghost use Rattle.std.specs.Prelude.{◌<◌, ◌≤◌, IfErr, IfOk, OnOk, length};
ghost use Rattle.vrl_syntax.specs.View.{exprs_of, pairs_of};
ghost use Rattle.vrl_parse.specs.Descent.{pairs as pairs_rule, parts as parts_rule, program_of, refused, Runs, took};
ghost use Rattle.vrl_parse.specs.FirstWords.{OnRefusal, words_left};

use crate::parser::Parser;
use crate::stop::Stop;
use vrl_syntax::{Exprs, Pairs};
use vrl_word::Sign;

impl<'a> Parser<'a> {
    // Takes the parts of an array, up to its closing bracket.
    #[cycle(parser)]
    pub(crate) fn parts(&mut self) -> Result<Exprs, Stop>
        ensures takes { IfOk result
            (λ x. Runs parts_rule (program_of parts_rule) (words_left self.old)
            (took (exprs_of x) (words_left self.new))) }
        ensures refuses { IfErr result
            (OnRefusal (Runs parts_rule (program_of parts_rule) (words_left self.old)
            (refused (words_left self.new)))) }
        ensures shorter { OnOk result (length self.new.rest.now ≤ length self.old.rest.now) }
    {
        let mut parts = Vec::new(self.alloc);
        loop {
            if self.is_next(Sign::CloseBracket) {
                return Ok(Exprs::new(parts));
            }
            parts.push(self.single()?)?;
            let Some(_) = self.take(Sign::Comma) else {
                return Ok(Exprs::new(parts));
            };
        }
    }

    // Takes the keys and values of an object, up to its closing brace.
    #[cycle(parser)]
    pub(crate) fn pairs(&mut self) -> Result<Pairs, Stop>
        ensures takes { IfOk result
            (λ x. Runs pairs_rule (program_of pairs_rule) (words_left self.old)
            (took (pairs_of x) (words_left self.new))) }
        ensures refuses { IfErr result
            (OnRefusal (Runs pairs_rule (program_of pairs_rule) (words_left self.old)
            (refused (words_left self.new)))) }
        ensures shorter { OnOk result (length self.new.rest.now ≤ length self.old.rest.now) }
    {
        let mut pairs = Vec::new(self.alloc);
        loop {
            if self.is_next(Sign::CloseBrace) {
                return Ok(Pairs::new(pairs));
            }
            let (key, _) = self.key()?;
            self.expect(Sign::Colon)?;
            let value = self.single()?;
            pairs.push((key, value))?;
            let Some(_) = self.take(Sign::Comma) else {
                return Ok(Pairs::new(pairs));
            };
        }
    }
}
