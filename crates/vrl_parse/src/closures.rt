ghost use Rattle.std.specs.Prelude.{◌<◌, IfErr, IfOk, OnOk, length};
ghost use Rattle.vrl_syntax.specs.View.{exprs_of};
ghost use Rattle.vrl_parse.specs.Descent.{braces, closing, names as names_rule, program_of, refused, Runs, took};
ghost use Rattle.vrl_parse.specs.FirstWords.{OnRefusal, words_left};

use crate::parser::Parser;
use crate::stop::Stop;
use vrl_diag::Span;
use vrl_syntax::Exprs;
use vrl_value::{Chars, Names};
use vrl_word::{Sign, over};

impl<'a> Parser<'a> {
    // Takes a closure: its names, the items of its block, and the block's place.
    #[cycle(parser)]
    pub(crate) fn closure(&mut self) -> Result<(Names, Exprs, Span), Stop>
        ensures takes { IfOk result
            (λ x. Runs closing (program_of closing) (words_left self.old)
            (took (x.0, exprs_of x.1, x.2) (words_left self.new))) }
        ensures refuses { IfErr result
            (OnRefusal (Runs closing (program_of closing) (words_left self.old) (refused (words_left self.new)))) }
        ensures shorter { OnOk result (length self.new.rest.now < length self.old.rest.now) }
    {
        self.expect(Sign::Arrow)?;
        self.expect(Sign::OpenBars)?;
        let names = self.names()?;
        self.expect(Sign::CloseBars)?;
        let (body, span) = self.block()?;
        Ok((names, body, span))
    }

    // Takes the names of a closure.
    fn names(&mut self) -> Result<Names, Stop>
        ensures takes { IfOk result
            (λ x. Runs names_rule (program_of names_rule) (words_left self.old) (took x (words_left self.new))) }
        ensures refuses { IfErr result
            (OnRefusal (Runs names_rule (program_of names_rule) (words_left self.old)
            (refused (words_left self.new)))) }
        ensures shorter { OnOk result (length self.new.rest.now < length self.old.rest.now) }
    {
        let mut names: Vec<Chars> = Vec::new(self.alloc);
        let (first, _) = self.name()?;
        names.push(first)?;
        while let Some(_) = self.take(Sign::Comma) {
            let (next, _) = self.name()?;
            names.push(next)?;
        }
        Ok(Names::new(names))
    }

    // Takes a block, and tells its place.
    #[cycle(parser)]
    pub(crate) fn block(&mut self) -> Result<(Exprs, Span), Stop>
        ensures takes { IfOk result
            (λ x. Runs braces (program_of braces) (words_left self.old)
            (took (exprs_of x.0, x.1) (words_left self.new))) }
        ensures refuses { IfErr result
            (OnRefusal (Runs braces (program_of braces) (words_left self.old) (refused (words_left self.new)))) }
        ensures shorter { OnOk result (length self.new.rest.now < length self.old.rest.now) }
    {
        let start = self.expect(Sign::OpenBlock)?;
        let body = self.script()?;
        let end = self.expect(Sign::CloseBrace)?;
        Ok((body, over(start, end)))
    }
}
