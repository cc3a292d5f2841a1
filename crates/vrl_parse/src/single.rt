ghost use Rattle.std.specs.Prelude.{◌≡◌, ◌≢◌, ◌+◌, ◌-◌, ◌^◌, ◌<◌, ◌≤◌, Err, IfErr, IfNone, IfOk, IfSome, IsErr, OnOk, OnSome, length};
ghost use Rattle.vrl_syntax.specs.View.{expr_of};
ghost use Rattle.vrl_value.specs.View.{tree_of};
ghost use Rattle.vrl_parse.specs.Descent.{function_word, key_word, literal_word, name_word, operator_word, path_word, sign_word, suffix_word, Takes, target_word, template_word};
ghost use Rattle.vrl_parse.specs.FirstWords.{Holds, Missing, OnRefusal, Without, words_left};
ghost use Rattle.vrl_word.specs.Signs.{token_of};
ghost use Rattle.vrl_word.specs.Words.{regex_of};

use crate::parser::Parser;
use crate::stop::Stop;
use vrl_diag::Span;
use vrl_path::Path;
use vrl_syntax::{Expr, Op, Root, Target};
use vrl_token::Token;
use vrl_value::{Chars, Memory, Value};
use vrl_word::{
    Sign, function_of, is_sign, literal_of, operator_of, path_of, target_of, template_of,
};

impl<'a> Parser<'a> {
    // Takes the next token where it is this sign, and tells its place.
    pub(crate) fn take(&mut self, sign: Sign) -> Option<Span>
        ensures takes { IfSome result
            (λ span. Takes (sign_word (token_of sign)) (words_left self.old) tt span (words_left self.new)) }
        ensures lacks { IfNone result (Without (sign_word (token_of sign)) (words_left self.old)) }
        ensures stays { IfNone result (words_left self.new ≡ words_left self.old) }
        ensures shorter { OnSome result (length self.new.rest.now < length self.old.rest.now) }
        ensures no_longer { length self.new.rest.now ≤ length self.old.rest.now }
    {
        let (first, rest) = self.rest.split_first()?;
        if !is_sign(&first.token, sign) {
            return None;
        }
        self.rest = rest;
        Some(first.span)
    }

    // The same; without it there is no script.
    pub(crate) fn expect(&mut self, sign: Sign) -> Result<Span, Stop>
        ensures takes { IfOk result
            (λ span. Takes (sign_word (token_of sign)) (words_left self.old) tt span (words_left self.new)) }
        ensures refuses { IfErr result
            (OnRefusal (Missing (sign_word (token_of sign)) (words_left self.old) (words_left self.new))) }
        ensures memory { result ≢ Err Stop.Memory }
        ensures shorter { OnOk result (length self.new.rest.now < length self.old.rest.now) }
    {
        match self.take(sign) {
            Some(span) => Ok(span),
            None => Err(Stop::Refused),
        }
    }

    // Takes the next token where it is an operator of this level, and tells its place.
    pub(crate) fn operator(&mut self, level: usize) -> Option<(Op, Span)>
        ensures takes { IfSome result
            (λ found. Takes (operator_word level) (words_left self.old) found.0 found.1 (words_left self.new)) }
        ensures lacks { IfNone result (Without (operator_word level) (words_left self.old)) }
        ensures stays { IfNone result (words_left self.new ≡ words_left self.old) }
        ensures shorter { OnSome result (length self.new.rest.now < length self.old.rest.now) }
        ensures no_longer { length self.new.rest.now ≤ length self.old.rest.now }
    {
        let (first, rest) = self.rest.split_first()?;
        let (its_level, op) = operator_of(&first.token)?;
        if its_level != level {
            return None;
        }
        self.rest = rest;
        Some((op, first.span))
    }

    // Takes the target of an assignment, and tells its place.
    pub(crate) fn target(&mut self) -> Result<(Target, Span), Stop>
        ensures takes { IfOk result
            (λ found. Takes target_word (words_left self.old) found.0 found.1 (words_left self.new)) }
        ensures refuses { IfErr result (OnRefusal (Missing target_word (words_left self.old) (words_left self.new))) }
        ensures memory { result ≡ Err Stop.Memory → Holds target_word (words_left self.old) }
        ensures shorter { OnOk result (length self.new.rest.now < length self.old.rest.now) }
    {
        let Some((first, rest)) = self.rest.split_first() else {
            return Err(Stop::Refused);
        };
        match target_of(self.alloc, first)? {
            Some(target) => {
                self.rest = rest;
                Ok((target, first.span))
            }
            None => Err(Stop::Refused),
        }
    }

    // Takes a name, and tells its place.
    pub(crate) fn name(&mut self) -> Result<(Chars, Span), Stop>
        ensures takes { IfOk result
            (λ found. Takes name_word (words_left self.old) found.0 found.1 (words_left self.new)) }
        ensures refuses { IfErr result (OnRefusal (Missing name_word (words_left self.old) (words_left self.new))) }
        ensures memory { result ≡ Err Stop.Memory → Holds name_word (words_left self.old) }
        ensures shorter { OnOk result (length self.new.rest.now < length self.old.rest.now) }
    {
        let Some((first, rest)) = self.rest.split_first() else {
            return Err(Stop::Refused);
        };
        match &first.token {
            Token::Name(name) => {
                self.rest = rest;
                Ok((name.copy(self.alloc)?, first.span))
            }
            _ => Err(Stop::Refused),
        }
    }

    // Takes the key of a part of an object, and tells its place.
    pub(crate) fn key(&mut self) -> Result<(Chars, Span), Stop>
        ensures takes { IfOk result
            (λ found. Takes key_word (words_left self.old) found.0 found.1 (words_left self.new)) }
        ensures refuses { IfErr result (OnRefusal (Missing key_word (words_left self.old) (words_left self.new))) }
        ensures memory { result ≡ Err Stop.Memory → Holds key_word (words_left self.old) }
        ensures shorter { OnOk result (length self.new.rest.now < length self.old.rest.now) }
    {
        let Some((first, rest)) = self.rest.split_first() else {
            return Err(Stop::Refused);
        };
        match &first.token {
            Token::Text(key) => {
                self.rest = rest;
                Ok((key.copy(self.alloc)?, first.span))
            }
            _ => Err(Stop::Refused),
        }
    }

    // Takes the name of a function and whether it has a bang, and tells the place of its token.
    pub(crate) fn function(&mut self) -> Result<((Chars, bool), Span), Stop>
        ensures takes { IfOk result
            (λ found. Takes function_word (words_left self.old) found.0 found.1 (words_left self.new)) }
        ensures refuses { IfErr result (OnRefusal (Missing function_word (words_left self.old) (words_left self.new))) }
        ensures memory { result ≡ Err Stop.Memory → Holds function_word (words_left self.old) }
        ensures shorter { OnOk result (length self.new.rest.now < length self.old.rest.now) }
    {
        let Some((first, rest)) = self.rest.split_first() else {
            return Err(Stop::Refused);
        };
        match function_of(self.alloc, &first.token)? {
            Some(function) => {
                self.rest = rest;
                Ok((function, first.span))
            }
            None => Err(Stop::Refused),
        }
    }

    // Takes a path or a name, and tells its place.
    pub(crate) fn path(&mut self) -> Result<((Root, Path), Span), Stop>
        ensures takes { IfOk result
            (λ found. Takes path_word (words_left self.old) found.0 found.1 (words_left self.new)) }
        ensures refuses { IfErr result (OnRefusal (Missing path_word (words_left self.old) (words_left self.new))) }
        ensures memory { result ≡ Err Stop.Memory → Holds path_word (words_left self.old) }
        ensures shorter { OnOk result (length self.new.rest.now < length self.old.rest.now) }
    {
        let Some((first, rest)) = self.rest.split_first() else {
            return Err(Stop::Refused);
        };
        match path_of(self.alloc, &first.token)? {
            Some(path) => {
                self.rest = rest;
                Ok((path, first.span))
            }
            None => Err(Stop::Refused),
        }
    }

    // Takes a literal, and tells its place. More regex literals than a number of 32 bits counts are want of memory.
    pub(crate) fn literal(&mut self) -> Result<(Value, Span), Stop>
        ensures takes { IfOk result
            (λ found. Takes literal_word (words_left self.old) (tree_of found.0) found.1 (words_left self.new)) }
        ensures refuses { IfErr result (OnRefusal (Missing literal_word (words_left self.old) (words_left self.new))) }
        ensures memory { result ≡ Err Stop.Memory → Holds literal_word (words_left self.old) }
        ensures shorter { OnOk result (length self.new.rest.now < length self.old.rest.now) }
    {
        let Some((first, rest)) = self.rest.split_first() else {
            return Err(Stop::Refused);
        };
        match literal_of(self.alloc, &first.token, self.patterns)? {
            Some(value) => {
                self.patterns = count_pattern(&first.token, self.patterns)?;
                self.rest = rest;
                Ok((value, first.span))
            }
            None => Err(Stop::Refused),
        }
    }

    // Takes a text with variables as the expression that it is, and tells its place.
    pub(crate) fn template(&mut self) -> Result<(Expr, Span), Stop>
        ensures takes { IfOk result
            (λ found. Takes template_word (words_left self.old) (expr_of found.0) found.1 (words_left self.new)) }
        ensures refuses { IfErr result (OnRefusal (Missing template_word (words_left self.old) (words_left self.new))) }
        ensures memory { result ≡ Err Stop.Memory → Holds template_word (words_left self.old) }
        ensures shorter { OnOk result (length self.new.rest.now < length self.old.rest.now) }
    {
        let Some((first, rest)) = self.rest.split_first() else {
            return Err(Stop::Refused);
        };
        match template_of(self.alloc, first)? {
            Some(template) => {
                self.rest = rest;
                Ok((template, first.span))
            }
            None => Err(Stop::Refused),
        }
    }

    // Takes a suffix where the next token is one, and tells its place.
    pub(crate) fn suffix(&mut self) -> Option<(&'a Path, Span)>
        ensures takes { IfSome result
            (λ found. Takes suffix_word (words_left self.old) found.0.now found.1 (words_left self.new)) }
        ensures lacks { IfNone result (Without suffix_word (words_left self.old)) }
        ensures stays { IfNone result (words_left self.new ≡ words_left self.old) }
        ensures no_longer { length self.new.rest.now ≤ length self.old.rest.now }
    {
        let (first, rest) = self.rest.split_first()?;
        match &first.token {
            Token::Suffix(path) => {
                self.rest = rest;
                Some((path, first.span))
            }
            _ => None,
        }
    }
}

// How many regex literals there are with this token, given how many there are before it.
fn count_pattern(token: &Token, number: u32) -> Result<u32, Memory>
    ensures count { IfOk result (λ count. count ≡ length (regex_of token.now) + number) }
    ensures memory { IsErr result → number ≡ 2 ^ 32 - 1 }
{
    match token {
        Token::Regex(_) => number.checked_add(1).ok_or(Memory),
        _ => Ok(number),
    }
}
