ghost use Rattle.std.specs.Prelude.{◌≡◌, ◌++◌, ◌∷◌, IfErr, IfOk, List, MatchOption, OnOk};
ghost use Rattle.vrl_diag.specs.declared.diagnostic.Diagnostic.{Diagnostic as SpecDiagnostic};
ghost use Rattle.std.specs.List.{Contains};
ghost use Rattle.vrl_syntax.specs.Limits.{exprs_faults, KeepsLimits};
ghost use Rattle.vrl_syntax.specs.Regexes.{IsNumbered};
ghost use Rattle.vrl_syntax.specs.View.{exprs_of, script_of};
ghost use Rattle.vrl_token.specs.OnFault.{OnFault};
ghost use Rattle.vrl_parse.specs.FirstWords.{fault_of};
ghost use Rattle.vrl_parse.specs.Reading.{parse_codes, IsScriptFault, Reads, sources_of};
ghost use Rattle.vrl_word.specs.Words.{regex_of};

use crate::parser::Parser;
use crate::stop::Stop;
use std::alloc::Global;
use vrl_diag::{Diagnostic, Span, code};
use vrl_syntax::{Exprs, Script, limit_faults};
use vrl_token::{Spanned, SyntaxFault, Token, Tokens};
use vrl_value::{Chars, Memory, Names};

/// The script that the grammar reads in these tokens, whose written and deleted paths keep their limits.
///
/// # Errors
///
/// `Fault`: 203 where no script is read, at the first token such that none begins with the tokens up to and
/// with it, or, where there is no such token, at the end of the text; else 1012 for the first, by place, of
/// the paths that are written or deleted and have an index above 65,535 or below -65,536, or more than 128
/// steps. `Memory`: want of memory.
pub fn parse(alloc: Global, tokens: &Tokens) -> Result<Script, SyntaxFault>
    ensures script { IfOk result (λ script. Reads tokens.now.tokens (script_of script)) }
    ensures limits { IfOk result (λ script. KeepsLimits (exprs_of script.items)) }
    ensures regexes { IfOk result (λ script. IsNumbered (script_of script)) }
    ensures fault { IfErr result (OnFault (IsScriptFault tokens.now)) }
    ensures codes { IfErr result (OnFault (λ fault. Contains parse_codes fault.code)) }
{
    let words = tokens.as_slice();
    let mut parser = Parser::new(alloc, words);
    let items = match parser.script() {
        Ok(items) => items,
        Err(stop) => return Err(told(stop, parser.place(tokens.end()))),
    };
    if !parser.is_done() {
        return Err(told(Stop::Refused, parser.place(tokens.end())));
    }
    if let Some(fault) = first_fault(alloc, &items)? {
        return Err(SyntaxFault::Fault(fault));
    }
    let patterns = sources(alloc, words)?;
    Ok(Script { items, patterns })
}

// What is told where the parser stops at this place.
fn told(stop: Stop, place: Span) -> SyntaxFault
    ensures { result ≡ fault_of stop place }
{
    match stop {
        Stop::Refused => SyntaxFault::Fault(Diagnostic {
            code: code::UNRECOGNIZED_TOKEN,
            span: place,
        }),
        Stop::Memory => SyntaxFault::Memory,
    }
}

// The first thing that is wrong with the paths that items write or delete.
fn first_fault(alloc: Global, items: &Exprs) -> Result<Option<Diagnostic>, Memory>
    ensures { IfOk result
        (λ first. MatchOption first (KeepsLimits (exprs_of items.now)) (λ fault. (others : List SpecDiagnostic)
        × (exprs_faults (exprs_of items.now) ≡ fault ∷ others))) }
{
    let faults = limit_faults(alloc, items)?;
    match faults.as_slice().split_first() {
        Some((first, _)) => Ok(Some(*first)),
        None => Ok(None),
    }
}

// The sources of the regex literals, in order.
fn sources(alloc: Global, words: &[Spanned]) -> Result<Names, Memory>
    ensures { IfOk result (λ names. names ≡ sources_of words.now) }
{
    let mut found: Vec<Chars> = Vec::new(alloc);
    let mut rest = words;
    while let Some((first, behind)) = rest.split_first() {
        add_source(alloc, &first.token, &mut found)?;
        rest = behind;
    }
    Ok(Names::new(found))
}

// Adds the source of a token that is a regex literal.
fn add_source(alloc: Global, token: &Token, found: &mut Vec<Chars>) -> Result<(), Memory>
    ensures { OnOk result (found.new.items ≡ found.old.items ++ regex_of token.now) }
{
    match token {
        Token::Regex(source) => {
            found.push(source.copy(alloc)?)?;
            Ok(())
        }
        _ => Ok(()),
    }
}
