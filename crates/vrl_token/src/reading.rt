ghost use Rattle.std.specs.Prelude.{◌≡◌, ◌≤◌, All, Contains, IfErr, IfOk, IsErr, IsUtf8, List, length, ◌↔◌};
ghost use Rattle.vrl_token.specs.OnFault.{OnFault};
ghost use Rattle.vrl_token.specs.Placing.{HasStep, InOrderFrom, IsOnCharacters, IsWithin, script_limit, spans_of};
ghost use Rattle.vrl_token.specs.Reading.{IsNoScript, IsTextFault, IsTokenized, deep_nesting, lexical_codes};
ghost use Rattle.vrl_token.specs.declared.token.Spanned.{Spanned as SpecSpanned};

use crate::fault::SyntaxFault;
use crate::laws::tokens_are_determined;
use crate::lexer::lexemes;
use crate::nesting::is_nested_too_deeply;
use crate::telling::tell;
use crate::token::Tokens;
use std::alloc::Global;
use vrl_diag::{Diagnostic, Span, code};

/// How many bytes a script may have.
pub const SCRIPT_LIMIT: usize = 65_536;

// A diagnostic about no part of a text.
fn of_all(code: u16) -> Diagnostic
    ensures { result ≡ record { code = code; span = record { start = 0; «end» = 0 } } }
{
    Diagnostic {
        code,
        span: Span { start: 0, end: 0 },
    }
}

// That tokens are nested too deeply.
fn too_deep() -> SyntaxFault
    ensures { result ≡ SyntaxFault.Fault deep_nesting }
{
    SyntaxFault::Fault(of_all(code::NESTED_TOO_DEEPLY))
}

/// The text of a script. `Err`: 1009 at 0..0, where there are over 65,536 bytes or they are not
/// UTF-8 (RFC 3629). Takes no memory.
pub fn script_text(bytes: &[u8]) -> Result<&str, Diagnostic>
    ensures text { IfOk result (λ text. text.now ≡ bytes.now) }
    ensures ok { IfOk result (λ text. (length text.now ≤ script_limit) × IsUtf8 text.now) }
    ensures err { IsErr result ↔ IsNoScript bytes.now }
    ensures fault { IfErr result (λ fault. fault ≡ record { code = 1009; span = record { start = 0; «end» = 0 } }) }
{
    if bytes.len() > SCRIPT_LIMIT {
        return Err(of_all(code::SCRIPT_TOO_LONG_OR_NOT_UTF8));
    }
    match str::from_utf8(bytes) {
        Ok(text) => Ok(text),
        Err(_) => Err(of_all(code::SCRIPT_TOO_LONG_OR_NOT_UTF8)),
    }
}

/// The tokens of a text of at most 65,536 bytes. The text is scanned once, and its tokens are gone
/// over a few times.
///
/// `Fault`: the first of its spellings that is at fault, by place: 203 for what is no spelling,
/// 1001 for a float, 1002 for a number out of range, 1003 for an operator that is left out, 1014
/// for a timestamp that RFC 3339 doesn't read, and 1016 for a malformed template or a 257th regex
/// literal; and where none is, 1008 for tokens that are nested too deeply. `Memory`: want of
/// memory.
pub fn tokens(alloc: Global, text: &str) -> Result<Tokens, SyntaxFault>
    requires { length text.now ≤ script_limit }
    ensures ok { IfOk result (λ found. IsTokenized text.now found.tokens) }
    ensures end_is { IfOk result (λ found. found.«end» ≡ length text.now) }
    ensures spans { IfOk result (λ found. InOrderFrom 0 (length text.now) (spans_of found.tokens)) }
    ensures characters { IfOk result (λ found. All (λ t. IsOnCharacters text.now t.span) found.tokens) }
    ensures steps { IfOk result (λ found. All (λ t. HasStep t.token) found.tokens) }
    ensures fault { IfErr result (OnFault (IsTextFault text.now)) }
    ensures code { IfErr result (OnFault (λ d. Contains lexical_codes d.code)) }
    ensures place { IfErr result (OnFault (λ d. IsWithin (length text.now) d.span)) }
    ensures no_tokens { IfErr result (OnFault (λ _. (tokens : List SpecSpanned) → ¬ IsTokenized text.now tokens)) }
{
    tokens_are_determined();
    let found = tell(alloc, lexemes(alloc, text)?)?;
    if is_nested_too_deeply(alloc, &found)? {
        return Err(too_deep());
    }
    Ok(Tokens::new(found, text.len() as u32))
}
