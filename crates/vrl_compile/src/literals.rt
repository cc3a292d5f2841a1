ghost use Rattle.std.specs.Prelude.{◌≡◌, ◌≢◌, ◌++◌, ◌∷◌, [], ◌+◌, IfErr, IfOk, List, MatchResult, ℕ, OnOk};
ghost use Rattle.vrl_parse.specs.Reading.{sources_of};
ghost use Rattle.vrl_pattern.specs.Malformed.{malformed_from};
ghost use Rattle.vrl_compile.specs.Answer.{malformed_at, malformed_literals};
ghost use Rattle.vrl_compile.specs.Literals.{OnMalformed};

use std::alloc::Global;
use vrl_diag::{Diagnostic, Span, code};
use vrl_pattern::{BuildFault, Numbers, Patterns};
use vrl_token::{Spanned, Token, Tokens};
use vrl_value::{Memory, Names};

// Why the regex literals of a script aren't built.
#[derive(Drop)]
pub(crate) enum LiteralFault {
    // 101 at each that is malformed, in order; there is at least one.
    Malformed(Vec<Diagnostic>),
    // Want of memory.
    Memory,
}

impl From<Memory> for LiteralFault {
    ghost use Rattle.std.specs.Prelude.{◌≡◌};
    ghost use Rattle.vrl_compile.specs.declared.literals.LiteralFault.{LiteralFault};

    ghost from_gives = { λ _ fault. fault ≡ LiteralFault.Memory };

    fn from(_refused: Memory) -> LiteralFault {
        LiteralFault::Memory
    }
}

// The regex literals among the tokens, built.
pub(crate) fn build_literals(
    alloc: Global,
    tokens: &Tokens,
    sources: &Names,
) -> Result<Patterns, LiteralFault>
    requires { sources.now ≡ sources_of tokens.now.tokens }
    ensures sources { IfOk result (λ patterns. patterns ≡ sources.now) }
    ensures formed { IfOk result (λ _. malformed_literals tokens.now.tokens ≡ []) }
    ensures malformed { IfErr result
        (OnMalformed (λ found. (found ≡ malformed_literals tokens.now.tokens) × (found ≢ []))) }
{
    match Patterns::build(alloc, sources) {
        Ok(patterns) => Ok(patterns),
        Err(fault) => {
            let numbers = malformed_numbers(fault)?;
            let found = literals_at(alloc, tokens.as_slice(), numbers.as_slice())?;
            Err(LiteralFault::Malformed(found))
        }
    }
}

// The numbers of the literals that are malformed. `Memory`: none is told, since memory was wanted.
fn malformed_numbers(fault: BuildFault) -> Result<Numbers, Memory>
    ensures { MatchResult result (λ numbers. fault ≡ BuildFault.Malformed numbers) (λ _. fault ≡ BuildFault.Memory) }
{
    match fault {
        BuildFault::Malformed(numbers) => Ok(numbers),
        BuildFault::Memory => Err(Memory),
    }
}

// 101 at each regex literal that has one of these numbers, which ascend; the first literal has the
// number 0.
fn literals_at(
    alloc: Global,
    tokens: &[Spanned],
    numbers: &[u32],
) -> Result<Vec<Diagnostic>, Memory>
    requires { numbers.now ≡ malformed_from 0 (sources_of tokens.now) }
    ensures { IfOk result (λ found. found.items ≡ malformed_literals tokens.now) }
{
    let mut found = Vec::new(alloc);
    let mut left = numbers;
    let mut number = 0;
    let mut rest = tokens;
    while let Some((token, behind)) = rest.split_first() {
        if let Token::Regex(_) = &token.token {
            left = add_if_next(token.span, number, left, &mut found)?;
            number += 1;
        }
        rest = behind;
    }
    Ok(found)
}

// Adds 101 at the literal of this number, if that is the first of the numbers, and gives those
// behind it.
fn add_if_next<'a>(
    span: Span,
    number: usize,
    numbers: &'a [u32],
    found: &mut Vec<Diagnostic>,
) -> Result<&'a [u32], Memory>
    ensures left { IfOk result (λ left. (source : List ℕ) (sources : List (List ℕ))
        → numbers.now ≡ malformed_from number (source ∷ sources)
        → left.now ≡ malformed_from (number + 1) sources) }
    ensures added { OnOk result ((source : List ℕ) (sources : List (List ℕ))
        → numbers.now ≡ malformed_from number (source ∷ sources)
        → found.new.items ≡ found.old.items ++ malformed_at span (source ∷ [])) }
{
    match numbers.split_first() {
        Some((first, behind)) if *first as usize == number => {
            let code = code::MALFORMED_REGEX;
            found.push(Diagnostic { code, span })?;
            Ok(behind)
        }
        _ => Ok(numbers),
    }
}
