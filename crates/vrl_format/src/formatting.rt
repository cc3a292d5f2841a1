ghost use Rattle.std.specs.Prelude.{◌≡◌, ◌≤◌, ℕ, All, IfErr, IfOk, IsErr, List, length, string_bytes};
ghost use Rattle.vrl_syntax.specs.Tree.{Script};
ghost use Rattle.vrl_token.specs.OnFault.{OnFault};
ghost use Rattle.vrl_token.specs.Placing.{InOrderFrom, IsOnCharacters, script_limit, spans_of};
ghost use Rattle.vrl_token.specs.Reading.{IsTokenized};
ghost use Rattle.vrl_format.specs.Formatting.{IsAnswer, IsFaultOf, IsReadTo, IsStill, KeepsMeaning};
ghost use Rattle.vrl_format.specs.Layout.{layout};
ghost use Rattle.vrl_format.specs.Pieces.{pieces_of};

use crate::laws::{layouts_mean_the_same, layouts_stay};
use crate::walk::walked;
use std::alloc::Global;
use vrl_diag::Diagnostic;
use vrl_parse::parse;
use vrl_token::{SCRIPT_LIMIT, Spanned, SyntaxFault, Tokens, tokens};
use vrl_value::{Chars, Memory};

/// What a formatter answers to a text.
#[derive(Drop)]
pub enum Formatted {
    /// Its layout.
    Text(Chars),
    /// It is no script, and this is why.
    Refused(Diagnostic),
    /// Its layout has over 65,536 bytes, which no script may have.
    TooLong,
}

// The tokens of a text that is a script.
fn read(alloc: Global, text: &str) -> Result<Tokens, SyntaxFault>
    requires { length text.now ≤ script_limit }
    ensures script { IfOk result (λ _. (script : Script) × IsReadTo text.now script) }
    ensures tokenized { IfOk result (λ found. IsTokenized text.now found.tokens) }
    ensures spans { IfOk result
        (λ found. InOrderFrom 0 (length text.now) (spans_of found.tokens)) }
    ensures characters { IfOk result
        (λ found. All (λ t. IsOnCharacters text.now t.span) found.tokens) }
    ensures fault { IfErr result (OnFault (IsFaultOf text.now)) }
{
    let found = tokens(alloc, text)?;
    parse(alloc, &found)?;
    Ok(found)
}

// What is answered for a text that is no script. `Memory`: memory was wanted for reading it.
fn refused(fault: SyntaxFault) -> Result<Formatted, Memory>
    ensures answer { (text : List ℕ) → OnFault (IsFaultOf text) fault
        → IfOk result (IsAnswer text) }
    ensures memory { IsErr result → fault ≡ SyntaxFault.Memory }
{
    match fault {
        SyntaxFault::Fault(diagnostic) => Ok(Formatted::Refused(diagnostic)),
        SyntaxFault::Memory => Err(Memory),
    }
}

// The layout of a text with these tokens.
fn layout(alloc: Global, text: &str, tokens: &[Spanned]) -> Result<String, Memory>
    requires short { length text.now ≤ script_limit }
    requires spans { InOrderFrom 0 (length text.now) (spans_of tokens.now) }
    requires characters { All (λ t. IsOnCharacters text.now t.span) tokens.now }
    ensures { IfOk result (λ laid. string_bytes laid ≡ layout (pieces_of text.now tokens.now)) }
{
    walked(alloc, text, tokens)?.finish()
}

/// The layout of a script of at most 65,536 bytes: its tokens and comments, each as it is spelled,
/// one item a line, each line behind two spaces for each block that is open there. The text is read
/// once, and its tokens are gone over once more.
///
/// - A newline stands behind the `{` of a block and before its `}`, unless the block is empty,
///   behind a comment, in place of newlines and semicolons that part items, and before a comment on
///   a line of its own. A block of semicolons alone keeps its first one.
/// - Where the text has a line of blanks alone, the layout has one empty line, but not directly
///   behind the `{` of a block or before its `}`.
/// - Nothing stands behind the name of a called function, `(`, `[`, `!`, the `{` of an object and
///   the bar that opens the names of a closure, and nothing before `)`, `]`, `,`, `:`, a path behind
///   an operand, the `}` of an object and the bar that closes these names. Elsewhere on a line a
///   single space does, and before a comment always.
///
/// The layout reads to the same script but for places, has the same comments behind as many tokens,
/// and is its own layout.
///
/// `Refused`: the text is no script, for what `tokens` or `parse` says. `TooLong`: its layout has
/// over 65,536 bytes.
///
/// # Errors
///
/// [`Memory`] where memory is wanted.
pub fn format(alloc: Global, text: &str) -> Result<Formatted, Memory>
    requires { length text.now ≤ script_limit }
    ensures answer { IfOk result (IsAnswer text.now) }
    ensures meaning { IfOk result (KeepsMeaning text.now) }
    ensures still { IfOk result IsStill }
{
    layouts_mean_the_same();
    layouts_stay();
    let found = match read(alloc, text) {
        Ok(found) => found,
        Err(fault) => return refused(fault),
    };
    let laid = layout(alloc, text, found.as_slice())?;
    if laid.len() > SCRIPT_LIMIT {
        return Ok(Formatted::TooLong);
    }
    Ok(Formatted::Text(Chars::new(laid)))
}
