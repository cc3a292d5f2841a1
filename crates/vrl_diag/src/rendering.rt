ghost use Rattle.std.specs.Prelude.{◌≡◌, ℕ, List, IfOk, take, string_bytes};
ghost use Rattle.vrl_diag.specs.Position.{IsEnd};
ghost use Rattle.vrl_diag.specs.Rendering.{diagnostic_line, diagnostic_lines};

use crate::diagnostic::Diagnostic;
use crate::position::Position;
use crate::titles::{severity, title};
use std::alloc::Global;
use vrl_value::{Chars, Memory};

/// The line that tells a diagnostic of a script, without a newline:
/// `error[E103] 2:1 unhandled fallible assignment` or
/// `warning[E651] 1:6 unnecessary error coalescing`. Line and column are those of its start, from
/// 1, and columns are counted in characters. A start behind the end of the text counts as its end.
/// It takes the time of a walk over the text up to that start: to tell many diagnostics, call
/// [`render_all`].
///
/// # Errors
///
/// [`Memory`] where memory is wanted.
pub fn render(alloc: Global, one: &Diagnostic, text: &str) -> Result<Chars, Memory>
    ensures { IfOk result (λ line. line ≡ diagnostic_line text.now one.now) }
{
    let position = Position::start().moved_to(text.as_bytes(), one.span.start as usize);
    let line = line_of(alloc, one, position)?;
    Ok(Chars::new(line))
}

/// The lines that tell the diagnostics of a script, as [`render`] does, each with its newline. The
/// script is given as its bytes, since one that is no UTF-8 has diagnostics too. In the order of
/// their starts they take the time of one walk over the text.
///
/// # Errors
///
/// [`Memory`] where memory is wanted.
pub fn render_all(alloc: Global, diagnostics: &[Diagnostic], text: &[u8]) -> Result<Vec<u8>, Memory>
    ensures { IfOk result (λ lines. lines.items ≡ diagnostic_lines text.now diagnostics.now) }
{
    let mut lines = Vec::new(alloc);
    let mut position = Position::start();
    for diagnostic in diagnostics {
        position = position.moved_to(text, diagnostic.span.start as usize);
        let line = line_of(alloc, diagnostic, position)?;
        lines.extend_from_slice(line.as_bytes())?;
        lines.push(b'\n')?;
    }
    Ok(lines)
}

// The line that tells a diagnostic, which stands at this position, without its newline.
fn line_of(alloc: Global, diagnostic: &Diagnostic, position: Position) -> Result<String, Memory>
    ensures { (text : List ℕ) → IsEnd (take diagnostic.now.span.start text) position
        → IfOk result (λ line. string_bytes line ≡ diagnostic_line text diagnostic.now) }
{
    let severity = severity(diagnostic.code);
    let code = diagnostic.code;
    let title = title(code);
    let Position { line, column, .. } = position;
    Ok(format!(in alloc; "{severity}[E{code}] {line}:{column} {title}")?)
}
