ghost use Rattle.std.specs.Prelude.{IfOk};
ghost use Rattle.vrl_judge.specs.Ordered.{AreOrdered};

use vrl_diag::Diagnostic;
use vrl_value::Memory;

/// Codes by start, end and code. `Memory`: want of memory.
pub fn ordered(diagnostics: Vec<Diagnostic>) -> Result<Vec<Diagnostic>, Memory>
    ensures { IfOk result (λ ordered. AreOrdered diagnostics.items ordered.items) }
{
    let mut diagnostics = diagnostics;
    diagnostics.sort_by_key(|d: &Diagnostic| (d.span.start, d.span.end, d.code))?;
    Ok(diagnostics)
}
