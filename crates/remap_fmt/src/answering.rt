ghost use Rattle.std.specs.Prelude.{◌≡◌, ◌⊎◌, ℕ, List, Option};
ghost use Rattle.vrl_batch.specs.Sinks.{Appends, AppendsFront};
ghost use Rattle.vrl_io.specs.Faults.{HasRisen};
ghost use Rattle.remap_fmt.specs.Answer.{refused, AnswersScript};
ghost use Rattle.remap_fmt.specs.Call.{sinks, LeavesAnswer};
ghost use Rattle.remap_fmt.specs.Status.{IsAnswer};

use crate::status::FmtStatus;
use std::alloc::Global;
use vrl_batch::give_all;
use vrl_diag::{Diagnostic, render_all};
use vrl_format::{Formatted, format};
use vrl_io::Sink;
use vrl_token::script_text;

// What is reported where a layout has too many bytes.
const TOO_LONG_LINE: &str = "too long\n";

// Answers a script of these bytes: its layout goes to `output`, and why it has none to `report`.
pub(crate) fn answer<O: Sink, E: Sink>(
    alloc: Global,
    script: &[u8],
    output: &mut O,
    report: &mut E,
) -> FmtStatus
    ensures leaves { LeavesAnswer (AnswersScript script.now) result
        (sinks (O.written output.old) (E.written report.old))
        (sinks (O.written output.new) (E.written report.new)) }
    ensures cause { result ≡ FmtStatus.WriteFault
        → HasRisen (O.faults output.old) (O.faults output.new)
        ⊎ HasRisen (E.faults report.old) (E.faults report.new) }
    ensures told { (result ≡ FmtStatus.WriteFault)
        ⊎ ((O.faults output.new ≡ O.faults output.old) × (E.faults report.new ≡ E.faults report.old)) }
    ensures unread { ¬ (result ≡ FmtStatus.ReadFault) }
    ensures untouched { result ≡ FmtStatus.Memory → (output.new ≡ output.old) × (report.new ≡ report.old) }
{
    let text = match script_text(script) {
        Ok(text) => text,
        Err(fault) => return refuse(alloc, script, fault, report),
    };
    match format(alloc, text) {
        Ok(Formatted::Text(layout)) => give(output, layout.as_str().as_bytes(), FmtStatus::Done),
        Ok(Formatted::Refused(fault)) => refuse(alloc, script, fault, report),
        Ok(Formatted::TooLong) => give(report, TOO_LONG_LINE.as_bytes(), FmtStatus::TooLong),
        Err(_) => FmtStatus::Memory,
    }
}

// Reports why a script of these bytes is refused.
fn refuse<E: Sink>(alloc: Global, script: &[u8], fault: Diagnostic, report: &mut E) -> FmtStatus
    ensures leaves { (output : Option (List ℕ))
        → LeavesAnswer (λ answer. answer ≡ refused script.now fault) result
        (sinks output (E.written report.old)) (sinks output (E.written report.new)) }
    ensures cause { result ≡ FmtStatus.WriteFault → HasRisen (E.faults report.old) (E.faults report.new) }
    ensures told { (result ≡ FmtStatus.WriteFault)
        ⊎ (E.faults report.new ≡ E.faults report.old) }
    ensures unread { ¬ (result ≡ FmtStatus.ReadFault) }
    ensures untouched { result ≡ FmtStatus.Memory → report.new ≡ report.old }
{
    match render_all(alloc, &[fault], script) {
        Ok(lines) => give(report, &lines, FmtStatus::Refused),
        Err(_) => FmtStatus::Memory,
    }
}

// Gives the bytes of an answer with this status to the sink that they belong to. It takes no memory.
pub(crate) fn give<K: Sink>(sink: &mut K, bytes: &[u8], status: FmtStatus) -> FmtStatus
    requires { IsAnswer status }
    ensures whole { IsAnswer result → Appends (K.written sink.old) (K.written sink.new) bytes.now }
    ensures front { AppendsFront (K.written sink.old) (K.written sink.new) bytes.now }
    ensures either { (result ≡ status) ⊎ (result ≡ FmtStatus.WriteFault) }
    ensures cause { result ≡ FmtStatus.WriteFault → HasRisen (K.faults sink.old) (K.faults sink.new) }
    ensures told { (result ≡ FmtStatus.WriteFault) ⊎ (K.faults sink.new ≡ K.faults sink.old) }
{
    match give_all(sink, bytes) {
        Ok(()) => status,
        Err(_) => FmtStatus::WriteFault,
    }
}
