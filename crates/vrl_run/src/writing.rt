ghost use Rattle.std.specs.Prelude.{◌≡◌, ◌≢◌, ◌⊎◌, ℕ, ℤ, List, IfOk, IsOk};
ghost use Rattle.vrl_io.specs.Faults.{HasRisen};
ghost use Rattle.vrl_batch.specs.Sinks.{Appends, AppendsFront};
ghost use Rattle.vrl_run.specs.Answer.{answer_to};
ghost use Rattle.vrl_run.specs.Request.{Request};
ghost use Rattle.vrl_run.specs.Status.{IsAnswer};
ghost use Rattle.vrl_run.specs.Writing.{IsTold, IsWritten};

use crate::status::Status;
use vrl_batch::give_all;
use vrl_io::Sink;
use vrl_value::Memory;

// An answer that is ready to be written.
#[derive(Drop)]
pub(crate) struct Told {
    pub(crate) status: Status,
    pub(crate) output: Vec<u8>,
    pub(crate) report: Vec<u8>,
}

// Writes an answer, unless memory was wanted for it.
pub(crate) fn write_told<O: Sink, E: Sink>(
    told: &Result<Told, Memory>,
    output: &mut O,
    report: &mut E,
) -> Status
    requires { IfOk told.now (λ told. IsAnswer told.status) }
    ensures written { (request : Request) → IfOk told.now (IsTold request) → (input : List ℕ) (moments : ℕ → ℤ)
        → IsWritten (answer_to request input moments) result (O.written output.old) (O.written output.new)
        (E.written report.old) (E.written report.new) }
    ensures cause { result ≡ Status.WriteFault
        → HasRisen (O.faults output.old) (O.faults output.new)
        ⊎ HasRisen (E.faults report.old) (E.faults report.new) }
    ensures write_told { (result ≡ Status.WriteFault)
        ⊎ ((O.faults output.new ≡ O.faults output.old) × (E.faults report.new ≡ E.faults report.old)) }
    // Writing takes no memory.
    ensures ready { IsOk told.now → result ≢ Status.Memory }
{
    match told {
        Ok(told) => write_answer(told.status, &told.output, &told.report, output, report),
        Err(_) => Status::Memory,
    }
}

// Writes the bytes of an answer with this status, first those of the output.
pub(crate) fn write_answer<O: Sink, E: Sink>(
    status: Status,
    events: &[u8],
    lines: &[u8],
    output: &mut O,
    report: &mut E,
) -> Status
    requires { IsAnswer status }
    ensures whole { IsAnswer result → Appends (O.written output.old) (O.written output.new) events.now
        × Appends (E.written report.old) (E.written report.new) lines.now }
    ensures front { AppendsFront (O.written output.old) (O.written output.new) events.now
        × AppendsFront (E.written report.old) (E.written report.new) lines.now }
    ensures order { Appends (O.written output.old) (O.written output.new) events.now
        ⊎ (E.written report.new ≡ E.written report.old) }
    ensures either { (result ≡ status) ⊎ (result ≡ Status.WriteFault) }
    ensures cause { result ≡ Status.WriteFault
        → HasRisen (O.faults output.old) (O.faults output.new)
        ⊎ HasRisen (E.faults report.old) (E.faults report.new) }
    ensures told { (result ≡ Status.WriteFault)
        ⊎ ((O.faults output.new ≡ O.faults output.old) × (E.faults report.new ≡ E.faults report.old)) }
{
    if give_all(output, events).is_err() || give_all(report, lines).is_err() {
        return Status::WriteFault;
    }
    status
}
