ghost use Rattle.std.specs.Prelude.{◌≡◌, ◌⊎◌, [], ◌∷◌, ◌++◌, IsSome, IsSomeAnd, None};
ghost use Rattle.vrl_format.specs.Laws.{LayoutsMeanTheSame, LayoutsStay};
ghost use Rattle.vrl_io.specs.Faults.{HasRisen};
ghost use Rattle.remap_fmt.specs.Answer.{script_in, texts, AnswersAreDetermined};
ghost use Rattle.remap_fmt.specs.Call.{sinks, IsCall};
ghost use Rattle.remap_fmt.specs.Status.{IsAnswer};

use crate::answering::{answer, give};
use crate::status::FmtStatus;
use crate::words::script_in;
use std::alloc::Global;
use vrl_format::{answers_are_determined, layouts_mean_the_same, layouts_stay};
use vrl_io::{LoadFault, Sink, Store};
use vrl_token::SCRIPT_LIMIT;

// What is reported where the words are refused.
const USAGE_LINE: &str = "usage: remap_fmt SCRIPT\n";

/// All that the program does: loads the script that the words name, which are those behind the
/// program's name, and writes its layout to `output`. To `report` goes, as a line, the diagnostic of
/// a script that is refused, that a layout is too long, or the usage where the words are refused.
pub fn fmt<F: Store, O: Sink, E: Sink>(
    alloc: Global,
    words: &[String],
    files: &mut F,
    output: &mut O,
    report: &mut E,
) -> FmtStatus
    // What is written, and with which status, all of it told of the same bytes of the script: the
    // whole of an answer to these, or, where a sink failed, a front of one.
    ensures call { IsCall (F.held files.old) (script_in (texts words.now)) result
        (sinks (O.written output.old) (E.written report.old))
        (sinks (O.written output.new) (E.written report.new)) }
    // There is one answer at most to a script's bytes, and to words that are refused.
    ensures determined { AnswersAreDetermined }
    // The layout of a script reads to the same script with the same comments, and is its own layout.
    ensures meaning { LayoutsMeanTheSame }
    ensures still { LayoutsStay }

    // Where nothing fails the answer comes, or memory is wanted.
    ensures complete { F.failures files.new ≡ F.failures files.old
        → ¬ HasRisen (O.faults output.old) (O.faults output.new)
        → ¬ HasRisen (E.faults report.old) (E.faults report.new)
        → IsAnswer result ⊎ (result ≡ FmtStatus.Memory) }
    // Memory is wanted for a script alone.
    ensures memory { result ≡ FmtStatus.Memory → IsSome (script_in (texts words.now)) }

    // ReadFault comes only where the script could not be loaded, and WriteFault where the output or
    // the report failed.
    ensures read_fault { result ≡ FmtStatus.ReadFault → IsSomeAnd (script_in (texts words.now))
        (λ name. F.failures files.new ≡ F.failures files.old ++ name ∷ []) }
    ensures write_fault { result ≡ FmtStatus.WriteFault
        → HasRisen (O.faults output.old) (O.faults output.new)
        ⊎ HasRisen (E.faults report.old) (E.faults report.new) }
    // Where one of these failed, that is told.
    ensures load_told { (result ≡ FmtStatus.ReadFault) ⊎ (F.failures files.new ≡ F.failures files.old) }
    ensures write_told { (result ≡ FmtStatus.WriteFault)
        ⊎ ((O.faults output.new ≡ O.faults output.old) × (E.faults report.new ≡ E.faults report.old)) }

    // Words that are refused load nothing.
    ensures unasked { script_in (texts words.now) ≡ None → files.new ≡ files.old }
    // Where the script can't be loaded, or memory is wanted, no sink is given anything.
    ensures untouched { (result ≡ FmtStatus.ReadFault) ⊎ (result ≡ FmtStatus.Memory)
        → (output.new ≡ output.old) × (report.new ≡ report.old) }
{
    one_answer();
    layouts_mean_the_same();
    layouts_stay();
    let Some(name) = script_in(words) else {
        return give(report, USAGE_LINE.as_bytes(), FmtStatus::Usage);
    };
    match files.load(name, SCRIPT_LIMIT + 1) {
        Ok(script) => answer(alloc, script.as_slice(), output, report),
        Err(LoadFault::Failed) => FmtStatus::ReadFault,
        Err(LoadFault::Memory) => FmtStatus::Memory,
    }
}

// There is one answer at most, since a text has one layout. This takes no time.
fn one_answer()
    ensures { AnswersAreDetermined }
{
    answers_are_determined();
}
