ghost use Rattle.std.specs.Prelude.{◌≡◌, ◌⊎◌};
ghost use Rattle.vrl_io.specs.Faults.{HasRisen};
ghost use Rattle.vrl_run.specs.Devices.{devices};
ghost use Rattle.vrl_run.specs.Status.{IsAnswer, TellsRefusal};
ghost use Rattle.remap_words.specs.View.{texts};
ghost use Rattle.remap_words.specs.Words.{words_mean};
ghost use Rattle.remap_call.specs.Call.{IsCall};
ghost use Rattle.remap_call.specs.Laws.{Laws};
ghost use Rattle.remap_call.specs.Request.{AcceptedScriptsRunSoundly};

use crate::loading::ask;
use std::alloc::Global;
use std::thread::Threads;
use vrl_batch::Gate;
use vrl_check::judgements_are_determined;
use vrl_compile::{
    accepted_scripts_are_sound, diagnostics_are_determined, diagnostics_stand_once,
    scripts_have_one_reading,
};
use vrl_io::{Clock, LoadFault, Sink, Source, Store};
use vrl_json::json_needs_no_sources;
use vrl_kindfile::files_have_one_answer;
use vrl_run::{Status, answer, lines_stand_for_json};

/// All that the program does: reads the words, which are those behind the program's name, loads the
/// script and the kind file that they name, and runs the script over the lines of the input, or
/// does what the words ask in place of that. Events, a summary or kinds go to `output`;
/// diagnostics, and reports on lines, go to `report`. Lines are run batch by batch, each by at most
/// as many workers as the words say, which pass the gate before each line; the results of a batch
/// are written, in the order of its lines, before more is read.
pub fn remap<R: Threads + Sync, F: Store, S: Source, O: Sink, E: Sink, C: Clock, G: Gate + Sync>(
    rt: &R,
    alloc: Global,
    words: &[String],
    files: &mut F,
    input: &mut S,
    output: &mut O,
    report: &mut E,
    clock: &mut C,
    gate: &G,
) -> Status
    // What the call comes to, all of it told of the same bytes as those of its script and its kind
    // file: what is written, asked, loaded and taken, and how the script runs.
    ensures call { IsCall (F.held files.old) (words_mean (texts words.now)) (F.failures files.old)
        (F.failures files.new) result
        (devices (S.left input.old) (S.taken input.old) (S.ended input.old) (S.faults input.old) (C.ahead clock.old)
        (O.written output.old) (O.faults output.old) (E.written report.old) (E.faults report.old))
        (devices (S.left input.new) (S.taken input.new) (S.ended input.new) (S.faults input.new) (C.ahead clock.new)
        (O.written output.new) (O.faults output.new) (E.written report.new) (E.faults report.new))
        ((input.new ≡ input.old) × (clock.new ≡ clock.old)) }
    // Every other text whose script is accepted would run so, too, over events of every kind that
    // may be declared.
    ensures sound { AcceptedScriptsRunSoundly }

    // Where it is told that the words, the kind file or the script are refused, neither the input
    // nor the clock was asked.
    ensures unread { TellsRefusal result → (input.new ≡ input.old) × (clock.new ≡ clock.old) }

    // ReadFault comes only where the script or the kind file could not be loaded or the input
    // failed, WriteFault where the output or the report did.
    ensures read_fault { result ≡ Status.ReadFault
        → ¬ (F.failures files.new ≡ F.failures files.old) ⊎ HasRisen (S.faults input.old) (S.faults input.new) }
    ensures write_fault { result ≡ Status.WriteFault
        → HasRisen (O.faults output.old) (O.faults output.new)
        ⊎ HasRisen (E.faults report.old) (E.faults report.new) }
    // Where one of these failed, that is told, and not want of memory.
    ensures load_told { (result ≡ Status.ReadFault) ⊎ (F.failures files.new ≡ F.failures files.old) }
    ensures read_told { (result ≡ Status.ReadFault) ⊎ (S.faults input.new ≡ S.faults input.old) }
    ensures write_told { (result ≡ Status.WriteFault)
        ⊎ ((O.faults output.new ≡ O.faults output.old) × (E.faults report.new ≡ E.faults report.old)) }

    // Where the script or the kind file can't be loaded, nothing more is done.
    ensures unloaded { (F.failures files.new ≡ F.failures files.old)
        ⊎ ((input.new ≡ input.old) × (clock.new ≡ clock.old)
        × (O.written output.new ≡ O.written output.old) × (E.written report.new ≡ E.written report.old)) }

    // Where nothing fails, the answer comes, unless the input is too long or memory is wanted.
    ensures complete { F.failures files.new ≡ F.failures files.old
        → ¬ HasRisen (S.faults input.old) (S.faults input.new)
        → ¬ HasRisen (O.faults output.old) (O.faults output.new)
        → ¬ HasRisen (E.faults report.old) (E.faults report.new)
        → IsAnswer result ⊎ (result ≡ Status.Memory) ⊎ (result ≡ Status.TooMuch) }
{
    laws();
    accepted_run_soundly();
    let asked = match ask(alloc, words, files) {
        Ok(asked) => asked,
        Err(LoadFault::Failed) => return Status::ReadFault,
        Err(LoadFault::Memory) => return Status::Memory,
    };
    answer(
        rt,
        alloc,
        &asked.request,
        asked.jobs,
        input,
        output,
        report,
        clock,
        gate,
    )
}

// The laws that the contract of a call rests on. This takes no time.
fn laws()
    ensures { Laws }
{
    scripts_have_one_reading();
    judgements_are_determined();
    diagnostics_are_determined();
    diagnostics_stand_once();
    files_have_one_answer();
    accepted_scripts_are_sound();
    lines_stand_for_json();
    json_needs_no_sources();
}

// Each script that is accepted handles each of its errors, over each event of the kind that is
// declared with any metadata. This takes no time.
fn accepted_run_soundly()
    ensures { AcceptedScriptsRunSoundly }
{
    laws();
}
