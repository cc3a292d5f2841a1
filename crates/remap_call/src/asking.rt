ghost use Rattle.std.specs.Prelude.{◌≡◌, ◌↔◌, ◌≢◌, ℕ, IfErr, IfOk, IsErr, IsTrue, List, Option};
ghost use Rattle.vrl_check.specs.Answer.{IsEnding, IsJudged};
ghost use Rattle.vrl_check.specs.declared.judged.Ending.{Ending};
ghost use Rattle.vrl_compile.specs.Answer.{IsAcceptedAs};
ghost use Rattle.vrl_judge.specs.Rules.{Judgement};
ghost use Rattle.vrl_resolve.specs.Program.{program_of};
ghost use Rattle.vrl_run.specs.LineResult.{HandlesErrors};
ghost use Rattle.vrl_run.specs.Request.{bad_kind, request_of, run_of, tell_kinds, IsReadyRequest, IsReadyScript};
ghost use Rattle.vrl_token.specs.Reading.{IsNoScript};
ghost use Rattle.remap_words.specs.View.{invocation_of, IsInBounds};
ghost use Rattle.remap_call.specs.Loading.{IsFileOf};
ghost use Rattle.remap_call.specs.Request.{no_script_request, options_of, AsksByScript, IsDeclaredKind, IsKindRefused};

use remap_words::{Invocation, Mode};
use std::alloc::Global;
use vrl_check::{Ending, Judged, ending};
use vrl_compile::{Accepted, Compiled, accepted_scripts_are_sound, compile};
use vrl_diag::{Diagnostic, Diagnostics};
use vrl_kind::Kind;
use vrl_kindfile::{KindFault, read_kind_file};
use vrl_run::{Options, ReadyScript, Request};
use vrl_state::json_object;
use vrl_token::script_text;
use vrl_value::{Bytes, Memory};

// What is asked with the bytes of a script, and with those of the kind file, which aren't needed
// where the script is no text. `Memory`: out of memory.
pub(crate) fn asked(
    alloc: Global,
    invocation: &Invocation,
    script: Bytes,
    file: Option<Bytes>,
) -> Result<Request, Memory>
    requires bounds { IsInBounds (invocation_of invocation.now) }
    requires file { ¬ IsNoScript script → IsFileOf (invocation_of invocation.now).kind file }
    ensures asks { IfOk result (λ request. (told : Option (List ℕ)) → (¬ IsNoScript script → told ≡ file)
        → AsksByScript (invocation_of invocation.now) told script (request_of request)) }
    ensures ready { IfOk result IsReadyRequest }
{
    let text = match script_text(script.as_slice()) {
        Ok(text) => text,
        Err(fault) => return no_text(alloc, script, fault),
    };
    let declared = match declared_kind(alloc, &file) {
        Ok(declared) => declared,
        Err(fault) => return kind_refused(fault),
    };
    let compiled = compile(alloc, text, &declared)?;
    match compiled {
        Compiled::Refused(diagnostics) => Ok(Request::Refused(script, diagnostics)),
        Compiled::Accepted(accepted) => {
            accepted_asked(alloc, invocation, script, declared, accepted)
        }
    }
}

// That the script of these bytes is no text, which this diagnostic tells. `Memory`: out of memory.
fn no_text(alloc: Global, script: Bytes, fault: Diagnostic) -> Result<Request, Memory>
    requires { fault ≡ record { code = 1009; span = record { start = 0; «end» = 0 } } }
    ensures asks { IfOk result (λ request. request_of request ≡ no_script_request script) }
    ensures ready { IfOk result IsReadyRequest }
{
    let mut faults = Vec::new(alloc);
    faults.push(fault)?;
    Ok(Request::Refused(script, Diagnostics::new(faults)))
}

// The kind of the events that are taken, by the bytes of the kind file, if there is one.
fn declared_kind(alloc: Global, file: &Option<Bytes>) -> Result<Kind, KindFault>
    ensures kind { IfOk result (λ kind. (name : Option (List ℕ)) → IsFileOf name file.now
        → IsDeclaredKind name file.now kind) }
    ensures refused { IfErr result (λ fault. fault ≢ KindFault.Memory → (name : Option (List ℕ))
        → IsFileOf name file.now → IsKindRefused name file.now fault) }
{
    match file {
        Some(file) => read_kind_file(alloc, file.as_slice()),
        None => match json_object(alloc) {
            Ok(kind) => Ok(kind),
            Err(Memory) => Err(KindFault::Memory),
        },
    }
}

// That a kind file has no kind. `Memory`: it was for want of that.
fn kind_refused(fault: KindFault) -> Result<Request, Memory>
    ensures asks { IfOk result (λ request. (request_of request ≡ bad_kind fault) × (fault ≢ KindFault.Memory)) }
    ensures memory { IsErr result → fault ≡ KindFault.Memory }
    ensures ready { IfOk result IsReadyRequest }
{
    if wants_memory(&fault) {
        return Err(Memory);
    }
    Ok(Request::Kind(fault))
}

// Whether it is for want of memory that a kind file has no kind.
fn wants_memory(fault: &KindFault) -> bool
    ensures { IsTrue result ↔ (fault.now ≡ KindFault.Memory) }
{
    matches!(fault, KindFault::Memory)
}

// What is asked with a script that is accepted: that it runs over the lines of the input or over
// made lines, or what kinds it may end with. `Memory`: out of memory, for the kinds.
fn accepted_asked(
    alloc: Global,
    invocation: &Invocation,
    script: Bytes,
    declared: Kind,
    accepted: Accepted,
) -> Result<Request, Memory>
    requires bounds { IsInBounds (invocation_of invocation.now) }
    requires text { ¬ IsNoScript script }
    requires accepted { IsAcceptedAs declared script accepted }
    ensures asks { IfOk result (λ request. (file : Option (List ℕ))
        → IsDeclaredKind (invocation_of invocation.now).kind file declared
        → AsksByScript (invocation_of invocation.now) file script (request_of request)) }
    ensures ready { IfOk result IsReadyRequest }
{
    accepted_scripts_are_sound();
    match invocation.mode {
        Mode::Lines => Ok(Request::Run(script_of(invocation, script, declared, accepted))),
        Mode::Generate { count, seed } => {
            let script = script_of(invocation, script, declared, accepted);
            Ok(Request::Generate(script, count, seed))
        }
        Mode::Check => kinds_asked(alloc, script, judged_of(accepted), invocation.envelope),
    }
}

// The script that is run.
fn script_of(
    invocation: &Invocation,
    text: Bytes,
    declared: Kind,
    accepted: Accepted,
) -> ReadyScript
    requires sources { accepted.sources ≡ (program_of accepted.program).sources }
    requires handled { HandlesErrors declared (program_of accepted.program) }
    ensures run { run_of result ≡ record {
      text = text;
      program = program_of accepted.program;
      declared = declared;
      options = options_of (invocation_of invocation.now);
      warnings = accepted.judged.diagnostics;
    } }
    ensures ready { IsReadyScript result }
{
    let Accepted {
        program,
        judged,
        sources,
    } = accepted;
    ReadyScript {
        text,
        program,
        sources,
        declared,
        options: options_of(invocation),
        warnings: diagnostics_of(judged),
    }
}

// What was found in a script.
fn diagnostics_of(judged: Judged) -> Diagnostics
    ensures { result ≡ judged.diagnostics }
{
    judged.diagnostics
}

// What a line stands for, and what becomes of an event over which the script ends early.
fn options_of(invocation: &Invocation) -> Options
    ensures { result ≡ options_of (invocation_of invocation.now) }
{
    Options {
        drop_on_error: invocation.drop_on_error,
        keep_on_abort: invocation.keep_on_abort,
        envelope: invocation.envelope,
    }
}

// What a script was judged to be.
fn judged_of(accepted: Accepted) -> Judged
    ensures { result ≡ accepted.judged }
{
    accepted.judged
}

// That the kinds are told that a script may end with, that of the metadata where envelopes are asked
// for. `Memory`: out of memory.
fn kinds_asked(
    alloc: Global,
    script: Bytes,
    judged: Judged,
    envelope: bool,
) -> Result<Request, Memory>
    requires { (j : Judgement) × IsJudged j judged }
    ensures asks { IfOk result (λ request. (ending : Ending) × IsEnding judged ending
        × (request_of request ≡ tell_kinds script judged.diagnostics ending.kind ending.state envelope)) }
    ensures ready { IfOk result IsReadyRequest }
{
    let Ending { kind, state } = ending(alloc, &judged)?;
    let warnings = diagnostics_of(judged);
    Ok(Request::Check(script, warnings, kind, state, envelope))
}
