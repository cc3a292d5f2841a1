ghost use Rattle.std.specs.Prelude.{◌≡◌, ◌≤◌, ℕ, option_map, IfErr, IfOk, IfSome, IsTrue, List, OnOk, Some};
ghost use Rattle.vrl_io.specs.Faults.{failures_after};
ghost use Rattle.vrl_run.specs.Devices.{IsLoaded};
ghost use Rattle.vrl_run.specs.Request.{request_of, IsReadyRequest};
ghost use Rattle.vrl_token.specs.Reading.{IsNoScript};
ghost use Rattle.remap_words.specs.View.{invocation_of, texts, IsInBounds};
ghost use Rattle.remap_words.specs.Words.{words_mean};
ghost use Rattle.remap_call.specs.Loading.{IsFileOf, IsReady, IsUnready};

use crate::asking::asked;
use remap_words::{Invocation, WordsFault, read_words};
use std::alloc::Global;
use vrl_compile::SCRIPT_LIMIT;
use vrl_io::{LoadFault, Store};
use vrl_kindfile::FILE_LIMIT;
use vrl_run::Request;
use vrl_token::script_text;
use vrl_value::{Bytes, Memory};

// What a call asks, and by how many workers.
#[derive(Drop)]
pub(crate) struct Asked {
    pub(crate) request: Request,
    // 1 to 32.
    pub(crate) jobs: u32,
}

// Reads the words, loads the script and the kind file that they name, and says what is asked.
// `Failed`: one of these could not be loaded. `Memory`: out of memory.
pub(crate) fn ask<F: Store>(
    alloc: Global,
    words: &[String],
    files: &mut F,
) -> Result<Asked, LoadFault>
    ensures ready { IfOk result (λ asked. IsReady (F.held files.old) (words_mean (texts words.now))
        (F.failures files.old) (F.failures files.new) (request_of asked.request)) }
    ensures request { IfOk result (λ asked. IsReadyRequest asked.request) }
    ensures jobs { IfOk result (λ asked. (1 ≤ asked.jobs) × (asked.jobs ≤ 32)) }
    ensures unready { IfErr result (IsUnready (F.held files.old) (words_mean (texts words.now))
        (F.failures files.old) (F.failures files.new)) }
{
    let invocation = match read_words(alloc, words) {
        Ok(invocation) => invocation,
        Err(WordsFault::Refused) => {
            return Ok(Asked {
                request: Request::Words,
                jobs: 1,
            });
        }
        Err(WordsFault::Memory) => return Err(LoadFault::Memory),
    };
    let script = match files.load(invocation.script, SCRIPT_LIMIT + 1) {
        Ok(script) => script,
        Err(fault) => return Err(fault),
    };
    match ask_script(alloc, &invocation, script, files) {
        Ok(request) => Ok(Asked {
            request,
            jobs: invocation.jobs,
        }),
        Err(fault) => Err(fault),
    }
}

// The same with the bytes of the script. The kind file is loaded once these are known to be a text.
fn ask_script<F: Store>(
    alloc: Global,
    invocation: &Invocation,
    script: Bytes,
    files: &mut F,
) -> Result<Request, LoadFault>
    requires bounds { IsInBounds (invocation_of invocation.now) }
    requires loaded { IsLoaded (F.held files.old) (invocation_of invocation.now).script (Some script) }
    ensures ready { IfOk result (λ request. IsReady (F.held files.old) (Some (invocation_of invocation.now))
        (F.failures files.old) (F.failures files.new) (request_of request)) }
    ensures request { IfOk result IsReadyRequest }
    ensures unready { IfErr result (IsUnready (F.held files.old) (Some (invocation_of invocation.now))
        (F.failures files.old) (F.failures files.new)) }
{
    if !is_script(script.as_slice()) {
        return match asked(alloc, invocation, script, None) {
            Ok(request) => Ok(request),
            Err(Memory) => Err(LoadFault::Memory),
        };
    }
    let file = match load_kind(files, invocation.kind) {
        Ok(file) => file,
        Err(fault) => return Err(fault),
    };
    match asked(alloc, invocation, script, file) {
        Ok(request) => Ok(request),
        Err(Memory) => Err(LoadFault::Memory),
    }
}

// Whether these bytes are the text of a script.
fn is_script(bytes: &[u8]) -> bool
    ensures only { IsTrue result → ¬ IsNoScript bytes.now }
    ensures wherever { ¬ IsTrue result → IsNoScript bytes.now }
{
    script_text(bytes).is_ok()
}

// The bytes of the kind file, if one is named. `Failed`: it could not be loaded. `Memory`: out of
// memory.
fn load_kind<F: Store>(files: &mut F, name: Option<&str>) -> Result<Option<Bytes>, LoadFault>
    ensures file { IfOk result (λ file. IsFileOf (option_map (λ name. name.now) name.entry) file
        × IfSome (option_map (λ name. name.now) name.entry) (λ name. IsLoaded (F.held files.old) name file)) }
    ensures none_failed { OnOk result (F.failures files.new ≡ F.failures files.old) }
    ensures fault { IfErr result (λ fault. (named : List ℕ)
        × (option_map (λ name. name.now) name.entry ≡ Some named)
        × (F.failures files.new ≡ failures_after fault named (F.failures files.old))) }
{
    let Some(name) = name else {
        return Ok(None);
    };
    match files.load(name, FILE_LIMIT + 1) {
        Ok(file) => Ok(Some(file)),
        Err(fault) => Err(fault),
    }
}
