//! `remap SCRIPT < events.jsonl`: runs a script over lines of JSON.
//!
//! `main` hands the words and the real devices to `remap` of `remap_call`, and ends with the number
//! of its status.
#![tactic(auto)]

use remap_call::remap;
use std::process::ExitCode;
use vrl_batch::FreeGate;
use vrl_io::{FileStore, StdSink, StdSource, SystemClock};
use vrl_run::Status;
use vrl_words::words_behind_name;

fn main(rt: HostRuntime) -> ExitCode {
    let Ok(words) = words_behind_name(&rt, rt.alloc()) else {
        return Status::Memory.exit_code();
    };
    let status = remap(
        &rt,
        rt.alloc(),
        &words,
        &mut FileStore::new(&rt, rt.alloc()),
        &mut StdSource::new(rt.stdin()),
        &mut StdSink::new(rt.stdout()),
        &mut StdSink::new(rt.stderr()),
        &mut SystemClock::new(&rt),
        &FreeGate,
    );
    status.exit_code()
}
