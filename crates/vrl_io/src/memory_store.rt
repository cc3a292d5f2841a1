ghost use Rattle.std.specs.Prelude.{◌≡◌, ◌⊎◌, [], take, Some, MatchResult};
ghost use Rattle.std.specs.Option.{ok_or, option_copied};
ghost use Rattle.vrl_io.specs.Calls.{first_call, after_call};
ghost use Rattle.vrl_io.specs.Faults.{failures_after};
ghost use Rattle.vrl_io.specs.MemoryStore.{held_under, bytes_loaded};

use crate::calls::Calls;
use crate::failures::Failures;
use crate::fault::LoadFault;
use crate::store::Store;
use std::alloc::Global;
use std::marker::Model;
use vrl_value::{Bytes, Chars};

/// Names with bytes in memory, with chosen calls that fail.
#[derive(Drop)]
pub struct MemoryStore {
    alloc: Global,
    held: Vec<(Chars, Bytes)>,
    calls: Calls,
    failures: Failures,
}

impl Model for MemoryStore {
    ghost use Rattle.vrl_io.specs.MemoryStore.{NamesHeld};

    ghost Value = { NamesHeld };

    ghost view = { λ s. record { entries = s.held.items; calls = s.calls; failures = s.failures } };
}

impl MemoryStore {
    /// A store that holds these bytes under these names; of equal names the first counts. The loads
    /// with the numbers in `failing`, from 0, fail, and so does one of a name that is not held.
    pub fn new(alloc: Global, held: Vec<(Chars, Bytes)>, failing: Vec<u64>) -> MemoryStore
        ensures { result ≡ record {
          entries = held.items;
          calls = first_call failing.items;
          failures = [];
        } }
    {
        MemoryStore {
            alloc,
            held,
            calls: Calls::new(failing),
            failures: Failures::new(alloc),
        }
    }

    /// The names whose load failed, in order.
    pub fn failures(&self) -> &[Chars]
        ensures { result.now ≡ self.now.failures }
    {
        self.failures.as_slice()
    }
}

// The bytes of the first entry with the name.
fn find_bytes<'a>(held: &'a [(Chars, Bytes)], name: &str) -> Option<&'a Bytes>
    ensures { option_copied result ≡ held_under held.now name.now }
{
    let entry = held.iter().find(|entry| entry.0.as_str() == name)?;
    Some(&entry.1)
}

// A copy of the first `limit` bytes.
fn copy_front(alloc: Global, bytes: &[u8], limit: usize) -> Result<Bytes, LoadFault>
    ensures { MatchResult result (λ copy. copy ≡ take limit bytes.now) (λ fault. fault ≡ LoadFault.Memory) }
{
    let front = &bytes[..limit.min(bytes.len())];
    Ok(Bytes::new(front.to_vec(alloc)?))
}

impl Store for MemoryStore {
    ghost held = { λ s. Some (held_under s.entries) };

    ghost failures = { λ s. s.failures };

    fn load(&mut self, name: &str, limit: usize) -> Result<Bytes, LoadFault>
        ensures loaded { (result ≡ Err LoadFault.Memory)
            ⊎ (result ≡ ok_or (bytes_loaded self.old name.now limit) LoadFault.Failed) }
        ensures held { self.new.entries ≡ self.old.entries }
        ensures counted { self.new.calls ≡ after_call self.old.calls }
        ensures failures { MatchResult result (λ _. self.new.failures ≡ self.old.failures)
            (λ fault. self.new.failures ≡ failures_after fault name.now self.old.failures) }
    {
        let fails = self.calls.count();
        // Room for the name comes first; where the load does not fail, the name is taken back.
        self.failures.push(name)?;
        match find_bytes(&self.held, name) {
            Some(bytes) if !fails => {
                self.failures.pop();
                copy_front(self.alloc, bytes.as_slice(), limit)
            }
            _ => Err(LoadFault::Failed),
        }
    }
}
