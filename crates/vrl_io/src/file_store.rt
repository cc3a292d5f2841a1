ghost use Rattle.std.specs.Prelude.{◌≡◌, ◌≤◌, [], length, take, None, IfOk, IfSome};
ghost use Rattle.vrl_io.specs.Faults.{HasRisen};

use crate::failures::Failures;
use crate::fault::{Failed, LoadFault};
use crate::source::Source;
use crate::std_source::StdSource;
use crate::store::Store;
use std::alloc::Global;
use std::fs;
use std::marker::Model;
use std::rt::Files;
use vrl_value::{Bytes, Chars};

/// The files of a runtime, by their paths as the system reads them. A load fails where the file
/// can't be opened or read. It does not tell what they hold. A contract sees the list of the names
/// whose load failed.
#[derive(Drop)]
pub struct FileStore<R> {
    rt: R,
    alloc: Global,
    failures: Failures,
}

impl<R> Model for FileStore<R> {
    ghost use Rattle.std.specs.Prelude.{List, ℕ};

    ghost Value = { List (List ℕ) };

    ghost view = { λ s. s.failures };
}

impl<R> FileStore<R> {
    /// The files of this runtime, none of which has failed.
    pub fn new(rt: R, alloc: Global) -> FileStore<R>
        ensures { result ≡ [] }
    {
        FileStore {
            rt,
            alloc,
            failures: Failures::new(alloc),
        }
    }

    /// The names whose load failed, in order.
    pub fn failures(&self) -> &[Chars]
        ensures { result.now ≡ self.now }
    {
        self.failures.as_slice()
    }
}

// The first `limit` bytes of a source. No more than these are taken.
#[tactic(auto, using(crate::proofs::ReadFront::front_more, crate::proofs::ReadFront::front_whole))]
fn read_front<S: Source>(alloc: Global, source: &mut S, limit: usize) -> Result<Bytes, LoadFault>
    ensures within { IfOk result (λ bytes. length bytes ≤ limit) }
    ensures bytes { IfOk result (λ bytes. IfSome (S.left source.old) (λ left. bytes ≡ take limit left)) }
    ensures cause { result ≡ Err LoadFault.Failed → HasRisen (S.faults source.old) (S.faults source.new) }
{
    let mut bytes = Vec::new(alloc);
    let mut piece = [0; 4096];
    while bytes.len() < limit {
        let room = piece.len().min(limit - bytes.len());
        let buffer = &mut piece[..room];
        let count = source.take(buffer)?;
        if count == 0 {
            break;
        }
        bytes.extend_from_slice(&buffer[..count])?;
    }
    Ok(Bytes::new(bytes))
}

// The first `limit` bytes of the file with this path.
fn read_file<R: Files>(rt: &R, alloc: Global, path: &str, limit: usize) -> Result<Bytes, LoadFault>
    ensures { IfOk result (λ bytes. length bytes ≤ limit) }
{
    let file = fs::open(rt, path).map_err(|_| Failed)?;
    read_front(alloc, &mut StdSource::new(file), limit)
}

impl<R: Files> Store for FileStore<R> {
    ghost held = { λ _. None };

    ghost failures = { λ failures. failures };

    fn load(&mut self, name: &str, limit: usize) -> Result<Bytes, LoadFault> {
        // Room for the name comes first; where the load does not fail, the name is taken back.
        self.failures.push(name)?;
        let loaded = read_file(&self.rt, self.alloc, name, limit);
        if !matches!(loaded, Err(LoadFault::Failed)) {
            self.failures.pop();
        }
        loaded
    }
}
