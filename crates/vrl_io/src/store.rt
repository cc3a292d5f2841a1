ghost use Rattle.std.specs.Prelude.{◌≡◌, ◌≤◌, ℕ, List, Option, Some, option_map, take, length, IfOk, IfSome, MatchResult};
ghost use Rattle.vrl_io.specs.Faults.{failures_after};

use crate::fault::LoadFault;
use vrl_value::Bytes;

/// What is kept under names: scripts, and the files that describe kinds.
pub trait Store {
    /// What each name holds, where it tells it.
    ghost held: { Self → Option (List ℕ → Option (List ℕ)) };

    /// The names whose load failed, in order.
    ghost failures: { Self → List (List ℕ) };

    /// The first `limit` bytes of what the name, a text in UTF-8, holds; all of them where there
    /// are fewer. `Failed`: the store failed, and the name was added to its failures. `Memory`:
    /// want of memory.
    fn load(&mut self, name: &str, limit: usize) -> Result<Bytes, LoadFault>
        ensures bytes { IfOk result (λ bytes. IfSome (held self.old)
            (λ held. option_map (take limit) (held name.now) ≡ Some bytes)) }
        ensures within { IfOk result (λ bytes. length bytes ≤ limit) }
        ensures held { held self.new ≡ held self.old }
        // It fails exactly where the name was added to the failures.
        ensures failures { MatchResult result (λ _. failures self.new ≡ failures self.old)
            (λ fault. failures self.new ≡ failures_after fault name.now (failures self.old)) };
}
