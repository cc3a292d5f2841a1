ghost use Rattle.std.specs.Prelude.{◌≡◌, ◌<◌, ◌≤◌, ℕ, List, [], ◌++◌, Option, option_map, take, length, IfOk, OnErr, OnOk};
ghost use Rattle.vrl_io.specs.Faults.{HasRisen};

use crate::fault::Failed;

/// Where bytes go.
pub trait Sink {
    /// The bytes written so far, where it tells them.
    ghost written: { Self → Option (List ℕ) };

    /// How often it has failed. The count never falls, and stands still at its last value.
    ghost faults: { Self → ℕ };

    /// Writes bytes from the front of the piece, and answers how many: at least one, unless the
    /// piece is empty. An empty piece is answered 0 and nothing changes. `Failed`: what was written
    /// stays as it was, and the count of faults has risen.
    fn give(&mut self, bytes: &[u8]) -> Result<usize, Failed>
        ensures within { IfOk result (λ n. n ≤ length bytes.now) }
        ensures some { 0 < length bytes.now → IfOk result (λ n. 0 < n) }
        ensures written { IfOk result (λ n. written self.new
            ≡ option_map (λ before. before ++ take n bytes.now) (written self.old)) }
        ensures no_call { bytes.now ≡ [] → (result ≡ Ok 0) × (self.new ≡ self.old) }

        // A failure leaves what was written as it was, and has raised the count. Nothing else
        // raises it.
        ensures unchanged { OnErr result (written self.new ≡ written self.old) }
        ensures cause { OnErr result (HasRisen (faults self.old) (faults self.new)) }
        ensures count { faults self.old ≤ faults self.new }
        ensures no_fault { OnOk result (faults self.new ≡ faults self.old) };
}
