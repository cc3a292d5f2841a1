ghost use Rattle.std.specs.Prelude.{◌≡◌, ◌+◌, ◌<◌, ◌≤◌, ◌⊎◌, ℕ, Bool, List, [], Option, option_map, take, drop, length, IfOk, OnErr, OnOk, IfSome, IsTrue};
ghost use Rattle.vrl_io.specs.Faults.{HasRisen};

use crate::fault::Failed;

/// Bytes that come in, piece by piece, up to an end.
pub trait Source {
    /// The bytes that are left, where it tells them.
    ghost left: { Self → Option (List ℕ) };

    /// How many bytes it has given.
    ghost taken: { Self → ℕ };

    /// Whether it has answered that it is at its end.
    ghost ended: { Self → Bool };

    /// How often it has failed. The count never falls, and stands still at its last value.
    ghost faults: { Self → ℕ };

    /// Writes the next bytes to the front of the buffer, and answers how many. 0 for a buffer that
    /// is not empty is the end. For an empty buffer, and after the end, it answers 0 and nothing
    /// changes. `Failed`: no byte was taken, and the count of faults has risen.
    fn take(&mut self, buffer: &mut [u8]) -> Result<usize, Failed>
        ensures within { IfOk result (λ n. n ≤ length buffer.new) }
        // The bytes come from the front of those left.
        ensures bytes { IfOk result (λ n. IfSome (left self.old)
            (λ bytes. (n ≤ length bytes) × (take n buffer.new ≡ take n bytes))) }
        ensures left { IfOk result (λ n. left self.new ≡ option_map (drop n) (left self.old)) }
        ensures taken { IfOk result (λ n. taken self.new ≡ taken self.old + n) }

        // The end.
        ensures end { result ≡ Ok 0 → 0 < length buffer.old → IsTrue (ended self.new) }
        ensures end_only { IsTrue (ended self.new)
            → IsTrue (ended self.old) ⊎ ((result ≡ Ok 0) × (0 < length buffer.old)) }
        ensures end_empty { IsTrue (ended self.new) → IfSome (left self.new) (λ bytes. bytes ≡ []) }
        ensures no_call { (buffer.old ≡ []) ⊎ IsTrue (ended self.old)
            → (result ≡ Ok 0) × (self.new ≡ self.old) }

        // A failure leaves what is left as it was, and has raised the count. Nothing else raises
        // it.
        ensures unchanged { OnErr result ((left self.new ≡ left self.old)
            × (taken self.new ≡ taken self.old) × (ended self.new ≡ ended self.old)) }
        ensures cause { OnErr result (HasRisen (faults self.old) (faults self.new)) }
        ensures count { faults self.old ≤ faults self.new }
        ensures no_fault { OnOk result (faults self.new ≡ faults self.old) };
}
