//! A source hands out the bytes of a text, perhaps a few at a time, and then its end.
ghost use Rattle.std.specs.Prelude.{◌≡◌, ◌+◌, ◌<◌, ◌≤◌, ◌==◌, ℕ, Bool, List, ◌++◌, length, take, IfOk, OnOk, OnErr};

use dimacs::Failed;

/// What hands out bytes in their order: a file, a pipe, memory.
pub trait Source {
    /// The bytes that it has handed out so far.
    ghost handed_out: { Self → List ℕ };

    /// Whether it has said its end, with no byte since.
    ghost is_at_end: { Self → Bool };

    /// The number of times that it has failed so far.
    ghost failures: { Self → ℕ };

    /// The path at which it was asked for, from its making on; of what has none any list.
    ghost path: { Self → List ℕ };

    /// Hands out the next bytes in the first places of the buffer, and says how many. No byte for a buffer that
    /// has room is the end. A source that fails hands out none.
    fn read(&mut self, buffer: &mut [u8]) -> Result<usize, Failed>
        ensures within { IfOk result (λ count. count ≤ length buffer.old) }
        ensures handed { IfOk result (λ count. handed_out self.new ≡ handed_out self.old ++ take count buffer.new) }
        ensures end { 0 < length buffer.old → IfOk result (λ count. is_at_end self.new ≡ (count == 0)) }
        ensures well { OnOk result (failures self.new ≡ failures self.old) }
        ensures unchanged { OnErr result (handed_out self.new ≡ handed_out self.old) }
        ensures failed { OnErr result (failures self.new ≡ failures self.old + 1) }
        ensures same { path self.new ≡ path self.old };
}
