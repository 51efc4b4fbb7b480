//! A sink takes the bytes of a text, perhaps a few at a time.
ghost use Rattle.std.specs.Prelude.{◌≡◌, ◌+◌, ◌<◌, ◌≤◌, ℕ, List, ◌++◌, length, take, IfOk, OnOk, OnErr};
ghost use Rattle.dimacs.specs.Sink.{AppendsFront};

/// A device has failed.
#[derive(Clone, Copy)]
pub struct Failed;

/// What takes bytes in their order: a file, a pipe, memory.
pub trait Sink {
    /// The bytes that it has taken so far.
    ghost written: { Self → List ℕ };

    /// The number of its failures up to now.
    ghost failures: { Self → ℕ };

    /// The path of the file that it writes, from its making on; of what is no file any list.
    ghost path: { Self → List ℕ };

    /// Takes the first bytes of a slice, at least one if there is one, and returns their number. A sink that fails
    /// takes none of them.
    fn write(&mut self, bytes: &[u8]) -> Result<usize, Failed>
        ensures within { IfOk result (λ count. count ≤ length bytes.now) }
        ensures some { 0 < length bytes.now → IfOk result (λ count. 0 < count) }
        ensures taken { IfOk result (λ count. written self.new ≡ written self.old ++ take count bytes.now) }
        ensures well { OnOk result (failures self.new ≡ failures self.old) }
        ensures unchanged { OnErr result (written self.new ≡ written self.old) }
        ensures failed { OnErr result (failures self.new ≡ failures self.old + 1) }
        ensures same { path self.new ≡ path self.old };
}

/// Writes the whole slice, through however many calls that takes. If the sink fails, it has taken a prefix of the slice
/// and has failed once more. It ends, since a call that does not fail takes one byte or more.
pub fn write_whole<S: Sink>(sink: &mut S, bytes: &[u8]) -> Result<(), Failed>
    ensures whole { OnOk result (S.written sink.new ≡ S.written sink.old ++ bytes.now) }
    ensures well { OnOk result (S.failures sink.new ≡ S.failures sink.old) }
    ensures front { OnErr result (AppendsFront (S.written sink.old) (S.written sink.new) bytes.now) }
    ensures failed { OnErr result (S.failures sink.new ≡ S.failures sink.old + 1) }
    ensures same { S.path sink.new ≡ S.path sink.old }
{
    let mut taken = 0;
    while taken < bytes.len() {
        let count = sink.write(&bytes[taken..])?;
        taken += count;
    }
    Ok(())
}
