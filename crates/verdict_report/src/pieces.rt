//! Writing a short text that is made of pieces, with no memory for it.

ghost use Rattle.std.specs.Prelude.{◌≡◌, ◌+◌, ◌++◌, IsTrue, OnOk, OnErr};
ghost use Rattle.dimacs.specs.Sink.{AppendsFront};
ghost use Rattle.verdict_report.specs.Pieces.{joined};

use arrayvec::ArrayVec;
use dimacs::{Failed, Sink, write_whole};

/// Writes these pieces, each by calls of its own.
fn write_each<W: Sink>(pieces: &[&[u8]], out: &mut W) -> Result<(), Failed>
    ensures whole { OnOk result (W.written out.new ≡ W.written out.old ++ joined pieces.now) }
    ensures well { OnOk result (W.failures out.new ≡ W.failures out.old) }
    ensures front { OnErr result (AppendsFront (W.written out.old) (W.written out.new) (joined pieces.now)) }
    ensures failed { OnErr result (W.failures out.new ≡ W.failures out.old + 1) }
    ensures same { W.path out.new ≡ W.path out.old }
{
    for piece in pieces {
        write_whole(out, piece)?;
    }
    Ok(())
}

/// The room for the pieces of a line. Each line of a refusal fits.
const ROOM: usize = 128;

/// Puts these pieces together, and says whether there was room for all.
fn put_together(pieces: &[&[u8]], line: &mut ArrayVec<u8, ROOM>) -> bool
    ensures { IsTrue result → line.new.items ≡ line.old.items ++ joined pieces.now }
{
    for piece in pieces {
        if line.try_extend_from_slice(piece).is_err() {
            return false;
        }
    }
    true
}

/// Writes these pieces, one after the other, by one call if they are short.
pub(crate) fn write_pieces<W: Sink>(pieces: &[&[u8]], out: &mut W) -> Result<(), Failed>
    ensures whole { OnOk result (W.written out.new ≡ W.written out.old ++ joined pieces.now) }
    ensures well { OnOk result (W.failures out.new ≡ W.failures out.old) }
    ensures front { OnErr result (AppendsFront (W.written out.old) (W.written out.new) (joined pieces.now)) }
    ensures failed { OnErr result (W.failures out.new ≡ W.failures out.old + 1) }
    ensures same { W.path out.new ≡ W.path out.old }
{
    let mut line = ArrayVec::new();
    if put_together(pieces, &mut line) {
        write_whole(out, line.as_slice())
    } else {
        write_each(pieces, out)
    }
}
