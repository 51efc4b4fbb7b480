//! The files that are read. A host stands for what is outside of the program: the system, or files in memory in tests.
ghost use Rattle.std.specs.Prelude.{◌≡◌, [], false};

use command_host::{Host, Keeper};
use std::alloc::Global;

/// Asks the host for the file at this path, and keeps what it hands out, or does not. Nothing is read yet: a file that cannot be opened fails when
/// it is read. What is kept is for an explanation or a picture of the answer, so that no file is read twice, which a pipe could not be.
pub(crate) fn open<'p, H: Host<'p>>(
    alloc: Global,
    host: &mut H,
    path: &'p str,
    keeps: bool,
) -> Keeper<H::Input>
    ensures opens { H.calls.opens host.old path.now result.source host.new }
    ensures path { H.Input.path result.source ≡ path.now }
    ensures handed_out { H.Input.handed_out result.source ≡ [] }
    ensures is_at_end { H.Input.is_at_end result.source ≡ false }
    ensures failures { H.Input.failures result.source ≡ 0 }
{
    let source = host.source(path);
    Keeper::new(alloc, source, keeps)
}
