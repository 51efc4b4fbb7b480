//! A file that is written if it is asked for.
ghost use Rattle.std.specs.Prelude.{IfOk, OnErr};
ghost use Rattle.command_host.specs.Streams.{sink_view};
ghost use Rattle.command_run.specs.AskedFiles.{ClosesAsked, FailsToMakeAsked, MakesAsked, file_failures, file_path, file_taken};

use command_host::Host;
use dimacs::{Failed, Sink, Transcript};

/// A file that was made, or what stands in its place if none is asked for: that takes all bytes, keeps none, and never fails, so no answer can
/// be the failure of a file that was not asked for.
#[derive(Drop)]
pub(crate) enum AskedFile<F> {
    /// The file.
    Made(F),
    /// No file was asked for. The transcript takes no memory: contracts alone see what it took.
    Nowhere(Transcript),
}

impl<F: Sink> Sink for AskedFile<F> {
    ghost written = { file_taken F.written };

    ghost failures = { file_failures F.failures };

    ghost path = { file_path F.path };

    fn write(&mut self, bytes: &[u8]) -> Result<usize, Failed> {
        match self {
            AskedFile::Made(file) => file.write(bytes),
            AskedFile::Nowhere(taken) => {
                taken.extend(bytes);
                Ok(bytes.len())
            }
        }
    }
}

/// Makes or opens the file at this path to be written, if there is one. A file that is there keeps what it has until something is written, so a
/// run that has nothing for it loses nothing.
pub(crate) fn make_asked<'p, H: Host<'p>>(
    host: &mut H,
    path: Option<&'p str>,
) -> Result<AskedFile<H::Output>, Failed>
    ensures makes { IfOk result (λ file. MakesAsked H.calls (sink_view H.Output.written H.Output.failures H.Output.path)
        host.old path.entry file host.new) }
    ensures failed { OnErr result (FailsToMakeAsked H.calls host.old path.entry host.new) }
{
    match path {
        Some(path) => Ok(AskedFile::Made(host.create(path, false)?)),
        None => Ok(AskedFile::Nowhere(Transcript::new())),
    }
}

/// Gives the file back to the host, if there is one.
pub(crate) fn close_asked<'p, H: Host<'p>>(host: &mut H, file: AskedFile<H::Output>)
    ensures { ClosesAsked H.calls host.old file host.new }
{
    match file {
        AskedFile::Made(file) => host.close(file),
        AskedFile::Nowhere(_) => {}
    }
}
