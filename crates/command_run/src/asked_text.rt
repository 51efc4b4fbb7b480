//! A file that is read if there is a path for it.
ghost use Rattle.command_host.specs.Streams.{source_view};
ghost use Rattle.command_run.specs.AskedTexts.{OpensAsked, text_failures, text_handed_out, text_is_at_end, text_path};

use crate::opening::open;
use command_host::{Host, Keeper, KeptText, TellsFailure};
use dimacs::Failed;
use std::alloc::Global;
use verdict_report::Source;

/// A file that was opened, or what stands in its place if there is no path for one: that hands out no byte, and never fails.
#[derive(Drop)]
pub(crate) enum AskedText<I> {
    /// The file, of which what is read is kept or not.
    Opened(Keeper<I>),
    /// There is no path, and this says whether the end was met. Contracts alone read that, as of each source.
    Absent(bool),
}

impl<I: Source> Source for AskedText<I> {
    ghost handed_out = { text_handed_out I.handed_out };

    ghost is_at_end = { text_is_at_end I.is_at_end };

    ghost failures = { text_failures I.failures };

    ghost path = { text_path I.path };

    fn read(&mut self, buffer: &mut [u8]) -> Result<usize, Failed> {
        match self {
            AskedText::Opened(text) => text.read(buffer),
            AskedText::Absent(is_at_end) => {
                *is_at_end = true;
                Ok(0)
            }
        }
    }
}

impl<I: Source + TellsFailure + Drop> AskedText<I> {
    /// Gives what is known of the text. Nothing is promised of it.
    pub(crate) fn into_text(self) -> KeptText {
        match self {
            AskedText::Opened(text) => text.into_text(),
            AskedText::Absent(_) => KeptText::unread(),
        }
    }
}

/// Asks the host for the file at this path if there is one, and keeps what it hands out, or does not.
pub(crate) fn open_asked<'p, H: Host<'p>>(
    alloc: Global,
    host: &mut H,
    path: Option<&'p str>,
    keeps: bool,
) -> AskedText<H::Input>
    ensures { OpensAsked H.calls (source_view H.Input.handed_out H.Input.is_at_end H.Input.failures H.Input.path)
        host.old path.entry result host.new }
{
    match path {
        Some(path) => AskedText::Opened(open(alloc, host, path, keeps)),
        None => AskedText::Absent(false),
    }
}
