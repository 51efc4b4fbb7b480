//! The list of refusals.
ghost use Rattle.command_run.specs.CommandRun.{WritesList};
ghost use Rattle.verdict_report.specs.Engine.{IsRunOfWriting};
ghost use Rattle.verdict_report.specs.Runs.{sink_run};
ghost use Rattle.verdict_report.specs.declared.status.Status.TheVariants.{Yes};

use dimacs::{Sink, write_whole};
use note_text::Notes;
use refusal_notes::refusal_list;
use std::alloc::{AllocError, Global};
use verdict_report::{Fault, Status};

/// The list.
fn list_of_refusals(alloc: Global) -> Result<Vec<u8>, AllocError> {
    let mut list = Notes::new(alloc);
    refusal_list(&mut list);
    list.into_whole()
}

/// Writes the text.
fn write_text<W: Sink>(text: &[u8], out: &mut W) -> Result<Status, Fault>
    ensures { IsRunOfWriting text.now Yes (sink_run W.written W.failures out.old out.new) result }
{
    match write_whole(out, text) {
        Ok(()) => Ok(Status::Yes),
        Err(_) => Err(Fault::Device),
    }
}

/// Writes this list.
fn write_list<W: Sink>(list: &[u8], out: &mut W) -> Result<Status, Fault>
    ensures { WritesList (sink_run W.written W.failures out.old out.new) result }
{
    write_text(list, out)
}

/// Answers that there was no memory for the list, of which nothing is written. The sink is there for the contract alone, which says that.
fn without_list<W: Sink>(_out: &mut W) -> Result<Status, Fault>
    ensures { WritesList (sink_run W.written W.failures _out.old _out.new) result }
{
    Err(Fault::OutOfMemory)
}

/// Writes the list of all refusals, with what each means.
pub(crate) fn write_refusals<W: Sink>(alloc: Global, out: &mut W) -> Result<Status, Fault>
    ensures { WritesList (sink_run W.written W.failures out.old out.new) result }
{
    match list_of_refusals(alloc) {
        Ok(list) => write_list(list.as_slice(), out),
        Err(_) => without_list(out),
    }
}
