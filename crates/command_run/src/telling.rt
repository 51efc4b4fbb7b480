//! What standard error takes, and the help.
ghost use Rattle.std.specs.Prelude.{IfOk, string_bytes};
ghost use Rattle.command_run.specs.CommandRun.{EndsFault, IsTextOf, Prints, TellsFault, TellsOutcome};
ghost use Rattle.verdict_report.specs.Runs.{sink_run};

use command_line::LineFault;
use dimacs::{Sink, write_whole};
use std::alloc::{AllocError, Global};
use verdict_report::{Fault, Status, write_fault};

/// The exit status of a command line that is refused. What an engine refuses has the same one, but for a device that fails.
pub(crate) const REFUSED: u8 = 2;

/// The exit status if a standard stream fails.
pub(crate) const DEVICE: u8 = 4;

/// What is printed if there is no memory.
pub(crate) const NO_MEMORY: &[u8] = b"refused: memory\n";

/// Reports the fault on standard error.
pub(crate) fn tell_fault<E: Sink>(fault: &Fault, err: &mut E)
    ensures { TellsFault (sink_run E.written E.failures err.old err.new) fault.now }
{
    // If standard error is closed too, only the exit status says so.
    let _ = write_fault(fault, err);
}

/// Reports a refusal on standard error, and nothing of another outcome.
pub(crate) fn tell_outcome<E: Sink>(outcome: &Result<Status, Fault>, err: &mut E)
    ensures { TellsOutcome (sink_run E.written E.failures err.old err.new) outcome.now }
{
    if let Err(fault) = outcome {
        tell_fault(fault, err);
    }
}

/// Prints the text, and gives this status, or that of a stream that fails.
pub(crate) fn print_text<W: Sink>(text: &[u8], status: u8, stream: &mut W) -> u8
    ensures { Prints (sink_run W.written W.failures stream.old stream.new) text.now status result }
{
    match write_whole(stream, text) {
        Ok(()) => status,
        Err(_) => DEVICE,
    }
}

/// The text of a fault of the command line.
fn text_of(alloc: Global, fault: &LineFault) -> Result<String, AllocError>
    ensures { IfOk result (λ text. IsTextOf fault.now (string_bytes text)) }
{
    format!(in alloc; "{fault}")
}

/// Prints the help or the version to standard output, or what is wrong with the command line to standard error, and gives the exit status.
pub(crate) fn tell_line_fault<O: Sink, E: Sink>(
    alloc: Global,
    fault: &LineFault,
    out: &mut O,
    err: &mut E,
) -> u8
    ensures { EndsFault fault.now
        (sink_run O.written O.failures out.old out.new)
        (sink_run E.written E.failures err.old err.new)
        result }
{
    let Ok(text) = text_of(alloc, fault) else {
        return print_text(NO_MEMORY, REFUSED, err);
    };
    if fault.is_answer() {
        print_text(text.as_bytes(), fault.status(), out)
    } else {
        print_text(text.as_bytes(), fault.status(), err)
    }
}
