//! The engine that decides many traces, with lines of any form, on the files of a line.
ghost use Rattle.std.specs.Prelude.{◌≡◌, OnErr, OnOk};
ghost use Rattle.clap.specs.Walk.{texts};
ghost use Rattle.command_host.specs.Streams.{source_view};
ghost use Rattle.command_run.specs.AskedFiles.{FailsToMakeAsked};
ghost use Rattle.command_run.specs.FormedRuns.{MakesAskedFolder, RunsBatchWith, RunsFormed, asks_more};
ghost use Rattle.verdict_report.specs.Runs.{sink_run};

use crate::batch_runs::{BatchTask, SURVEY_STEPS, decide_traces, refusal_of_sink};
use crate::beside::{Beside, PlainBeside};
use crate::opening::open;
use batch_report::{BatchRun, JsonForm, LineForm, VerdictTally, run_batch_in};
use command_host::Host;
use command_line::BatchOutput;
use dimacs::{Failed, Sink};
use std::sync::Wait;
use std::thread::Threads;
use survey::BySaturation;
use verdict_report::{Fault, Status};

/// Decides the traces in the files at these paths, and writes a line of this form for each to the standard output. A file that cannot be read
/// to its end is refused in its last line, and then the next one is decided.
fn decide_traces_in<'p, R: Threads + Wait + Sync, H: Host<'p>, F: LineForm<H>, W: Sink>(
    task: &BatchTask<'_, R>,
    host: &mut H,
    form: &F,
    traces: &[&'p str],
    out: &mut W,
) -> Result<Status, Fault>
    ensures { RunsFormed H.calls (source_view H.Input.handed_out H.Input.is_at_end H.Input.failures H.Input.path) F.means
        host.old (texts traces.now) (sink_run W.written W.failures out.old out.new) result host.new }
{
    let surveyor = BySaturation {
        budget: SURVEY_STEPS,
    };
    let mut tally = VerdictTally::new();
    for at in 0..traces.len() {
        let path = traces[at];
        let mut file = open(task.alloc, host, path, false);
        let run = BatchRun {
            alloc: task.alloc,
            rt: task.rt,
            file: path,
            form,
            search: task.search,
            surveyor: &surveyor,
        };
        let counted = match run_batch_in(&run, host, &mut file, tally, out) {
            Ok(counted) => counted,
            Err(fault) => return Err(refusal_of_sink(fault)),
        };
        tally = counted;
    }
    tally.outcome()
}

/// Makes the folder at this path, if there is one.
fn make_asked_folder<'p, H: Host<'p>>(host: &mut H, folder: Option<&'p str>) -> Result<(), Failed>
    ensures makes { OnOk result (MakesAskedFolder H.calls host.old folder.entry host.new) }
    ensures failed { OnErr result (FailsToMakeAsked H.calls host.old folder.entry host.new) }
{
    match folder {
        Some(folder) => host.make_folder(folder),
        None => Ok(()),
    }
}

/// Returns whether more than plain lines is asked for. Schedules come with objects of JSON alone, so they need no case here: a line that asks for
/// them without was refused before.
fn asks_more(output: BatchOutput<'_>) -> bool
    ensures { result ≡ asks_more output.entry }
{
    output.json || output.keep.is_some()
}

/// Decides the traces in the files at these paths, with plain lines alone, or with what else is asked for: objects of JSON, or plain lines, beside which
/// files may be kept in a folder.
pub(crate) fn decide_batch<'p, R: Threads + Wait + Sync, H: Host<'p>, W: Sink>(
    task: &BatchTask<'_, R>,
    host: &mut H,
    traces: &[&'p str],
    output: BatchOutput<'p>,
    out: &mut W,
) -> Result<Status, Fault>
    ensures { RunsBatchWith H.calls (source_view H.Input.handed_out H.Input.is_at_end H.Input.failures H.Input.path) output.entry
        host.old (texts traces.now) (sink_run W.written W.failures out.old out.new) result host.new }
{
    if !asks_more(output) {
        return decide_traces(task, host, traces, out);
    }
    // The folder is made before the first trace is read, so that a run which cannot keep anything ends at once.
    let Ok(()) = make_asked_folder(host, output.keep) else {
        return Err(Fault::Device);
    };
    let beside = Beside {
        search: *task.search,
        schedules: output.schedules,
        folder: output.keep,
    };
    if output.json {
        let form = JsonForm { members: beside };
        decide_traces_in(task, host, &form, traces, out)
    } else {
        let form = PlainBeside { beside };
        decide_traces_in(task, host, &form, traces, out)
    }
}
