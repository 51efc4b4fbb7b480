//! The engine that decides many traces, on the files of a line.
ghost use Rattle.std.specs.Prelude.{◌≡◌};
ghost use Rattle.clap.specs.Walk.{texts};
ghost use Rattle.command_host.specs.Streams.{source_view};
ghost use Rattle.command_line.specs.CommandLine.{AreBatchNumbers};
ghost use Rattle.command_run.specs.BatchRuns.{RunsBatch};
ghost use Rattle.verdict_report.specs.Fault.{fault_of_sink};
ghost use Rattle.verdict_report.specs.Runs.{sink_run};

use crate::opening::open;
use crate::search_runs::{search_of, survey_of};
use batch_report::{BatchRun, BatchSearch, PlainForm, VerdictTally, run_batch};
use command_host::Host;
use command_line::{BatchNumbers, SearchNumbers, SurveyNumbers};
use dimacs::{Sink, SinkFault};
use std::alloc::Global;
use std::sync::Wait;
use std::thread::Threads;
use survey::BySaturation;
use verdict_report::{Fault, Status};

/// The most steps of the survey of a long trace, as `survey` takes them without an option. It is also the largest number that option takes.
pub(crate) const SURVEY_STEPS: u64 = 1_000_000_000;

/// What a batch of files is given, and does not change.
#[derive(Drop)]
pub(crate) struct BatchTask<'a, R> {
    /// Where memory is taken.
    pub(crate) alloc: Global,
    /// What starts threads.
    pub(crate) rt: &'a R,
    /// How traces are searched.
    pub(crate) search: &'a BatchSearch,
}

/// The searches of these numbers. Each trace is searched in one round, and by one thread, since traces are decided side by side by `workers`
/// threads. The steps of a survey are no part of the options, and are given with the surveyor. Of both requests the options alone are used, so
/// the `false`, by which no progress is asked for, has no effect.
pub(crate) fn batch_of(numbers: BatchNumbers) -> BatchSearch
    requires { AreBatchNumbers numbers }
{
    let short = SearchNumbers {
        workers: 1,
        split: numbers.split,
        budget: numbers.budget,
        rounds: 1,
    };
    let long = SurveyNumbers {
        workers: 1,
        budget: SURVEY_STEPS,
    };
    BatchSearch {
        workers: numbers.workers,
        short: search_of(short, false).options,
        long: survey_of(long, false).options,
    }
}

/// The refusal of a sink. It ends the whole batch, while a file that cannot be read ends only itself.
pub(crate) fn refusal_of_sink(fault: SinkFault) -> Fault
    ensures { result ≡ fault_of_sink fault }
{
    match fault {
        SinkFault::OutOfMemory => Fault::OutOfMemory,
        SinkFault::Device => Fault::Device,
    }
}

/// Decides the traces in the files at these paths, and writes a line for each to the standard output. A file that cannot be read to its end
/// is refused in its last line, and then the next one is decided.
pub(crate) fn decide_traces<'p, R: Threads + Wait + Sync, H: Host<'p>, W: Sink>(
    task: &BatchTask<'_, R>,
    host: &mut H,
    traces: &[&'p str],
    out: &mut W,
) -> Result<Status, Fault>
    ensures { RunsBatch H.calls (source_view H.Input.handed_out H.Input.is_at_end H.Input.failures H.Input.path)
        host.old (texts traces.now) (sink_run W.written W.failures out.old out.new) result host.new }
{
    let surveyor = BySaturation {
        budget: SURVEY_STEPS,
    };
    let mut tally = VerdictTally::new();
    for at in 0..traces.len() {
        let path = traces[at];
        let mut file = open(task.alloc, host, path, false);
        let run = BatchRun {
            alloc: task.alloc,
            rt: task.rt,
            file: path,
            form: &PlainForm,
            search: task.search,
            surveyor: &surveyor,
        };
        let counted = match run_batch(&run, &mut file, tally, out) {
            Ok(counted) => counted,
            Err(fault) => return Err(refusal_of_sink(fault)),
        };
        tally = counted;
    }
    tally.outcome()
}
