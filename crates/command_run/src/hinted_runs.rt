//! The engine that decides long traces, on a trace that is open and on a hint, or on none.
//!
//! There are two engines: the one that writes a certificate, and the one that does not.
//!
//! A hint is an order in which the operations may have come. It may be wrong: it guides the search, and no answer rests on it. What was read of it goes into
//! `KeptRun`, of which an explanation may be made after the run. By the report to the host the contract of a run says with which options it searched.
ghost use Rattle.std.specs.Prelude.{◌≡◌};
ghost use Rattle.command_host.specs.Streams.{source_view};
ghost use Rattle.command_run.specs.CommandRun.{CertifiesSurveyed, RunsSurveyed};
ghost use Rattle.verdict_report.specs.Runs.{sink_run};

use crate::asked_gate::AskedGate;
use crate::asked_text::open_asked;
use crate::inputs::SurveyInputs;
use crate::kept_run::KeptRun;
use crate::opening::open;
use crate::program_run::ProgramRun;
use command_host::{Host, SearchRequest};
use command_line::SurveyFiles;
use cube_jobs::{Gate, SearchRun};
use dimacs::Sink;
use std::sync::Wait;
use std::thread::Threads;
use survey::BySaturation;
use survey_report::{CoreSinks, run_certified_survey, run_survey};
use verdict_report::{Fault, Status};

/// What a survey is asked for, and does not change.
#[derive(Drop)]
pub(crate) struct AskedSurvey<'a, 'p, R, G> {
    /// What the run of the program is given.
    pub(crate) run: &'a ProgramRun<'a, R, G>,
    /// The files that are read.
    pub(crate) inputs: SurveyInputs<'p>,
    /// The files that are asked for.
    pub(crate) files: SurveyFiles<'p>,
    /// How the trace is surveyed and searched.
    pub(crate) search: &'a SearchRequest,
}

/// The survey of the request. `survey_of` in `search_runs.rt` makes it, so it has a number of steps, and 0 stands for none.
fn surveyor_of(search: &SearchRequest) -> BySaturation {
    BySaturation {
        budget: search.steps.unwrap_or(0),
    }
}

/// Gives what the engine of a survey is given, with this gate.
fn survey_run<'a, R, G>(
    asked: &'a AskedSurvey<'a, '_, R, G>,
    gate: &'a AskedGate<'a, G>,
) -> SearchRun<'a, R, AskedGate<'a, G>>
    ensures { result.options.now ≡ asked.now.search.now.options }
{
    SearchRun {
        alloc: asked.run.alloc,
        rt: asked.run.rt,
        options: &asked.search.options,
        gate,
    }
}

/// Opens the trace, and the hint if there is a path for it, reports the survey to the host, and runs the engine that decides long traces with it. It
/// writes the report to the standard output.
pub(crate) fn survey_opened<'p, R: Threads + Wait + Sync, G: Gate + Sync, H: Host<'p>, W: Sink>(
    asked: &AskedSurvey<'_, 'p, R, G>,
    host: &mut H,
    out: &mut W,
    kept: &mut KeptRun,
) -> Result<Status, Fault>
    ensures { RunsSurveyed H.calls (source_view H.Input.handed_out H.Input.is_at_end H.Input.failures H.Input.path)
        host.old asked.now.inputs asked.now.search.now (sink_run W.written W.failures out.old out.new) result host.new }
{
    let mut trace = open(asked.run.alloc, host, asked.inputs.trace, kept.keeps);
    let mut hint = open_asked(asked.run.alloc, host, asked.inputs.hint, kept.keeps);
    host.begin_search(asked.search);
    let gate = AskedGate::new(asked.run.progress, asked.search.tells_progress);
    let run = survey_run(asked, &gate);
    let outcome = run_survey(&run, &surveyor_of(asked.search), &mut trace, &mut hint, out);
    kept.first = trace.into_text();
    kept.second = hint.into_text();
    outcome
}

/// Does so with sinks for the certificate, the names of a core, and its part.
pub(crate) fn certify_opened<
    'p,
    R: Threads + Wait + Sync,
    G: Gate + Sync,
    H: Host<'p>,
    C: Sink,
    N: Sink,
    P: Sink,
    W: Sink,
>(
    asked: &AskedSurvey<'_, 'p, R, G>,
    host: &mut H,
    sinks: &mut CoreSinks<C, N, P>,
    out: &mut W,
    kept: &mut KeptRun,
) -> Result<Status, Fault>
    ensures runs { CertifiesSurveyed H.calls (source_view H.Input.handed_out H.Input.is_at_end H.Input.failures H.Input.path)
        host.old asked.now.inputs asked.now.search.now
        (sink_run C.written C.failures sinks.old.cert sinks.new.cert)
        (sink_run N.written N.failures sinks.old.names sinks.new.names)
        (sink_run P.written P.failures sinks.old.part sinks.new.part)
        (sink_run W.written W.failures out.old out.new)
        result host.new }
    ensures same_cert { C.path sinks.new.cert ≡ C.path sinks.old.cert }
    ensures same_names { N.path sinks.new.names ≡ N.path sinks.old.names }
    ensures same_part { P.path sinks.new.part ≡ P.path sinks.old.part }
{
    let mut trace = open(asked.run.alloc, host, asked.inputs.trace, kept.keeps);
    let mut hint = open_asked(asked.run.alloc, host, asked.inputs.hint, kept.keeps);
    host.begin_search(asked.search);
    let gate = AskedGate::new(asked.run.progress, asked.search.tells_progress);
    let run = survey_run(asked, &gate);
    let outcome = run_certified_survey(
        &run,
        &surveyor_of(asked.search),
        &mut trace,
        &mut hint,
        sinks,
        out,
    );
    kept.first = trace.into_text();
    kept.second = hint.into_text();
    outcome
}
