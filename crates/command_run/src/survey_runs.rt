//! The engine that decides long traces, on the files of a line.
//!
//! Each of three files may be asked for: the certificate, the names of a core, and its part, which is the trace of these operations alone. They are made in
//! this order, before the trace is opened and then the hint (`hinted_runs.rt`), and are given back in the other one.
//!
//! What is kept of the trace's text goes into `KeptRun` whatever the outcome is: after the run an explanation or a picture may be made of it.
ghost use Rattle.std.specs.Prelude.{◌≡◌};
ghost use Rattle.command_host.specs.Streams.{sink_view, source_view};
ghost use Rattle.command_run.specs.CommandRun.{TakesCore, inputs_of_survey, takes_none};
ghost use Rattle.verdict_report.specs.Runs.{sink_run};

use crate::asked_file::{close_asked, make_asked};
use crate::hinted_runs::{AskedSurvey, certify_opened};
use crate::inputs::SurveyInputs;
use crate::kept_run::KeptRun;
use command_host::Host;
use command_line::SurveyFiles;
use cube_jobs::Gate;
use dimacs::Sink;
use std::sync::Wait;
use std::thread::Threads;
use survey_report::CoreSinks;
use verdict_report::{Fault, Status};

/// Runs the survey with a file for the certificate, one for the names and one for the part, each if there is a path for it. They are made or opened in this
/// order, and `Device` is answered if that is not possible for one of them. Those that were made are given back in the other order, whatever comes of it.
pub(crate) fn with_core<'p, R: Threads + Wait + Sync, G: Gate + Sync, H: Host<'p>, W: Sink>(
    asked: &AskedSurvey<'_, 'p, R, G>,
    host: &mut H,
    out: &mut W,
    kept: &mut KeptRun,
) -> Result<Status, Fault>
    ensures { TakesCore H.calls (source_view H.Input.handed_out H.Input.is_at_end H.Input.failures H.Input.path)
        (sink_view H.Output.written H.Output.failures H.Output.path)
        host.old asked.now.inputs asked.now.files asked.now.search.now
        (sink_run W.written W.failures out.old out.new)
        result host.new }
{
    let Ok(cert) = make_asked(host, asked.files.cert) else {
        return Err(Fault::Device);
    };
    let Ok(names) = make_asked(host, asked.files.names) else {
        close_asked(host, cert);
        return Err(Fault::Device);
    };
    let Ok(part) = make_asked(host, asked.files.part) else {
        close_asked(host, names);
        close_asked(host, cert);
        return Err(Fault::Device);
    };
    let mut sinks = CoreSinks { cert, names, part };
    let outcome = certify_opened(asked, host, &mut sinks, out, kept);
    let CoreSinks { cert, names, part } = sinks;
    close_asked(host, part);
    close_asked(host, names);
    close_asked(host, cert);
    outcome
}

/// The files that a survey reads: the trace, and the hint if there is one.
pub(crate) fn inputs_of_survey<'p>(trace: &'p str, files: SurveyFiles<'p>) -> SurveyInputs<'p>
    ensures { result ≡ inputs_of_survey trace.entry files.entry }
{
    SurveyInputs {
        trace,
        hint: files.hint,
    }
}

/// Returns whether no file is asked for that takes what shows an INCONSISTENT. Then no file is made before the trace is opened.
pub(crate) fn takes_none(files: SurveyFiles<'_>) -> bool
    ensures { result ≡ takes_none files.entry }
{
    !(files.cert.is_some() || (files.names.is_some() || files.part.is_some()))
}
