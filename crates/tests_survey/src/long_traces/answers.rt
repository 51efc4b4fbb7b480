//! The engine that decides long traces, over devices in memory: what it answers, and what its sinks take.

use crate::expectations::{ample, expect};
use crate::long_traces::traces::no_hint;
use cube_jobs::{OpenGate, Options, SearchRun};
use dimacs::ShortSink;
use std::alloc::Global;
use std::process::Abort;
use std::sync::Wait;
use std::thread::Threads;
use survey::BySaturation;
use survey_report::{CoreSinks, run_certified_survey, run_survey};
use surveyor::Surveyor;
use verdict_report::{Fault, ShortSource, Status};

/// A survey with steps enough for the traces of most tests.
pub const SURVEY: BySaturation = BySaturation { budget: 1_000_000 };

/// The devices of a survey that does not certify.
#[derive(Drop)]
pub struct SurveyDevices<'t, 'h> {
    pub trace: ShortSource<'t>,
    pub hint: ShortSource<'h>,
    pub report: ShortSink,
}

/// What is answered, and reported.
#[derive(Drop)]
pub struct Answered {
    pub outcome: Result<Status, Fault>,
    pub report: ShortSink,
}

/// Gives the answer over these devices with the help of the surveyor, if a search of a cube may take this number of conflicts.
pub fn answer_over<R: Threads + Wait + Abort + Sync, S: Surveyor>(
    alloc: Global,
    rt: &R,
    devices: SurveyDevices<'_, '_>,
    surveyor: &S,
    budget: u64,
) -> Answered {
    let SurveyDevices {
        mut trace,
        mut hint,
        mut report,
    } = devices;
    let options = ample(rt, Options::new(1, 0, budget, 1));
    let run = SearchRun {
        alloc,
        rt,
        options: &options,
        gate: &OpenGate,
    };
    let outcome = run_survey(&run, surveyor, &mut trace, &mut hint, &mut report);
    Answered { outcome, report }
}

/// A sink that takes all that it is asked to take at once.
fn sink(alloc: Global) -> ShortSink {
    ShortSink::new(alloc, usize::MAX)
}

/// Gives the answer on the trace with this hint and with the help of the surveyor, if a search of a cube may take this number of conflicts.
pub fn answer_with<R: Threads + Wait + Abort + Sync, S: Surveyor>(
    alloc: Global,
    rt: &R,
    trace: &str,
    hint: &str,
    surveyor: &S,
    budget: u64,
) -> Answered {
    let devices = SurveyDevices {
        trace: ShortSource::new(trace.as_bytes(), 99),
        hint: ShortSource::new(hint.as_bytes(), 3),
        report: sink(alloc),
    };
    answer_over(alloc, rt, devices, surveyor, budget)
}

/// Gives the answer on the trace by a survey of this budget, without a hint. Asserts its status, in the case of this number.
pub fn answer_of_survey<R: Threads + Wait + Abort + Sync>(
    alloc: Global,
    rt: &R,
    trace: &str,
    budget: u64,
    status: Status,
    number: usize,
) -> Answered {
    let survey = BySaturation { budget };
    let found = answer_with(alloc, rt, trace, "", &survey, 10_000);
    expect(rt, found.outcome == Ok(status), number);
    found
}

/// The sinks of a survey that certifies.
#[derive(Drop)]
pub struct Sinks {
    pub certificate: ShortSink,
    pub names: ShortSink,
    pub part: ShortSink,
    pub report: ShortSink,
}

/// What is answered, and what the sinks of the certificate, of the names, of the part and of the report took.
#[derive(Drop)]
pub struct Written {
    pub outcome: Result<Status, Fault>,
    pub certificate: ShortSink,
    pub names: ShortSink,
    pub part: ShortSink,
    pub report: ShortSink,
}

/// Gives what is written to these sinks of the trace that the source has, with the help of the surveyor.
pub fn written_to<R: Threads + Wait + Abort + Sync, S: Surveyor>(
    alloc: Global,
    rt: &R,
    mut trace: ShortSource<'_>,
    sinks: Sinks,
    surveyor: &S,
) -> Written {
    let Sinks {
        certificate,
        names,
        part,
        mut report,
    } = sinks;
    let mut core = CoreSinks {
        cert: certificate,
        names,
        part,
    };
    let options = ample(rt, Options::new(1, 0, 10_000, 1));
    let mut hint = no_hint();
    let run = SearchRun {
        alloc,
        rt,
        options: &options,
        gate: &OpenGate,
    };
    let outcome = run_certified_survey(
        &run,
        surveyor,
        &mut trace,
        &mut hint,
        &mut core,
        &mut report,
    );
    let CoreSinks { cert, names, part } = core;
    Written {
        outcome,
        certificate: cert,
        names,
        part,
        report,
    }
}

/// Gives what is written of the trace with the help of the surveyor.
pub fn texts_of<R: Threads + Wait + Abort + Sync, S: Surveyor>(
    alloc: Global,
    rt: &R,
    trace: &str,
    surveyor: &S,
) -> Written {
    let source = ShortSource::new(trace.as_bytes(), 99);
    let sinks = Sinks {
        certificate: sink(alloc),
        names: sink(alloc),
        part: sink(alloc),
        report: sink(alloc),
    };
    written_to(alloc, rt, source, sinks, surveyor)
}
