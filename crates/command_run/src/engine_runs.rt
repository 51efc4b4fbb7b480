//! The engine that a line names, on the files of its paths.
ghost use Rattle.std.specs.Prelude.{◌≤◌};
ghost use Rattle.command_host.specs.Streams.{sink_view, source_view};
ghost use Rattle.command_line.specs.CommandLine.{IsWithinRanges};
ghost use Rattle.command_run.specs.CommandRun.{RunsCertified, RunsLine, RunsOnFile, RunsOnFiles, RunsOnThreeFiles, RunsSearch};
ghost use Rattle.command_run.specs.TextEngines.{IsRunOfTexts};
ghost use Rattle.part_report.specs.PartRecheckEngine.{IsRunOfPartRecheck};
ghost use Rattle.verdict_report.specs.CnfEngine.{IsRunOfCnf};
ghost use Rattle.verdict_report.specs.Runs.{sink_run};

use crate::asked_gate::AskedGate;
use crate::batch_runs::{BatchTask, batch_of};
use crate::formed_runs::decide_batch;
use crate::hinted_runs::{AskedSurvey, survey_opened};
use crate::kept_run::KeptRun;
use crate::opening::open;
use crate::program_run::ProgramRun;
use crate::refusals::write_refusals;
use crate::search_runs::{search_of, survey_of};
use crate::survey_runs::{inputs_of_survey, takes_none, with_core};
use crate::text_engines::{TwoTextEngine, run_on_texts};
use command_host::{Host, Recorder, SearchRequest};
use command_line::Line;
use cube_jobs::{Gate, SearchRun};
use dimacs::Sink;
use part_report::run_part_recheck;
use std::alloc::Global;
use std::sync::Wait;
use std::thread::Threads;
use verdict_report::{Fault, Status, run_certified_verify, run_cnf, run_verify};

/// The files of a certificate that is checked for a part.
#[derive(Clone, Copy)]
struct PartCertificatePaths<'p> {
    trace: &'p str,
    cert: &'p str,
    names: &'p str,
}

/// The files of two texts, in the order in which they are read.
#[derive(Clone, Copy)]
struct TextPaths<'p> {
    first: &'p str,
    second: &'p str,
}

/// The files of a search with a certificate.
#[derive(Clone, Copy)]
struct CertifyPaths<'p> {
    trace: &'p str,
    cert: &'p str,
}

/// Runs the engine on the files at these paths, and writes its answer to the standard output.
fn run_on_files<'p, H: Host<'p>, W: Sink>(
    alloc: Global,
    host: &mut H,
    engine: TwoTextEngine,
    paths: TextPaths<'p>,
    out: &mut W,
    kept: &mut KeptRun,
) -> Result<Status, Fault>
    ensures { RunsOnFiles H.calls (source_view H.Input.handed_out H.Input.is_at_end H.Input.failures H.Input.path) (IsRunOfTexts engine)
        host.old paths.entry.first.now paths.entry.second.now (sink_run W.written W.failures out.old out.new) result host.new }
{
    let mut first = open(alloc, host, paths.first, kept.keeps);
    let mut second = open(alloc, host, paths.second, kept.keeps);
    let outcome = run_on_texts(alloc, engine, &mut first, &mut second, out);
    kept.first = first.into_text();
    kept.second = second.into_text();
    outcome
}

/// Writes the clause list of the trace in the file at this path to the standard output.
fn translate_file<'p, R: Threads + Sync, G, H: Host<'p>, W: Sink>(
    run: &ProgramRun<'_, R, G>,
    host: &mut H,
    trace: &'p str,
    workers: u32,
    out: &mut W,
    kept: &mut KeptRun,
) -> Result<Status, Fault>
    ensures { RunsOnFile H.calls (source_view H.Input.handed_out H.Input.is_at_end H.Input.failures H.Input.path) IsRunOfCnf
        host.old trace.now (sink_run W.written W.failures out.old out.new) result host.new }
{
    let mut trace = open(run.alloc, host, trace, kept.keeps);
    // The engine asks for 1 to 8 workers in its contract. A line has no other number, but that is not known here, so the number is cut to
    // that range. The text is the same for each.
    let workers = workers.max(1).min(8);
    let outcome = run_cnf(run.alloc, run.rt, &mut trace, workers, out);
    kept.first = trace.into_text();
    outcome
}

/// Checks the certificate in one file for a part of the trace in another, which the operations make up that a third names, and writes the
/// answer to the standard output.
fn recheck_part_files<'p, H: Host<'p>, W: Sink>(
    alloc: Global,
    host: &mut H,
    paths: PartCertificatePaths<'p>,
    out: &mut W,
    kept: &mut KeptRun,
) -> Result<Status, Fault>
    ensures { RunsOnThreeFiles H.calls (source_view H.Input.handed_out H.Input.is_at_end H.Input.failures H.Input.path) IsRunOfPartRecheck
        host.old paths.entry.trace.now paths.entry.cert.now paths.entry.names.now (sink_run W.written W.failures out.old out.new) result host.new }
{
    let mut trace = open(alloc, host, paths.trace, kept.keeps);
    let mut cert = open(alloc, host, paths.cert, kept.keeps);
    let mut names = open(alloc, host, paths.names, kept.keeps);
    let outcome = run_part_recheck(alloc, &mut trace, &mut cert, &mut names, out);
    kept.first = trace.into_text();
    kept.second = cert.into_text();
    kept.third = names.into_text();
    outcome
}

/// Decides whether the trace in the file at this path has a legal schedule, and writes the report to the standard output. The search is reported to
/// the host.
fn decide_file<'p, R: Threads + Wait + Sync, G: Gate + Sync, H: Host<'p>, W: Sink>(
    run: &ProgramRun<'_, R, G>,
    host: &mut H,
    trace: &'p str,
    search: &SearchRequest,
    out: &mut W,
    kept: &mut KeptRun,
) -> Result<Status, Fault>
    ensures { RunsSearch H.calls (source_view H.Input.handed_out H.Input.is_at_end H.Input.failures H.Input.path)
        host.old trace.now search.now (sink_run W.written W.failures out.old out.new) result host.new }
{
    let mut trace = open(run.alloc, host, trace, kept.keeps);
    host.begin_search(search);
    let gate = AskedGate::new(run.progress, search.tells_progress);
    let outcome = run_verify(run.alloc, run.rt, &mut trace, &search.options, &gate, out);
    kept.first = trace.into_text();
    outcome
}

/// The same, with a certificate. Its file is made or emptied before the trace is opened, and `Device` is answered if that is not possible.
fn certify_file<'p, R: Threads + Wait + Sync, G: Gate + Sync, H: Host<'p>, W: Sink>(
    run: &ProgramRun<'_, R, G>,
    host: &mut H,
    paths: CertifyPaths<'p>,
    search: &SearchRequest,
    out: &mut W,
    kept: &mut KeptRun,
) -> Result<Status, Fault>
    ensures { RunsCertified H.calls (source_view H.Input.handed_out H.Input.is_at_end H.Input.failures H.Input.path)
        (sink_view H.Output.written H.Output.failures H.Output.path)
        host.old paths.entry.trace.now paths.entry.cert.now search.now (sink_run W.written W.failures out.old out.new) result host.new }
{
    // The file is emptied at once, so that an earlier certificate is never taken for that of this run.
    let Ok(file) = host.create(paths.cert, true) else {
        return Err(Fault::Device);
    };
    let mut trace = open(run.alloc, host, paths.trace, kept.keeps);
    // Only the length of the certificate is recorded, for the note on one that is too long to be read.
    let mut file = Recorder::counting(run.alloc, file);
    host.begin_search(search);
    let gate = AskedGate::new(run.progress, search.tells_progress);
    let verify = SearchRun {
        alloc: run.alloc,
        rt: run.rt,
        options: &search.options,
        gate: &gate,
    };
    let outcome = run_certified_verify(&verify, &mut trace, &mut file, out);
    kept.first = trace.into_text();
    kept.certificate_length = Some(file.taken());
    host.close(file.into_sink());
    outcome
}

/// Runs the engine that the line names. What is kept of the run goes to `kept`.
///
/// A command is added here by an arm for its line, which calls a function as [`run_on_files`], and in `specs/CommandRun.antt` by a line of
/// `RunsLine`.
pub(crate) fn run_engine<'p, R: Threads + Wait + Sync, G: Gate + Sync, H: Host<'p>, W: Sink>(
    run: &ProgramRun<'_, R, G>,
    host: &mut H,
    line: &Line<'p>,
    out: &mut W,
    kept: &mut KeptRun,
) -> Result<Status, Fault>
    requires { IsWithinRanges line.now }
    ensures { RunsLine H.calls (source_view H.Input.handed_out H.Input.is_at_end H.Input.failures H.Input.path)
        (sink_view H.Output.written H.Output.failures H.Output.path)
        host.old line.now (sink_run W.written W.failures out.old out.new) result host.new }
{
    match line {
        Line::Judge { trace, schedule } => {
            let paths = TextPaths {
                first: *trace,
                second: *schedule,
            };
            run_on_files(run.alloc, host, TwoTextEngine::Judge, paths, out, kept)
        }
        Line::Cnf { trace, workers } => translate_file(run, host, *trace, *workers, out, kept),
        Line::Decode { trace, model } => {
            let paths = TextPaths {
                first: *trace,
                second: *model,
            };
            run_on_files(run.alloc, host, TwoTextEngine::Decode, paths, out, kept)
        }
        Line::Lrat { cnf, proof } => {
            let paths = TextPaths {
                first: *cnf,
                second: *proof,
            };
            run_on_files(run.alloc, host, TwoTextEngine::Lrat, paths, out, kept)
        }
        Line::Recheck { trace, cert, part } => match *part {
            Some(names) => {
                let paths = PartCertificatePaths {
                    trace: *trace,
                    cert: *cert,
                    names,
                };
                recheck_part_files(run.alloc, host, paths, out, kept)
            }
            None => {
                let paths = TextPaths {
                    first: *trace,
                    second: *cert,
                };
                run_on_files(run.alloc, host, TwoTextEngine::Recheck, paths, out, kept)
            }
        },
        Line::Part {
            trace,
            names,
            shows_names,
        } => {
            let engine = TwoTextEngine::Part {
                shows_names: *shows_names,
            };
            let paths = TextPaths {
                first: *trace,
                second: *names,
            };
            run_on_files(run.alloc, host, engine, paths, out, kept)
        }
        Line::Verify {
            trace,
            cert,
            numbers,
            progress: tells_progress,
        } => {
            let search = search_of(*numbers, *tells_progress);
            match *cert {
                Some(cert) => {
                    let paths = CertifyPaths {
                        trace: *trace,
                        cert,
                    };
                    certify_file(run, host, paths, &search, out, kept)
                }
                None => decide_file(run, host, *trace, &search, out, kept),
            }
        }
        Line::Survey {
            trace,
            files,
            numbers,
            progress: tells_progress,
        } => {
            let search = survey_of(*numbers, *tells_progress);
            let asked = AskedSurvey {
                run,
                inputs: inputs_of_survey(*trace, *files),
                files: *files,
                search: &search,
            };
            if takes_none(*files) {
                survey_opened(&asked, host, out, kept)
            } else {
                with_core(&asked, host, out, kept)
            }
        }
        Line::Refusals => write_refusals(run.alloc, out),
        Line::Batch {
            traces,
            numbers,
            output,
        } => {
            let search = batch_of(*numbers);
            let task = BatchTask {
                alloc: run.alloc,
                rt: run.rt,
                search: &search,
            };
            decide_batch(&task, host, traces.as_slice(), *output, out)
        }
    }
}
