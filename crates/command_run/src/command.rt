//! A command line, from its words to the exit status.
ghost use Rattle.clap.specs.Walk.{texts};
ghost use Rattle.command_host.specs.Streams.{sink_view, source_view};
ghost use Rattle.command_line.specs.CommandLine.{IsWithinRanges, is_explained};
ghost use Rattle.command_run.specs.CommandRun.{EndsDrawn, EndsWords, ExplainsFault, ReportsFault};
ghost use Rattle.command_run.specs.ExitStatus.{IsExitStatus};
ghost use Rattle.verdict_report.specs.declared.fault.Fault.TheVariants.{Device};
ghost use Rattle.verdict_report.specs.Runs.{sink_run};

use crate::asked_file::{close_asked, make_asked};
use crate::clash::{clash_of, print_clash};
use crate::engine_runs::run_engine;
use crate::explaining::{EndedLine, explain_unmade, tell_ended};
use crate::kept_run::KeptRun;
use crate::picturing::draw_outcome;
use crate::program_run::ProgramRun;
use crate::telling::{DEVICE, tell_fault, tell_line_fault};
use command_host::{FailedFile, Host, Recalls};
use command_line::{CommandLine, Explains, read_line};
use cube_jobs::Gate;
use dimacs::Sink;
use std::alloc::Global;
use std::sync::Wait;
use std::thread::Threads;
use verdict_report::{Fault, exit_status};

/// Reports on standard error that a file could not be made, and explains it.
fn explain_without_file<E: Sink>(alloc: Global, failed: Option<FailedFile<'_>>, err: &mut E)
    ensures { ExplainsFault (sink_run E.written E.failures err.old err.new) Device }
{
    tell_fault(&Fault::Device, err);
    explain_unmade(alloc, failed, err);
}

/// Reports on standard error that a file could not be made, with an explanation or without.
fn report_without_file<E: Sink>(
    alloc: Global,
    failed: Option<FailedFile<'_>>,
    explains: Explains,
    is_terminal: bool,
    err: &mut E,
)
    ensures { ReportsFault (is_explained is_terminal explains) (sink_run E.written E.failures err.old err.new) Device }
{
    if explains.is_wanted(is_terminal) {
        explain_without_file(alloc, failed, err);
    } else {
        tell_fault(&Fault::Device, err);
    }
}

/// Runs the engine of the line, reports a refusal on standard error and explains the outcome there if that is asked for, and draws a picture if there is
/// a path for one. Its file is made or opened first.
fn run_drawn<'p, R: Threads + Wait + Sync, G: Gate + Sync, H: Host<'p>, O: Sink + Recalls, E: Sink>(
    program: &ProgramRun<'_, R, G>,
    host: &mut H,
    asked: &CommandLine<'p>,
    out: &mut O,
    err: &mut E,
) -> u8
    requires { IsWithinRanges asked.now.line }
    ensures ends { EndsDrawn asked.now.picture H.calls (source_view H.Input.handed_out H.Input.is_at_end H.Input.failures H.Input.path)
        (sink_view H.Output.written H.Output.failures H.Output.path)
        program.now.is_terminal host.old asked.now
        (sink_run O.written O.failures out.old out.new)
        (sink_run E.written E.failures err.old err.new)
        result host.new }
    ensures known { IsExitStatus result }
{
    let alloc = program.alloc;
    let is_terminal = program.is_terminal;
    let Ok(mut file) = make_asked(host, asked.picture) else {
        report_without_file(alloc, host.failed_file(), asked.explains, is_terminal, err);
        return DEVICE;
    };
    let explains = asked.explains.is_wanted(is_terminal);
    // Texts are kept only if something is made of them after the run: a picture or an explanation.
    let is_drawn = asked.picture.is_some();
    let mut kept = KeptRun::new(is_drawn || explains);
    let outcome = run_engine(program, host, &asked.line, out, &mut kept);
    let ended = EndedLine {
        line: &asked.line,
        outcome: &outcome,
        explains,
    };
    tell_ended(alloc, host.failed_file(), ended, out, &kept, err);
    let status = exit_status(&outcome);
    // This comes after the explanation, and what fails of it changes neither that nor the status.
    draw_outcome(alloc, &asked.line, status, is_drawn, &kept, &mut file);
    close_asked(host, file);
    status
}

/// Does what the words of a command line ask for, of which the first is the program's name, and gives the exit status.
///
/// The engine that the words name is run on the files at their paths and with their options. Standard output takes what the engine writes,
/// standard error the line of a refusal, and nothing else goes to either of them. With `--progress` the gate of the program is called before
/// and after each cube, and what it writes to standard error it writes by itself. With `--explain`, or if standard error is a terminal, it
/// then takes an explanation, and with `--picture` a further file takes a picture after CONSISTENT or INCONSISTENT; of what these two are,
/// nothing is said. A line of which two files are one that have to be apart is refused. Of words that ask for nothing, standard output
/// takes the help or the version, or standard error what is wrong with them.
pub fn run<'p, R: Threads + Wait + Sync, G: Gate + Sync, H: Host<'p>, O: Sink + Recalls, E: Sink>(
    program: &ProgramRun<'_, R, G>,
    host: &mut H,
    words: &'p [&'p str],
    out: &mut O,
    err: &mut E,
) -> u8
    ensures ends { EndsWords H.calls (source_view H.Input.handed_out H.Input.is_at_end H.Input.failures H.Input.path)
        (sink_view H.Output.written H.Output.failures H.Output.path)
        program.now.is_terminal host.old (texts words.now)
        (sink_run O.written O.failures out.old out.new)
        (sink_run E.written E.failures err.old err.new)
        result host.new }
    ensures known { IsExitStatus result }
{
    match read_line(program.alloc, words) {
        Ok(asked) => match clash_of(host, &asked) {
            Some(clash) => print_clash(clash, err),
            None => run_drawn(program, host, &asked, out, err),
        },
        Err(fault) => tell_line_fault(program.alloc, &fault, out, err),
    }
}
