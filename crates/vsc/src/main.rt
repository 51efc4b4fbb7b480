//! The program `vsc`: a command line, run with the system as its host.
#![tactic(auto)]

ghost use Rattle.command_run.specs.ExitStatus.{IsExitStatus};

use command_host::{Recalls, Recorder};
use command_run::{ArgumentFault, ProgramRun, refuse, run, words_of};
use dimacs::Sink;
use std::env;
use std::io::{ErrorKind, IsTerminal};
use std::process::ExitCode;
use std::sync::Wait;
use std::thread::Threads;
use system_host::{HeldNumbers, Progress, StreamSink, SystemHost};

/// The arguments of the program, or why there are none.
fn arguments(rt: &HostRuntime) -> Result<Vec<String>, ArgumentFault> {
    match env::args(rt) {
        Ok(arguments) => match arguments.collect::<Vec<String>>(rt.alloc()) {
            Ok(texts) => Ok(texts),
            Err(_) => Err(ArgumentFault::OutOfMemory),
        },
        Err(error) if error.kind() == ErrorKind::InvalidData => Err(ArgumentFault::NotText),
        Err(_) => Err(ArgumentFault::OutOfMemory),
    }
}

/// Does what the words ask for, with the files of the system, and gives the exit status. What `run` knows of these is what it knows of any
/// host, and it gets no runtime by which it could write elsewhere.
fn run_on_system<'x, R: Threads + Wait + Sync, O: Sink + Recalls, E: Sink>(
    rt: &'x HostRuntime,
    threads: &R,
    words: &'x [&'x str],
    out: &mut O,
    err: &mut E,
    is_terminal: bool,
) -> u8
    ensures { IsExitStatus result }
{
    let mut host = SystemHost::new(rt);
    let progress = Progress::new(rt);
    let program = ProgramRun {
        alloc: rt.alloc(),
        rt: threads,
        progress: &progress,
        is_terminal,
    };
    run(&program, &mut host, words, out, err)
}

fn main(rt: HostRuntime) -> ExitCode {
    // This comes first, before any file is opened, and has a name so that it is kept until `main` ends.
    let _held = HeldNumbers::take(&rt);
    // The explanation reads the report that standard output took; of standard error nothing is recorded.
    let mut out = Recorder::keeping(rt.alloc(), StreamSink::new(rt.stdout()));
    let mut err = StreamSink::new(rt.stderr());
    let texts = match arguments(&rt) {
        Ok(texts) => texts,
        Err(fault) => return ExitCode::from(refuse(fault, &mut err)),
    };
    let Ok(words) = words_of(rt.alloc(), &texts) else {
        return ExitCode::from(refuse(ArgumentFault::OutOfMemory, &mut err));
    };
    let is_terminal = rt.stderr().is_terminal();
    // The runtime starts threads where `main` hands it on for that, and nowhere else.
    ExitCode::from(run_on_system(&rt, &rt, words.as_slice(), &mut out, &mut err, is_terminal))
}
