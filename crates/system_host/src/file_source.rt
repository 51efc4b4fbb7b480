//! A file, or standard input, as a source.
ghost use Rattle.std.specs.Prelude.{◌≡◌, ◌≤◌, [], false, length, IfOk, IsSome, OnOk};
ghost use Rattle.system_host.specs.FileSource.{path_of};

use command_host::{DeviceCall, DeviceFailure, TellsFailure};
use dimacs::{Failed, FailureCount, Transcript};
use std::fs::File;
use std::io::{ErrorKind, Read};
use std::rt::Files;
use verdict_report::Source;

/// The path in whose place standard input is read.
pub const STANDARD_INPUT: &str = "-";

/// A file of the system, read from its beginning, or standard input. A file is opened at the first read, so that inputs are opened and
/// read one after another; a file that cannot be opened fails that read.
#[derive(Drop)]
pub struct FileSource<'a> {
    rt: &'a HostRuntime,
    path: &'a str,
    /// The open file, or nothing before the first read. It stays empty for standard input.
    file: Option<File>,
    /// Contracts alone see it, and the count of failures below. They take no memory.
    handed_out: Transcript,
    /// Whether the last read that succeeded gave no byte.
    is_at_end: bool,
    failures: FailureCount,
    /// What failed last, for explanations alone.
    failure: Option<DeviceFailure>,
}

impl<'a> FileSource<'a> {
    /// The file at this path, of which nothing is read yet.
    pub fn new(rt: &'a HostRuntime, path: &'a str) -> FileSource<'a>
        ensures path { path_of result ≡ path.now }
        ensures handed_out { ⟦<FileSource<'a> as Source>⟧.handed_out result ≡ [] }
        ensures is_at_end { ⟦<FileSource<'a> as Source>⟧.is_at_end result ≡ false }
        ensures failures { ⟦<FileSource<'a> as Source>⟧.failures result ≡ 0 }
    {
        FileSource {
            rt,
            path,
            file: None,
            handed_out: Transcript::new(),
            is_at_end: false,
            failures: FailureCount::new(),
            failure: None,
        }
    }
}

/// Reads from the open file or from standard input. A read that a signal interrupts is tried again.
fn read_open<F: Read>(file: &mut F, buffer: &mut [u8]) -> Result<usize, DeviceFailure>
    ensures { IfOk result (λ count. count ≤ length buffer.old) }
{
    // The bound is never reached; the checker sees by it that the loop returns.
    for _ in 0..u64::MAX {
        match file.read(buffer) {
            Ok(count) => return Ok(count),
            Err(error) if error.kind() != ErrorKind::Interrupted => {
                return Err(DeviceFailure::of(DeviceCall::Read, &error));
            }
            Err(_) => {}
        }
    }
    Err(DeviceFailure::without_code(DeviceCall::Read))
}

/// Reads from the file at this path, which is opened where it is not open yet.
fn read_file<R: Files<File = File>>(
    rt: &R,
    path: &str,
    file: &mut Option<File>,
    buffer: &mut [u8],
) -> Result<usize, DeviceFailure>
    ensures within { IfOk result (λ count. count ≤ length buffer.old) }
    ensures is_open { OnOk result (IsSome file.new) }
{
    if file.is_none() {
        // An opening that a signal interrupts is tried again within.
        match File::open(rt, path) {
            Ok(opened) => *file = Some(opened),
            Err(error) => return Err(DeviceFailure::of(DeviceCall::Open, &error)),
        }
    }
    match file {
        Some(file) => read_open(file, buffer),
        // This is never reached: the file was opened above, or this call has returned.
        None => Err(DeviceFailure::without_code(DeviceCall::Open)),
    }
}

/// Reads from the file at this path, or from standard input in its place.
fn read_path(
    rt: &HostRuntime,
    path: &str,
    file: &mut Option<File>,
    buffer: &mut [u8],
) -> Result<usize, DeviceFailure>
    ensures { IfOk result (λ count. count ≤ length buffer.old) }
{
    if path == STANDARD_INPUT {
        return read_open(&mut rt.stdin(), buffer);
    }
    read_file(rt, path, file, buffer)
}

impl Source for FileSource<'_> {
    ghost handed_out = { λ s. s.handed_out.bytes };

    ghost is_at_end = { λ s. s.is_at_end };

    ghost failures = { λ s. s.failures.count };

    ghost path = { λ s. s.path.now };

    fn read(&mut self, buffer: &mut [u8]) -> Result<usize, Failed> {
        match read_path(self.rt, self.path, &mut self.file, buffer) {
            Ok(count) => {
                self.handed_out.extend(&buffer[..count]);
                self.is_at_end = count == 0;
                Ok(count)
            }
            Err(failure) => {
                self.failures.rise();
                self.failure = Some(failure);
                Err(Failed)
            }
        }
    }
}

impl TellsFailure for FileSource<'_> {
    fn failure(&self) -> Option<DeviceFailure> {
        self.failure
    }
}
