//! The system as the host of a command.
ghost use Rattle.std.specs.Prelude.{◌≡◌, ◌+◌, IsErr};

use crate::file_sink::FileSink;
use crate::file_source::{FileSource, STANDARD_INPUT};
use crate::folder::{is_free, keep, make_folder};
use command_host::{DeviceFailure, FailedFile, Host, SearchRequest};
use dimacs::{Failed, FailureCount};
use std::fs::metadata;
use std::os::unix::fs::MetadataExt;
use std::path::Path;

/// The path at which the system shows what standard input is.
const INPUT_DEVICE: &str = "/dev/stdin";

/// Returns whether there is a file at both paths, and it is the same one: one number on one device. Links are followed.
fn is_same(rt: &HostRuntime, first: &str, second: &str) -> bool {
    match (metadata(rt, first), metadata(rt, second)) {
        (Ok(first), Ok(second)) => first.dev() == second.dev() && first.ino() == second.ino(),
        _ => false,
    }
}

/// The folder of the path: the one in which the program was started if the path names none.
fn folder_of(path: &str) -> &str {
    match Path::new(path).parent() {
        Some(folder) if !folder.as_str().is_empty() => folder.as_str(),
        _ => ".",
    }
}

/// Returns whether both paths give a file one name in one folder. A file that is still to be made has no other sign.
fn is_same_place(rt: &HostRuntime, first: &str, second: &str) -> bool {
    match (Path::new(first).file_name(), Path::new(second).file_name()) {
        (Some(name), Some(other)) => {
            name == other && is_same(rt, folder_of(first), folder_of(second))
        }
        _ => false,
    }
}

/// The files of the system.
#[derive(Drop)]
pub struct SystemHost<'a> {
    rt: &'a HostRuntime,
    /// Contracts alone see it: how often a file or a folder could not be made, or a file of a folder not be written.
    failures: FailureCount,
    /// What failed last of a file that was to be made or written. Files that are read keep their failures themselves.
    failed: Option<FailedFile<'a>>,
}

impl<'a> SystemHost<'a> {
    /// The system as a host.
    pub fn new(rt: &'a HostRuntime) -> SystemHost<'a> {
        SystemHost {
            rt,
            failures: FailureCount::new(),
            failed: None,
        }
    }

    /// Counts that something failed of what is at this path.
    fn note<T>(&mut self, path: &'a str, failure: DeviceFailure) -> Result<T, Failed>
        ensures answer { IsErr result }
        ensures failed { self.new.failures.count ≡ self.old.failures.count + 1 }
    {
        self.failures.rise();
        self.failed = Some(FailedFile { path, failure });
        Err(Failed)
    }
}

impl<'a> Host<'a> for SystemHost<'a> {
    ghost use Rattle.system_host.specs.SystemHost.{system_calls};

    type Input = FileSource<'a>;

    type Output = FileSink<'a>;

    ghost calls = { system_calls };

    fn source(&mut self, path: &'a str) -> FileSource<'a> {
        FileSource::new(self.rt, path)
    }

    fn create(&mut self, path: &'a str, is_emptied: bool) -> Result<FileSink<'a>, Failed> {
        // This counts a failure by itself, so `note` is not called here.
        match FileSink::create(self.rt, path, is_emptied, &mut self.failures) {
            Ok(file) => Ok(file),
            Err(failure) => {
                self.failed = Some(FailedFile { path, failure });
                Err(Failed)
            }
        }
    }

    fn close(&mut self, file: FileSink<'a>) {
        // The file has counted this failure; it is kept here for the explanation, as the file is let go.
        if let Some(failed) = file.failed() {
            self.failed = Some(failed);
        }
    }

    fn is_same_file(&mut self, first: &str, second: &str) -> bool {
        // The first path is always that of a file that is written. The second may be `-`: the file of that name if it is written too, and standard
        // input if it is read. It is not known here which, so each of both counts.
        is_same(self.rt, first, second)
            || is_same_place(self.rt, first, second)
            || (second == STANDARD_INPUT && is_same(self.rt, first, INPUT_DEVICE))
    }

    fn is_free(&mut self, folder: &str) -> bool {
        is_free(self.rt, folder)
    }

    fn make_folder(&mut self, folder: &'a str) -> Result<(), Failed> {
        match make_folder(self.rt, folder) {
            Ok(()) => Ok(()),
            Err(failure) => self.note(folder, failure),
        }
    }

    fn keep(&mut self, folder: &'a str, name: &str, bytes: &[u8]) -> Result<bool, Failed> {
        match keep(self.rt, folder, name, bytes) {
            Ok(is_new) => Ok(is_new),
            Err(failure) => self.note(folder, failure),
        }
    }

    fn begin_search(&mut self, _search: &SearchRequest) {}

    fn failed_file(&self) -> Option<FailedFile<'a>> {
        self.failed
    }
}
