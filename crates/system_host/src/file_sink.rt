//! A file as a sink.
ghost use Rattle.std.specs.Prelude.{◌≡◌, ◌+◌, [], IfOk, IsTrue, OnErr, OnOk};
ghost use Rattle.system_host.specs.FileSink.{path_to};

use crate::stream_sink::StreamSink;
use command_host::{DeviceCall, DeviceFailure, FailedFile, TellsFailure};
use dimacs::{Failed, FailureCount, Sink};
use std::fs::{File, OpenOptions};
use std::rt::Files;

/// Makes the file at this path, or opens the one that is there, which is emptied or keeps what it has. It keeps that until something is written, so
/// that a run that is refused, or has nothing for the file, loses nothing; but the certificate of `verify` is emptied at once, so that an earlier one
/// is never taken for that of this run.
fn open_to_write<R: Files<File = File>>(
    rt: &R,
    path: &str,
    is_emptied: bool,
) -> Result<File, DeviceFailure> {
    let mut options = OpenOptions::new();
    options.write(true);
    options.create(true);
    options.truncate(is_emptied);
    // An opening that a signal interrupts is tried again within.
    options
        .open(rt, path)
        .map_err(|error| DeviceFailure::of(DeviceCall::Make, &error))
}

/// Empties the file. What has no length, as a pipe or a terminal, is left as it is. If nothing can be learned of the file, it is emptied too: else what it had
/// before could stay unnoticed.
fn empty(file: &File) -> Result<(), DeviceFailure> {
    let may_have_length = match file.metadata() {
        Ok(metadata) => metadata.is_file(),
        Err(_) => true,
    };
    if may_have_length {
        file.set_len(0)
            .map_err(|error| DeviceFailure::of(DeviceCall::Write, &error))
    } else {
        Ok(())
    }
}

/// A file of the system that was made, or opened, to be written. What it had before is lost with the first byte that is written to it, or if it
/// is emptied.
#[derive(Drop)]
pub struct FileSink<'a> {
    path: &'a str,
    stream: StreamSink<File>,
    /// Whether what the file had before is gone. It stays true when bytes are written.
    is_empty: bool,
}

impl<'a> FileSink<'a> {
    /// Makes the file at this path, or opens the one that is there, which is emptied at once or later. An error is a failure of the system,
    /// which is counted, and what failed.
    pub fn create<R: Files<File = File>>(
        rt: &R,
        path: &'a str,
        is_emptied: bool,
        failures: &mut FailureCount,
    ) -> Result<FileSink<'a>, DeviceFailure>
        ensures path { IfOk result (λ sink. path_to sink ≡ path.now) }
        ensures written { IfOk result (λ sink. ⟦<FileSink<'a> as Sink>⟧.written sink ≡ []) }
        ensures failures { IfOk result (λ sink. ⟦<FileSink<'a> as Sink>⟧.failures sink ≡ 0) }
        ensures well { OnOk result (failures.new.count ≡ failures.old.count) }
        ensures failed { OnErr result (failures.new.count ≡ failures.old.count + 1) }
    {
        match open_to_write(rt, path, is_emptied) {
            Ok(file) => Ok(FileSink {
                path,
                stream: StreamSink::new(file),
                is_empty: is_emptied,
            }),
            Err(failure) => {
                failures.rise();
                Err(failure)
            }
        }
    }

    /// Empties it, unless that was done or something was written.
    pub fn clear(&mut self) -> Result<(), Failed>
        ensures written { ⟦<FileSink<'a> as Sink>⟧.written self.new ≡ ⟦<FileSink<'a> as Sink>⟧.written self.old }
        ensures well { OnOk result (⟦<FileSink<'a> as Sink>⟧.failures self.new ≡ ⟦<FileSink<'a> as Sink>⟧.failures self.old) }
        ensures failed { OnErr result (⟦<FileSink<'a> as Sink>⟧.failures self.new ≡ ⟦<FileSink<'a> as Sink>⟧.failures self.old + 1) }
        ensures same { path_to self.new ≡ path_to self.old }
        ensures cleared { OnOk result (IsTrue self.new.is_empty) }
    {
        if self.is_empty {
            return Ok(());
        }
        match empty(self.stream.stream()) {
            Ok(()) => {
                self.is_empty = true;
                Ok(())
            }
            Err(failure) => {
                self.stream.note_failure(failure);
                Err(Failed)
            }
        }
    }

    /// Gives what failed of it, if anything did.
    pub fn failed(&self) -> Option<FailedFile<'a>> {
        match self.stream.failure() {
            Some(failure) => Some(FailedFile {
                path: self.path,
                failure,
            }),
            None => None,
        }
    }
}

impl<'a> Sink for FileSink<'a> {
    ghost written = { λ s. s.stream.written.bytes };

    ghost failures = { λ s. s.stream.failures.count };

    ghost path = { λ s. s.path.now };

    fn write(&mut self, bytes: &[u8]) -> Result<usize, Failed> {
        // The first write empties the file; a later one finds that done. Without this a shorter text would leave the end of the old one.
        match self.clear() {
            Ok(()) => self.stream.write(bytes),
            Err(failed) => Err(failed),
        }
    }
}
