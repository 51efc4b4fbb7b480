//! A folder of the system, in which files are made that were not there.

use crate::stream_sink::StreamSink;
use command_host::{DeviceCall, DeviceFailure, TellsFailure};
use dimacs::write_whole;
use std::alloc::{AllocError, Global};
use std::fs::{File, OpenOptions, create_dir_all, read_dir};
use std::io::ErrorKind;

/// Returns whether nothing is at this path, or a folder that has nothing.
pub(crate) fn is_free(rt: &HostRuntime, folder: &str) -> bool {
    // The system finds nothing at the empty path, but with it `path_within` would name files of the root folder.
    if folder.is_empty() {
        return false;
    }
    match read_dir(rt, folder) {
        Ok(mut entries) => entries.next().is_none(),
        Err(error) => error.kind() == ErrorKind::NotFound,
    }
}

/// Makes the folder at this path, and those above it, unless it is there.
pub(crate) fn make_folder(rt: &HostRuntime, folder: &str) -> Result<(), DeviceFailure> {
    create_dir_all(rt, folder).map_err(|error| DeviceFailure::of(DeviceCall::Make, &error))
}

/// The path of the file of this name in the folder.
fn path_within(alloc: Global, folder: &str, name: &str) -> Result<String, AllocError> {
    format!(in alloc; "{folder}/{name}")
}

/// Makes the file at this path, or gives nothing if there is one. The system does both in one call, so that no file is overwritten that another
/// program makes meanwhile.
fn open_new(rt: &HostRuntime, path: &str) -> Result<Option<File>, DeviceFailure> {
    let mut options = OpenOptions::new();
    options.write(true);
    options.create_new(true);
    match options.open(rt, path) {
        Ok(file) => Ok(Some(file)),
        Err(error) if error.kind() == ErrorKind::AlreadyExists => Ok(None),
        Err(error) => Err(DeviceFailure::of(DeviceCall::Make, &error)),
    }
}

/// Writes the bytes to the file.
fn fill(file: File, bytes: &[u8]) -> Result<(), DeviceFailure> {
    let mut stream = StreamSink::new(file);
    match write_whole(&mut stream, bytes) {
        Ok(()) => Ok(()),
        Err(_) => match stream.failure() {
            Some(failure) => Err(failure),
            None => Err(DeviceFailure::without_code(DeviceCall::Write)),
        },
    }
}

/// Makes a file of this name in the folder, with these bytes. The answer is whether it is new: one that is there already is left as it is.
pub(crate) fn keep(
    rt: &HostRuntime,
    folder: &str,
    name: &str,
    bytes: &[u8],
) -> Result<bool, DeviceFailure> {
    let Ok(path) = path_within(rt.alloc(), folder, name) else {
        return Err(DeviceFailure::without_code(DeviceCall::Make));
    };
    match open_new(rt, path.as_str())? {
        Some(file) => {
            fill(file, bytes)?;
            Ok(true)
        }
        None => Ok(false),
    }
}
