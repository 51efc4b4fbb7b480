//! What failed of a file or a stream.

use dimacs::{MemorySink, ShortSink};
use std::alloc::{AllocError, Global};
use std::io::Error;
use verdict_report::ShortSource;

/// What was asked of a file or a stream.
#[derive(Clone, Copy)]
pub enum DeviceCall {
    /// To open it.
    Open,
    /// To make it, or to empty it.
    Make,
    /// To read of it.
    Read,
    /// To write to it.
    Write,
}

/// What failed of a file or a stream, and the number that the system gave for it, if it gave one.
#[derive(Clone, Copy)]
pub struct DeviceFailure {
    pub call: DeviceCall,
    /// The error number of the system.
    pub code: Option<i32>,
}

impl DeviceFailure {
    /// This call failed by this error.
    pub fn of(call: DeviceCall, error: &Error) -> DeviceFailure {
        DeviceFailure {
            call,
            code: error.raw_os_error(),
        }
    }

    /// This call failed, and the system gave no number.
    pub fn without_code(call: DeviceCall) -> DeviceFailure {
        DeviceFailure { call, code: None }
    }

    /// Gives what failed, in words.
    fn says(&self) -> &'static str {
        match self.call {
            DeviceCall::Open => "cannot be opened",
            DeviceCall::Make => "cannot be made",
            DeviceCall::Read => "cannot be read",
            DeviceCall::Write => "cannot be written",
        }
    }

    /// Gives what failed after these words, and why, as the system says it. The words are the name of what failed with a blank or `: ` at their end,
    /// or empty if the caller adds the name.
    pub fn told(&self, alloc: Global, front: &str) -> Result<String, AllocError> {
        let says = self.says();
        match self.code {
            Some(code) => told_by_system(alloc, front, says, code),
            None => format!(in alloc; "{front}{says}"),
        }
    }
}

/// These words, and what the system says of the number that it gave.
fn told_by_system(alloc: Global, front: &str, says: &str, code: i32) -> Result<String, AllocError> {
    let error = Error::from_raw_os_error(code);
    format!(in alloc; "{front}{says}: {error}")
}

/// What failed of a file that was to be made or written, and its path.
#[derive(Clone, Copy)]
pub struct FailedFile<'p> {
    pub path: &'p str,
    pub failure: DeviceFailure,
}

impl FailedFile<'_> {
    /// Gives what failed of it, and why, with its path in front.
    pub fn told(&self, alloc: Global) -> Result<String, AllocError> {
        let path = self.path;
        let front = format!(in alloc; "{path}: ")?;
        self.failure.told(alloc, front.as_str())
    }
}

/// What can be asked what failed of it. Explanations alone ask, so nothing is promised of the answer.
pub trait TellsFailure {
    /// Gives what failed of it last, if that is known.
    fn failure(&self) -> Option<DeviceFailure>;
}

// A sink or a source in memory never fails because of the system. Such an impl can stand only where its trait or its type is declared.

impl TellsFailure for MemorySink {
    fn failure(&self) -> Option<DeviceFailure> {
        None
    }
}

impl TellsFailure for ShortSink {
    fn failure(&self) -> Option<DeviceFailure> {
        None
    }
}

impl TellsFailure for ShortSource<'_> {
    fn failure(&self) -> Option<DeviceFailure> {
        None
    }
}
