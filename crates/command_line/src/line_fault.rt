//! Why a command line asks for nothing to be done.

ghost use Rattle.std.specs.Prelude.{◌≡◌};
ghost use Rattle.clap.specs.Words.{kind_of};
ghost use Rattle.clap.specs.declared.error.kind.ErrorKind.{ErrorKind};
ghost use Rattle.clap.specs.declared.error.kind.ErrorKind.TheVariants.{OutOfMemory};
ghost use Rattle.command_line.specs.LineFault.{is_answer, status_of, text_on_memory};

use crate::number_option::{NumberOption, missed_number};
use clap::Error;
use clap::error::ErrorKind;
use std::alloc::AllocError;
use std::fmt;
use std::marker::Model;

/// A mistake in a command line, a request for help or for the version, or that memory ran out. Its
/// `Display` is the text to print, each line of it ended.
#[derive(Debug, Drop)]
pub struct LineFault {
    error: Error,
    // The option whose value is no number of its range, if that is the fault.
    missed: Option<NumberOption>,
}

// Contracts see a fault as its kind.
impl Model for LineFault {
    ghost Value = { ErrorKind };

    ghost view = { λ fault. kind_of fault.error };
}

impl LineFault {
    /// The same fault, of a command line of these words. If the fault is that an option's value is no number of its range, the text then
    /// names the range.
    pub(crate) fn with_range(self, words: &[&str]) -> LineFault
        ensures { result ≡ self }
    {
        let missed = missed_number(words, self.error.kind());
        LineFault {
            error: self.error,
            missed,
        }
    }

    /// The kind of the fault, as `clap` has it.
    pub fn kind(&self) -> ErrorKind
        ensures { result ≡ self.now }
    {
        self.error.kind()
    }

    /// Returns whether the text is the help or the version that was asked for. It goes to standard output, and every other text to standard
    /// error.
    pub fn is_answer(&self) -> bool
        ensures { result ≡ is_answer self.now }
    {
        matches!(
            self.kind(),
            ErrorKind::DisplayHelp | ErrorKind::DisplayVersion
        )
    }

    /// The exit status: 0 after an answer, and else 2.
    pub fn status(&self) -> u8
        ensures { result ≡ status_of self.now }
    {
        if self.is_answer() { 0 } else { 2 }
    }
}

impl From<Error> for LineFault {
    ghost from_gives = { λ error kind. kind ≡ kind_of error };

    fn from(error: Error) -> LineFault {
        LineFault {
            error,
            missed: None,
        }
    }
}

impl From<AllocError> for LineFault {
    ghost from_gives = { λ _ kind. kind ≡ OutOfMemory };

    fn from(error: AllocError) -> LineFault {
        LineFault::from(Error::from(error))
    }
}

impl fmt::Display for LineFault {
    ghost output = { text_on_memory };

    fn fmt<W: fmt::Write>(&self, f: &mut fmt::Formatter<W>) -> fmt::Result {
        match self.error.kind() {
            ErrorKind::OutOfMemory => f.write_str("refused: memory\n"),
            _ => match self.missed {
                Some(option) => write!(f, "error: {option}\n"),
                None => self.error.fmt(f),
            },
        }
    }
}

impl std::error::Error for LineFault {}
