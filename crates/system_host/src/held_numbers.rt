//! The numbers of the standard streams.
use std::fs::File;
use std::rt::Files;

/// Files under the numbers of those standard streams that the caller has closed. Without them the system would give such a number to the
/// next file that is opened, as that of a certificate, which would then take what is meant for the stream. They are open for reading
/// alone, so that what is written to such a stream fails.
///
/// The fields are named by the streams of a caller that has closed all three. If fewer are closed, the first field has the lowest free number,
/// whichever stream that is of.
#[derive(Drop)]
pub struct HeldNumbers {
    input: Option<File>,
    output: Option<File>,
    error: Option<File>,
}

impl HeldNumbers {
    /// Takes the three lowest numbers that are free. It must be called before any other file is opened, and what it gives must be kept until the
    /// program ends. If all streams are open, three files are held in vain. If the root folder cannot be opened, the next file may still get the number of a
    /// stream that is closed.
    pub fn take<R: Files<File = File>>(rt: &R) -> HeldNumbers {
        HeldNumbers {
            input: File::open(rt, "/").ok(),
            output: File::open(rt, "/").ok(),
            error: File::open(rt, "/").ok(),
        }
    }
}
