//! Files of one name are made in a folder of the host.
ghost use Rattle.std.specs.Prelude.{◌++◌, IfOk, OnErr, OnOk, string_bytes};
ghost use Rattle.kept_files.specs.KeptFiles.{AreCalls, KeepsTexts, KeepsTrace, KeepsWithin, kept_proofs, kept_some};

use crate::names::{name_of, with_ending};
use command_host::Host;
use dimacs::SinkFault;
use std::alloc::Global;

/// The most names that are tried for a trace. The folder was new or empty when the run began, so names are taken only by traces of files with
/// one stem, and by other programs.
const MOST_NAMES: u32 = 1_000_000;

/// A trace, and what shows that it has no legal schedule.
#[derive(Clone, Copy)]
pub struct KeptTexts<'t> {
    /// The trace.
    pub trace: &'t [u8],
    /// The certificate.
    pub certificate: &'t [u8],
    /// The names of the part that the certificate is of, or no bytes.
    pub names: &'t [u8],
    /// The picture, or no bytes.
    pub picture: &'t [u8],
}

/// Makes the file of the trace, under the first name that is new, and gives that name.
fn keep_trace<'p, H: Host<'p>>(
    alloc: Global,
    host: &mut H,
    folder: &'p str,
    stem: &str,
    number: usize,
    trace: &[u8],
) -> Result<String, SinkFault>
    ensures kept { IfOk result (λ name. KeepsTrace H.calls folder.now stem.now number trace.now host.old (string_bytes name) host.new) }
    ensures within { OnErr result (KeepsWithin H.calls folder.now host.old host.new) }
{
    // The file of the trace decides on the name, so it is made first: making it and finding that it is new are one call of the host.
    for taken in 0..MOST_NAMES {
        let name = name_of(alloc, stem, number, taken)?;
        let file = with_ending(alloc, name.as_str(), ".trace")?;
        if host.keep(folder, file.as_str(), trace)? {
            return Ok(name);
        }
    }
    Err(SinkFault::Device)
}

/// Makes a file of this name, which has to be new. If there are no bytes, no file is made.
fn keep_file<'p, H: Host<'p>>(
    alloc: Global,
    host: &mut H,
    folder: &'p str,
    name: &str,
    ending: &str,
    bytes: &[u8],
) -> Result<(), SinkFault>
    ensures kept { OnOk result (AreCalls H.calls folder.now host.old (kept_some (name.now ++ ending.now) bytes.now) host.new) }
    ensures within { OnErr result (KeepsWithin H.calls folder.now host.old host.new) }
{
    if bytes.is_empty() {
        return Ok(());
    }
    let file = with_ending(alloc, name, ending)?;
    if host.keep(folder, file.as_str(), bytes)? {
        Ok(())
    } else {
        Err(SinkFault::Device)
    }
}

/// Makes the files of what shows that a trace has no legal schedule.
fn keep_proofs<'p, H: Host<'p>>(
    alloc: Global,
    host: &mut H,
    folder: &'p str,
    name: &str,
    texts: &KeptTexts<'_>,
) -> Result<(), SinkFault>
    ensures kept { OnOk result (AreCalls H.calls folder.now host.old (kept_proofs name.now texts.now) host.new) }
    ensures within { OnErr result (KeepsWithin H.calls folder.now host.old host.new) }
{
    keep_file(alloc, host, folder, name, ".cert", texts.certificate)?;
    keep_file(alloc, host, folder, name, ".names", texts.names)?;
    keep_file(alloc, host, folder, name, ".svg", texts.picture)
}

/// Makes the files of a trace, and of what shows that it has no legal schedule, in the folder at this path, and gives their name: the stem, and
/// the number of the trace in its file. If there is a trace of this name, it is left as it is, and the name gets a further number.
///
/// # Errors
///
/// - `OutOfMemory` if memory runs out
/// - `Device` if a file cannot be made or written, or there is one of another ending with this name
///
/// Files may have been made then.
pub fn keep_texts<'p, H: Host<'p>>(
    alloc: Global,
    host: &mut H,
    folder: &'p str,
    stem: &str,
    number: usize,
    texts: &KeptTexts<'_>,
) -> Result<String, SinkFault>
    ensures kept { IfOk result (λ name. KeepsTexts H.calls folder.now stem.now number texts.now host.old (string_bytes name) host.new) }
    ensures within { OnErr result (KeepsWithin H.calls folder.now host.old host.new) }
{
    let name = keep_trace(alloc, host, folder, stem, number, texts.trace)?;
    keep_proofs(alloc, host, folder, name.as_str(), texts)?;
    Ok(name)
}
