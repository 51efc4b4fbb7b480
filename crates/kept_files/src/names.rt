//! Names of files.
//!
//! The text of a trace without a legal schedule, and what shows that it has none, are kept in files that have one name, but for its ending (`keeping.rt`).
ghost use Rattle.std.specs.Prelude.{◌≡◌, ◌++◌, IfOk, string_bytes};
ghost use Rattle.kept_files.specs.KeptFiles.{kept_name};

use std::alloc::{AllocError, Global};
use std::path::Path;

/// The stem for a file whose path has no name, as standard input.
const NO_NAME: &str = "stdin";

/// The end of the name of a trace's file, which is left out of its stem.
const ENDING: &str = ".trace";

/// The name of the file at this path without its folders and without `.trace`. Standard input, `-`, is `stdin`.
pub fn stem_of(path: &str) -> &str {
    let name = Path::new(path).file_name().unwrap_or(NO_NAME);
    match name.strip_suffix(ENDING).unwrap_or(name) {
        "" => NO_NAME,
        "-" => NO_NAME,
        stem => stem,
    }
}

/// The name of the files of the trace of this number, which counts from 1, behind a number of names that were taken: `STEM-NUMBER` at first, and
/// then `STEM-NUMBER.2`, `STEM-NUMBER.3` and so on.
pub(crate) fn name_of(
    alloc: Global,
    stem: &str,
    number: usize,
    taken: u32,
) -> Result<String, AllocError>
    ensures { IfOk result (λ name. string_bytes name ≡ kept_name stem.now number taken) }
{
    if taken == 0 {
        return format!(in alloc; "{stem}-{number}");
    }
    let copy = taken as u64 + 1;
    format!(in alloc; "{stem}-{number}.{copy}")
}

/// The name with this ending.
pub(crate) fn with_ending(alloc: Global, name: &str, ending: &str) -> Result<String, AllocError>
    ensures { IfOk result (λ file. string_bytes file ≡ name.now ++ ending.now) }
{
    format!(in alloc; "{name}{ending}")
}
