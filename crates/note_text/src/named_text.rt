//! Files that a command was asked to read, as they are read once more for notes, and what failed of those that it wrote.

use text_lines::lines::cut_line;

/// A file's path, and its bytes unless it could not be read again.
#[derive(Clone, Copy)]
pub struct NamedText<'t> {
    /// Its path.
    pub name: &'t str,
    /// Its bytes.
    pub bytes: Option<&'t [u8]>,
    /// What failed when it was read again, as `cannot be opened: ..`, if that is known.
    pub failure: Option<&'t [u8]>,
}

/// The files that a command reads, by what each is for, and what failed of what it wrote.
#[derive(Clone, Copy)]
pub struct AskedTexts<'t> {
    /// The trace.
    pub trace: Option<NamedText<'t>>,
    /// The schedule.
    pub schedule: Option<NamedText<'t>>,
    /// The formula.
    pub cnf: Option<NamedText<'t>>,
    /// The model.
    pub model: Option<NamedText<'t>>,
    /// The derivation.
    pub proof: Option<NamedText<'t>>,
    /// The certificate.
    pub certificate: Option<NamedText<'t>>,
    /// The names of the operations of a part.
    pub names: Option<NamedText<'t>>,
    /// What failed of a file that was written, or of standard output, with its name, if that is known.
    pub written: Option<&'t [u8]>,
}

impl<'t> AskedTexts<'t> {
    /// No file.
    pub fn none() -> AskedTexts<'t> {
        AskedTexts {
            trace: None,
            schedule: None,
            cnf: None,
            model: None,
            proof: None,
            certificate: None,
            names: None,
            written: None,
        }
    }
}

/// The line of this number, counted from 1, without its line feed.
pub fn line_of_text(bytes: &[u8], number: u64) -> Option<&[u8]> {
    if number == 0 {
        return None;
    }
    let mut rest = bytes;
    for _ in 1..number {
        match cut_line(rest) {
            Some((_line, after)) => rest = after,
            None => return None,
        }
    }
    match cut_line(rest) {
        Some((line, _after)) => Some(line),
        None => None,
    }
}
