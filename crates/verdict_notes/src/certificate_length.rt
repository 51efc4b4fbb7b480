//! Certificates that are too long.

use note_text::{Notes, decimal};

/// Notes how a certificate of this many bytes gets shorter, if a file that is read has at most `most` bytes and it has more.
pub fn explain_certificate_length(notes: &mut Notes, length: u64, most: u64) {
    if length <= most {
        return;
    }
    let bytes = decimal(length);
    let limit = decimal(most);
    notes.note(&[
        b"the certificate has ",
        bytes.as_slice(),
        b" bytes, and vsc recheck reads at most ",
        limit.as_slice(),
    ]);
    notes.note(&[
        b"--split 0 gives one proof in place of one for each cube, and mostly a shorter certificate",
    ]);
}
