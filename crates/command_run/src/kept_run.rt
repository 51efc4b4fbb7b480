//! What is kept of a run for its explanation and its picture.

use command_host::KeptText;

/// What is kept of a run: the texts that it read, in the order in which they are handed out, and how long its certificate is. Nothing is
/// promised of it.
#[derive(Drop)]
pub(crate) struct KeptRun {
    /// Whether the texts are kept: if an explanation or a picture may be made.
    pub keeps: bool,
    /// The first one: the trace, or a formula.
    pub first: KeptText,
    /// The second one: a schedule, a model, a proof, a certificate, names, or a hint.
    pub second: KeptText,
    /// The third one: the names of the part that a certificate is of.
    pub third: KeptText,
    /// The length of the certificate, if one was written.
    pub certificate_length: Option<u64>,
}

impl KeptRun {
    /// Nothing yet, of a run whose texts are kept or not.
    pub(crate) fn new(keeps: bool) -> KeptRun {
        KeptRun {
            keeps,
            first: KeptText::unread(),
            second: KeptText::unread(),
            third: KeptText::unread(),
            certificate_length: None,
        }
    }

    /// Returns whether there was no memory to keep a text.
    pub(crate) fn is_lost(&self) -> bool {
        self.first.is_lost || self.second.is_lost || self.third.is_lost
    }
}
