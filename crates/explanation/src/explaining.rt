//! The notes on an answer.

use crate::asked_command::AskedCommand;
use crate::verdicts::explain_verdict;
use note_text::Notes;
use refusal_notes::explain_refusal;
use std::alloc::Global;
use verdict_report::{Fault, Status};

/// The notes on the outcome of the command, as lines, where `written` says what failed of what was written, if that is known. What memory
/// does not suffice for is left out.
pub fn explain<'t>(
    alloc: Global,
    asked: &AskedCommand<'t>,
    outcome: &Result<Status, Fault>,
    written: Option<&'t [u8]>,
) -> Vec<u8> {
    let mut notes = Notes::new(alloc);
    // If memory runs out, the notes so far are the answer.
    let _ = match outcome {
        Ok(status) => explain_verdict(alloc, &mut notes, asked, *status),
        Err(fault) => explain_refusal(alloc, &mut notes, fault, &asked.texts(written)),
    };
    notes.into_taken()
}
