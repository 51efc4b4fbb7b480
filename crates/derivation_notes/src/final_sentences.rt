//! Sentences on final values.

use crate::story::Phrase;
use crate::telling::{Conclusion, Teller};
use var_layout::candidate::FinalChoice;
use var_layout::layout::Layout;

/// The writers that may leave the final value of this number, which counts from 0 in the trace's list. There are none if the number is too large.
fn finals_of(layout: &Layout, final_value: usize) -> &[FinalChoice] {
    if final_value < layout.final_values() {
        layout.finals(final_value)
    } else {
        &[]
    }
}

/// The writer that the variable makes the last one.
fn last_of(choices: &[FinalChoice], variable: u32) -> Option<usize> {
    for choice in choices {
        if choice.variable == variable {
            return Some(choice.writer);
        }
    }
    None
}

impl<'t> Teller<'t> {
    /// Says the clause that a writer leaves the final value of this number. If there is no such writer, two clauses contradict each other on a
    /// variable that no writer has: the first says nothing, and the second is the contradiction.
    pub fn tell_last(&mut self, final_value: usize, conclusion: Conclusion) {
        let choices = finals_of(self.clauses.layout(), final_value);
        let is_only = choices.len() == 1;
        match conclusion {
            Conclusion::Of(variable) => match last_of(choices, variable) {
                Some(writer) => self.say_last(writer, is_only),
                None => {}
            },
            Conclusion::Contradiction => {
                self.story.say(&[Phrase::Words(
                    b"no operation is left that can write the final value last: contradiction",
                )])
            }
            Conclusion::Order(_, _) => {}
        }
    }

    /// Says why the writer is the last one.
    fn say_last(&mut self, writer: usize, is_only: bool) {
        let words: &[u8] = if is_only {
            b" is the last write there: it alone writes the final value"
        } else {
            b" is the last write there: nothing else is left that writes the final value"
        };
        self.story
            .say(&[Phrase::Whole(writer), Phrase::Words(words)]);
    }
}
