//! Words on an initial value.

use crate::held_value::initial_value;
use crate::sentence::Sentence;
use note_text::decimal;
use trace_semantics::trace::Trace;

impl Sentence {
    /// Adds what the trace says of the initial value of the location.
    pub fn add_initial(&mut self, trace: &Trace, location: &[u8]) {
        match initial_value(trace, location) {
            Some(value) => {
                let number = decimal(value);
                self.add(&[b"init ", location, b" is ", number.as_slice()])
            }
            None => self.add(&[location, b" has no init line"]),
        }
    }
}
