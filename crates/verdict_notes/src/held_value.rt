//! What a location holds after the first operations of a schedule.

use crate::named_operations::operation_of;
use crate::sentence::Sentence;
use note_text::decimal;
use trace_semantics::operation::OpName;
use trace_semantics::trace::Trace;

/// A value, and the operation that wrote it, or none if it is the initial one.
#[derive(Clone, Copy)]
pub struct HeldValue<'t> {
    pub value: u64,
    pub writer: Option<&'t OpName>,
}

/// The initial value of the location.
pub fn initial_value(trace: &Trace, location: &[u8]) -> Option<u64> {
    for entry in trace.initial() {
        if entry.0.as_bytes() == location {
            return Some(entry.1);
        }
    }
    None
}

/// The value that the operation leaves at the location, if it writes there.
fn value_left(trace: &Trace, name: &OpName, location: &[u8]) -> Option<u64> {
    match operation_of(trace, name) {
        Some(op) => {
            if op.location().as_bytes() == location {
                op.written_value()
            } else {
                None
            }
        }
        None => None,
    }
}

/// Gives what the location holds after these operations.
pub fn held_after<'t>(
    trace: &Trace,
    names: &'t [OpName],
    location: &[u8],
) -> Option<HeldValue<'t>> {
    for k in (0..names.len()).rev() {
        let name = &names[k];
        if let Some(value) = value_left(trace, name, location) {
            return Some(HeldValue {
                value,
                writer: Some(name),
            });
        }
    }
    match initial_value(trace, location) {
        Some(value) => Some(HeldValue {
            value,
            writer: None,
        }),
        None => None,
    }
}

impl Sentence {
    /// Adds what is held, as `holds 1, written by P.1`.
    pub fn add_held(&mut self, held: Option<HeldValue<'_>>) {
        match held {
            Some(held) => {
                let value = decimal(held.value);
                self.add(&[b"holds ", value.as_slice()]);
                self.add_writer(held.writer)
            }
            None => self.add(&[b"holds no value: nothing has written it, and it has no init line"]),
        }
    }

    /// Adds who wrote a value.
    fn add_writer(&mut self, writer: Option<&OpName>) {
        match writer {
            Some(name) => {
                self.add(&[b", written by "]);
                self.add_op_name(name)
            }
            None => self.add(&[b", its initial value"]),
        }
    }
}
