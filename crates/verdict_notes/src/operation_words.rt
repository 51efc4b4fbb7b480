//! Operations as they stand in a trace.

use crate::named_operations::origin_of;
use crate::sentence::Sentence;
use note_text::decimal;
use trace_semantics::operation::{Op, Origin, Span};

impl Sentence {
    /// Adds the operation as its line in a trace, as `R x 1 from P 2`.
    pub fn add_operation(&mut self, op: &Op) {
        let letter: &[u8] = match op {
            Op::Read { .. } => b"R ",
            Op::Write { .. } => b"W ",
            Op::Update { .. } => b"U ",
        };
        self.add(&[letter, op.location().as_bytes()]);
        self.add_behind(op.value_read());
        self.add_behind(op.written_value());
        if let Some(origin) = origin_of(op) {
            self.add_origin(origin);
        }
        self.add_span(op.span())
    }

    /// Adds a value, if there is one, and a blank before it.
    fn add_behind(&mut self, value: Option<u64>) {
        if let Some(value) = value {
            self.add(&[b" ", decimal(value).as_slice()]);
        }
    }

    /// Adds when an operation was under way by its line.
    fn add_span(&mut self, span: Option<Span>) {
        match span {
            Some(span) => {
                let start = decimal(span.start);
                let end = decimal(span.end);
                self.add(&[b" at ", start.as_slice(), b" ", end.as_slice()])
            }
            None => {}
        }
    }

    /// Adds where an operation reads from by its line.
    fn add_origin(&mut self, origin: &Origin) {
        match origin {
            Origin::Any => {}
            Origin::Initial => self.add(&[b" from init"]),
            Origin::Operation(name) => {
                let place = decimal(name.place as u64);
                self.add(&[b" from ", name.process.as_bytes(), b" ", place.as_slice()])
            }
        }
    }
}
