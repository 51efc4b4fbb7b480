//! The text of a certificate of reasons.
//!
//! docs/REASONS.md says what the words and letters of a text mean.

use crate::order_certificate::{LogNames, NamedPlace};
use crate::reason_words::ReasonWord;
use conflict_analysis::Literal;
use itoa::Buffer;
use numbered_log::{OperationId, ProcessId, ProcessPlace};
use std::alloc::{AllocError, Global};
use std::collections::HashMap;
use total_tables::at;

/// Two operations of two processes, the one of the first process first.
#[derive(Clone, Copy, Debug, PartialEq, Eq, Hash)]
struct OrderVariable {
    first: u32,
    second: u32,
}

/// The place of no operation.
const NO_PLACE: NamedPlace = NamedPlace {
    process: ProcessId::FIRST,
    place: ProcessPlace::START,
};

/// The lines that are written.
#[derive(Drop)]
pub(crate) struct CertificateText<'a> {
    names: &'a LogNames<'a>,
    bytes: Vec<u8>,
    /// The number of each variable, from 1. Numbers of operations rise by process, so the variable of a pair has the smaller one first.
    variables: HashMap<OrderVariable, u32>,
}

/// The variable of the literal, whichever operation it has first.
fn variable_of(literal: Literal) -> OrderVariable {
    OrderVariable {
        first: literal.first.number().min(literal.second.number()),
        second: literal.first.number().max(literal.second.number()),
    }
}

impl<'a> CertificateText<'a> {
    /// The header.
    pub(crate) fn new(
        alloc: Global,
        names: &'a LogNames<'a>,
    ) -> Result<CertificateText<'a>, AllocError> {
        let mut bytes = Vec::new(alloc);
        bytes.extend_from_slice(b"vsc-reasons 1\n")?;
        Ok(CertificateText {
            names,
            bytes,
            variables: HashMap::new(alloc),
        })
    }

    pub(crate) fn into_bytes(self) -> Vec<u8> {
        let CertificateText {
            names: _,
            bytes,
            variables: _variables,
        } = self;
        bytes
    }

    /// Numbers the variables of the literals that have no number yet, each by a line. These lines must come before those of clauses: a reader numbers
    /// variables as it meets them, and would give other numbers.
    pub(crate) fn number_variables(&mut self, literals: &[Literal]) -> Result<(), AllocError> {
        for literal in literals {
            let variable = variable_of(*literal);
            if self.variables.get(&variable).is_none() {
                let number = (self.variables.len() & 0xffff_ffff) as u32;
                self.variables.insert(variable, number.wrapping_add(1))?;
                self.bytes.push(b'v')?;
                self.add_operation(OperationId::new(variable.first))?;
                self.add_operation(OperationId::new(variable.second))?;
                self.bytes.push(b'\n')?;
            }
        }
        Ok(())
    }

    /// Adds the line of these words.
    pub(crate) fn add_line(&mut self, words: &[ReasonWord]) -> Result<(), AllocError> {
        let mut is_first = true;
        for word in words {
            match *word {
                ReasonWord::Letter(letter) => {
                    if !is_first {
                        self.bytes.push(b' ')?;
                    }
                    self.bytes.push(letter)?;
                }
                ReasonWord::Operation(number) => self.add_operation(number)?,
                ReasonWord::Location(number) => {
                    self.bytes.push(b' ')?;
                    let name = at(self.names.locations.as_slice(), number.number(), &[]);
                    self.bytes.extend_from_slice(name)?;
                }
            }
            is_first = false;
        }
        self.bytes.push(b'\n')?;
        Ok(())
    }

    /// Adds a space and the operation's name.
    fn add_operation(&mut self, number: OperationId) -> Result<(), AllocError> {
        let named = at(self.names.operations.as_slice(), number.number(), NO_PLACE);
        self.bytes.push(b' ')?;
        let name = at(self.names.processes.as_slice(), named.process.number(), &[]);
        self.bytes.extend_from_slice(name)?;
        self.bytes.push(b'.')?;
        self.push_number(named.place.number())
    }

    /// Adds the number in decimal.
    fn push_number(&mut self, number: u32) -> Result<(), AllocError> {
        let mut buffer = Buffer::new();
        self.bytes
            .extend_from_slice(buffer.format(number).as_bytes())
    }

    /// Adds the line `p`, behind which the steps stand.
    pub(crate) fn begin_derivation(&mut self) -> Result<(), AllocError> {
        self.bytes.extend_from_slice(b"p\n")
    }

    /// Begins a step with its number and its literals. The 0 ends the literals, and `end_step` writes that of the hints. A literal is negative if it has
    /// the larger operation first.
    pub(crate) fn begin_step(
        &mut self,
        number: u32,
        literals: &[Literal],
    ) -> Result<(), AllocError> {
        self.push_number(number)?;
        for literal in literals {
            self.bytes.push(b' ')?;
            if literal.first > literal.second {
                self.bytes.push(b'-')?;
            }
            let variable = match self.variables.get(&variable_of(*literal)) {
                Some(variable) => *variable,
                // Each literal has a variable by then: a 0 would end the clause.
                None => 0,
            };
            self.push_number(variable)?;
        }
        self.bytes.extend_from_slice(b" 0")
    }

    /// Adds a space and the number.
    pub(crate) fn add_number(&mut self, number: u32) -> Result<(), AllocError> {
        self.bytes.push(b' ')?;
        self.push_number(number)
    }

    /// Ends the hints of the step, and its line.
    pub(crate) fn end_step(&mut self) -> Result<(), AllocError> {
        self.bytes.extend_from_slice(b" 0\n")
    }
}
