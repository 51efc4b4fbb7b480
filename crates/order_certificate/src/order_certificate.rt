//! A certificate by numbers of operations, and its text.
//!
//! Past the end of a table `at` reads as its last argument, and `put` does nothing; so arithmetic may wrap, and a wrong place makes no fault.

use crate::certificate_text::CertificateText;
use crate::derivation_steps::DerivationHint;
use crate::explanation::Explanation;
use numbered_log::{NO_NUMBER, ProcessId, ProcessPlace};
use std::alloc::{AllocError, Global};
use total_tables::{at, put, size};

/// The number of a process, and the place in it by which the trace names an operation.
#[derive(Clone, Copy)]
pub struct NamedPlace {
    pub process: ProcessId,
    pub place: ProcessPlace,
}

/// The names of a log's processes, locations and operations, by number.
#[derive(Drop)]
pub struct LogNames<'a> {
    pub processes: Vec<&'a [u8]>,
    pub locations: Vec<&'a [u8]>,
    pub operations: Vec<NamedPlace>,
}

/// Lines of reasons, and steps of which one derives the empty clause. The checker makes a clause of each line by itself; a step derives one from those of
/// lines and of earlier steps. If walks, which are searches that learn clauses from conflicts, have refuted the log, steps derive these clauses anew, and
/// the last step may need few of them.
#[derive(Drop)]
pub struct OrderCertificate {
    explanation: Explanation,
    /// The step that derives the empty clause.
    last: u32,
}

/// What a certificate says of the steps and the lines that are needed.
struct NeededParts {
    /// For each step whether it is needed.
    is_needed: Vec<bool>,
    /// The needed lines in the order in which they are needed.
    lines: Vec<u32>,
    /// For each needed line its number in the text. They count from 1, in the order of the text; of other lines it is `NO_NUMBER`.
    line_numbers: Vec<u32>,
}

/// Drops each table in one call. A derived `Drop` would drop each at every exit of a function that owns them, which makes its proof longer.
impl Drop for NeededParts {
    fn drop(self) {
        let NeededParts {
            is_needed: _is_needed,
            lines: _lines,
            line_numbers: _line_numbers,
        } = self;
    }
}

impl OrderCertificate {
    /// The certificate of which this step derives the empty clause, if there is one.
    pub(crate) fn of(explanation: Explanation, step: Option<u32>) -> Option<OrderCertificate> {
        match step {
            Some(last) => Some(OrderCertificate { explanation, last }),
            None => None,
        }
    }

    /// The steps on which the last one rests, and the lines of these. What a walk has learned beside them is left out.
    fn needed(&self, alloc: Global) -> Result<NeededParts, AllocError> {
        let steps = self.last.saturating_add(1);
        let mut needed = NeededParts {
            is_needed: vec![in alloc; false; steps as usize]?,
            lines: Vec::new(alloc),
            line_numbers: vec![in alloc; NO_NUMBER; self.explanation.lines.count() as usize]?,
        };
        put(needed.is_needed.as_mut_slice(), self.last, true);
        // A step rests on earlier ones alone, so one pass back finds all.
        for step in (0..steps).rev() {
            if at(needed.is_needed.as_slice(), step, false) {
                for hint in self.explanation.steps.hints(step) {
                    if let DerivationHint::Step(earlier) = *hint {
                        put(needed.is_needed.as_mut_slice(), earlier, true);
                    }
                }
            }
        }
        for step in 0..steps {
            if at(needed.is_needed.as_slice(), step, false) {
                for hint in self.explanation.steps.hints(step) {
                    needed.add_line(*hint)?;
                }
            }
        }
        Ok(needed)
    }

    /// The text of the certificate.
    pub fn text(&self, alloc: Global, names: &LogNames<'_>) -> Result<Vec<u8>, AllocError> {
        let needed = self.needed(alloc)?;
        let mut text = CertificateText::new(alloc, names)?;
        for step in 0..self.last {
            if at(needed.is_needed.as_slice(), step, false) {
                text.number_variables(self.explanation.steps.literals(step))?;
            }
        }
        for line in needed.lines.as_slice() {
            text.add_line(self.explanation.lines.line(*line))?;
        }
        // With one hint the clause of that line is empty itself, and a text ends with it.
        if size(self.explanation.steps.hints(self.last)) > 1 {
            self.add_derivation(alloc, &needed, &mut text)?;
        }
        Ok(text.into_bytes())
    }

    /// Adds the needed steps behind the lines.
    fn add_derivation(
        &self,
        alloc: Global,
        needed: &NeededParts,
        text: &mut CertificateText<'_>,
    ) -> Result<(), AllocError> {
        text.begin_derivation()?;
        // Steps are numbered behind the lines.
        let mut number = size(needed.lines.as_slice());
        let mut numbers = vec![in alloc; NO_NUMBER; needed.is_needed.len()]?;
        for step in 0..self.last.saturating_add(1) {
            if at(needed.is_needed.as_slice(), step, false) {
                number = number.wrapping_add(1);
                put(numbers.as_mut_slice(), step, number);
                text.begin_step(number, self.explanation.steps.literals(step))?;
                for hint in self.explanation.steps.hints(step) {
                    let named = match *hint {
                        DerivationHint::Line(line) => {
                            at(needed.line_numbers.as_slice(), line, NO_NUMBER)
                        }
                        DerivationHint::Step(earlier) => at(numbers.as_slice(), earlier, NO_NUMBER),
                    };
                    text.add_number(named)?;
                }
                text.end_step()?;
            }
        }
        Ok(())
    }
}

impl NeededParts {
    /// Adds the line of the hint, unless it is there.
    fn add_line(&mut self, hint: DerivationHint) -> Result<(), AllocError> {
        let DerivationHint::Line(line) = hint else {
            return Ok(());
        };
        if at(self.line_numbers.as_slice(), line, 0) == NO_NUMBER {
            self.lines.push(line)?;
            let number = size(self.lines.as_slice());
            put(self.line_numbers.as_mut_slice(), line, number);
        }
        Ok(())
    }
}
