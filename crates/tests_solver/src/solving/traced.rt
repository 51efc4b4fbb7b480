//! Formulas of traces of one location, with an order, with reads and with a final value that a guide can know.

use crate::solving::formulas::{add, formula_of};
use dimacs::{Clause, Formula};
use proof_log::ClauseId;
use proof_log::codes::Variable;
use solver::{Element, EncodingHints, LastWriter, ReadsFromTable, ReadsFromVariable};
use std::alloc::{AllocError, Global};

/// What an operation reads and writes, and whether it is the first one of its process.
#[derive(Clone, Copy)]
pub struct Access {
    pub reads: Option<u16>,
    pub writes: Option<u16>,
    pub is_first: bool,
}

/// By how much numbers are too large in what is known of reads and of the final value. Nothing is wrong where all are 0.
#[derive(Clone, Copy, PartialEq, Eq)]
pub struct TracedMistake {
    /// The numbers of clauses.
    pub clauses: u32,
    /// The variables.
    pub variables: u32,
    /// The readers, counted around.
    pub readers: u32,
    /// The writers, counted around.
    pub writers: u32,
    /// The one variable of which something is wrong, counted from 1 after those of the order. 0: all are.
    pub only: u32,
}

impl TracedMistake {
    /// Nothing is wrong.
    pub const NONE: TracedMistake = TracedMistake {
        clauses: 0,
        variables: 0,
        readers: 0,
        writers: 0,
        only: 0,
    };

    /// Gives what is wrong of the variable of this number after those of the order.
    fn of(self, number: u32) -> TracedMistake {
        if self.only == 0 || self.only == number {
            self
        } else {
            TracedMistake::NONE
        }
    }
}

/// The formula of a trace, and what is known of it.
#[derive(Drop)]
pub struct Traced {
    pub formula: Formula,
    elements: u32,
    /// The first clause that says that the order is transitive.
    first: ClauseId,
    reads_from: ReadsFromTable,
}

impl Traced {
    /// Gives what is known of the order, of the reads and of the final value.
    pub fn encoding(&self) -> EncodingHints<'_> {
        EncodingHints::with_order(self.elements, self.first).with_reads_from(&self.reads_from)
    }
}

/// A formula while it is made, and what is known of it, with this mistake in it.
#[derive(Drop)]
struct Made {
    elements: u32,
    clauses: Vec<Clause>,
    reads_from: ReadsFromTable,
    /// The last variable.
    last: Variable,
    mistake: TracedMistake,
}

impl Made {
    /// The literal that says that i stands before j.
    fn before(&self, i: u32, j: u32) -> i32 {
        let low = i.min(j);
        let twice = self.elements.wrapping_mul(2).wrapping_sub(1);
        let pairs = low.wrapping_mul(twice.wrapping_sub(low)) / 2;
        let number = pairs.wrapping_add(i.max(j).wrapping_sub(low));
        let variable = i32::try_from(number).unwrap_or(1);
        if i < j {
            variable
        } else {
            0i32.wrapping_sub(variable)
        }
    }

    /// The next clause.
    fn next(&self) -> ClauseId {
        let stored = u32::try_from(self.clauses.len()).unwrap_or(0);
        ClauseId::new(stored).next()
    }

    /// Gives what is wrong in what is reported of this variable.
    fn mistake_of(&self, variable: Variable) -> TracedMistake {
        let pairs = self.elements.wrapping_mul(self.elements.wrapping_sub(1)) / 2;
        self.mistake.of(variable.number().wrapping_sub(pairs))
    }

    /// The element that stands the given number of places further on, counted around.
    fn further(&self, element: Element, by: u32) -> Element {
        Element::new(element.number().wrapping_add(by) % self.elements.max(1))
    }

    /// Gives what is reported of a choice.
    fn told(&self, choice: ReadsFromVariable) -> ReadsFromVariable {
        let mistake = self.mistake_of(choice.variable);
        let writer = match choice.writer {
            Some(writer) => Some(self.further(writer, mistake.writers)),
            None => None,
        };
        ReadsFromVariable {
            variable: Variable::new(choice.variable.number().wrapping_add(mistake.variables)),
            reader: self.further(choice.reader, mistake.readers),
            writer,
            first: choice.first.ahead(mistake.clauses),
        }
    }

    /// Gives what is reported of a last writer.
    fn told_of_last(&self, last: LastWriter) -> LastWriter {
        let mistake = self.mistake_of(last.variable);
        LastWriter {
            variable: Variable::new(last.variable.number().wrapping_add(mistake.variables)),
            writer: self.further(last.writer, mistake.writers),
            clause: last.clause.ahead(mistake.clauses),
            first: last.first.ahead(mistake.clauses),
        }
    }
}

/// The literal that says that the variable is true.
fn literal_of(variable: Variable) -> i32 {
    i32::try_from(variable.number()).unwrap_or(1)
}

/// The literal that says that the variable is false.
fn not(variable: Variable) -> i32 {
    0i32.wrapping_sub(literal_of(variable))
}

/// Adds the clauses of program order.
fn add_processes(alloc: Global, made: &mut Made, accesses: &[Access]) -> Result<(), AllocError> {
    let mut element: u32 = 0;
    for access in accesses {
        if !access.is_first {
            let literal = made.before(element.wrapping_sub(1), element);
            add(alloc, &mut made.clauses, &[literal])?;
        }
        element = element.wrapping_add(1);
    }
    Ok(())
}

/// Adds transitivity.
fn add_order(alloc: Global, made: &mut Made) -> Result<(), AllocError> {
    let elements = made.elements;
    for i in 0..elements {
        for j in i + 1..elements {
            for k in j + 1..elements {
                let falling = [made.before(j, i), made.before(k, j), made.before(i, k)];
                add(alloc, &mut made.clauses, &falling)?;
                let rising = [made.before(i, j), made.before(j, k), made.before(k, i)];
                add(alloc, &mut made.clauses, &rising)?;
            }
        }
    }
    Ok(())
}

/// Adds the clauses of one choice, and reports it.
fn add_choice(
    alloc: Global,
    made: &mut Made,
    accesses: &[Access],
    reader: u32,
    writer: Option<u32>,
    variable: Variable,
) -> Result<(), AllocError> {
    let first = made.next();
    let told = made.told(ReadsFromVariable {
        variable,
        reader: Element::new(reader),
        writer: writer.map(|writer| Element::new(writer)),
        first,
    });
    made.reads_from.add_choice(told)?;
    if let Some(chosen) = writer {
        let comes_first = made.before(chosen, reader);
        add(alloc, &mut made.clauses, &[not(variable), comes_first])?;
    }
    let mut other: u32 = 0;
    for access in accesses {
        if access.writes.is_some() && other != reader {
            let is_after = made.before(reader, other);
            match writer {
                None => add(alloc, &mut made.clauses, &[not(variable), is_after])?,
                Some(chosen) if chosen == other => {}
                Some(chosen) => {
                    let is_before = made.before(other, chosen);
                    let clause = [not(variable), is_before, is_after];
                    add(alloc, &mut made.clauses, &clause)?;
                }
            }
        }
        other = other.wrapping_add(1);
    }
    Ok(())
}

/// From where the reader may have the value: from the start if it is 0, and from others that write it.
fn sources(
    alloc: Global,
    accesses: &[Access],
    reader: u32,
    value: u16,
) -> Result<Vec<Option<u32>>, AllocError> {
    let mut sources = Vec::new(alloc);
    if value == 0 {
        sources.push(None)?;
    }
    let mut writer: u32 = 0;
    for access in accesses {
        if access.writes == Some(value) && writer != reader {
            sources.push(Some(writer))?;
        }
        writer = writer.wrapping_add(1);
    }
    Ok(sources)
}

/// Adds the clauses of a reader: that one of its choices is made, and what each of them means.
fn add_reader(
    alloc: Global,
    made: &mut Made,
    accesses: &[Access],
    reader: u32,
    value: u16,
) -> Result<(), AllocError> {
    let sources = sources(alloc, accesses, reader, value)?;
    let mut some = Vec::new(alloc);
    let mut variable = made.last;
    for _ in &sources {
        variable = variable.next();
        some.push(literal_of(variable))?;
    }
    add(alloc, &mut made.clauses, some.as_slice())?;
    for source in &sources {
        made.last = made.last.next();
        let variable = made.last;
        add_choice(alloc, made, accesses, reader, *source, variable)?;
    }
    Ok(())
}

/// Adds the clauses of a last writer, and reports it. `clause` says that there is one.
fn add_last_writer(
    alloc: Global,
    made: &mut Made,
    accesses: &[Access],
    writer: u32,
    clause: ClauseId,
) -> Result<(), AllocError> {
    made.last = made.last.next();
    let variable = made.last;
    let first = made.next();
    let told = made.told_of_last(LastWriter {
        variable,
        writer: Element::new(writer),
        clause,
        first,
    });
    made.reads_from.add_last_writer(told)?;
    let mut other: u32 = 0;
    for access in accesses {
        if access.writes.is_some() && other != writer {
            let is_before = made.before(other, writer);
            add(alloc, &mut made.clauses, &[not(variable), is_before])?;
        }
        other = other.wrapping_add(1);
    }
    Ok(())
}

/// Adds the clauses of the final value: that one of those that write it is the last writer, and what that means for each of them.
fn add_final_value(
    alloc: Global,
    made: &mut Made,
    accesses: &[Access],
    value: u16,
) -> Result<(), AllocError> {
    let clause = made.next();
    let mut some = Vec::new(alloc);
    let mut variable = made.last;
    for access in accesses {
        if access.writes == Some(value) {
            variable = variable.next();
            some.push(literal_of(variable))?;
        }
    }
    add(alloc, &mut made.clauses, some.as_slice())?;
    let mut writer: u32 = 0;
    for access in accesses {
        if access.writes == Some(value) {
            add_last_writer(alloc, made, accesses, writer, clause)?;
        }
        writer = writer.wrapping_add(1);
    }
    Ok(())
}

/// The formula of the trace of these operations, which leave this final value, if it is known. What is known of its reads and of the final
/// value has this mistake in it.
pub fn formula_of_trace(
    alloc: Global,
    accesses: &[Access],
    final_value: Option<u16>,
    mistake: TracedMistake,
) -> Result<Traced, AllocError> {
    let elements = u32::try_from(accesses.len()).unwrap_or(0);
    let mut made = Made {
        elements,
        clauses: Vec::new(alloc),
        reads_from: ReadsFromTable::new(alloc, elements)?,
        last: Variable::new(elements.wrapping_mul(elements.wrapping_sub(1)) / 2),
        mistake,
    };
    add_processes(alloc, &mut made, accesses)?;
    let first = made.next();
    add_order(alloc, &mut made)?;
    let mut element: u32 = 0;
    for access in accesses {
        if access.writes.is_some() {
            for other in 0..elements {
                made.reads_from
                    .add_writer(Element::new(other), Element::new(element));
            }
        }
        element = element.wrapping_add(1);
    }
    let mut reader: u32 = 0;
    for access in accesses {
        if let Some(value) = access.reads {
            add_reader(alloc, &mut made, accesses, reader, value)?;
        }
        reader = reader.wrapping_add(1);
    }
    if let Some(value) = final_value {
        add_final_value(alloc, &mut made, accesses, value)?;
    }
    let Made {
        clauses,
        reads_from,
        last,
        ..
    } = made;
    Ok(Traced {
        formula: formula_of(alloc, last.number(), clauses),
        elements,
        first,
        reads_from,
    })
}
