//! Decision variables.

use clause_database::{
    EncodingHints, FormulaLoader, ReadsFromTable, SmallClause, Store, StoredClause,
};
use order_sets::{Element, next_element};
use proof_log::codes::{NEVER, Variable};
use std::alloc::{AllocError, Global};
use total_tables::{at, put, size};

/// Marks the variable as a decision variable.
#[inline(always)]
fn want(marks: &mut [u8], variable: Variable) {
    put(marks, variable.number(), 1);
}

/// Marks the variables of these clauses.
fn want_small(marks: &mut [u8], clauses: &[SmallClause]) {
    for clause in clauses {
        want(marks, clause.first.variable());
        want(marks, clause.second.variable());
        if clause.third != NEVER {
            want(marks, clause.third.variable());
        }
    }
}

/// Marks the variables of the longer clauses.
fn want_long(marks: &mut [u8], long: &Store) {
    let mut clause = StoredClause::FIRST;
    for _ in 0..long.end().place() {
        if clause.place() >= long.end().place() {
            break;
        }
        for number in 0..long.count(clause) {
            want(marks, long.literal(clause, number).variable());
        }
        clause = long.next_clause(clause);
    }
}

/// Marks the order variables between this event and the writers of its location.
fn want_pairs(
    marks: &mut [u8],
    encoding: EncodingHints<'_>,
    reads_from: &ReadsFromTable,
    element: Element,
) {
    for number in 0..reads_from.writers().words() {
        let mut writers = reads_from.writers().word(element, number);
        for _ in 0..64 {
            let Some(writer) = next_element(&mut writers, number) else {
                break;
            };
            want(marks, encoding.variable_of_pair(element, writer));
        }
    }
}

/// Marks the reads-from variables, and the order variables in their clauses, which are not loaded.
fn want_reads(
    alloc: Global,
    marks: &mut [u8],
    encoding: EncodingHints<'_>,
    reads_from: &ReadsFromTable,
) -> Result<(), AllocError> {
    let elements = reads_from.elements();
    let mut in_choices = vec![in alloc; 0; elements as usize]?;
    for choice in reads_from.choices() {
        if let Some(choice) = choice {
            want(marks, choice.variable);
            put(in_choices.as_mut_slice(), choice.reader.number(), 1);
            if let Some(writer) = choice.writer {
                put(in_choices.as_mut_slice(), writer.number(), 1);
            }
        }
    }
    for element in 0..elements {
        if at(in_choices.as_slice(), element, 0) != 0 {
            want_pairs(marks, encoding, reads_from, Element::new(element));
        }
    }
    Ok(())
}

/// Returns the decision variables, by rising numbers. An order variable that stands in no loaded clause needs no decision: a partial order
/// always extends to a total one.
pub fn wanted_variables(
    alloc: Global,
    variables: u32,
    loader: &FormulaLoader,
    encoding: EncodingHints<'_>,
) -> Result<Vec<Variable>, AllocError> {
    let mut marks = vec![in alloc; 0; variables.wrapping_add(1) as usize]?;
    want_small(marks.as_mut_slice(), loader.small.as_slice());
    want_long(marks.as_mut_slice(), &loader.long);
    if let Some(reads_from) = encoding.reads_from() {
        want_reads(alloc, marks.as_mut_slice(), encoding, reads_from)?;
    }
    let mut wanted = Vec::new(alloc);
    for number in 0..size(marks.as_slice()) {
        if at(marks.as_slice(), number, 0) != 0 {
            wanted.push(Variable::new(number))?;
        }
    }
    Ok(wanted)
}
