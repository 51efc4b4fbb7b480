//! Meanings of clauses by their numbers, and whether they are what is asked for.

use clause_meaning::clause_runs::ClauseRuns;
use clause_meaning::meaning::ClauseMeaning;
use formula_numbers::{ClauseId, Variable};

/// The meaning of the clause, if the list has it.
pub fn said(meanings: &ClauseRuns<'_>, clause: ClauseId) -> Option<ClauseMeaning> {
    meanings.meaning_at(clause.number().checked_sub(1)? as usize)
}

/// Returns whether the source is this operation.
fn is_the(source: Option<u32>, operation: usize) -> bool {
    match source {
        Some(source) => source as usize == operation,
        None => false,
    }
}

/// Returns whether this is said of the choice of a reader and a source: that the writer does not come between.
pub fn is_against(
    meaning: Option<ClauseMeaning>,
    reader: u32,
    variable: Variable,
    source: Option<u32>,
    writer: u32,
) -> bool {
    match meaning {
        Some(
            ClauseMeaning::BeforeWriter {
                reader: r,
                variable: v,
                writer: w,
            },
        ) => r == reader as usize
            && v == variable.number()
            && source.is_none()
            && w == writer as usize,
        Some(
            ClauseMeaning::NotBetween {
                reader: r,
                variable: v,
                source: s,
                writer: w,
            },
        ) => {
            r == reader as usize
                && v == variable.number()
                && is_the(source, s)
                && w == writer as usize
        }
        _ => false,
    }
}

/// Returns whether this is said of the choice of the reader: that the source stands before it.
pub fn is_after(
    meaning: Option<ClauseMeaning>,
    reader: u32,
    variable: Variable,
    source: u32,
) -> bool {
    match meaning {
        Some(
            ClauseMeaning::AfterSource {
                reader: r,
                variable: v,
                source: s,
            },
        ) => r == reader as usize && v == variable.number() && s == source as usize,
        _ => false,
    }
}

/// Returns whether this is said of the last writer: that the other one stands before it.
pub fn is_before_last(
    meaning: Option<ClauseMeaning>,
    variable: Variable,
    writer: u32,
    other: u32,
) -> bool {
    match meaning {
        Some(
            ClauseMeaning::BeforeLast {
                variable: v,
                last,
                writer: w,
                ..
            },
        ) => v == variable.number() && last == writer as usize && w == other as usize,
        _ => false,
    }
}

/// Returns whether the meaning is that the operation reads from somewhere.
pub fn is_source(meaning: Option<ClauseMeaning>, reader: u32) -> bool {
    match meaning {
        Some(ClauseMeaning::HasSource(r)) => r == reader as usize,
        _ => false,
    }
}

/// Returns whether the meaning is that some writer leaves a final value.
pub fn is_last(meaning: Option<ClauseMeaning>) -> bool {
    match meaning {
        Some(ClauseMeaning::HasLast(_)) => true,
        _ => false,
    }
}

/// Returns whether a clause is of the choice with this variable.
pub fn is_of(meaning: Option<ClauseMeaning>, variable: Variable) -> bool {
    match meaning {
        Some(ClauseMeaning::BeforeWriter { variable: v, .. }) => v == variable.number(),
        Some(ClauseMeaning::AfterSource { variable: v, .. }) => v == variable.number(),
        Some(ClauseMeaning::NotBetween { variable: v, .. }) => v == variable.number(),
        _ => false,
    }
}
