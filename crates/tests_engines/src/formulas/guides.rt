//! The guide of the search beside what the clauses of the list say: each number of a clause that the search comes to by counting is of a clause which
//! says what the search takes it for. A wrong guide costs time and no verdict, so nothing else would show it.

use crate::expectations::ample;
use crate::formulas::said_clauses::{
    is_after, is_against, is_before_last, is_last, is_of, is_source, said,
};
use crate::traces::{ALL_FAMILIES, STORE_BUFFERING, UPDATES, reduced_of};
use clause_blocks::trace_clauses::TraceClauses;
use clause_meaning::clause_runs::ClauseRuns;
use clause_meaning::meaning::ClauseMeaning;
use dimacs::ClauseList;
use order_sets::{Element, TripleIds};
use solver::{EncodingHints, LastWriter, ReadsFromTable, ReadsFromVariable};
use std::alloc::Global;
use std::process::Abort;
use trace_decision::guide::{guide_to_order, reads_from_table};

/// Returns whether the guide names just those clauses as transitivity that are.
fn names_transitivity(meanings: &ClauseRuns<'_>, count: usize, guide: EncodingHints) -> bool {
    for place in 0..count {
        let number = place.wrapping_add(1);
        let is_named = guide.first().number() as usize <= number
            && number < guide.end_id().number() as usize;
        let is_one = match meanings.meaning_at(place) {
            Some(ClauseMeaning::NoCycle { .. }) => true,
            _ => false,
        };
        if is_named != is_one {
            return false;
        }
    }
    true
}

/// The operation of this number, as the search takes it.
fn element_of(operation: usize) -> Element {
    Element::new(u32::try_from(operation).unwrap_or(0))
}

/// Returns whether each clause of transitivity has the number that the search computes for the cycle that it forbids.
fn numbers_cycles(meanings: &ClauseRuns<'_>, count: usize, ids: &TripleIds) -> bool {
    for place in 0..count {
        if let Some(
            ClauseMeaning::NoCycle {
                lowest,
                middle,
                highest,
                is_second,
            },
        ) = meanings.meaning_at(place)
        {
            let first = element_of(lowest);
            let second = element_of(middle);
            let third = element_of(highest);
            let number = if is_second {
                ids.of_cycle(first, third, second)
            } else {
                ids.of_cycle(first, second, third)
            };
            if number.number() as usize != place.wrapping_add(1) {
                return false;
            }
        }
    }
    true
}

/// Returns whether the clauses of the choice end where the table says, and that of each writer has the number that the table gives.
fn is_right_choice(
    meanings: &ClauseRuns<'_>,
    table: &ReadsFromTable,
    choice: ReadsFromVariable,
) -> bool {
    let reader = choice.reader.number();
    let source = choice.writer.map(|writer| writer.number());
    for number in 0..table.elements() {
        let writer = Element::new(number);
        if !table.writers().has(choice.reader, writer) {
            continue;
        }
        let meaning = said(meanings, table.clause_of(choice, writer));
        let is_right = if choice.writer == Some(writer) {
            is_after(meaning, reader, choice.variable, number)
        } else {
            is_against(meaning, reader, choice.variable, source, number)
        };
        if !is_right {
            return false;
        }
    }
    let behind = table.end_id(choice);
    let before = choice.first.previous();
    !is_of(said(meanings, behind), choice.variable)
        && !is_of(said(meanings, before), choice.variable)
}

/// Returns whether the table names the clause that says which writers can be the last, and those of this one by rising numbers of the others.
fn is_right_last(meanings: &ClauseRuns<'_>, table: &ReadsFromTable, last: LastWriter) -> bool {
    let mut clause = last.first;
    let writer = last.writer.number();
    for other in 0..table.elements() {
        if table.writers().has(last.writer, Element::new(other)) {
            if !is_before_last(said(meanings, clause), last.variable, writer, other) {
                return false;
            }
            clause = clause.next();
        }
    }
    is_last(said(meanings, last.clause))
}

/// Counts the choices, if the clauses of each are right, and the one before those of the first of a reader says that it reads from somewhere.
fn right_choices(meanings: &ClauseRuns<'_>, table: &ReadsFromTable) -> Option<usize> {
    let mut count = 0usize;
    let mut reader = Element::NONE;
    for choice in table.choices() {
        let Some(choice) = choice else {
            continue;
        };
        if !is_right_choice(meanings, table, *choice) {
            return None;
        }
        let before = said(meanings, choice.first.previous());
        if choice.reader != reader && !is_source(before, choice.reader.number()) {
            return None;
        }
        reader = choice.reader;
        count = count.wrapping_add(1);
    }
    Some(count)
}

/// Counts the last writers, if the clauses of each are right.
fn right_last_writers(meanings: &ClauseRuns<'_>, table: &ReadsFromTable) -> Option<usize> {
    let mut count = 0usize;
    for last in table.last_writers() {
        if !is_right_last(meanings, table, *last) {
            return None;
        }
        count = count.wrapping_add(1);
    }
    Some(count)
}

/// Asserts that the guide names the clauses of the trace, of which the numbers of choices and last writers are given.
fn assert_guided(rt: &impl Abort, alloc: Global, text: &str, choices: usize, last_writers: usize) {
    let reduced = reduced_of(rt, alloc, text);
    let list = ample(rt, TraceClauses::of(alloc, &reduced));
    let meanings = ample(rt, ClauseRuns::of(alloc, &list));
    let guide = guide_to_order(&list);
    assert!(rt; names_transitivity(&meanings, list.count(), guide));
    let ids = ample(rt, TripleIds::new(alloc, guide.elements(), guide.first()));
    assert!(rt; numbers_cycles(&meanings, list.count(), &ids));
    let table = ample(rt, reads_from_table(alloc, &list));
    assert!(rt; right_choices(&meanings, &table) == Some(choices));
    assert!(rt; right_last_writers(&meanings, &table) == Some(last_writers));
}

#[test]
fn guides_to_the_clauses_of_the_list(rt: HostRuntime) {
    assert_guided(&rt, rt.alloc(), STORE_BUFFERING, 2, 0);
    assert_guided(&rt, rt.alloc(), ALL_FAMILIES, 5, 2);
    assert_guided(&rt, rt.alloc(), UPDATES, 9, 3);
}
