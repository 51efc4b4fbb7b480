//! The hints of the clauses which say that two readers do not have the same source, beside what the clauses of the list say.

use crate::expectations::ample;
use crate::formulas::said_clauses::{is_after, is_against, is_before_last, said};
use crate::traces::{ALL_FAMILIES, UPDATES, reduced_of};
use clause_blocks::trace_clauses::TraceClauses;
use clause_meaning::clause_runs::ClauseRuns;
use formula_numbers::ClauseId;
use order_sets::Element;
use solver::{LastWriter, ReadsFromTable, ReadsFromVariable};
use source_matching::{MatchingInstance, Reader, ReaderId, ReadsFromEdge, SourceId, Update};
use std::alloc::Global;
use std::process::Abort;
use trace_decision::guide::reads_from_table;

/// The place of the writer among those of its location, if there is one.
fn place_of(table: &ReadsFromTable, writer: Option<Element>) -> Option<u32> {
    match writer {
        Some(writer) => Some(table.place_of_writer(writer)),
        None => None,
    }
}

/// The number of the writer, if there is one.
fn number_of(writer: Option<Element>) -> Option<u32> {
    writer.map(|writer| writer.number())
}

/// Adds the update of the choice, and the choice as its edge.
fn add_update(
    rt: &impl Abort,
    reads: &mut MatchingInstance,
    table: &ReadsFromTable,
    choice: ReadsFromVariable,
) {
    let update = Update {
        operation: choice.reader,
        place: table.place_of_writer(choice.reader),
    };
    let reader = Reader {
        update: Some(update),
        clause: ClauseId::NONE,
    };
    ample(rt, reads.add_reader(reader));
    let edge = ReadsFromEdge {
        source: SourceId::new(number_of(choice.writer).unwrap_or(table.elements())),
        place: place_of(table, choice.writer),
        variable: choice.variable,
        first: choice.first,
        is_excluded: false,
    };
    ample(rt, reads.add_choice(edge));
}

/// Adds the final value, and the last writer as its edge.
fn add_final_value(
    rt: &impl Abort,
    reads: &mut MatchingInstance,
    table: &ReadsFromTable,
    last: LastWriter,
) {
    let reader = Reader {
        update: None,
        clause: last.clause,
    };
    ample(rt, reads.add_reader(reader));
    let edge = ReadsFromEdge {
        source: SourceId::of(last.writer),
        place: place_of(table, Some(last.writer)),
        variable: last.variable,
        first: last.first,
        is_excluded: false,
    };
    ample(rt, reads.add_choice(edge));
}

/// Returns whether this clause forbids the reader of `other` to come between the source of the choice and its reader.
fn forbids(
    meanings: &ClauseRuns<'_>,
    clause: ClauseId,
    choice: ReadsFromVariable,
    other: ReadsFromVariable,
) -> bool {
    let meaning = said(meanings, clause);
    is_against(
        meaning,
        choice.reader.number(),
        choice.variable,
        number_of(choice.writer),
        other.reader.number(),
    )
}

/// Returns whether this clause puts the reader of the choice after the source.
fn puts_after(
    meanings: &ClauseRuns<'_>,
    clause: ClauseId,
    choice: ReadsFromVariable,
    source: Element,
) -> bool {
    is_after(
        said(meanings, clause),
        choice.reader.number(),
        choice.variable,
        source.number(),
    )
}

/// Asserts that the hints against two updates with one source are of the clauses that the contradiction takes.
fn assert_updates(
    rt: &impl Abort,
    alloc: Global,
    meanings: &ClauseRuns<'_>,
    table: &ReadsFromTable,
    choice: ReadsFromVariable,
    other: ReadsFromVariable,
) {
    let mut reads = MatchingInstance::new(alloc);
    add_update(rt, &mut reads, table, choice);
    add_update(rt, &mut reads, table, other);
    let (first, second) = (ReaderId::new(0), ReaderId::new(1));
    let hints = reads.hints_of_pair((first, second), (0, 1));
    match choice.writer {
        None => {
            assert!(rt; forbids(meanings, hints[0], choice, other));
            assert!(rt; forbids(meanings, hints[1], other, choice));
            assert!(rt; hints[2] == ClauseId::NONE && hints[3] == ClauseId::NONE);
        }
        Some(source) => {
            assert!(rt; puts_after(meanings, hints[0], choice, source));
            assert!(rt; puts_after(meanings, hints[1], other, source));
            assert!(rt; forbids(meanings, hints[2], choice, other));
            assert!(rt; forbids(meanings, hints[3], other, choice));
        }
    }
}

/// Asserts that the hints against an update that reads the last write are of the clauses that the contradiction takes.
fn assert_last(
    rt: &impl Abort,
    alloc: Global,
    meanings: &ClauseRuns<'_>,
    table: &ReadsFromTable,
    last: LastWriter,
    choice: ReadsFromVariable,
) {
    let mut reads = MatchingInstance::new(alloc);
    add_final_value(rt, &mut reads, table, last);
    add_update(rt, &mut reads, table, choice);
    let (first, second) = (ReaderId::new(0), ReaderId::new(1));
    let hints = reads.hints_of_pair((first, second), (0, 1));
    let before = said(meanings, hints[0]);
    assert!(rt;
        is_before_last(
            before,
            last.variable,
            last.writer.number(),
            choice.reader.number()
        )
    );
    assert!(rt; puts_after(meanings, hints[1], choice, last.writer));
    let turned = reads.hints_of_pair((second, first), (1, 0));
    assert!(rt; turned[0] == hints[0] && turned[1] == hints[1]);
}

/// Asserts of each two readers that can have one source, of which one is this update, that their hints are right. Counts them.
fn assert_pairs_of(
    rt: &impl Abort,
    alloc: Global,
    meanings: &ClauseRuns<'_>,
    table: &ReadsFromTable,
    choice: ReadsFromVariable,
) -> usize {
    let mut count = 0usize;
    for other in table.choices() {
        let Some(other) = other else {
            continue;
        };
        let is_later = choice.reader < other.reader && table.writes(other.reader);
        if is_later && choice.writer == other.writer {
            assert_updates(rt, alloc, meanings, table, choice, *other);
            count = count.wrapping_add(1);
        }
    }
    for last in table.last_writers() {
        if choice.writer == Some(last.writer) {
            assert_last(rt, alloc, meanings, table, *last, choice);
            count = count.wrapping_add(1);
        }
    }
    count
}

/// Asserts of each two readers of the trace that can have one source that their hints are right, and that this is their number.
fn assert_pairs(rt: &impl Abort, alloc: Global, text: &str, pairs: usize) {
    let reduced = reduced_of(rt, alloc, text);
    let list = ample(rt, TraceClauses::of(alloc, &reduced));
    let meanings = ample(rt, ClauseRuns::of(alloc, &list));
    let table = ample(rt, reads_from_table(alloc, &list));
    let mut count = 0usize;
    for choice in table.choices() {
        let Some(choice) = choice else {
            continue;
        };
        if table.writes(choice.reader) {
            count = count.wrapping_add(assert_pairs_of(rt, alloc, &meanings, &table, *choice));
        }
    }
    assert!(rt; count == pairs);
}

/// Of three updates each two can have the initial value, or read from the third; and the two that a last one leaves can read from it.
#[test]
fn hints_name_the_clauses_of_the_list(rt: HostRuntime) {
    assert_pairs(&rt, rt.alloc(), UPDATES, 12);
    assert_pairs(&rt, rt.alloc(), ALL_FAMILIES, 2);
}
