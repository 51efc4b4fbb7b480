//! On which arrows, and on which exclusions of sources, a contradiction rests.
//!
//! Arrows lead between boxes, which are operations, and initial and final values. The contradiction is a cycle, whose arrows are marked, or a box that is
//! lacking: each source from which it could have its value is excluded.

use crate::found_order::{ArrowKind, DerivedBy, DerivedRule, Exclusion, FoundOrder, WhyExcluded};
use crate::paths::{first_of, way_between};
use std::alloc::{AllocError, Global};

/// Marks the arrow of this number as one that is used.
fn use_arrow(found: &mut FoundOrder, number: usize) {
    if number < found.arrows.len() {
        found.arrows[number].is_used = true;
    }
}

/// Marks the arrow of this number as one that is used, if it is of the cycle.
fn use_if_marked(found: &mut FoundOrder, number: usize) {
    if number < found.arrows.len() && found.arrows[number].is_marked {
        found.arrows[number].is_used = true;
    }
}

/// Marks the arrows of a shortest way between two boxes along the first `known` arrows. There is none if the order of an initial or a final
/// value alone has the one before the other; then nothing is marked.
fn use_way(
    alloc: Global,
    found: &mut FoundOrder,
    known: usize,
    from: usize,
    to: usize,
) -> Result<(), AllocError> {
    let arrows = first_of(found.arrows.as_slice(), known);
    let way = way_between(alloc, arrows, found.lacking.len(), from, to)?;
    for number in &way {
        use_arrow(found, *number);
    }
    Ok(())
}

/// Marks the arrow to the reader from its source.
fn use_source(found: &mut FoundOrder, reader: usize) {
    for k in 0..found.arrows.len() {
        if found.arrows[k].to == reader {
            match found.arrows[k].kind {
                ArrowKind::Source => found.arrows[k].is_used = true,
                _ => {}
            }
        }
    }
}

/// Marks what an order follows from, among the first `known` arrows. The reader has its value from the writer, so the other write stands before the writer or
/// after the reader. The way that is marked rules out one of the two; nothing stands after a final value, so for its source no way is needed.
fn use_premises(
    alloc: Global,
    found: &mut FoundOrder,
    known: usize,
    by: DerivedBy,
) -> Result<(), AllocError> {
    use_source(found, by.reader);
    match by.rule {
        DerivedRule::AfterSource => use_way(alloc, found, known, by.writer, by.other),
        DerivedRule::BeforeReader => use_way(alloc, found, known, by.other, by.reader),
        DerivedRule::LastWrite => Ok(()),
    }
}

/// Marks the exclusion of this number, if it is one of a source of the reader, and returns it.
fn use_exclusion(found: &mut FoundOrder, number: usize, reader: usize) -> Option<Exclusion> {
    if number < found.exclusions.len() && found.exclusions[number].reader == reader {
        found.exclusions[number].is_used = true;
        Some(found.exclusions[number])
    } else {
        None
    }
}

/// Marks what excludes a source.
fn use_why(alloc: Global, found: &mut FoundOrder, exclusion: Exclusion) -> Result<(), AllocError> {
    let known = exclusion.known;
    let reader = exclusion.reader;
    let writer = exclusion.writer;
    match exclusion.why {
        WhyExcluded::Late => use_way(alloc, found, known, reader, writer),
        WhyExcluded::Overwritten(other) => {
            use_way(alloc, found, known, writer, other)?;
            use_way(alloc, found, known, other, reader)
        }
        WhyExcluded::Taken(other) => {
            use_source(found, other);
            Ok(())
        }
    }
}

/// Marks what excludes the other sources of the reader.
fn use_exclusions(alloc: Global, found: &mut FoundOrder, reader: usize) -> Result<(), AllocError> {
    for k in 0..found.exclusions.len() {
        if let Some(exclusion) = use_exclusion(found, k, reader) {
            use_why(alloc, found, exclusion)?;
        }
    }
    Ok(())
}

/// Marks what the arrow of this number rests on. All of that was known before it.
fn use_of_arrow(alloc: Global, found: &mut FoundOrder, number: usize) -> Result<(), AllocError> {
    if number >= found.arrows.len() {
        return Ok(());
    }
    let arrow = found.arrows[number];
    if !arrow.is_used {
        return Ok(());
    }
    match arrow.kind {
        ArrowKind::Derived(by) => use_premises(alloc, found, number, by),
        ArrowKind::Source => use_exclusions(alloc, found, arrow.to),
        _ => Ok(()),
    }
}

/// Marks all on which the contradiction rests, from its last arrow to its first: what an arrow rests on stands before it in the list, so one
/// pass backward reaches all of it, and a pass forward would not.
pub(crate) fn mark_used(alloc: Global, found: &mut FoundOrder) -> Result<(), AllocError> {
    for number in 0..found.arrows.len() {
        use_if_marked(found, number);
    }
    for reader in 0..found.lacking.len() {
        if found.is_lacking(reader) {
            use_exclusions(alloc, found, reader)?;
        }
    }
    for number in (0..found.arrows.len()).rev() {
        use_of_arrow(alloc, found, number)?;
    }
    Ok(())
}
