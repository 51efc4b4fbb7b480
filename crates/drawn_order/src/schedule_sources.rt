//! Where the reads of a schedule have their values from.

use crate::found_order::{ArrowKind, FoundOrder};
use crate::item::PictureItem;
use crate::known_order::PartTrace;
use std::alloc::{AllocError, Global};

/// Returns whether the box stands before the other one: initial values first, final ones last. Rows say it of operations alone, as initial
/// values have the same rows as the first operations.
fn stands_before(first: &PictureItem<'_>, second: &PictureItem<'_>) -> bool {
    if first.is_initial() || second.is_final() {
        return true;
    }
    !second.is_initial() && first.row < second.row
}

/// The last write before the reader at its location.
fn last_write_before(items: &[PictureItem<'_>], reader: usize) -> Option<usize> {
    let item = items.get(reader)?;
    let mut last: Option<usize> = None;
    for number in 0..items.len() {
        let other = &items[number];
        if number != reader && other.writes_at(item.location) && stands_before(other, item) {
            last = match last {
                Some(found) => Some(later_of(items, found, number)),
                None => Some(number),
            };
        }
    }
    last
}

/// The later one of two boxes.
fn later_of(items: &[PictureItem<'_>], first: usize, second: usize) -> usize {
    if first < items.len() && second < items.len() && stands_before(&items[second], &items[first]) {
        first
    } else {
        second
    }
}

/// Gives what a legal schedule says of the boxes, whose rows are its places. Its sources are not `note_source`d: nothing is derived of them,
/// so a schedule has no sentences.
pub fn order_of_schedule(
    alloc: Global,
    part: PartTrace<'_>,
    items: &[PictureItem<'_>],
) -> Result<FoundOrder, AllocError> {
    let mut found = FoundOrder::of_lines(alloc, items, part)?;
    for reader in 0..items.len() {
        if items[reader].read.is_some() {
            if let Some(writer) = last_write_before(items, reader) {
                found.add(alloc, writer, reader, ArrowKind::Source)?;
            }
        }
    }
    Ok(found)
}
