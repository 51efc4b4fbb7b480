//! Operations that are drawn beside those that a picture is of, since they show why a read has no other source.

use crate::candidates::{HiddenSources, reader_place};
use crate::choice::DrawnChoice;
use crate::item::PictureItem;
use crate::known_order::PartTrace;
use std::alloc::{AllocError, Global};

/// The most sources of a read that are drawn beside the others. If it has more, none of them is drawn, and a sentence gives their number.
const MOST_SOURCES: usize = 3;

/// From this number of drawn operations on nothing more is put beside them. The last box before may bring a few more: three sources, what
/// overwrites each, and one write.
const MOST_OPERATIONS: usize = 120;

/// Puts the sources that the known order excludes beside the others, each with what overwrites it.
fn put_excluded(choice: &mut DrawnChoice, hidden: &HiddenSources) -> Result<(), AllocError> {
    for writer in &hidden.excluded {
        choice.put_beside(*writer)?;
    }
    for overwriter in &hidden.overwriters {
        if let Some(number) = overwriter {
            choice.put_beside(*number)?;
        }
    }
    Ok(())
}

/// Returns whether a write that stands before the reader at its location is drawn. Such a write overwrites the initial value, so none has to be
/// put beside the others for that.
fn has_earlier_write(
    part: PartTrace<'_>,
    items: &[PictureItem<'_>],
    reader: &PictureItem<'_>,
) -> bool {
    for item in items {
        if item.is_operation()
            && item.writes_at(reader.location)
            && part.forced.stands(item.number, reader.number)
        {
            return true;
        }
    }
    false
}

/// Puts a write that overwrites the initial value before the box reads beside the others, if there is one.
fn put_first_writer(
    alloc: Global,
    part: PartTrace<'_>,
    choice: &mut DrawnChoice,
    reader: &PictureItem<'_>,
) -> Result<(), AllocError> {
    let writers = part.last_writers(alloc, reader.location, reader_place(reader))?;
    match writers.as_slice() {
        [first, ..] => choice.put_beside(*first),
        [] => Ok(()),
    }
}

/// Returns whether the initial value is one that the box may have read.
fn may_read_initial<'t>(items: &[PictureItem<'t>], reader: &PictureItem<'t>) -> bool {
    for item in items {
        if item.is_initial() && reader.may_read_from(item) {
            return true;
        }
    }
    false
}

/// Puts beside the others what shows why a box has no source but those that are drawn, if these are few.
pub(crate) fn put_all_beside(
    alloc: Global,
    part: PartTrace<'_>,
    choice: &mut DrawnChoice,
    items: &[PictureItem<'_>],
) -> Result<(), AllocError> {
    for reader in items {
        if choice.count() < MOST_OPERATIONS && reader.is_operation() {
            let hidden = HiddenSources::of(alloc, part, choice, reader)?;
            if !hidden.is_open && hidden.excluded.len() <= MOST_SOURCES {
                put_excluded(choice, &hidden)?;
            }
            if !hidden.is_open
                && may_read_initial(items, reader)
                && !has_earlier_write(part, items, reader)
            {
                put_first_writer(alloc, part, choice, reader)?;
            }
        }
    }
    Ok(())
}
