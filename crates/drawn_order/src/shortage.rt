//! Boxes that need a source of their own, where there are fewer sources than boxes.

use crate::found_order::FoundOrder;
use crate::item::PictureItem;
use crate::saturation::DrawnPart;
use std::alloc::{AllocError, Global};

/// Boxes that each need a source of its own, and the fewer sources that they can have all together. An update needs one of its own, since no two
/// updates read one write; so does a final value, since no update reads the last write of its location.
pub struct Shortage {
    /// The number of a box that reads what these need, which is asked for its location and its value alone. It may be none of these: an operation that
    /// is not drawn may be its source.
    pub first: usize,
    /// For each box, whether it needs a source of its own.
    needing: Vec<bool>,
    /// For each box, whether it can be the source of one.
    giving: Vec<bool>,
}

/// Drops the lists in one call. A derived `Drop` would drop each at every exit of a function that owns a shortage, which makes its proof longer.
impl Drop for Shortage {
    fn drop(self) {
        let Shortage {
            first: _,
            needing: _needing,
            giving: _giving,
        } = self;
    }
}

/// The number of those that are true.
fn count_true(flags: &[bool]) -> u64 {
    let mut count: u64 = 0;
    for flag in flags {
        if *flag {
            count = count.saturating_add(1);
        }
    }
    count
}

impl Shortage {
    /// Returns whether the box needs a source of its own.
    pub fn is_needing(&self, number: usize) -> bool {
        self.needing.get(number) == Some(&true)
    }

    /// Returns whether the box can be the source of one that needs one.
    pub fn is_giving(&self, number: usize) -> bool {
        self.giving.get(number) == Some(&true)
    }

    /// The number of boxes that need a source.
    pub fn count_needing(&self) -> u64 {
        count_true(self.needing.as_slice())
    }

    /// The number of boxes that can be a source.
    pub fn count_giving(&self) -> u64 {
        count_true(self.giving.as_slice())
    }
}

/// Returns whether both need a source of the same value at the same location.
fn needs_the_same(first: &PictureItem<'_>, second: &PictureItem<'_>) -> bool {
    first.takes_its_source()
        && second.takes_its_source()
        && first.location == second.location
        && first.read == second.read
}

/// For each box, whether it needs what this one needs, and no operation that is not drawn may give it.
fn needing_as(
    alloc: Global,
    part: &DrawnPart<'_>,
    item: &PictureItem<'_>,
) -> Result<Vec<bool>, AllocError> {
    let mut needing = Vec::new(alloc);
    for other in 0..part.items.len() {
        needing.push(!part.is_open(other) && needs_the_same(item, &part.items[other]))?;
    }
    Ok(needing)
}

/// Returns whether the box can be the source of one of those that need one.
fn can_give(part: &DrawnPart<'_>, found: &FoundOrder, needing: &[bool], writer: usize) -> bool {
    let Some(write) = part.items.get(writer) else {
        return false;
    };
    for reader in 0..part.items.len() {
        let item = &part.items[reader];
        if reader != writer
            && needing.get(reader) == Some(&true)
            && item.may_read_from(write)
            && part.why_excluded(found, item, writer, reader).is_none()
        {
            return true;
        }
    }
    false
}

/// The shortage of the boxes that need what this one needs, if there is one. Each source serves one of them, so fewer sources than boxes are a
/// contradiction, whichever source each takes.
fn shortage_of(
    alloc: Global,
    part: &DrawnPart<'_>,
    found: &FoundOrder,
    first: usize,
    item: &PictureItem<'_>,
) -> Result<Option<Shortage>, AllocError> {
    let needing = needing_as(alloc, part, item)?;
    let mut giving = Vec::new(alloc);
    for writer in 0..part.items.len() {
        giving.push(can_give(part, found, needing.as_slice(), writer))?;
    }
    if count_true(needing.as_slice()) > count_true(giving.as_slice()) {
        Ok(Some(Shortage {
            first,
            needing,
            giving,
        }))
    } else {
        Ok(None)
    }
}

/// Returns whether a box before this one needs the same, and so was looked at with it already.
fn comes_after_its_like(items: &[PictureItem<'_>], number: usize, item: &PictureItem<'_>) -> bool {
    for earlier in 0..items.len().min(number) {
        if needs_the_same(&items[earlier], item) {
            return true;
        }
    }
    false
}

/// A shortage of the boxes, if one is found by looking at each value of each location.
pub(crate) fn find_shortage(
    alloc: Global,
    part: &DrawnPart<'_>,
    found: &FoundOrder,
) -> Result<Option<Shortage>, AllocError> {
    for number in 0..part.items.len() {
        let item = &part.items[number];
        if item.takes_its_source() && !comes_after_its_like(part.items.as_slice(), number, item) {
            if let Some(shortage) = shortage_of(alloc, part, found, number, item)? {
                return Ok(Some(shortage));
            }
        }
    }
    Ok(None)
}
