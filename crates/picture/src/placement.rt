//! The places of the boxes of a picture, in pixels.

use crate::operation_text::BoxText;
use crate::shown_names::ShownNames;
use drawn_order::{PictureItem, count_rows};
use std::alloc::{AllocError, Global};
use trace_semantics::trace::Trace;

/// What is left free at each side.
pub(crate) const MARGIN: u64 = 24;

/// The height of a box.
const BOX_HEIGHT: u64 = 26;

/// From the top of the picture to the first row. The title, the note and the titles of the columns stand in it.
const TOP: u64 = 104;

/// A column of boxes.
#[derive(Clone, Copy)]
pub(crate) struct PictureColumn<'t> {
    /// What is written above it.
    pub title: &'t [u8],
    pub left: u64,
    /// The width of its boxes, or 0 if it has none.
    pub width: u64,
}

/// Columns and rows.
#[derive(Drop)]
pub(crate) struct Placement<'t> {
    pub columns: Vec<PictureColumn<'t>>,
    /// From one row to the next.
    pub row_step: u64,
    pub rows: u64,
    /// Where the last column ends.
    pub right: u64,
}

/// The edges of a box.
#[derive(Clone, Copy)]
pub(crate) struct BoxEdges {
    pub left: u64,
    pub right: u64,
    pub top: u64,
    pub bottom: u64,
}

impl BoxEdges {
    /// The middle of its height.
    pub fn middle(&self) -> u64 {
        self.top.saturating_add(BOX_HEIGHT / 2)
    }

    /// The middle of its width.
    pub fn center(&self) -> u64 {
        self.left.saturating_add(self.width() / 2)
    }

    /// Its width.
    pub fn width(&self) -> u64 {
        self.right.saturating_sub(self.left)
    }

    /// Its height.
    pub fn height(&self) -> u64 {
        self.bottom.saturating_sub(self.top)
    }
}

/// The width of this number of characters of the text in a box, about 7.25 pixels each: the font of `.code` in `style.rt` has one width.
pub(crate) fn text_width(characters: u64) -> u64 {
    characters.saturating_mul(29) / 4
}

/// The title of the column of this number: 0 for initial values, then the processes, and behind them the final values.
fn title_of(trace: &Trace, number: usize) -> &[u8] {
    if number == 0 {
        return b"initial";
    }
    match trace.processes().get(number - 1) {
        Some(process) => process.name.as_bytes(),
        None => b"final",
    }
}

/// The width of the column, or 0 if it has no box. Titles count as texts of boxes, and 10 pixels are free on each side.
fn width_of(
    alloc: Global,
    items: &[PictureItem<'_>],
    column: usize,
    title: &[u8],
    names: ShownNames<'_>,
    has_position: bool,
) -> Result<u64, AllocError> {
    let mut most: u64 = 0;
    for item in items {
        if item.column == column {
            let text = BoxText::of(alloc, item, names, has_position)?;
            most = most.max(text.length()).max(title.len() as u64);
        }
    }
    if most == 0 {
        return Ok(0);
    }
    Ok(text_width(most).saturating_add(20))
}

impl<'t> Placement<'t> {
    /// The places of the boxes. `has_position` says that they are of a schedule, where each operation has its position in front.
    pub fn of(
        alloc: Global,
        items: &[PictureItem<'t>],
        trace: &'t Trace,
        names: ShownNames<'_>,
        has_position: bool,
    ) -> Result<Placement<'t>, AllocError> {
        let mut columns = Vec::new(alloc);
        // Lines down take at most 63 pixels of the gap, and lines across 29 of the 34 between rows; see `Lanes`. A schedule has no lines across.
        let gap: u64 = if has_position { 72 } else { 96 };
        let mut left = MARGIN;
        let mut right = MARGIN;
        for number in 0..trace.processes().len().saturating_add(2) {
            let title = title_of(trace, number);
            let width = width_of(alloc, items, number, title, names, has_position)?;
            columns.push(PictureColumn { title, left, width })?;
            if width > 0 {
                right = left.saturating_add(width);
                left = right.saturating_add(gap);
            }
        }
        Ok(Placement {
            columns,
            row_step: if has_position { 38 } else { 60 },
            rows: count_rows(items) as u64,
            right,
        })
    }

    /// The edges of the box.
    pub fn edges_of(&self, item: &PictureItem<'_>) -> BoxEdges {
        let (left, width) = match self.columns.get(item.column) {
            Some(column) => (column.left, column.width),
            None => (MARGIN, 0),
        };
        let top = self.top_of_row(item.row as u64);
        BoxEdges {
            left,
            right: left.saturating_add(width),
            top,
            bottom: top.saturating_add(BOX_HEIGHT),
        }
    }

    /// The right end of the column of this number.
    pub fn right_of(&self, column: usize) -> u64 {
        match self.columns.get(column) {
            Some(column) => column.left.saturating_add(column.width),
            None => MARGIN,
        }
    }

    /// The column with boxes that stands next to the left of this one, or 0 if there is none. Each caller has a box further to the left.
    pub fn column_before(&self, column: usize) -> usize {
        let mut last = 0;
        for number in 0..self.columns.len().min(column) {
            if self.columns[number].width > 0 {
                last = number;
            }
        }
        last
    }

    /// The height at which the boxes of the row begin.
    pub fn top_of_row(&self, row: u64) -> u64 {
        TOP.saturating_add(self.row_step.saturating_mul(row))
    }

    /// The height at which the boxes of the row end.
    pub fn bottom_of_row(&self, row: u64) -> u64 {
        self.top_of_row(row).saturating_add(BOX_HEIGHT)
    }

    /// The height of the base line of the columns' titles.
    pub fn title_line(&self) -> u64 {
        TOP - 16
    }

    /// The height at which the last row ends.
    pub fn bottom(&self) -> u64 {
        TOP.saturating_add(self.row_step.saturating_mul(self.rows))
    }
}
