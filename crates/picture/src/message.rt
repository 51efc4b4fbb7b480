//! Pictures without boxes, which say why nothing is drawn.

use crate::placement::MARGIN;
use crate::style::begin_document;
use crate::subject::MAX_DRAWN;
use crate::svg_text::SvgText;
use note_text::decimal;
use std::alloc::{AllocError, Global};

/// The size of such a picture, in pixels.
const WIDTH: u64 = 640;

const HEIGHT: u64 = 72;

/// Why nothing is drawn of what a verdict rests on: a legal schedule, or else operations that contradict each other.
#[derive(Clone, Copy)]
pub(crate) enum NothingDrawn {
    /// It has this many operations, which are too many.
    TooMany(u64),
    /// The survey for the picture found none, or none of few operations.
    NotFound,
}

/// Adds the line of the note, below the title. Each of these pictures has one, so its place is fixed.
fn note_line(svg: &mut SvgText, words: &[&[u8]]) {
    svg.line_of_text(b"note", MARGIN, 54, words);
}

/// Adds a note that ends with the most operations of a picture, and has the number of those that there are between these words.
fn note_too_many(svg: &mut SvgText, before: &[u8], count: u64, between: &[u8]) {
    let most = decimal(MAX_DRAWN);
    let number = decimal(count);
    note_line(
        svg,
        &[before, number.as_slice(), between, most.as_slice(), b"."],
    );
}

/// Adds that what was found has this many operations, which are too many.
fn note_size(svg: &mut SvgText, is_consistent: bool, count: u64) {
    let (before, between): (&[u8], &[u8]) = if is_consistent {
        (
            b"A schedule of ",
            b" operations is too long for a picture, which has at most ",
        )
    } else {
        (
            b"The reason that was found has ",
            b" operations, which are too many for a picture: it has at most ",
        )
    };
    note_too_many(svg, before, count, between);
}

/// Adds that the survey found nothing to draw.
fn note_not_found(svg: &mut SvgText, is_consistent: bool) {
    let wanted: &[u8] = if is_consistent {
        b"schedule to draw."
    } else {
        b"few operations that show it."
    };
    note_line(
        svg,
        &[b"The short survey for the picture found no ", wanted],
    );
}

/// Draws what is answered, and why nothing else is drawn.
pub(crate) fn draw_message(
    alloc: Global,
    is_consistent: bool,
    why: NothingDrawn,
) -> Result<Vec<u8>, AllocError> {
    let mut svg = SvgText::new(alloc);
    begin_document(&mut svg, WIDTH, HEIGHT);
    let title: &[u8] = if is_consistent {
        b"CONSISTENT"
    } else {
        b"INCONSISTENT"
    };
    svg.line_of_text(b"title", MARGIN, 34, &[title]);
    match why {
        NothingDrawn::TooMany(count) => note_size(&mut svg, is_consistent, count),
        NothingDrawn::NotFound => note_not_found(&mut svg, is_consistent),
    }
    svg.add(&[b"</svg>\n"]);
    svg.into_bytes()
}
