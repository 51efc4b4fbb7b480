//! Pictures as SVG documents.

use crate::arrows::ArrowPage;
use crate::boxes::{draw_boxes, draw_titles};
use crate::legend::{LEGEND_STEP, LegendEntries, draw_legend};
use crate::placement::{MARGIN, Placement};
use crate::reasons::ReasonLines;
use crate::routes::Lanes;
use crate::shown_names::ShownNames;
use crate::style::begin_document;
use crate::subject::{PictureSubject, count_all};
use crate::svg_text::SvgText;
use drawn_order::{FoundOrder, PictureItem, count_operations};
use note_text::decimal;
use std::alloc::{AllocError, Global};
use trace_semantics::trace::Trace;

/// The least width of a picture, which the legend needs.
const LEAST_WIDTH: u64 = 600;

/// The height of a sentence, in pixels.
const SENTENCE_STEP: u64 = 18;

/// What is drawn, but for its places.
#[derive(Clone, Copy)]
pub(crate) struct Content<'p, 't> {
    pub trace: &'t Trace,
    pub names: ShownNames<'p>,
    pub subject: PictureSubject,
    pub items: &'p [PictureItem<'t>],
    pub found: &'p FoundOrder,
}

/// Draws the title.
fn draw_title(svg: &mut SvgText, words: &[&[u8]]) {
    svg.line_of_text(b"title", MARGIN, 34, words);
}

/// Draws what stands below the title.
fn draw_note(svg: &mut SvgText, words: &[&[u8]]) {
    svg.line_of_text(b"note", MARGIN, 54, words);
}

/// The word for this number of operations.
fn operations(count: u64) -> &'static [u8] {
    if count == 1 {
        b" operation"
    } else {
        b" operations"
    }
}

impl Content<'_, '_> {
    /// Returns whether it shows why there is no legal schedule.
    fn shows_why(&self) -> bool {
        self.found.has_cycle()
            || self.found.first_lacking().is_some()
            || self.found.shortage.is_some()
    }

    /// Draws the title.
    fn draw_title(&self, svg: &mut SvgText, drawn: u64) {
        let count = decimal(drawn);
        let count = count.as_slice();
        if self.subject.is_in_order() {
            draw_title(svg, &[b"A legal schedule of ", count, operations(drawn)]);
        } else if self.shows_why() {
            draw_title(
                svg,
                &[
                    b"No legal schedule: ",
                    count,
                    operations(drawn),
                    b" that no order explains",
                ],
            );
        } else {
            draw_title(svg, &[b"No legal schedule of ", count, operations(drawn)]);
        }
    }

    /// Draws what stands below the title.
    fn draw_note(&self, svg: &mut SvgText) {
        let count = count_all(self.trace);
        let all = decimal(count);
        let all = all.as_slice();
        let words = operations(count);
        let what: &[u8] = if self.shows_why() {
            b""
        } else {
            b"; what contradicts itself here is not found"
        };
        match self.subject {
            PictureSubject::InOrder => draw_note(
                svg,
                &[b"from top to bottom; each box has the position, the name, and the operation"],
            ),
            PictureSubject::Core => {
                draw_note(
                    svg,
                    &[
                        b"of ",
                        all,
                        words,
                        b" of the trace, as a survey found them",
                        what,
                    ],
                )
            }
            PictureSubject::TooFew => draw_note(svg, &[b"of ", all, words, b" of the trace"]),
            PictureSubject::Whole => draw_note(svg, &[b"the whole trace", what]),
        }
    }

    /// Draws a band behind every other row, which begins 6 pixels above the boxes: rows of a schedule are 12 pixels apart.
    fn draw_bands(&self, svg: &mut SvgText, placement: &Placement<'_>, width: u64) {
        for half in 0..placement.rows.saturating_add(1) / 2 {
            let row = half.saturating_mul(2);
            svg.add(&[b"<rect class=\"band\" x=\"0\""]);
            svg.attribute(b"y", placement.top_of_row(row).saturating_sub(6));
            svg.attribute(b"width", width);
            svg.attribute(b"height", placement.row_step);
            svg.add(&[b"/>\n"]);
        }
    }

    /// Draws the arrows. Those from sources that are excluded come first, so that the others cover them and not the other way round.
    fn draw_arrows(
        &self,
        alloc: Global,
        svg: &mut SvgText,
        placement: &Placement<'_>,
    ) -> Result<(), AllocError> {
        let mut page = ArrowPage {
            lanes: Lanes::new(alloc, placement)?,
            svg,
            items: self.items,
            placement,
            is_schedule: self.subject.is_in_order(),
        };
        page.draw_exclusions(alloc, self.found.exclusions.as_slice())?;
        page.draw_arrows(alloc, self.found.arrows.as_slice())
    }

    /// Draws boxes and arrows. Boxes come last, and cover what of an arrow lies below them.
    fn draw_body(
        &self,
        alloc: Global,
        svg: &mut SvgText,
        placement: &Placement<'_>,
    ) -> Result<(), AllocError> {
        draw_titles(svg, placement);
        self.draw_arrows(alloc, svg, placement)?;
        draw_boxes(alloc, svg, placement, self)
    }

    /// Draws the picture.
    pub fn draw(&self, alloc: Global) -> Result<Vec<u8>, AllocError> {
        let is_schedule = self.subject.is_in_order();
        let placement = Placement::of(alloc, self.items, self.trace, self.names, is_schedule)?;
        let entries = LegendEntries::of(self.trace, self.items, self.found, is_schedule);
        let reasons = ReasonLines::of(alloc, self.items, self.found, self.names)?;
        // From top to bottom: the boxes, the legend, the sentences. The numbers are the free space between them.
        let legend = placement.bottom().saturating_add(20);
        let words = legend.saturating_add(entries.count().saturating_mul(LEGEND_STEP));
        let sentences = reasons.lines.len() as u64;
        let height = words.saturating_add(sentences.saturating_mul(SENTENCE_STEP));
        // To the right of the last column lines down take 63 of the 72 pixels. A character of a sentence is taken to have 6.5 pixels.
        let width = placement
            .right
            .saturating_add(MARGIN * 3)
            .max(LEAST_WIDTH)
            .max((reasons.longest().saturating_mul(13) / 2).saturating_add(MARGIN * 2));
        let mut svg = SvgText::new(alloc);
        begin_document(&mut svg, width, height.saturating_add(20));
        self.draw_title(&mut svg, count_operations(self.items));
        self.draw_note(&mut svg);
        if is_schedule {
            self.draw_bands(&mut svg, &placement, width);
        }
        self.draw_body(alloc, &mut svg, &placement)?;
        draw_legend(&mut svg, &entries, legend);
        draw_reasons(&mut svg, &reasons, words.saturating_add(12));
        svg.add(&[b"</svg>\n"]);
        svg.into_bytes()
    }
}

/// Draws the sentences from this height on.
fn draw_reasons(svg: &mut SvgText, reasons: &ReasonLines, y: u64) {
    let mut y = y;
    for line in &reasons.lines {
        svg.line_of_text(b"reason", MARGIN, y, &[line.as_slice()]);
        y = y.saturating_add(SENTENCE_STEP);
    }
}
