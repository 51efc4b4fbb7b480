//! What the colours and lines of a picture mean.

use crate::arrows::{ArrowStyle, EXCLUDED, begin_path, is_shown, skips_between};
use crate::placement::MARGIN;
use crate::svg_text::SvgText;
use drawn_order::{ArrowKind, FoundOrder, PictureItem};
use trace_semantics::known_order::says_times;
use trace_semantics::trace::Trace;

/// The height of a line of the legend.
pub(crate) const LEGEND_STEP: u64 = 22;

/// What occurs in a picture, and what of it the legend has. The last three fields choose words, and have no line of their own.
#[derive(Clone, Copy)]
pub(crate) struct LegendEntries {
    program: bool,
    skips: bool,
    source: bool,
    before: bool,
    derived: bool,
    excluded: bool,
    cycle: bool,
    lack: bool,
    shortage: bool,
    beside: bool,
    is_schedule: bool,
    has_lines: bool,
    has_times: bool,
}

impl LegendEntries {
    /// No entry.
    fn none(is_schedule: bool) -> LegendEntries {
        LegendEntries {
            program: false,
            skips: false,
            source: false,
            before: false,
            derived: false,
            excluded: false,
            cycle: false,
            lack: false,
            shortage: false,
            beside: false,
            is_schedule,
            has_lines: false,
            has_times: false,
        }
    }

    /// Notes an arrow of this kind.
    fn note(&mut self, kind: ArrowKind, skips: bool) {
        match kind {
            ArrowKind::Program if skips => self.skips = true,
            ArrowKind::Program => self.program = true,
            ArrowKind::Source => self.source = true,
            ArrowKind::Before => self.before = true,
            ArrowKind::Derived(_) => self.derived = true,
        }
    }

    /// Notes the arrows.
    fn note_arrows(&mut self, items: &[PictureItem<'_>], found: &FoundOrder) {
        for arrow in &found.arrows {
            if let (Some(first), Some(second)) = (items.get(arrow.from), items.get(arrow.to)) {
                if is_shown(arrow) {
                    self.note(arrow.kind, skips_between(first, second));
                }
                self.cycle = self.cycle || arrow.is_marked;
            }
        }
        for exclusion in &found.exclusions {
            self.excluded = self.excluded || exclusion.is_used;
        }
    }

    /// Gives what occurs in the picture.
    pub fn of(
        trace: &Trace,
        items: &[PictureItem<'_>],
        found: &FoundOrder,
        is_schedule: bool,
    ) -> LegendEntries {
        let mut entries = LegendEntries::none(is_schedule);
        entries.has_lines = !trace.before().is_empty();
        entries.has_times = says_times(trace);
        entries.note_arrows(items, found);
        for item in items {
            entries.beside = entries.beside || item.is_beside();
        }
        entries.lack = found.first_lacking().is_some();
        entries.shortage = found.shortage.is_some();
        entries
    }

    /// The number of lines of the legend, by which `draw` leaves room. It has to count what `draw_legend` draws: `shortage` stands twice, as
    /// it has two lines.
    pub fn count(&self) -> u64 {
        let mut count: u64 = 0;
        for is_there in [
            self.program,
            self.skips,
            self.source,
            self.before,
            self.derived,
            self.excluded,
            self.cycle,
            self.lack,
            self.shortage,
            self.shortage,
            self.beside,
        ] {
            if is_there {
                count = count.saturating_add(1);
            }
        }
        count
    }
}

/// The lines of a legend as they are drawn.
#[derive(Clone, Copy)]
struct LegendLine {
    /// The height of the middle of the next line, in pixels.
    y: u64,
}

impl LegendLine {
    /// Draws the words beside what they say the meaning of, and goes to the next line.
    fn end(&mut self, svg: &mut SvgText, words: &[u8]) {
        svg.line_of_text(b"note", MARGIN + 52, self.y.saturating_add(4), &[words]);
        self.y = self.y.saturating_add(LEGEND_STEP);
    }

    /// Draws the sample of an arrow.
    fn draw_sample(&self, svg: &mut SvgText, style: ArrowStyle) {
        begin_path(svg, style);
        svg.add_numbers(&[MARGIN, self.y]);
        svg.add(&[b" L"]);
        svg.add_numbers(&[MARGIN + 40, self.y]);
        svg.add(&[b"\"/>\n"]);
    }

    /// Draws a line with an arrow, and what it means.
    fn arrow(
        &mut self,
        svg: &mut SvgText,
        class: &'static [u8],
        colour: &'static [u8],
        words: &[u8],
    ) {
        self.draw_sample(svg, ArrowStyle { class, colour });
        self.end(svg, words);
    }

    /// Draws a box of this class, one of those of boxes in `style.rt`, and what it means.
    fn sample(&mut self, svg: &mut SvgText, class: &[u8], words: &[u8]) {
        svg.add(&[b"<rect class=\"", class, b"\" rx=\"4\""]);
        svg.at(MARGIN, self.y.saturating_sub(8));
        svg.attribute(b"width", 40);
        svg.attribute(b"height", 16);
        svg.add(&[b"/>\n"]);
        self.end(svg, words);
    }
}

/// The words for arrows of the known order, by what the trace says of it. There are such arrows only if it has before lines or times.
fn known_words(entries: &LegendEntries) -> &'static [u8] {
    if !entries.has_times {
        b"known order: what before lines say of the operations that are drawn"
    } else if entries.has_lines {
        b"known order: what before lines and times say of the operations that are drawn"
    } else {
        b"known order: what times say of the operations that are drawn"
    }
}

/// Draws what of the legend is of arrows.
fn draw_plain(svg: &mut SvgText, line: &mut LegendLine, entries: &LegendEntries) {
    if entries.program {
        line.arrow(svg, b"program", b"grey", b"program order");
    }
    if entries.skips {
        let words = b"program order, with operations in between that are left out";
        line.arrow(svg, b"program skips", b"grey", words);
    }
    if entries.source {
        let words: &[u8] = if entries.is_schedule {
            b"reads from: the last write before it, or the initial value"
        } else {
            b"reads from: what is drawn leaves no other source"
        };
        line.arrow(svg, b"source", b"blue", words);
    }
    if entries.before {
        line.arrow(svg, b"before", b"violet", known_words(entries));
    }
    if entries.derived {
        let words = b"has to come first, by the sentence of this number below";
        line.arrow(svg, b"derived", b"brown", words);
    }
    if entries.excluded {
        let words = b"with a cross: cannot be the source, by a sentence below";
        line.arrow(svg, EXCLUDED.class, EXCLUDED.colour, words);
    }
}

/// Draws the legend from this height on.
pub(crate) fn draw_legend(svg: &mut SvgText, entries: &LegendEntries, y: u64) {
    let mut line = LegendLine { y };
    draw_plain(svg, &mut line, entries);
    if entries.cycle {
        let words = b"on broad red lines: a cycle, where each would have to come before the next";
        line.sample(svg, b"marked", words);
    }
    if entries.lack {
        line.sample(svg, b"lacking", b"a value that nothing can give");
    }
    if entries.shortage {
        let words = b"needs a source of its own: two updates never read the same write";
        line.sample(svg, b"lacking", words);
        line.sample(svg, b"giving", b"can be such a source");
    }
    if entries.beside {
        let words = b"dashed: drawn beside the others, for what a read cannot have its value from";
        line.sample(svg, b"beside", words);
    }
}
