//! Arrows between boxes.

use crate::placement::Placement;
use crate::routes::{Lanes, Route};
use crate::svg_text::SvgText;
use drawn_order::{ArrowKind, Exclusion, OrderArrow, PictureItem};
use note_text::decimal;
use std::alloc::{AllocError, Global};

/// The most arrows from sources that are excluded.
const MOST_EXCLUDED: usize = 16;

/// The look of an arrow.
#[derive(Clone, Copy)]
pub(crate) struct ArrowStyle {
    /// The class of its line. One without a rule `path.CLASS` in `style.rt` is drawn solid.
    pub class: &'static [u8],
    /// The colour of its line, and the name of its head: one of `HEADS` in `style.rt`, since another name has neither colour nor head.
    pub colour: &'static [u8],
}

/// What arrows are drawn in.
pub(crate) struct ArrowPage<'p, 't> {
    pub svg: &'p mut SvgText,
    /// The boxes.
    pub items: &'p [PictureItem<'t>],
    pub placement: &'p Placement<'t>,
    pub lanes: Lanes,
    pub is_schedule: bool,
}

/// Drops the counters in one call. A derived `Drop` would drop each at every exit of a function that owns a page, which makes its proof longer.
impl Drop for ArrowPage<'_, '_> {
    fn drop(self) {
        let ArrowPage {
            svg: _,
            items: _,
            placement: _,
            lanes: _lanes,
            is_schedule: _,
        } = self;
    }
}

/// Returns whether the arrow is drawn: one that only follows of others is drawn if the contradiction rests on it.
pub(crate) fn is_shown(arrow: &OrderArrow) -> bool {
    match arrow.kind {
        ArrowKind::Derived(_) => arrow.is_used || arrow.is_marked,
        _ => true,
    }
}

/// The style of the arrow. `skips` says whether operations between its ends are left out.
pub(crate) fn style_of(arrow: &OrderArrow, skips: bool) -> ArrowStyle {
    let (class, colour): (&'static [u8], &'static [u8]) = match arrow.kind {
        ArrowKind::Program if skips => (b"program skips", b"grey"),
        ArrowKind::Program => (b"program", b"grey"),
        ArrowKind::Source => (b"source", b"blue"),
        ArrowKind::Before => (b"before", b"violet"),
        ArrowKind::Derived(_) => (b"derived", b"brown"),
    };
    ArrowStyle { class, colour }
}

/// The style of an arrow from a source that is excluded.
pub(crate) const EXCLUDED: ArrowStyle = ArrowStyle {
    class: b"excluded",
    colour: b"orange",
};

/// Returns whether operations between the two boxes of a process are left out. Of boxes of two processes, or of a value, it says nothing, and
/// is used for program order alone.
pub(crate) fn skips_between(first: &PictureItem<'_>, second: &PictureItem<'_>) -> bool {
    first.number.place.saturating_add(1) < second.number.place
}

/// Begins a path of this style. The caller adds its places, from the first one on, and ends the tag.
pub(crate) fn begin_path(svg: &mut SvgText, style: ArrowStyle) {
    svg.add(&[
        b"<path class=\"",
        style.class,
        b" ",
        style.colour,
        b"\" marker-end=\"url(#",
        style.colour,
        b")\" d=\"M",
    ]);
}

/// Draws a line along the way.
fn draw_route(svg: &mut SvgText, style: ArrowStyle, route: &Route) {
    begin_path(svg, style);
    route.add_to(svg);
    svg.add(&[b"\"/>\n"]);
}

/// Draws the broad line below an arrow of a cycle.
fn draw_halo(svg: &mut SvgText, route: &Route) {
    svg.add(&[b"<path class=\"halo\" d=\"M"]);
    route.add_to(svg);
    svg.add(&[b"\"/>\n"]);
}

/// Draws the number of the sentence that says why the arrow is there.
fn draw_number(svg: &mut SvgText, route: &Route, number: u64) {
    let place = route.number_place(number);
    svg.add(&[b"<rect class=\"number\" rx=\"3\""]);
    svg.at(place.x.saturating_sub(8), place.y.saturating_sub(7));
    svg.attribute(b"width", 16);
    svg.attribute(b"height", 14);
    svg.add(&[b"/>\n"]);
    let digits = decimal(number);
    let baseline = place.y.saturating_add(4);
    svg.line_of_text(b"label", place.x, baseline, &[digits.as_slice()]);
}

/// Draws a cross on the way.
fn draw_cross(svg: &mut SvgText, route: &Route) {
    let place = route.label_place();
    let left = place.x.saturating_sub(4);
    let right = place.x.saturating_add(4);
    let top = place.y.saturating_sub(4);
    let bottom = place.y.saturating_add(4);
    svg.add(&[b"<path class=\"cross orange\" d=\"M"]);
    svg.add_numbers(&[left, top]);
    svg.add(&[b" L"]);
    svg.add_numbers(&[right, bottom]);
    svg.add(&[b" M"]);
    svg.add_numbers(&[left, bottom]);
    svg.add(&[b" L"]);
    svg.add_numbers(&[right, top]);
    svg.add(&[b"\"/>\n"]);
}

impl ArrowPage<'_, '_> {
    /// The way of an arrow between two boxes.
    fn route(
        &mut self,
        alloc: Global,
        kind: ArrowKind,
        first: &PictureItem<'_>,
        second: &PictureItem<'_>,
    ) -> Result<Route, AllocError> {
        match kind {
            ArrowKind::Program => {
                let from = self.placement.edges_of(first);
                let to = self.placement.edges_of(second);
                Route::down(alloc, from, to)
            }
            _ => Route::beside(
                alloc,
                self.placement,
                &mut self.lanes,
                first,
                second,
                self.is_schedule,
            ),
        }
    }

    /// Draws the arrow, with the number of its sentence, if it has one. The halo comes first, as what is drawn later covers what was drawn
    /// before.
    fn draw_arrow(
        &mut self,
        alloc: Global,
        arrow: &OrderArrow,
        first: &PictureItem<'_>,
        second: &PictureItem<'_>,
        number: Option<u64>,
    ) -> Result<(), AllocError> {
        let route = self.route(alloc, arrow.kind, first, second)?;
        if arrow.is_marked {
            draw_halo(self.svg, &route);
        }
        let style = style_of(arrow, skips_between(first, second));
        draw_route(self.svg, style, &route);
        if let Some(number) = number {
            draw_number(self.svg, &route, number);
        }
        Ok(())
    }

    /// Draws all arrows of the order. Those that are derived have numbers from 1, by the same count as `ReasonLines::add_orders` gives sentences.
    pub fn draw_arrows(&mut self, alloc: Global, arrows: &[OrderArrow]) -> Result<(), AllocError> {
        let items = self.items;
        let mut sentences: u64 = 0;
        for arrow in arrows {
            if is_shown(arrow) {
                let number = match arrow.kind {
                    ArrowKind::Derived(_) => {
                        sentences = sentences.saturating_add(1);
                        Some(sentences)
                    }
                    _ => None,
                };
                if let (Some(first), Some(second)) = (items.get(arrow.from), items.get(arrow.to)) {
                    self.draw_arrow(alloc, arrow, first, second, number)?;
                }
            }
        }
        Ok(())
    }

    /// Draws the arrow from a source that is excluded.
    fn draw_exclusion(&mut self, alloc: Global, exclusion: &Exclusion) -> Result<(), AllocError> {
        let items = self.items;
        if let (Some(first), Some(second)) = (
            items.get(exclusion.writer),
            items.get(exclusion.reader),
        ) {
            let route = self.route(alloc, ArrowKind::Source, first, second)?;
            draw_route(self.svg, EXCLUDED, &route);
            draw_cross(self.svg, &route);
        }
        Ok(())
    }

    /// Draws arrows from the sources that are excluded, if the contradiction rests on that.
    pub fn draw_exclusions(
        &mut self,
        alloc: Global,
        exclusions: &[Exclusion],
    ) -> Result<(), AllocError> {
        let mut drawn: usize = 0;
        for exclusion in exclusions {
            if exclusion.is_used && drawn < MOST_EXCLUDED {
                self.draw_exclusion(alloc, exclusion)?;
                drawn = drawn.saturating_add(1);
            }
        }
        Ok(())
    }
}
