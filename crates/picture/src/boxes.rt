//! Boxes and titles of columns.

use crate::drawing::Content;
use crate::operation_text::BoxText;
use crate::placement::{Placement, text_width};
use crate::svg_text::SvgText;
use drawn_order::{FoundOrder, PictureItem};
use std::alloc::{AllocError, Global};

/// The class of a box of which too few have a source, if it is one.
fn class_of_shortage(found: &FoundOrder, number: usize) -> Option<&'static [u8]> {
    match &found.shortage {
        Some(shortage) if shortage.is_needing(number) => Some(b"lacking"),
        Some(shortage) if shortage.is_giving(number) => Some(b"giving"),
        _ => None,
    }
}

/// The class of the box of this number, the first that fits: what a contradiction says of it goes before what it is. `style.rt` has the rules;
/// `operation` has none of its own.
fn class_of(found: &FoundOrder, item: &PictureItem<'_>, number: usize) -> &'static [u8] {
    if found.is_lacking(number) {
        b"lacking"
    } else if found.is_in_cycle(number) {
        b"marked"
    } else if let Some(class) = class_of_shortage(found, number) {
        class
    } else if item.is_beside() {
        b"beside"
    } else if item.is_operation() {
        b"operation"
    } else {
        b"value"
    }
}

/// Draws what is written into a box, in its middle.
fn draw_text(svg: &mut SvgText, text: &BoxText, center: u64, baseline: u64) {
    let left = center.saturating_sub(text_width(text.length()) / 2);
    svg.add(&[b"<text class=\"code\" xml:space=\"preserve\""]);
    svg.at(left, baseline);
    svg.add(&[b"><tspan class=\"position\">"]);
    svg.escaped(&[text.position.as_slice()]);
    svg.add(&[b"</tspan><tspan class=\"name\">"]);
    svg.escaped(&[text.name.as_slice()]);
    svg.add(&[b"</tspan>"]);
    svg.escaped(&[text.words.as_slice()]);
    svg.add(&[b"</text>\n"]);
}

/// Draws the box of this item, with the text in its middle.
fn draw_box(
    svg: &mut SvgText,
    placement: &Placement<'_>,
    class: &[u8],
    item: &PictureItem<'_>,
    text: &BoxText,
) {
    let edges = placement.edges_of(item);
    svg.add(&[b"<rect class=\"", class, b"\" rx=\"5\""]);
    svg.at(edges.left, edges.top);
    svg.attribute(b"width", edges.width());
    svg.attribute(b"height", edges.height());
    svg.add(&[b"/>\n"]);
    // Letters of 12 pixels stand in the middle if their base line is 4 below it.
    let baseline = edges.middle().saturating_add(4);
    draw_text(svg, text, edges.center(), baseline);
}

/// Draws all boxes. In a schedule each operation has its position.
pub(crate) fn draw_boxes(
    alloc: Global,
    svg: &mut SvgText,
    placement: &Placement<'_>,
    content: &Content<'_, '_>,
) -> Result<(), AllocError> {
    let has_position = content.subject.is_in_order();
    let items = content.items;
    for number in 0..items.len() {
        let item = &items[number];
        let class = class_of(content.found, item, number);
        let text = BoxText::of(alloc, item, content.names, has_position)?;
        draw_box(svg, placement, class, item, &text);
    }
    Ok(())
}

/// Draws the titles of the columns.
pub(crate) fn draw_titles(svg: &mut SvgText, placement: &Placement<'_>) {
    for column in &placement.columns {
        if column.width > 0 {
            let center = column.left.saturating_add(column.width / 2);
            svg.line_of_text(b"column", center, placement.title_line(), &[column.title]);
        }
    }
}
