//! How lines, boxes and words look, by day and by night.

use crate::svg_text::SvgText;

/// The classes, and what replaces them where the reader asks for a dark page.
const STYLE: &[u8] = b"<style type=\"text/css\">
text { font-family: sans-serif; font-size: 12px; fill: #222222 }
.title { font-size: 16px; font-weight: bold }
.note { fill: #555555 }
.reason { fill: #222222 }
.column { font-size: 14px; font-weight: bold; text-anchor: middle }
.code { font-family: 'DejaVu Sans Mono', Menlo, Consolas, monospace; font-size: 12px }
.position { fill: #1f5fa8; font-weight: bold }
.name { fill: #666666 }
.label { font-size: 11px; font-weight: bold; text-anchor: middle; fill: #8a4b00 }
rect { fill: #ffffff; stroke: #666666; stroke-width: 1.2 }
rect.page { stroke: none }
rect.band { fill: #f5f6f8; stroke: none }
rect.value { fill: #eef3ea; stroke: #7b9468 }
rect.beside { stroke-dasharray: 4 3 }
rect.marked { fill: #fdeceb; stroke: #c62828; stroke-width: 2 }
rect.lacking { fill: #fff1d6; stroke: #c25700; stroke-width: 2 }
rect.giving { fill: #e3f0fb; stroke: #2f74c0; stroke-width: 2 }
rect.number { stroke: none }
path { fill: none; stroke-width: 1.4 }
path.halo { stroke: #f3b4b0; stroke-width: 6 }
path.grey { stroke: #808080 }
path.blue { stroke: #2f74c0 }
path.violet { stroke: #7a3fa0 }
path.brown { stroke: #8a4b00 }
path.orange { stroke: #c25700; stroke-width: 1.2 }
path.skips { stroke-dasharray: 2 3 }
path.before { stroke-dasharray: 7 4 }
path.derived { stroke-dasharray: 9 3 2 3 }
path.excluded { stroke-dasharray: 1 3 }
marker path { stroke: none }
marker path.grey { fill: #808080 }
marker path.blue { fill: #2f74c0 }
marker path.violet { fill: #7a3fa0 }
marker path.brown { fill: #8a4b00 }
marker path.orange { fill: #c25700 }
@media (prefers-color-scheme: dark) {
text, .reason { fill: #e6e6e6 }
.note { fill: #a8a8a8 }
.position { fill: #7db4ee }
.name { fill: #a0a0a0 }
.label { fill: #e0a35c }
rect { fill: #262a30; stroke: #9a9a9a }
rect.page, rect.number { fill: #16181c }
rect.band { fill: #1c1f24 }
rect.value { fill: #26301f; stroke: #8fae78 }
rect.marked { fill: #4a1f1f; stroke: #ef6b63 }
rect.lacking { fill: #4a3512; stroke: #f0953a }
rect.giving { fill: #17324c; stroke: #6aa8ea }
path.halo { stroke: #7d2f2c }
path.grey { stroke: #8c8c8c }
path.blue { stroke: #6aa8ea }
path.violet { stroke: #bb8ae0 }
path.brown { stroke: #e0a35c }
path.orange { stroke: #f0953a }
marker path { stroke: none }
marker path.grey { fill: #8c8c8c }
marker path.blue { fill: #6aa8ea }
marker path.violet { fill: #bb8ae0 }
marker path.brown { fill: #e0a35c }
marker path.orange { fill: #f0953a }
}
</style>
";

/// The colours of the heads of arrows. Each has in `STYLE` a rule for lines and one for heads, by day and by night.
const HEADS: [&[u8]; 5] = [b"grey", b"blue", b"violet", b"brown", b"orange"];

/// Defines the heads of arrows, which paths name as `marker-end`. A head has its size in pixels, however broad the line is.
fn define_heads(svg: &mut SvgText) {
    svg.add(&[b"<defs>\n"]);
    for name in HEADS {
        svg.add(&[
            b"<marker id=\"",
            name,
            b"\" viewBox=\"0 0 10 10\" refX=\"9\" refY=\"5\" markerWidth=\"9\" markerHeight=\"9\" ",
            b"markerUnits=\"userSpaceOnUse\" orient=\"auto\"><path class=\"",
            name,
            b"\" d=\"M 0 1 L 10 5 L 0 9 z\"/></marker>\n",
        ]);
    }
    svg.add(&[b"</defs>\n"]);
}

/// Begins a document of this size.
pub(crate) fn begin_document(svg: &mut SvgText, width: u64, height: u64) {
    svg.add(&[
        b"<?xml version=\"1.0\" encoding=\"UTF-8\"?>\n",
        b"<svg xmlns=\"http://www.w3.org/2000/svg\" version=\"1.1\"",
    ]);
    svg.attribute(b"width", width);
    svg.attribute(b"height", height);
    svg.add(&[b" viewBox=\"0 0"]);
    svg.add_numbers(&[width, height]);
    svg.add(&[b"\">\n"]);
    svg.add(&[STYLE]);
    define_heads(svg);
    svg.add(&[b"<rect class=\"page\" x=\"0\" y=\"0\""]);
    svg.attribute(b"width", width);
    svg.attribute(b"height", height);
    svg.add(&[b"/>\n"]);
}
