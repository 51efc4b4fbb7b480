//! The ways of arrows between boxes, which pass boxes and do not cross them.

use crate::placement::{BoxEdges, Placement};
use crate::svg_text::SvgText;
use drawn_order::PictureItem;
use std::alloc::{AllocError, Global};

/// How far a corner is rounded, in pixels, as all lengths here.
const CORNER: u64 = 7;

/// How far above or below the middle of a line down a number stands.
const NUMBER_SHIFT: u64 = 8;

/// How far to the left of the middle of a line across an odd number stands. At the middle and to its right program order comes down, which
/// a number would hide.
const ODD_SHIFT_LEFT: u64 = 30;

/// The same of an even number.
const EVEN_SHIFT_LEFT: u64 = 6;

/// A point of the picture, in pixels.
#[derive(Clone, Copy)]
pub(crate) struct RoutePoint {
    pub x: u64,
    pub y: u64,
}

/// A line across or down, on which words can stand.
#[derive(Clone, Copy)]
struct LabelLine {
    /// Its upper or left end.
    first: RoutePoint,
    /// Its lower or right end.
    last: RoutePoint,
}

/// A way along straight lines with rounded corners.
#[derive(Drop)]
pub(crate) struct Route {
    places: Vec<RoutePoint>,
}

/// How many arrows have taken the space to the right of each column, and below each row. Both are numbered from 0, as in `PictureItem`.
#[derive(Drop)]
pub(crate) struct Lanes {
    columns: Vec<u64>,
    rows: Vec<u64>,
}

/// The next number of the counter, from 0, which is raised. A counter that is not there gives 0 each time: such lines lie on each other.
fn next_of(counters: &mut Vec<u64>, number: usize) -> u64 {
    if number < counters.len() {
        let count = counters[number];
        counters[number] = count.saturating_add(1);
        count
    } else {
        0
    }
}

/// This number of counters.
fn counters(alloc: Global, count: usize) -> Result<Vec<u64>, AllocError> {
    let mut counters = Vec::new(alloc);
    for _ in 0..count {
        counters.push(0)?;
    }
    Ok(counters)
}

/// The number that lies nearer to the other, by this distance or by half of the way if that is less: so the two corners of a short line do
/// not overlap. With `u64::MAX` it is the middle.
fn toward(from: u64, to: u64, distance: u64) -> u64 {
    if to >= from {
        from.saturating_add(distance.min((to - from) / 2))
    } else {
        from.saturating_sub(distance.min((from - to) / 2))
    }
}

/// The place that lies near to this one on the straight line to the other.
fn place_toward(from: RoutePoint, to: RoutePoint) -> RoutePoint {
    RoutePoint {
        x: toward(from.x, to.x, CORNER),
        y: toward(from.y, to.y, CORNER),
    }
}

impl LabelLine {
    /// The line that has these ends.
    fn between(one: RoutePoint, other: RoutePoint) -> LabelLine {
        LabelLine {
            first: RoutePoint {
                x: one.x.min(other.x),
                y: one.y.min(other.y),
            },
            last: RoutePoint {
                x: one.x.max(other.x),
                y: one.y.max(other.y),
            },
        }
    }

    /// Its middle.
    fn middle(&self) -> RoutePoint {
        RoutePoint {
            x: toward(self.first.x, self.last.x, u64::MAX),
            y: toward(self.first.y, self.last.y, u64::MAX),
        }
    }
}

impl Lanes {
    /// No arrow yet, in a picture of these columns and rows.
    pub fn new(alloc: Global, placement: &Placement<'_>) -> Result<Lanes, AllocError> {
        let rows = usize::try_from(placement.rows).unwrap_or(0);
        Ok(Lanes {
            columns: counters(alloc, placement.columns.len())?,
            // `crossing_row` is below `rows`, so the last counter is spare.
            rows: counters(alloc, rows.saturating_add(1))?,
        })
    }

    /// The x of a line down, in the space to the right of the column. It lies at most 63 pixels from the column, within the gap that
    /// `Placement::of` leaves and the margin that `draw` leaves behind the last column. From the 13th line on, lines lie on earlier ones.
    fn line_down(&mut self, placement: &Placement<'_>, column: usize) -> u64 {
        let count = next_of(&mut self.columns, column);
        let shift = (count % 6)
            .saturating_mul(9)
            .saturating_add((count / 6) % 2 * 4);
        placement
            .right_of(column)
            .saturating_add(14)
            .saturating_add(shift)
    }

    /// The y of a line across, in the space below the row: 5 to 29 pixels below its boxes, of the 34 that a picture without a schedule has
    /// there. In a schedule, whose rows are closer, there is no such line.
    fn line_across(&mut self, placement: &Placement<'_>, row: usize) -> u64 {
        let count = next_of(&mut self.rows, row);
        let shift = (count % 4).saturating_mul(8);
        placement
            .bottom_of_row(row as u64)
            .saturating_add(5)
            .saturating_add(shift)
    }
}

/// The row below which an arrow crosses columns: the one above its end, or that of its end if it does not lead down.
fn crossing_row(from: &PictureItem<'_>, to: &PictureItem<'_>) -> usize {
    if to.row > from.row {
        to.row.saturating_sub(1)
    } else {
        to.row
    }
}

/// The distance from the middle of a box at which an arrow leaves below it, or comes in above it. Two arrows at one height would read as one,
/// so those to the right and those to the left have distances of their own.
fn distance_from_middle(goes_right: bool) -> u64 {
    if goes_right { 2 } else { 8 }
}

/// The side of a box, the right one or the left one.
fn side_of(edges: BoxEdges, is_right: bool) -> u64 {
    if is_right { edges.right } else { edges.left }
}

/// The point at which an arrow leaves a box, to the right or to the left.
fn exit_of(edges: BoxEdges, goes_right: bool) -> RoutePoint {
    let distance = distance_from_middle(goes_right);
    RoutePoint {
        x: side_of(edges, goes_right),
        y: edges.middle().saturating_add(distance),
    }
}

/// The point at which an arrow that leads to the right or to the left comes to a box.
fn entry_of(edges: BoxEdges, goes_right: bool) -> RoutePoint {
    let distance = distance_from_middle(goes_right);
    RoutePoint {
        x: side_of(edges, !goes_right),
        y: edges.middle().saturating_sub(distance),
    }
}

impl Route {
    /// The way through these points.
    fn through(alloc: Global, points: &[RoutePoint]) -> Result<Route, AllocError> {
        let mut places = Vec::new(alloc);
        places.extend_from_slice(points)?;
        Ok(Route { places })
    }

    /// A way that leaves at the first place and goes to a line down, along it, and to the last place.
    fn by_one_line(
        alloc: Global,
        start: RoutePoint,
        x: u64,
        end: RoutePoint,
    ) -> Result<Route, AllocError> {
        let turn = RoutePoint { x, y: start.y };
        let last = RoutePoint { x, y: end.y };
        Route::through(alloc, &[start, turn, last, end])
    }

    /// A way by two lines down, and one across between them.
    fn by_three_lines(
        alloc: Global,
        start: RoutePoint,
        first: u64,
        across: u64,
        second: u64,
        end: RoutePoint,
    ) -> Result<Route, AllocError> {
        let corners = [
            start,
            RoutePoint {
                x: first,
                y: start.y,
            },
            RoutePoint {
                x: first,
                y: across,
            },
            RoutePoint {
                x: second,
                y: across,
            },
            RoutePoint {
                x: second,
                y: end.y,
            },
            end,
        ];
        Route::through(alloc, &corners)
    }

    /// The straight way down from the one box to the other.
    pub fn down(alloc: Global, from: BoxEdges, to: BoxEdges) -> Result<Route, AllocError> {
        let start = RoutePoint {
            x: from.center(),
            y: from.bottom,
        };
        let end = RoutePoint {
            x: to.center(),
            y: to.top,
        };
        Route::through(alloc, &[start, end])
    }

    /// The way from the side of the one box to the side of the other; between boxes of one column it leaves and comes in on the right. In the
    /// row of a schedule's operation no other box stands but an initial value, left of all, so an arrow crosses columns there.
    pub fn beside(
        alloc: Global,
        placement: &Placement<'_>,
        lanes: &mut Lanes,
        from: &PictureItem<'_>,
        to: &PictureItem<'_>,
        is_schedule: bool,
    ) -> Result<Route, AllocError> {
        let goes_right = from.column < to.column;
        let first = placement.edges_of(from);
        let second = placement.edges_of(to);
        let start = exit_of(first, goes_right || from.column == to.column);
        let end = entry_of(second, goes_right);
        // The columns to the right of which the first and the last line down run.
        let near_start = if goes_right || from.column == to.column {
            from.column
        } else {
            placement.column_before(from.column)
        };
        let near_end = if goes_right {
            placement.column_before(to.column)
        } else {
            to.column
        };
        let x = lanes.line_down(placement, near_start);
        if near_start == near_end || is_schedule {
            return Route::by_one_line(alloc, start, x, end);
        }
        let across = lanes.line_across(placement, crossing_row(from, to));
        let other = lanes.line_down(placement, near_end);
        Route::by_three_lines(alloc, start, x, across, other, end)
    }

    /// Adds the way to a path, behind the `M` of its `d`: each corner is a quadratic curve, from the line before it to the line after it.
    pub fn add_to(&self, svg: &mut SvgText) {
        for k in 0..self.places.len() {
            let place = self.places[k];
            if k == 0 {
                svg.add_numbers(&[place.x, place.y]);
            } else if k.saturating_add(1) < self.places.len() {
                let next = self.places[k.saturating_add(1)];
                let before = place_toward(place, self.places[k - 1]);
                let after = place_toward(place, next);
                svg.add(&[b" L"]);
                svg.add_numbers(&[before.x, before.y]);
                svg.add(&[b" Q"]);
                svg.add_numbers(&[place.x, place.y, after.x, after.y]);
            } else {
                svg.add(&[b" L"]);
                svg.add_numbers(&[place.x, place.y]);
            }
        }
    }

    /// The line in its middle, on which words can stand: of three lines the one down, of five the one across. A straight way down, which has
    /// neither a number nor a cross, has none; the corner of the picture stands for it.
    fn label_line(&self) -> LabelLine {
        let count = self.places.len();
        if count < 3 {
            let corner = RoutePoint { x: 0, y: 0 };
            return LabelLine::between(corner, corner);
        }
        let begin = if count > 4 { 2 } else { 1 };
        LabelLine::between(self.places[begin], self.places[begin + 1])
    }

    /// The middle of the line on which words can stand.
    pub fn label_place(&self) -> RoutePoint {
        self.label_line().middle()
    }

    /// The place of this number, near the middle of the line on which words can stand. Lines beside each other have their middles at one
    /// height, where the numbers would cover each other, so odd ones stand further up or further to the left. Only the x of a line across and
    /// the y of a line down are shifted, as the ends of a line have the other one in common.
    pub fn number_place(&self, number: u64) -> RoutePoint {
        let line = self.label_line();
        let middle = line.middle();
        let (side, shift_left) = if number % 2 == 1 {
            (line.first, ODD_SHIFT_LEFT)
        } else {
            (line.last, EVEN_SHIFT_LEFT)
        };
        RoutePoint {
            x: toward(middle.x, line.first.x, shift_left),
            y: toward(middle.y, side.y, NUMBER_SHIFT),
        }
    }
}
