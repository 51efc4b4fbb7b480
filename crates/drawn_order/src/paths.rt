//! Ways along arrows.
//!
//! A box is an operation that a picture has, or an initial or a final value, and is given by its number. Pictures are small, so each step of a search goes
//! over all arrows.

use crate::found_order::OrderArrow;
use std::alloc::{AllocError, Global};

/// How the boxes are reached from one of them.
#[derive(Drop)]
struct Reached {
    /// For each box, how many arrows lead to it at least, if some do.
    steps: Vec<Option<usize>>,
    /// For each box that some arrows lead to, the last of them.
    by: Vec<Option<usize>>,
}

impl Reached {
    /// The state in which only this box is reached, of the given number of boxes.
    fn from(alloc: Global, start: usize, count: usize) -> Result<Reached, AllocError> {
        let mut steps = Vec::new(alloc);
        let mut by = Vec::new(alloc);
        for number in 0..count {
            steps.push(if number == start { Some(0) } else { None })?;
            by.push(None)?;
        }
        Ok(Reached { steps, by })
    }

    /// The number of arrows that lead to the box.
    fn steps_to(&self, number: usize) -> Option<usize> {
        if number < self.steps.len() {
            self.steps[number]
        } else {
            None
        }
    }

    /// The last arrow that leads to the box, if some do.
    fn last_arrow(&self, number: usize) -> Option<usize> {
        if number < self.by.len() {
            self.by[number]
        } else {
            None
        }
    }

    /// Notes that the box is reached by this number of steps, of which the arrow is the last.
    fn reach(&mut self, number: usize, steps: usize, arrow: usize) {
        if number < self.steps.len() && number < self.by.len() {
            self.steps[number] = Some(steps);
            self.by[number] = Some(arrow);
        }
    }

    /// Follows the arrows of the boxes that are reached by exactly this number of steps. With rising numbers each box is reached by a shortest
    /// way, as none is reached again.
    fn follow(&mut self, arrows: &[OrderArrow], steps: usize) {
        for k in 0..arrows.len() {
            let arrow = &arrows[k];
            if self.steps_to(arrow.from) == Some(steps) && self.steps_to(arrow.to).is_none() {
                self.reach(arrow.to, steps.saturating_add(1), k);
            }
        }
    }
}

/// The first `count` arrows.
pub(crate) fn first_of(arrows: &[OrderArrow], count: usize) -> &[OrderArrow] {
    match arrows.get(..count) {
        Some(first) => first,
        None => arrows,
    }
}

/// The numbers of the arrows of a shortest way from one box to another, from its end to its begin; none if there is no way, or both are one
/// box. `count` is the number of boxes, which bounds the steps of a shortest way.
pub(crate) fn way_between(
    alloc: Global,
    arrows: &[OrderArrow],
    count: usize,
    start: usize,
    end: usize,
) -> Result<Vec<usize>, AllocError> {
    let mut way = Vec::new(alloc);
    let mut reached = Reached::from(alloc, start, count)?;
    for steps in 0..count {
        reached.follow(arrows, steps);
    }
    let mut at = end;
    for _ in 0..count {
        if at == start {
            break;
        }
        let Some(number) = reached.last_arrow(at) else {
            break;
        };
        way.push(number)?;
        match arrows.get(number) {
            Some(arrow) => at = arrow.from,
            None => break,
        }
    }
    Ok(way)
}

/// The boxes of the cycle that is marked, each before the next, from the end of its last arrow on; none if none is marked.
pub fn cycle_of(alloc: Global, arrows: &[OrderArrow]) -> Result<Vec<usize>, AllocError> {
    let mut boxes = Vec::new(alloc);
    let mut at = None;
    // The last marked arrow is the one that closed the cycle.
    for arrow in arrows {
        if arrow.is_marked {
            at = Some(arrow.to);
        }
    }
    for _ in 0..arrows.len() {
        let Some(number) = at else {
            break;
        };
        if !boxes.is_empty() && boxes.first() == Some(&number) {
            break;
        }
        boxes.push(number)?;
        at = marked_after(arrows, number);
    }
    Ok(boxes)
}

/// The box to which a marked arrow leads from this one.
fn marked_after(arrows: &[OrderArrow], number: usize) -> Option<usize> {
    for arrow in arrows {
        if arrow.is_marked && arrow.from == number {
            return Some(arrow.to);
        }
    }
    None
}
