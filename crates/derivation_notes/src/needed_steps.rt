//! The steps of a derivation on which its contradiction rests.

use dimacs::Lit;
use lrat_check::derivation::{Derivation, Step};
use std::alloc::{AllocError, Global};

/// A step that adds a clause.
#[derive(Drop)]
pub struct NeededStep<'d> {
    /// The id of its clause. Clauses of the formula have the ids from 1 to their number, and those of steps larger ones.
    pub id: u64,
    pub literals: &'d [Lit],
    /// The ids of the clauses that justify it, in the order of their use. A negative one names a clause of which further hints follow.
    pub hints: Vec<i64>,
}

/// The steps on which a contradiction rests, the last one first.
#[derive(Drop)]
pub struct NeededSteps<'d> {
    pub steps: Vec<NeededStep<'d>>,
}

/// The ids of clauses that are needed. Steps are looked through from the last one back, so a mark is not taken away when its step is found: no earlier one has that id.
#[derive(Drop)]
struct Wanted {
    /// The number of clauses of the formula, whose ids come before those of steps.
    count: u64,
    /// Whether the clause is wanted whose id is this much above `count`. Place 0 is used by none.
    marks: Vec<bool>,
}

impl Wanted {
    /// The place of the id among the marks, if it is of a step.
    fn place(&self, id: u64) -> Option<usize> {
        if id <= self.count {
            return None;
        }
        usize::try_from(id - self.count).ok()
    }

    /// Marks the clauses of these hints, but for those of the formula, which have no mark.
    fn mark(&mut self, hints: &[i64]) {
        for hint in hints {
            if let Some(place) = self.place(hint.unsigned_abs()) {
                if place < self.marks.len() {
                    self.marks[place] = true;
                }
            }
        }
    }

    /// Returns whether the clause of this id is wanted.
    fn wants(&self, id: u64) -> bool {
        match self.place(id) {
            Some(place) => self.marks.get(place).copied().unwrap_or(false),
            None => false,
        }
    }
}

/// The largest id that a step adds.
fn largest_id(steps: &[Step]) -> u64 {
    let mut largest = 0;
    for step in steps {
        if let Step::Addition { id, .. } = step {
            if *id > largest {
                largest = *id;
            }
        }
    }
    largest
}

/// The largest span of ids of steps for which marks are made, a byte for each. Ids may have gaps, so the span may
/// be larger than the number of steps.
const MAX_IDS: u64 = 50_000_000;

/// Room for marks of the ids above `count`, or nothing if there are too many.
fn wanted_among(alloc: Global, steps: &[Step], count: u64) -> Result<Option<Wanted>, AllocError> {
    let span = largest_id(steps).saturating_sub(count);
    if span > MAX_IDS {
        return Ok(None);
    }
    let marks = vec![in alloc; false; span as usize + 1]?;
    Ok(Some(Wanted { count, marks }))
}

/// The steps of the derivation on which its empty clause rests, over this many clauses of a formula; nothing if it has no empty clause.
pub fn needed_steps<'d>(
    alloc: Global,
    derivation: &'d Derivation,
    count: u64,
) -> Result<Option<NeededSteps<'d>>, AllocError> {
    let steps = derivation.steps();
    let Some(mut wanted) = wanted_among(alloc, steps, count)? else {
        return Ok(None);
    };
    let mut needed = Vec::new(alloc);
    for k in (0..steps.len()).rev() {
        if let Step::Addition {
            id,
            literals,
            hints,
        } = &steps[k]
        {
            let literals = literals.as_slice();
            // The last empty clause is the contradiction. Nothing is wanted before it is met, so steps behind it are passed over.
            let is_end = needed.is_empty() && literals.is_empty();
            if is_end || wanted.wants(*id) {
                let hints = hints.to_vec(alloc)?;
                wanted.mark(hints.as_slice());
                needed.push(NeededStep {
                    id: *id,
                    literals,
                    hints,
                })?;
            }
        }
    }
    if needed.is_empty() {
        return Ok(None);
    }
    Ok(Some(NeededSteps { steps: needed }))
}

impl<'d> NeededSteps<'d> {
    /// The number of hints of all steps together.
    pub fn hints(&self) -> u64 {
        let mut count: u64 = 0;
        for step in &self.steps {
            count = count.saturating_add(step.hints.len() as u64);
        }
        count
    }

    /// The number of steps.
    pub fn count(&self) -> u64 {
        self.steps.len() as u64
    }

    /// The step that adds the clause of this id, and its number in the order of the derivation, counted from 1.
    pub fn step_of(&self, id: u64) -> Option<(&'d [Lit], u64)> {
        let steps = self.steps.as_slice();
        for k in 0..steps.len() {
            if steps[k].id == id {
                let number = (steps.len() - k) as u64;
                return Some((steps[k].literals, number));
            }
        }
        None
    }
}
