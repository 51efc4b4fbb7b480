//! Decision order by exponential VSIDS (Moskewicz and others, "Chaff", 2001; Eén and Sörensson, "An extensible SAT-solver", 2003).

use crate::drawing::drawn;
use proof_log::codes::Variable;
use std::alloc::{AllocError, Global};
use total_tables::{at, put, size};

/// Activity past which all activities are rescaled.
const RESCALE_LIMIT: f64 = 1e100;

/// Factor by which activities and the increment are rescaled, to avoid overflow.
const RESCALE_FACTOR: f64 = 1e-100;

/// Factor by which the increment grows at each conflict, 1/0.95: growing it costs less than decaying every activity.
const BUMP_GROWTH: f64 = 1.0526315789473684;

/// How many different amounts `stir` adds, from 0 on.
const STIR_STEPS: u32 = 1000;

/// The difference of two of them, in bumps.
const STIR_STEP: f64 = 1e-5;

/// Activities of the variables, and a binary heap of the open decision variables with the most active one at its root.
#[derive(Drop)]
pub struct Activities {
    activities: Vec<f64>,
    /// The increment of the next bump.
    bump: f64,
    /// The heap: the children of slot s are in slots 2s + 1 and 2s + 2. Slots from `count` on are free.
    heap: Vec<Variable>,
    /// The number of variables in the heap.
    count: u32,
    /// Slot of each variable in the heap, plus one, or 0.
    places: Vec<u32>,
    /// 1 for decision variables.
    wanted: Vec<u8>,
}

impl Activities {
    /// Starts with equal activities, so that the decision variables are popped in this order.
    pub fn new(
        alloc: Global,
        variables: u32,
        wanted: &[Variable],
    ) -> Result<Activities, AllocError> {
        let places = variables.wrapping_add(1) as usize;
        let mut activities = Activities {
            activities: vec![in alloc; 0.0; places]?,
            bump: 1.0,
            heap: vec![in alloc; Variable::NONE; places]?,
            count: size(wanted),
            places: vec![in alloc; 0; places]?,
            wanted: vec![in alloc; 0; places]?,
        };
        for place in 0..size(wanted) {
            let variable = at(wanted, place, Variable::NONE);
            put(activities.wanted.as_mut_slice(), variable.number(), 1);
            activities.set_slot(place, variable);
        }
        Ok(activities)
    }

    /// Starts with the activities that another search of the same variables has ended with. The decision variables come in this order where they
    /// are equal.
    pub fn after(
        alloc: Global,
        ended: &Activities,
        wanted: &[Variable],
    ) -> Result<Activities, AllocError> {
        let places = ended.places.len();
        let mut activities = Activities {
            activities: ended.activities.clone()?,
            bump: ended.bump,
            heap: vec![in alloc; Variable::NONE; places]?,
            count: 0,
            places: vec![in alloc; 0; places]?,
            wanted: ended.wanted.clone()?,
        };
        for variable in wanted {
            activities.insert(*variable);
        }
        Ok(activities)
    }

    #[inline(always)]
    fn activity(&self, variable: Variable) -> f64 {
        at(self.activities.as_slice(), variable.number(), 0.0)
    }

    /// Returns the variable in this slot of the heap.
    #[inline(always)]
    fn in_slot(&self, place: u32) -> Variable {
        at(self.heap.as_slice(), place, Variable::NONE)
    }

    /// Returns the slot of the variable, plus one, or 0.
    #[inline(always)]
    fn slot_of(&self, variable: Variable) -> u32 {
        at(self.places.as_slice(), variable.number(), 0)
    }

    /// Writes the variable into this slot of the heap.
    #[inline(always)]
    fn set_slot(&mut self, place: u32, variable: Variable) {
        let slot = place.wrapping_add(1);
        put(self.heap.as_mut_slice(), place, variable);
        put(self.places.as_mut_slice(), variable.number(), slot);
    }

    /// Sifts the variable in this slot up. Slots are numbered by 32 bits, so 32 levels are enough.
    fn rise(&mut self, from: u32) {
        let variable = self.in_slot(from);
        let activity = self.activity(variable);
        let mut place = from;
        for _ in 0..32 {
            if place == 0 {
                break;
            }
            let parent = place.wrapping_sub(1) >> 1;
            let above = self.in_slot(parent);
            if activity <= self.activity(above) {
                break;
            }
            self.set_slot(place, above);
            place = parent;
        }
        self.set_slot(place, variable);
    }

    /// Sifts the variable at the root down.
    fn sink(&mut self) {
        let variable = self.in_slot(0);
        let activity = self.activity(variable);
        let mut place: u32 = 0;
        for _ in 0..32 {
            let mut child = place.wrapping_mul(2).wrapping_add(1);
            if child >= self.count {
                break;
            }
            let mut below = self.in_slot(child);
            let other = child.wrapping_add(1);
            if other < self.count {
                let beside = self.in_slot(other);
                if self.activity(beside) > self.activity(below) {
                    child = other;
                    below = beside;
                }
            }
            if self.activity(below) <= activity {
                break;
            }
            self.set_slot(place, below);
            place = child;
        }
        self.set_slot(place, variable);
    }

    /// Inserts the variable into the heap, if it is a decision variable and not there.
    #[inline(always)]
    pub fn insert(&mut self, variable: Variable) {
        // Most have never left the heap: that is asked first.
        if at(self.places.as_slice(), variable.number(), 1) != 0
            || at(self.wanted.as_slice(), variable.number(), 0) == 0
        {
            return;
        }
        let place = self.count;
        self.count = self.count.wrapping_add(1);
        self.set_slot(place, variable);
        self.rise(place);
    }

    /// Pops the most active variable.
    pub fn pop(&mut self) -> Option<Variable> {
        if self.count == 0 {
            return None;
        }
        let variable = self.in_slot(0);
        put(self.places.as_mut_slice(), variable.number(), 0);
        self.count = self.count.wrapping_sub(1);
        if self.count > 0 {
            let last = self.in_slot(self.count);
            self.set_slot(0, last);
            self.sink();
        }
        Some(variable)
    }

    /// Bumps the variable: it was part of a conflict. Activities only grow, or are all scaled, so the heap needs no more than that it rises.
    pub fn bump(&mut self, variable: Variable) {
        let activity = self.activity(variable) + self.bump;
        put(self.activities.as_mut_slice(), variable.number(), activity);
        if activity > RESCALE_LIMIT {
            for entry in self.activities.iter_mut() {
                *entry *= RESCALE_FACTOR;
            }
            self.bump *= RESCALE_FACTOR;
        }
        let place = self.slot_of(variable);
        if place != 0 {
            self.rise(place.wrapping_sub(1));
        }
    }

    /// Adds a little to each activity, less than a hundredth of a bump, as this seed has it. So searches with other seeds try other decisions among
    /// variables that had the same conflicts.
    pub fn stir(&mut self, seed: u32) {
        for number in 0..size(self.activities.as_slice()) {
            let variable = Variable::new(number);
            let little = f64::from(drawn(seed, variable) % STIR_STEPS) * STIR_STEP;
            let activity = self.activity(variable) + little * self.bump;
            put(self.activities.as_mut_slice(), number, activity);
            let place = self.slot_of(variable);
            if place != 0 {
                self.rise(place.wrapping_sub(1));
            }
        }
    }

    /// Decays all activities, by a larger increment for later bumps.
    pub fn decay(&mut self) {
        self.bump *= BUMP_GROWTH;
    }
}
