//! The search, layer by layer.
//!
//! Past the end of a table `at` reads as its last argument, and `put` does nothing; so arithmetic may wrap, and a wrong place makes no fault.

use crate::layer::{Choice, NO_CHOICE, StateLayer};
use crate::path::schedule_along;
use crate::prices::Prices;
use crate::recent_states::RecentStates;
use crate::state::FrontState;
use crate::valued_log::{Access, ValuedLog};
use numbered_log::{Budget, NumberedLog, OperationId, ProcessId};
use std::alloc::{AllocError, Global};
use std::mem;
use total_tables::{at, size};

/// How many states of a layer a search goes on from, and how it chooses them.
#[derive(Clone, Copy)]
pub struct Breadth {
    /// The most states of a layer.
    pub states: u32,
    /// What a state costs for a value over which no further plain write can come, where a process with n operations left costs n squared.
    pub spare_weight: u32,
}

/// The looks of a state beside those at its tables, about.
const LOOKS_OF_STATE: u32 = 16;

/// A search, and the layers from which it has not gone on.
struct StateSearch<'a> {
    log: &'a ValuedLog<'a>,
    prices: Prices,
    budget: Budget,
    /// What each state that is made takes out of the budget.
    looks: u64,
    /// For each number of placed operations the states that were found.
    layers: Vec<StateLayer>,
    /// How the states were come to from which the search went on.
    choices: Vec<Choice>,
    recent: RecentStates,
    /// The state at hand, and what comes of it.
    state: FrontState,
    next: FrontState,
}

/// Drops the tables in one call. A derived `Drop` would drop each at every exit of a function that owns a search, which makes its proof longer.
impl Drop for StateSearch<'_> {
    fn drop(self) {
        let StateSearch {
            log: _,
            prices: _,
            budget: _,
            looks: _,
            layers: _layers,
            choices: _choices,
            recent: _recent,
            state: _state,
            next: _next,
        } = self;
    }
}

impl<'a> StateSearch<'a> {
    /// A search from this state, in which nothing is placed.
    fn new(
        alloc: Global,
        log: &'a ValuedLog<'a>,
        prices: Prices,
        first: &FrontState,
        budget: Budget,
    ) -> Result<StateSearch<'a>, AllocError> {
        let mut layers = Vec::new(alloc);
        for _ in 0..=log.count() {
            layers.push(StateLayer::new(alloc))?;
        }
        // A state is copied, and each process is asked what comes next.
        let looks = first
            .entries()
            .saturating_add(log.processes())
            .saturating_add(LOOKS_OF_STATE);
        Ok(StateSearch {
            log,
            prices,
            budget,
            looks: u64::from(looks),
            layers,
            choices: Vec::new(alloc),
            recent: RecentStates::new(alloc)?,
            state: first.copied(alloc)?,
            next: first.copied(alloc)?,
        })
    }

    /// The most states of a layer with which the budget lasts to the last layer, if in each state half of the processes can go on.
    fn affordable(&self) -> u32 {
        let of_state = self
            .looks
            .saturating_mul(u64::from(self.log.processes() / 2).saturating_add(1));
        let of_layers = of_state.saturating_mul(u64::from(self.log.count()));
        if of_layers == 0 {
            return 0;
        }
        let affordable = self.budget.left() / of_layers;
        if affordable <= 0xffff_ffff {
            affordable as u32
        } else {
            u32::MAX
        }
    }

    /// Adds the next state to its layer, unless it was met lately. It was come to by this choice.
    #[inline(always)]
    fn add_next(&mut self, choice: Choice) -> Result<(), AllocError> {
        let place = self.next.placed as usize;
        if self.recent.note(self.next.mixed) && place < self.layers.len() {
            self.layers[place].push(&self.next, choice)?;
        }
        Ok(())
    }

    /// Adds the state that comes of the one at hand by the process's next operation, which changes its location and fits.
    #[inline(always)]
    fn place(&mut self, parent: u32, process: ProcessId, access: Access) -> Result<(), AllocError> {
        self.budget.spend(self.looks);
        self.next.load(&self.state);
        if !self
            .next
            .place_writer(self.log, self.prices, process, access)
        {
            return Ok(());
        }
        self.next.settle(self.log, self.prices);
        self.add_next(Choice { parent, process })
    }

    /// Goes on from the state at hand, which was come to by this choice.
    fn go_on(&mut self, choice: Choice) -> Result<(), AllocError> {
        let number = size(self.choices.as_slice());
        self.choices.push(choice)?;
        for process in self.state.process_ids() {
            let access = self.log.access(process, self.state.fronts.of(process));
            if access.changes() && self.state.fits(access) {
                self.place(number, process, access)?;
            }
        }
        Ok(())
    }

    /// Takes the layer of this number of placed operations out of the search. Each state that follows has more operations placed, so none is added to it later.
    fn take_layer(&mut self, alloc: Global, placed: u32) -> StateLayer {
        let place = placed as usize;
        if place < self.layers.len() {
            mem::replace(&mut self.layers[place], StateLayer::new(alloc))
        } else {
            StateLayer::new(alloc)
        }
    }

    /// Goes on from the cheapest states of the layer, at most this many, until the budget is spent.
    fn go_on_from(
        &mut self,
        alloc: Global,
        layer: &StateLayer,
        placed: u32,
        states: u32,
    ) -> Result<(), AllocError> {
        if self.budget.is_spent() {
            return Ok(());
        }
        let ranked = layer.cheapest(alloc, states)?;
        for place in 0..size(ranked.as_slice()) {
            if self.budget.is_spent() {
                break;
            }
            let number = (at(ranked.as_slice(), place, 0) & 0xffff_ffff) as u32;
            layer.load(number, placed, &mut self.state);
            self.go_on(layer.choice(number))?;
        }
        Ok(())
    }

    /// The choice by which the first state of this layer was come to that a schedule may end with.
    fn end_in(&mut self, layer: &StateLayer, placed: u32) -> Option<Choice> {
        for number in 0..layer.count() {
            layer.load(number, placed, &mut self.state);
            if self.state.is_end(self.log) {
                return Some(layer.choice(number));
            }
        }
        None
    }

    /// Searches, and gives the choice by which the end of a schedule was come to.
    fn run(&mut self, alloc: Global, states: u32) -> Result<Option<Choice>, AllocError> {
        let states = self.affordable().min(states);
        self.next.settle(self.log, self.prices);
        self.add_next(NO_CHOICE)?;
        let count = self.log.count();
        for placed in 0..count {
            let layer = self.take_layer(alloc, placed);
            self.go_on_from(alloc, &layer, placed, states)?;
        }
        let last = self.take_layer(alloc, count);
        Ok(self.end_in(&last, count))
    }
}

/// A schedule of the log, if a search of this breadth comes to one within the budget. A log that says where values come from is not searched,
/// and pairs of operations of which one is known to stand before the other are not heeded.
pub fn schedule_by_states(
    alloc: Global,
    log: &NumberedLog,
    breadth: Breadth,
    budget: Budget,
) -> Result<Option<Vec<OperationId>>, AllocError> {
    let Some(log) = ValuedLog::new(alloc, log)? else {
        return Ok(None);
    };
    let Some(spare) = log.spare(alloc)? else {
        return Ok(None);
    };
    let prices = Prices::new(breadth.spare_weight);
    let first = FrontState::new(alloc, &log, prices, spare)?;
    let mut search = StateSearch::new(alloc, &log, prices, &first, budget)?;
    let Some(last) = search.run(alloc, breadth.states)? else {
        return Ok(None);
    };
    let choices = search.choices.as_slice();
    let schedule = schedule_along(alloc, &log, prices, first, choices, last)?;
    Ok(Some(schedule))
}
