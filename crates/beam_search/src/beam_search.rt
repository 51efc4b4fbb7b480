//! The search, layer by layer.
//!
//! Past the end of a table `at` reads as its last argument, and `put` does nothing; so arithmetic may wrap, and a wrong place makes no fault. A budget
//! counts looks at entries of tables. Loops have a bound, mostly one that is never reached, since it is proved that each call ends.

use crate::beam::Beam;
use crate::best_successors::{NO_SUCCESSOR, NO_WORTH, Successor, best_of, greatest_excess};
use crate::classed_log::{ClassLeft, ClassedLog, NOTHING_LEFT};
use crate::dead_ends::{DeadEnds, SPACING, widest};
use crate::evenness::Changed;
use crate::front_cells::Grain;
use crate::layer::Layer;
use crate::next_writers::NextWriters;
use crate::seen_states::SeenStates;
use crate::state::State;
use closed_rows::ClosedRows;
use numbered_log::{Budget, NumberedLog, NumberedOrigin, OperationId, ProcessId};
use possible_sources::{ClassId, ValueClasses};
use std::alloc::{AllocError, Global};
use std::mem;
use total_tables::{at, put, size};

/// The most steps that are kept, one for each state of each layer. A search that has as many is given up.
const MOST_STEPS: usize = 1 << 23;

/// The most entries of the layers that are kept. A layer that would exceed them is not kept, and the search goes on.
const MOST_KEPT_ENTRIES: u64 = 1 << 23;

/// The most layers that are made. One that is made again counts again.
const MOST_LAYERS: u32 = 1 << 24;

/// The looks of a state for each process and for each location, as an estimate: what making or loading a state takes out of the budget.
const LOOKS_OF_PROCESS: u64 = 24;

const LOOKS_OF_LOCATION: u64 = 4;

/// A layer to which the search can go back.
#[derive(Drop)]
struct KeptLayer {
    /// The number of layers before it, which is also its place in `begins`.
    depth: u32,
    layer: Layer,
}

/// A writer over what its location holds: what it leaves of that class, and what that costs. A writer that comes over no counted class has
/// `Changed::NOTHING` and no cost.
#[derive(Clone, Copy)]
struct Overwriting {
    changed: Changed,
    cost: i64,
}

/// The end of a search.
#[derive(Clone, Copy, PartialEq, Eq)]
pub enum BeamEnding {
    /// All operations are placed, and the final values are as they have to be.
    Scheduled,
    /// No state has a next one, or the budget is spent.
    GivenUp,
}

/// A search of layers, in each of whose states one writer more is placed than in those of the layer before.
pub struct BeamSearch<'a> {
    log: &'a NumberedLog,
    rows: &'a ClosedRows,
    classed: ClassedLog,
    next_writers: NextWriters,
    /// The state at hand, and what is left of each class in it.
    state: State,
    left_of: Vec<ClassLeft>,
    layer: Layer,
    /// Layers before it, to which the search can go back.
    kept: Vec<KeptLayer>,
    /// The entries of all of these.
    kept_entries: u64,
    /// The number of layers whose successors were looked for. It is the mark of a layer in both tables of seen states, in which 0 stands for a free slot;
    /// so it is raised before it is used.
    layers_made: u32,
    seen: SeenStates,
    seen_cells: SeenStates,
    grain: Grain,
    /// What can follow the states of the layer at hand.
    successors: Vec<Successor>,
    /// For each layer where its states begin among the steps.
    begins: Vec<u32>,
    /// For each state of each layer the number of its parent, times the number of processes, plus the process that went on. The parent is numbered within
    /// the layer before. The state of the first layer has an entry too, which says nothing.
    steps: Vec<u32>,
    schedule: Vec<OperationId>,
    most_placed: u32,
}

/// Drops each table in one call. A derived `Drop` would drop each at every exit of a function that owns a search, which makes its proof longer.
impl Drop for BeamSearch<'_> {
    fn drop(self) {
        let BeamSearch {
            log: _,
            rows: _,
            classed: _classed,
            next_writers: _next_writers,
            state: _state,
            left_of: _left_of,
            layer: _layer,
            kept: _kept,
            kept_entries: _,
            layers_made: _,
            seen: _seen,
            seen_cells: _seen_cells,
            grain: _,
            successors: _successors,
            begins: _begins,
            steps: _steps,
            schedule: _schedule,
            most_placed: _,
        } = self;
    }
}

impl<'a> BeamSearch<'a> {
    /// Returns whether the tables have room for the log. An origin is not heeded, so a log that has one is not searched.
    pub fn can_search(log: &NumberedLog, classes: &ValueClasses) -> bool {
        for number in log.operation_ids() {
            if !matches!(log.operation(number).origin, NumberedOrigin::Any) {
                return false;
            }
        }
        NextWriters::has_room(log, classes.count())
    }

    /// A search that has not begun, of a log of which this order is known.
    pub fn new(
        alloc: Global,
        log: &'a NumberedLog,
        classes: &ValueClasses,
        rows: &'a ClosedRows,
    ) -> Result<BeamSearch<'a>, AllocError> {
        let classed = ClassedLog::new(alloc, log, classes, rows)?;
        let state = State::new(alloc, &classed, log.processes())?;
        let count = classes.count();
        Ok(BeamSearch {
            log,
            rows,
            next_writers: NextWriters::new(alloc, log, &classed, count)?,
            left_of: Vec::from_slice(alloc, classed.left_of())?,
            classed,
            layer: Layer::new(alloc, &state, count),
            kept: Vec::new(alloc),
            kept_entries: 0,
            layers_made: 0,
            state,
            seen: SeenStates::new(alloc, 0)?,
            seen_cells: SeenStates::new(alloc, 0)?,
            grain: Grain::FIRST,
            successors: Vec::new(alloc),
            begins: Vec::new(alloc),
            steps: Vec::new(alloc),
            schedule: Vec::new(alloc),
            most_placed: 0,
        })
    }

    /// The schedule that was found.
    pub fn schedule(&self) -> &[OperationId] {
        self.schedule.as_slice()
    }

    /// The largest number of operations that were placed.
    pub fn most_placed(&self) -> u32 {
        self.most_placed
    }

    /// Searches with this beam from the front. What it takes is taken out of the budget.
    pub fn run(
        &mut self,
        alloc: Global,
        beam: Beam,
        budget: &mut Budget,
    ) -> Result<BeamEnding, AllocError> {
        self.begin(alloc, beam)?;
        let mut dead_ends = DeadEnds::new(beam);
        for _ in 0..MOST_LAYERS {
            if budget.is_spent() || self.steps.len() >= MOST_STEPS {
                break;
            }
            if self.layer.count() == 0 {
                if !self.go_back(&mut dead_ends) {
                    break;
                }
            }
            if let Some(number) = self.find_successors(beam, budget)? {
                self.read_off(alloc, number)?;
                return Ok(BeamEnding::Scheduled);
            }
            let width = dead_ends.width_at(self.depth());
            self.choose_next_layer(alloc, width, budget)?;
        }
        Ok(BeamEnding::GivenUp)
    }

    /// The number of layers before the last.
    fn depth(&self) -> u32 {
        size(self.begins.as_slice()).saturating_sub(1)
    }

    /// Goes back from a layer without states to one that was kept. Returns whether there is one.
    fn go_back(&mut self, dead_ends: &mut DeadEnds) -> bool {
        // The layer that is gone back to leaves `kept`. When it has been followed, `make_next_layer` keeps it again.
        let Some(target) = dead_ends.note(self.depth()) else {
            return false;
        };
        for _ in 0..self.kept.len() {
            let Some(kept) = self.kept.pop() else {
                break;
            };
            let KeptLayer { depth, layer } = kept;
            self.kept_entries = self.kept_entries.saturating_sub(layer.entries());
            if depth <= target || depth == 0 {
                self.begins.truncate((depth as usize).saturating_add(1));
                let begin = at(self.begins.as_slice(), depth, 0);
                let end = (begin as usize).saturating_add(layer.count() as usize);
                self.steps.truncate(end);
                self.layer = layer;
                return true;
            }
        }
        false
    }

    /// Makes the first layer, whose only state has no writer placed. A layer has at most one successor for each state and process, so the tables of
    /// seen states are made for `most`. What stays of an earlier beam does no harm: `layers_made` only has to rise, `left_of` is loaded before it is
    /// read, and `schedule` and `most_placed` are what all beams have found.
    fn begin(&mut self, alloc: Global, beam: Beam) -> Result<(), AllocError> {
        let most = widest(beam).saturating_mul(self.log.processes());
        self.seen = SeenStates::new(alloc, most)?;
        self.seen_cells = SeenStates::new(alloc, most)?;
        self.grain = Grain::FIRST;
        self.kept.clear();
        self.kept_entries = 0;
        self.begins.clear();
        self.steps.clear();
        self.state = State::new(alloc, &self.classed, self.log.processes())?;
        self.layer = Layer::new(alloc, &self.state, size(self.classed.left_of()));
        self.state.settle(&self.classed, self.rows)?;
        self.layer.push(&self.state, self.classed.left_of())?;
        self.begins.push(0)?;
        self.steps.push(0)?;
        Ok(())
    }

    /// The looks that making a state takes.
    fn looks(&self) -> u64 {
        let of_processes = (self.log.processes() as u64).wrapping_mul(LOOKS_OF_PROCESS);
        let of_locations = (self.log.locations() as u64).wrapping_mul(LOOKS_OF_LOCATION);
        of_processes.wrapping_add(of_locations)
    }

    /// Finds all states that can follow those of the layer. Returns the number of a state in which all is placed, if there is one.
    fn find_successors(
        &mut self,
        beam: Beam,
        budget: &mut Budget,
    ) -> Result<Option<u32>, AllocError> {
        self.successors.clear();
        self.layers_made = self.layers_made.wrapping_add(1);
        for parent in 0..self.layer.count() {
            if budget.is_spent() {
                break;
            }
            self.layer.load(parent, &mut self.state);
            if self.state.is_complete(&self.classed) {
                return Ok(Some(parent));
            }
            self.most_placed = self.most_placed.max(self.state.placed_in_all());
            budget.spend(self.looks());
            for process in self.log.process_ids() {
                self.try_process(parent, process, beam, budget)?;
            }
        }
        Ok(None)
    }

    /// Adds the state in which the process's next operation is placed in the parent, if that can come and the state is new.
    fn try_process(
        &mut self,
        parent: u32,
        process: ProcessId,
        beam: Beam,
        budget: &mut Budget,
    ) -> Result<(), AllocError> {
        let number = self.state.next(&self.classed, process);
        if !self
            .state
            .can_come(&self.classed, self.rows, process, number)
        {
            return Ok(());
        }
        let Some(over) = self.overwriting(parent, number) else {
            return Ok(());
        };
        self.place(process, number, over.cost)?;
        budget.spend(self.looks());
        // What `place` has changed is taken back by loading the parent again, as the next process begins there.
        self.note_successor(parent, process, beam)?;
        self.layer.load(parent, &mut self.state);
        Ok(())
    }

    /// Notes the state at hand as one that can follow. If it has come up in this layer, it gets the ways that lead to it in addition.
    fn note_successor(
        &mut self,
        parent: u32,
        process: ProcessId,
        beam: Beam,
    ) -> Result<(), AllocError> {
        let number = size(self.successors.as_slice());
        let first = self.seen.note(self.state.mixed(), self.layers_made, number);
        let ways = self.state.ways;
        // The first parent stays, since one order is enough for a schedule. So does the worth: that of the ways is no part of it, and all else follows
        // from the state, whichever parent led there.
        if first != number {
            let mut known = at(self.successors.as_slice(), first, NO_SUCCESSOR);
            known.ways = known.ways.or(ways);
            put(self.successors.as_mut_slice(), first, known);
            return Ok(());
        }
        // A state without worth is pushed too: `seen` has noted the number of its entry. `best_of` passes it over.
        let worth = self.state.worth(&self.classed, &self.next_writers, beam);
        self.successors.push(Successor {
            parent,
            process,
            worth: worth.unwrap_or(NO_WORTH),
            ways,
            cell: self.state.front_cell(&self.classed, self.grain),
        })?;
        Ok(())
    }

    /// Returns what the operation does to the class that its location holds in the parent, or none if it is a plain write over a value that cannot be spared.
    fn overwriting(&self, parent: u32, number: OperationId) -> Option<Overwriting> {
        let location = self.classed.location(number);
        let held = self.state.held(location);
        let needed = self.classed.needed(number);
        let before = self.layer.left_of(parent);
        // What is left of the class once the operation has come.
        let mut left = at(before, held.number(), NOTHING_LEFT);
        // A class past the end is no class, or that of a value that no operation writes, of which nothing is counted. An update that leaves what it reads
        // changes nothing.
        if held.number() >= size(before) || self.classed.left(number) == needed {
            return Some(Overwriting {
                changed: Changed::NOTHING,
                cost: 0,
            });
        }
        left.times = left.times.wrapping_sub(1);
        if needed == ClassId::NONE {
            if left.spare == 0 {
                return None;
            }
            left.spare = left.spare.wrapping_sub(1);
        }
        let members = self.classed.members(location);
        let changed = Changed { class: held, left };
        let cost = changed.unevenness(before, members);
        let earlier = Changed::NOTHING.unevenness(before, members);
        Some(Overwriting {
            changed,
            cost: cost.wrapping_sub(earlier),
        })
    }

    /// Places the process's next operation in the state at hand, and what can come then and changes nothing.
    fn place(
        &mut self,
        process: ProcessId,
        number: OperationId,
        cost: i64,
    ) -> Result<(), AllocError> {
        self.state.place(&self.classed, process, number)?;
        self.state.gain = self.state.gain.wrapping_sub(cost);
        self.state.settle(&self.classed, self.rows)
    }

    /// Chooses at most this many of the successors, and makes the next layer of them.
    fn choose_next_layer(
        &mut self,
        alloc: Global,
        width: u32,
        budget: &mut Budget,
    ) -> Result<(), AllocError> {
        let successors = self.successors.as_slice();
        let excess = greatest_excess(successors);
        let chosen = best_of(
            alloc,
            successors,
            &mut self.seen_cells,
            self.layers_made,
            width,
        )?;
        self.grain = self.grain.next(chosen.cells, width);
        self.make_next_layer(alloc, chosen.best.as_slice(), excess, budget)
    }

    /// Makes the next layer of these successors, and puts it in place of the layer. Of all of them the ways are divided by one power of two, `excess`: so they
    /// stay comparable, and do not overflow when the next layer sums them up.
    fn make_next_layer(
        &mut self,
        alloc: Global,
        best: &[Successor],
        excess: u32,
        budget: &mut Budget,
    ) -> Result<(), AllocError> {
        // Of the layer at hand, so this comes before `begins` has an entry for the next one.
        let depth = self.depth();
        self.begins.push(size(self.steps.as_slice()))?;
        let classes = size(self.classed.left_of());
        let mut next = Layer::new(alloc, &self.state, classes);
        for entry in 0..size(best) {
            let successor = at(best, entry, NO_SUCCESSOR);
            self.follow(successor)?;
            self.state.ways = successor.ways.without(excess);
            next.push(&self.state, self.left_of.as_slice())?;
            budget.spend(self.looks().saturating_add(classes as u64));
            let parent = successor.parent.wrapping_mul(self.log.processes());
            self.steps
                .push(parent.wrapping_add(successor.process.number()))?;
        }
        let layer = mem::replace(&mut self.layer, next);
        let entries = self.kept_entries.saturating_add(layer.entries());
        if depth % SPACING == 0 && entries <= MOST_KEPT_ENTRIES {
            self.kept_entries = entries;
            self.kept.push(KeptLayer { depth, layer })?;
        }
        Ok(())
    }

    /// Makes the state at hand that of the successor.
    fn follow(&mut self, successor: Successor) -> Result<(), AllocError> {
        self.layer.load(successor.parent, &mut self.state);
        self.layer.load_left_of(successor.parent, &mut self.left_of);
        let number = self.state.next(&self.classed, successor.process);
        // `try_process` has found the same in the same parent, so there is one.
        let Some(over) = self.overwriting(successor.parent, number) else {
            return Ok(());
        };
        let class = over.changed.class.number();
        put(self.left_of.as_mut_slice(), class, over.changed.left);
        self.place(successor.process, number, over.cost)
    }

    /// Reads the schedule off the steps to this state of the layer. States do not have the operations that were placed, so these are placed once
    /// more, from the front.
    fn read_off(&mut self, alloc: Global, number: u32) -> Result<(), AllocError> {
        let processes = self.log.processes().max(1);
        let mut ways = Vec::new(alloc);
        let mut state = number;
        // The layer of number 0 has no step that leads to it.
        for layer in (1..size(self.begins.as_slice())).rev() {
            let begin = at(self.begins.as_slice(), layer, 0);
            let step = at(self.steps.as_slice(), begin.wrapping_add(state), 0);
            ways.push(ProcessId::new(step % processes))?;
            state = step / processes;
        }
        self.state = State::new(alloc, &self.classed, self.log.processes())?;
        self.state.keep_placed();
        self.state.settle(&self.classed, self.rows)?;
        for entry in (0..size(ways.as_slice())).rev() {
            let process = at(ways.as_slice(), entry, ProcessId::FIRST);
            let number = self.state.next(&self.classed, process);
            self.place(process, number, 0)?;
        }
        self.schedule = Vec::from_slice(alloc, self.state.placed())?;
        Ok(())
    }
}
