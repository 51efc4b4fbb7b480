//! Smaller cores.
//!
//! A budget counts looks at entries of tables here. Operations, locations and processes have the numbers of the whole log; what is refuted is always the
//! part of the core.

use crate::contradiction::{contradicting, is_refuted};
use crate::given_order::GivenOrder;
use crate::log_part::{Chosen, LogPart, has_all_sources, log_part_of};
use numbered_log::{
    Budget, LocationId, NumberedOrigin, Operation, OperationId, ProcessId, ProcessPlace,
};
use order_propagation::Propagation;
use schedule_search::is_refuted_by_walk;
use std::alloc::{AllocError, Global};
use total_tables::{at, piece, size};

/// A set of operations whose part has no legal schedule, which saturation or a walk has found.
#[derive(Drop)]
pub struct Core<'a> {
    alloc: Global,
    /// The order that program order and pairs force on the whole.
    forced: &'a GivenOrder<'a>,
    operations: Vec<OperationId>,
    /// The same set as a table, which must change together with the list.
    chosen: Chosen,
    /// Whether a part that saturation does not refute is walked over.
    walks: bool,
}

/// The largest number of steps that a walk over a part may take. With more, one part takes the budget of all others. In looks, as each budget here.
const WALK: u64 = 4_000_000;

impl<'a> Core<'a> {
    /// The core of these operations, which stand by rising numbers.
    pub fn new(
        alloc: Global,
        forced: &'a GivenOrder<'a>,
        operations: Vec<OperationId>,
    ) -> Result<Core<'a>, AllocError> {
        let mut chosen = Chosen::new(alloc, forced.log().count(), false)?;
        chosen.set_all(operations.as_slice(), true);
        Ok(Core {
            alloc,
            forced,
            operations,
            chosen,
            walks: false,
        })
    }

    /// The operations, by rising numbers.
    pub fn operations(&self) -> &[OperationId] {
        self.operations.as_slice()
    }

    /// The number of operations.
    pub fn count(&self) -> u32 {
        size(self.operations.as_slice())
    }

    /// Returns whether saturation finds a contradiction in the part. If `walks` is set, a walk over it decides instead.
    pub fn is_refuted(&self, budget: &mut Budget) -> Result<bool, AllocError> {
        let part = log_part_of(
            self.alloc,
            self.forced,
            self.operations.as_slice(),
            &self.chosen,
            budget,
        )?;
        if self.walks {
            return self.is_refuted_by_walk(&part, budget);
        }
        is_refuted(self.alloc, &part.log, budget)
    }

    /// Returns whether a walk over the part ends in a contradiction.
    fn is_refuted_by_walk(&self, part: &LogPart, budget: &mut Budget) -> Result<bool, AllocError> {
        let share = budget.share(WALK);
        let mut order = Propagation::new(self.alloc, &part.log, share)?;
        let is_refuted = is_refuted_by_walk(self.alloc, &mut order)?;
        budget.give_back(order.budget());
        Ok(is_refuted)
    }

    /// Has parts walked over from now on, since saturation alone does not refute the core.
    pub fn refute_by_walks(&mut self) {
        self.walks = true;
    }

    /// Adds writers by which writers of the core are hidden from readers of the core: without them these would be sources in the part. A writer that joins
    /// may be a source of a reader, and need another one that hides it: so this is done again until none joins.
    pub fn close(&mut self, budget: &mut Budget) -> Result<(), AllocError> {
        for _ in 0..self.forced.log().count() {
            let before = self.count();
            let looked = before.saturating_add(self.forced.log().count());
            budget.spend(looked as u64);
            for place in 0..before {
                let reader = at(self.operations.as_slice(), place, OperationId::FIRST);
                if self.forced.log().operation(reader).reads && !budget.is_spent() {
                    self.close_reader(reader, budget);
                }
            }
            for location in self.forced.log().location_ids() {
                budget.spend(1);
                if !budget.is_spent() && self.forced.log().last(location).is_some() {
                    self.close_last(location, budget);
                }
            }
            self.operations = self.chosen.all(self.alloc)?;
            if self.count() == before || budget.is_spent() {
                break;
            }
        }
        Ok(())
    }

    /// Adds the possible sources of readers, and then the writers by which others are hidden.
    pub fn complete(&mut self, budget: &mut Budget) -> Result<(), AllocError> {
        for place in 0..self.count() {
            let reader = at(self.operations.as_slice(), place, OperationId::FIRST);
            if self.forced.log().operation(reader).reads && !budget.is_spent() {
                budget.spend(self.forced.span(reader));
                self.add_sources(reader);
            }
        }
        self.operations = self.chosen.all(self.alloc)?;
        self.close(budget)
    }

    /// Adds the possible sources of the reader.
    fn add_sources(&mut self, reader: OperationId) {
        let forced = self.forced;
        for run in 0..forced.sources().intervals(reader) {
            let low = forced.sources().low(reader, run);
            for position in low..forced.sources().high(reader, run) {
                self.chosen.set(forced.writer(position), true);
            }
        }
    }

    /// Adds the origins of readers, and all writers of the values that they read, until the budget is spent. With these the part keeps each
    /// read, whatever the order says.
    pub fn add_writers(&mut self, budget: &mut Budget) -> Result<(), AllocError> {
        let log = self.forced.log();
        for place in 0..self.count() {
            let reader = log.operation(at(self.operations.as_slice(), place, OperationId::FIRST));
            if reader.reads && !budget.is_spent() {
                budget.spend(log.count() as u64);
                for number in log.operation_ids() {
                    let writer = log.operation(number);
                    if writer.writes
                        && writer.location == reader.location
                        && writer.left == reader.needed
                    {
                        self.chosen.set(number, true);
                    }
                }
                if let NumberedOrigin::Operation(origin) = reader.origin {
                    self.chosen.set(origin, true);
                }
            }
        }
        self.operations = self.chosen.all(self.alloc)?;
        Ok(())
    }

    /// Adds the origin of the reader, or writers that hide others from it.
    fn close_reader(&mut self, reader: OperationId, budget: &mut Budget) {
        let operation = self.forced.log().operation(reader);
        if self.forced.log().initial(operation.location) == Some(operation.needed) {
            self.hide_initial(reader, budget);
        }
        match operation.origin {
            NumberedOrigin::Initial => {}
            NumberedOrigin::Operation(origin) => {
                self.chosen.set(origin, true);
                self.hide(reader, origin, budget);
            }
            NumberedOrigin::Any => {
                let span = self.forced.span(reader);
                budget.spend(span.saturating_add(self.count() as u64));
                if has_all_sources(self.forced, reader, &self.chosen) {
                    for place in 0..self.count() {
                        let writer = at(self.operations.as_slice(), place, OperationId::FIRST);
                        let source = self.forced.log().operation(writer);
                        if source.writes
                            && source.location == operation.location
                            && source.left == operation.needed
                            && writer != reader
                        {
                            self.hide(reader, writer, budget);
                        }
                    }
                }
            }
        }
    }

    /// Adds a writer that hides this one from the reader, if there is one and none is chosen.
    fn hide(&mut self, reader: OperationId, writer: OperationId, budget: &mut Budget) {
        let forced = self.forced;
        budget.spend(forced.log().processes() as u64);
        if forced.stands_before(reader, writer) {
            return;
        }
        let location = forced.log().operation(reader).location;
        for process in forced.log().process_ids() {
            let from = forced.after(writer, process);
            let to = forced.before(reader, process);
            if self.has_chosen_writer(process, location, from, to, budget) {
                return;
            }
        }
        if let Some(found) = forced.hider(writer, reader) {
            self.chosen.set(found, true);
        }
    }

    /// Adds a writer that hides the initial value from the reader, if there is one and none is chosen.
    fn hide_initial(&mut self, reader: OperationId, budget: &mut Budget) {
        let forced = self.forced;
        let location = forced.log().operation(reader).location;
        let mut found = None;
        budget.spend(forced.log().processes() as u64);
        for process in forced.log().process_ids() {
            let to = forced.before(reader, process);
            if self.has_chosen_writer(process, location, ProcessPlace::FIRST, to, budget) {
                return;
            }
            let place = forced.next_writer(process, location, ProcessPlace::FIRST);
            if place <= to {
                found = Some(forced.log().number(process, place));
            }
        }
        if let Some(writer) = found {
            self.chosen.set(writer, true);
        }
    }

    /// Returns whether a writer of the location in the process, from one place up to another, is chosen. Both places are among these; the one behind the
    /// end of a process has no writer.
    fn has_chosen_writer(
        &self,
        process: ProcessId,
        location: LocationId,
        from: ProcessPlace,
        to: ProcessPlace,
        budget: &mut Budget,
    ) -> bool {
        let log = self.forced.log();
        let mut place = from;
        for _ in 0..log.length(process) {
            budget.spend(1);
            if place > to {
                break;
            }
            place = self.forced.next_writer(process, location, place);
            if place > to || place > log.last_place(process) {
                break;
            }
            if self.chosen.has(log.number(process, place)) {
                return true;
            }
            place = place.next();
        }
        false
    }

    /// Adds writers that come after others which may not be the last one of the location.
    fn close_last(&mut self, location: LocationId, budget: &mut Budget) {
        let forced = self.forced;
        let log = forced.log();
        let span = forced.span(forced.final_reader(location));
        budget.spend(span.saturating_add(self.count() as u64));
        if !has_all_sources(forced, forced.final_reader(location), &self.chosen) {
            return;
        }
        for place in 0..self.count() {
            let writer = at(self.operations.as_slice(), place, OperationId::FIRST);
            let source = log.operation(writer);
            if source.writes
                && source.location == location
                && Some(source.left) == log.last(location)
                && !self.has_chosen_after(writer, location, budget)
            {
                if let Some(found) = forced.later_writer(location, writer) {
                    self.chosen.set(found, true);
                }
            }
        }
    }

    /// Returns whether a writer of the location that stands after this one is chosen.
    fn has_chosen_after(
        &self,
        writer: OperationId,
        location: LocationId,
        budget: &mut Budget,
    ) -> bool {
        let log = self.forced.log();
        budget.spend(log.processes() as u64);
        for process in log.process_ids() {
            let from = self.forced.after(writer, process);
            if self.has_chosen_writer(process, location, from, log.last_place(process), budget) {
                return true;
            }
        }
        false
    }

    /// Goes on from the operations from which the contradiction of the part follows, if these are fewer and their part is refuted too. They
    /// are found at the price of two tries, and save those of all others.
    fn refine(&mut self, budget: &mut Budget) -> Result<(), AllocError> {
        if self.walks || budget.is_spent() {
            return Ok(());
        }
        let operations = self.operations.as_slice();
        let Some(found) = contradicting(self.alloc, self.forced, operations, &self.chosen, budget)?
        else {
            return Ok(());
        };
        let mut core = Core::new(self.alloc, self.forced, found)?;
        if self.gives_way_to(&mut core, budget)? {
            self.take(core);
        }
        Ok(())
    }

    /// Closes the other core, and returns whether it then has fewer operations and its part is refuted too.
    fn gives_way_to(&self, other: &mut Core<'a>, budget: &mut Budget) -> Result<bool, AllocError> {
        other.complete(budget)?;
        if other.count() >= self.count() {
            return Ok(false);
        }
        other.is_refuted(budget)
    }

    /// Goes on from the operations of another core of the same whole.
    fn take(&mut self, other: Core<'a>) {
        let Core {
            operations,
            chosen,
            ..
        } = other;
        self.operations = operations;
        self.chosen = chosen;
    }

    /// Goes on from the other core if it has fewer operations, and returns whether it has.
    pub fn take_if_smaller(&mut self, other: Core<'a>) -> bool {
        if other.count() >= self.count() {
            return false;
        }
        self.take(other);
        true
    }

    /// Leaves out those of these operations that are in the core, if what is left is still refuted.
    fn leave_out(
        &mut self,
        operations: &[OperationId],
        budget: &mut Budget,
    ) -> Result<(), AllocError> {
        // Some may have been left out since the list was made, when the core was refined.
        let group = self.chosen.among(self.alloc, operations)?;
        if group.is_empty() || budget.is_spent() {
            return Ok(());
        }
        self.chosen.set_all(group.as_slice(), false);
        let left = self.chosen.among(self.alloc, self.operations.as_slice())?;
        let all = std::mem::replace(&mut self.operations, left);
        if self.is_refuted(budget)? {
            return self.refine(budget);
        }
        self.chosen.set_all(group.as_slice(), true);
        self.operations = all;
        Ok(())
    }

    /// Leaves out the operations that belong to a group, if what is left is refuted.
    fn leave_out_group<F: Fn(Operation) -> bool>(
        &mut self,
        belongs: F,
        budget: &mut Budget,
    ) -> Result<(), AllocError>
        requires { F.IsAlwaysCallable belongs }
    {
        budget.spend(self.count() as u64);
        let mut group = Vec::new(self.alloc);
        for operation in &self.operations {
            if belongs(self.forced.log().operation(*operation)) {
                group.push(*operation)?;
            }
        }
        self.leave_out(group.as_slice(), budget)
    }

    /// Leaves out operations as long as what is left is refuted: those of a process, those on a location, halves, quarters and so on, and
    /// each by itself. Large groups come first: each try costs a saturation, and one by one most of the budget would be spent on operations
    /// that a group takes along.
    pub fn shrink(&mut self, budget: &mut Budget) -> Result<(), AllocError> {
        self.refine(budget)?;
        let log = self.forced.log();
        for process in log.process_ids() {
            if budget.is_spent() {
                return Ok(());
            }
            self.leave_out_group(|operation| operation.process == process, budget)?;
        }
        for location in log.location_ids() {
            if budget.is_spent() {
                return Ok(());
            }
            self.leave_out_group(|operation| operation.location == location, budget)?;
        }
        let mut width = self.count() / 2;
        for _ in 0..32 {
            if width <= 1 {
                break;
            }
            self.leave_out_pieces(width, budget)?;
            width = width.wrapping_add(1) / 2;
        }
        for _ in 0..log.count() {
            let before = self.count();
            self.leave_out_pieces(1, budget)?;
            if self.count() == before || budget.is_spent() {
                break;
            }
        }
        Ok(())
    }

    /// Leaves out what can be left out, in pieces of the given number of operations.
    fn leave_out_pieces(&mut self, width: u32, budget: &mut Budget) -> Result<(), AllocError> {
        let all = Vec::from_slice(self.alloc, self.operations.as_slice())?;
        let mut from: u32 = 0;
        for _ in 0..size(all.as_slice()) {
            if from >= size(all.as_slice()) {
                break;
            }
            let to = from.wrapping_add(width).min(size(all.as_slice()));
            self.leave_out(piece(all.as_slice(), from, to), budget)?;
            from = to;
        }
        Ok(())
    }
}
