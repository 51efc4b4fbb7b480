//! What is found of the order of the boxes of a picture.

use crate::item::PictureItem;
use crate::known_order::PartTrace;
use crate::paths::{first_of, way_between};
use crate::relation::Relation;
use crate::shortage::Shortage;
use forced_order::times::ended_before;
use std::alloc::{AllocError, Global};
use trace_semantics::operation::OpName;
use trace_semantics::trace::Trace;

/// By which rule an order follows of where a box has its value from.
#[derive(Clone, Copy)]
pub enum DerivedRule {
    /// The other write stands after the source, so the reader stands before it.
    AfterSource,
    /// The other write stands before the reader, so it stands before the source.
    BeforeReader,
    /// The source is the last write of the location.
    LastWrite,
}

/// Of what an order follows: the reader has its value from the writer, and the other one writes the location too. All three are numbers of
/// boxes.
#[derive(Clone, Copy)]
pub struct DerivedBy {
    pub reader: usize,
    pub writer: usize,
    pub other: usize,
    pub rule: DerivedRule,
}

/// Why one box stands before another.
#[derive(Clone, Copy)]
pub enum ArrowKind {
    /// It is before it in its process.
    Program,
    /// The other one has its value from it.
    Source,
    /// The known order says so: the before lines or times, with program order.
    Before,
    /// It follows of where a box has its value from.
    Derived(DerivedBy),
}

/// An arrow from a box to a later one, both by their numbers.
#[derive(Clone, Copy)]
pub struct OrderArrow {
    pub from: usize,
    pub to: usize,
    pub kind: ArrowKind,
    /// Whether it is of a cycle.
    pub is_marked: bool,
    /// Whether the contradiction rests on it.
    pub is_used: bool,
}

/// Why a box cannot have its value from a write of that value.
#[derive(Clone, Copy)]
pub enum WhyExcluded {
    /// The write comes after it.
    Late,
    /// This write comes in between.
    Overwritten(usize),
    /// This update has its value from it, or it is the last write, and the box needs a source of its own.
    Taken(usize),
}

/// That a box cannot have its value from a write of that value.
#[derive(Clone, Copy)]
pub struct Exclusion {
    pub reader: usize,
    pub writer: usize,
    pub why: WhyExcluded,
    /// How many arrows were known then. What excludes the write is found among these, and `used_arrows` looks no further: later arrows may
    /// rest on this exclusion.
    pub known: usize,
    /// Whether the contradiction rests on it. False until `mark_used`.
    pub is_used: bool,
}

/// The part of the order of the boxes that is found, and what contradicts it.
pub struct FoundOrder {
    /// The order of the arrows up to the first that closes a cycle, and of initial and final values, which has no arrows.
    pub(crate) relation: Relation,
    pub arrows: Vec<OrderArrow>,
    pub exclusions: Vec<Exclusion>,
    /// For each box, whether it reads a value that nothing gives it.
    pub(crate) lacking: Vec<bool>,
    /// For each box, where it has its value from, if that is known.
    pub(crate) sources: Vec<Option<usize>>,
    /// For each box, how many sources that are not drawn the known order excludes.
    pub(crate) unseen: Vec<usize>,
    /// Whether the order has a cycle, which is marked.
    pub(crate) is_contradicted: bool,
    /// Boxes that need more sources than there are.
    pub shortage: Option<Shortage>,
}

/// Drops the tables in one call. A derived `Drop` would drop each at every exit of a function that owns an order, which makes its proof longer.
impl Drop for FoundOrder {
    fn drop(self) {
        let FoundOrder {
            relation: _relation,
            arrows: _arrows,
            exclusions: _exclusions,
            lacking: _lacking,
            sources: _sources,
            unseen: _unseen,
            is_contradicted: _,
            shortage: _shortage,
        } = self;
    }
}

impl FoundOrder {
    /// No order of this many boxes.
    fn none(alloc: Global, count: usize) -> Result<FoundOrder, AllocError> {
        let mut lacking = Vec::new(alloc);
        let mut sources = Vec::new(alloc);
        let mut unseen = Vec::new(alloc);
        for _ in 0..count {
            lacking.push(false)?;
            sources.push(None)?;
            unseen.push(0)?;
        }
        Ok(FoundOrder {
            relation: Relation::none(alloc, count)?,
            arrows: Vec::new(alloc),
            exclusions: Vec::new(alloc),
            lacking,
            sources,
            unseen,
            is_contradicted: false,
            shortage: None,
        })
    }

    /// Adds an arrow, even if its order is known: the arrow of a source is drawn even so, and a round of the search has found something if there are more arrows than
    /// before. The first one that closes a cycle marks it; later arrows are drawn and not followed.
    pub(crate) fn add(
        &mut self,
        alloc: Global,
        from: usize,
        to: usize,
        kind: ArrowKind,
    ) -> Result<(), AllocError> {
        let closes = from == to || self.relation.holds(to, from);
        self.arrows.push(OrderArrow {
            from,
            to,
            kind,
            is_marked: false,
            is_used: false,
        })?;
        if self.is_contradicted {
            return Ok(());
        }
        if closes {
            self.is_contradicted = true;
            return self.mark_cycle(alloc, to, from);
        }
        self.relation.order(from, to);
        Ok(())
    }

    /// Marks the last arrow and a shortest way back from its end to its begin. So from each box of the cycle one marked arrow leads on, by
    /// which `cycle_of` follows it.
    fn mark_cycle(&mut self, alloc: Global, start: usize, end: usize) -> Result<(), AllocError> {
        let Some(last) = self.arrows.len().checked_sub(1) else {
            return Ok(());
        };
        let earlier = first_of(self.arrows.as_slice(), last);
        let way = way_between(alloc, earlier, self.lacking.len(), start, end)?;
        self.mark(last);
        for number in &way {
            self.mark(*number);
        }
        Ok(())
    }

    /// Marks the arrow of this number.
    fn mark(&mut self, number: usize) {
        if number < self.arrows.len() {
            self.arrows[number].is_marked = true;
        }
    }

    /// Notes that one has to stand before the other, unless that is known.
    pub(crate) fn derive(
        &mut self,
        alloc: Global,
        from: usize,
        to: usize,
        by: DerivedBy,
    ) -> Result<(), AllocError> {
        if self.is_contradicted || self.relation.holds(from, to) {
            return Ok(());
        }
        self.add(alloc, from, to, ArrowKind::Derived(by))
    }

    /// Notes that the box reads a value that nothing gives it.
    pub(crate) fn note_lack(&mut self, reader: usize) {
        if reader < self.lacking.len() {
            self.lacking[reader] = true;
        }
    }

    /// Notes how many sources of the box that are not drawn the known order excludes.
    pub(crate) fn note_unseen(&mut self, reader: usize, count: usize) {
        if reader < self.unseen.len() {
            self.unseen[reader] = count;
        }
    }

    /// Notes where the box has its value from.
    pub(crate) fn note_source(
        &mut self,
        alloc: Global,
        reader: usize,
        writer: usize,
    ) -> Result<(), AllocError> {
        if reader < self.sources.len() {
            self.sources[reader] = Some(writer);
        }
        self.add(alloc, writer, reader, ArrowKind::Source)
    }

    /// The box that this one has its value from, if that is known.
    pub fn source_of(&self, reader: usize) -> Option<usize> {
        if reader < self.sources.len() {
            self.sources[reader]
        } else {
            None
        }
    }

    /// The number of sources of the box that are not drawn and that the known order excludes. An `Exclusion` names a box, which these have not, so the sentences
    /// below a picture say only how many they are.
    pub fn unseen_sources(&self, reader: usize) -> usize {
        if reader < self.unseen.len() {
            self.unseen[reader]
        } else {
            0
        }
    }

    /// Returns whether the box lacks a source.
    pub fn is_lacking(&self, number: usize) -> bool {
        number < self.lacking.len() && self.lacking[number]
    }

    /// The first box that lacks a source.
    pub fn first_lacking(&self) -> Option<usize> {
        for number in 0..self.lacking.len() {
            if self.lacking[number] {
                return Some(number);
            }
        }
        None
    }

    /// Returns whether the order has a cycle.
    pub fn has_cycle(&self) -> bool {
        self.is_contradicted
    }

    /// Returns whether the box is of the cycle.
    pub fn is_in_cycle(&self, number: usize) -> bool {
        for arrow in &self.arrows {
            if arrow.is_marked && (arrow.from == number || arrow.to == number) {
                return true;
            }
        }
        false
    }

    /// Adds the program order of the operations, which stand in the list in this order, process by process: neighbours suffice.
    fn add_program(&mut self, alloc: Global, items: &[PictureItem<'_>]) -> Result<(), AllocError> {
        for later in 1..items.len() {
            let first = &items[later - 1];
            let second = &items[later];
            if first.is_operation() && second.is_operation() && first.column == second.column {
                self.add(alloc, later - 1, later, ArrowKind::Program)?;
            }
        }
        Ok(())
    }

    /// Adds what the known order says of boxes that are drawn, unless it follows of other arrows.
    fn add_known(
        &mut self,
        alloc: Global,
        items: &[PictureItem<'_>],
        part: PartTrace<'_>,
    ) -> Result<(), AllocError> {
        for to in 0..items.len() {
            for from in 0..items.len() {
                if is_nearest(items, part, from, to) {
                    self.add(alloc, from, to, ArrowKind::Before)?;
                }
            }
        }
        Ok(())
    }

    /// Adds what single before lines say of boxes that are drawn, unless that is known.
    fn add_before(
        &mut self,
        alloc: Global,
        items: &[PictureItem<'_>],
        trace: &Trace,
    ) -> Result<(), AllocError> {
        for pair in trace.before() {
            if let Some(from) = last_up_to(items, &pair.0) {
                if let Some(to) = first_from(items, &pair.1) {
                    if !self.relation.holds(from, to) {
                        self.add(alloc, from, to, ArrowKind::Before)?;
                    }
                }
            }
        }
        Ok(())
    }

    /// Returns whether an arrow between the boxes would say something new, of an order that is not contradicted yet.
    fn is_open(&self, from: usize, to: usize) -> bool {
        !self.is_contradicted && !self.relation.holds(from, to)
    }

    /// Adds what times say of boxes that are drawn, unless that is known, until the order is contradicted.
    fn add_timed(
        &mut self,
        alloc: Global,
        items: &[PictureItem<'_>],
        trace: &Trace,
    ) -> Result<(), AllocError> {
        for to in 0..items.len() {
            for from in 0..items.len() {
                if self.is_open(from, to) && is_nearest_timed(items, trace, from, to) {
                    self.add(alloc, from, to, ArrowKind::Before)?;
                }
            }
        }
        Ok(())
    }

    /// Adds that two boxes stand before each other by the known order, unless the order is contradicted already.
    fn add_circle(
        &mut self,
        alloc: Global,
        items: &[PictureItem<'_>],
        part: PartTrace<'_>,
    ) -> Result<(), AllocError> {
        for second in 0..items.len() {
            for first in 0..second {
                if is_known(items, part, first, second) && is_known(items, part, second, first) {
                    if self.is_open(first, second) {
                        self.add(alloc, first, second, ArrowKind::Before)?;
                    }
                    if self.is_open(second, first) {
                        self.add(alloc, second, first, ArrowKind::Before)?;
                    }
                }
            }
        }
        Ok(())
    }

    /// Notes that an initial value stands before the operations at its location, and these before the final one. No arrow is drawn of that.
    fn add_ends(&mut self, items: &[PictureItem<'_>]) {
        for first in 0..items.len() {
            for second in 0..items.len() {
                let from = &items[first];
                let to = &items[second];
                if from.location == to.location
                    && (from.is_initial() && !to.is_initial()
                        || !from.is_final() && to.is_final())
                {
                    self.relation.order(first, second);
                }
            }
        }
    }

    /// Gives what program order, before lines and times say of the boxes.
    pub(crate) fn of_lines(
        alloc: Global,
        items: &[PictureItem<'_>],
        part: PartTrace<'_>,
    ) -> Result<FoundOrder, AllocError> {
        let mut found = FoundOrder::none(alloc, items.len())?;
        found.add_ends(items);
        found.add_program(alloc, items)?;
        found.add_known(alloc, items, part)?;
        // The known order puts no box of a circle nearest to another: then the lines and the times themselves show it. If the
        // circle goes through operations that are not drawn, two boxes of it do.
        found.add_before(alloc, items, part.trace)?;
        found.add_timed(alloc, items, part.trace)?;
        found.add_circle(alloc, items, part)?;
        Ok(found)
    }
}

/// Returns whether the known order has the one before the other.
fn is_known(items: &[PictureItem<'_>], part: PartTrace<'_>, from: usize, to: usize) -> bool {
    match (items.get(from), items.get(to)) {
        (Some(first), Some(second)) => {
            first.is_operation()
                && second.is_operation()
                && part.forced.stands(first.number, second.number)
        }
        _ => false,
    }
}

/// Returns whether the known order has the one before the other, of another process, and no box in between. In a circle a box stands before
/// itself, and so in between.
fn is_nearest(items: &[PictureItem<'_>], part: PartTrace<'_>, from: usize, to: usize) -> bool {
    if !is_known(items, part, from, to) || is_one_column(items, from, to) {
        return false;
    }
    for between in 0..items.len() {
        if is_known(items, part, from, between) && is_known(items, part, between, to) {
            return false;
        }
    }
    true
}

/// Returns whether the one had ended before the other began.
fn is_timed(items: &[PictureItem<'_>], trace: &Trace, from: usize, to: usize) -> bool {
    match (items.get(from), items.get(to)) {
        (Some(first), Some(second)) => {
            first.is_operation()
                && second.is_operation()
                && ended_before(trace, first.number, second.number)
        }
        _ => false,
    }
}

/// Returns whether the one had ended before the other began, and so had no later box of its column, and before no earlier one of the other's.
fn is_nearest_timed(items: &[PictureItem<'_>], trace: &Trace, from: usize, to: usize) -> bool {
    if !is_timed(items, trace, from, to) {
        return false;
    }
    for between in 0..items.len() {
        let says_more_behind = from < between
            && is_one_column(items, from, between)
            && is_timed(items, trace, between, to);
        let says_more_ahead = between < to
            && is_one_column(items, between, to)
            && is_timed(items, trace, from, between);
        if says_more_behind || says_more_ahead {
            return false;
        }
    }
    true
}

/// Returns whether both boxes are of one column.
fn is_one_column(items: &[PictureItem<'_>], from: usize, to: usize) -> bool {
    match (items.get(from), items.get(to)) {
        (Some(first), Some(second)) => first.column == second.column,
        _ => false,
    }
}

/// The last box of the operation's process that is drawn, up to the operation itself. By program order it stands before all that the
/// operation stands before.
fn last_up_to(items: &[PictureItem<'_>], name: &OpName) -> Option<usize> {
    let mut last = None;
    for number in 0..items.len() {
        let item = &items[number];
        if item.is_operation()
            && item.process == name.process.as_bytes()
            && item.number.place <= name.place
        {
            last = Some(number);
        }
    }
    last
}

/// The first box of the operation's process that is drawn, from the operation itself on. By program order it stands behind all that the
/// operation stands behind.
fn first_from(items: &[PictureItem<'_>], name: &OpName) -> Option<usize> {
    for number in 0..items.len() {
        let item = &items[number];
        if item.is_operation()
            && item.process == name.process.as_bytes()
            && item.number.place >= name.place
        {
            return Some(number);
        }
    }
    None
}
