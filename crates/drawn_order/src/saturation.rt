//! What the values that are read say of the order.

use crate::beside::put_all_beside;
use crate::candidates::HiddenSources;
use crate::choice::DrawnChoice;
use crate::found_order::{DerivedBy, DerivedRule, Exclusion, FoundOrder, WhyExcluded};
use crate::item::PictureItem;
use crate::items::items_of_choice;
use crate::known_order::PartTrace;
use crate::shortage::find_shortage;
use crate::used_arrows::mark_used;
use std::alloc::{AllocError, Global};
use trace_semantics::trace::Trace;

/// How often all reads are looked at, at most, so that the search ends in any case. Past that less is found, and nothing wrong.
const ROUNDS: usize = 100;

/// The boxes, and the trace that they are of.
pub struct DrawnPart<'t> {
    pub(crate) part: PartTrace<'t>,
    pub items: Vec<PictureItem<'t>>,
    /// For each box, whether an operation that is not drawn may give it its value.
    pub(crate) is_open: Vec<bool>,
    /// For each box, how many sources that are not drawn the known order excludes.
    unseen: Vec<usize>,
}

/// Drops the lists in one call. A derived `Drop` would drop each at every exit of a function that owns a part, which makes its proof longer.
impl Drop for DrawnPart<'_> {
    fn drop(self) {
        let DrawnPart {
            part: _,
            items: _items,
            is_open: _is_open,
            unseen: _unseen,
        } = self;
    }
}

/// The boxes that a read may have its value from: none, only the one of this number, or several.
#[derive(Clone, Copy)]
enum PossibleSources {
    Nowhere,
    Only(usize),
    Several,
}

/// A reader whose source is known. Both are numbers of boxes.
#[derive(Clone, Copy)]
struct KnownSource {
    reader: usize,
    writer: usize,
    /// Whether the reader is a final value. The source is then the last write, and each other one stands before it.
    is_last: bool,
}

/// The boxes of the trace's operations that are chosen, and of those that are drawn beside them. They are made twice: what is put beside is
/// found by the boxes of those that are chosen, and rows and numbers then change.
fn items_beside<'t>(
    alloc: Global,
    part: PartTrace<'t>,
    choice: &mut DrawnChoice,
) -> Result<Vec<PictureItem<'t>>, AllocError> {
    let items = items_of_choice(alloc, part.trace, choice)?;
    put_all_beside(alloc, part, choice, items.as_slice())?;
    items_of_choice(alloc, part.trace, choice)
}

/// Notes on which side of the reader and its source the other write has to stand, if one side is ruled out.
fn derive_of(
    alloc: Global,
    found: &mut FoundOrder,
    known: KnownSource,
    other: usize,
) -> Result<(), AllocError> {
    let KnownSource {
        reader,
        writer,
        is_last,
    } = known;
    let rule = if is_last {
        DerivedRule::LastWrite
    } else if found.relation.holds(writer, other) {
        DerivedRule::AfterSource
    } else if found.relation.holds(other, reader) {
        DerivedRule::BeforeReader
    } else {
        return Ok(());
    };
    let by = DerivedBy {
        reader,
        writer,
        other,
        rule,
    };
    match rule {
        DerivedRule::AfterSource => found.derive(alloc, reader, other, by),
        _ => found.derive(alloc, other, writer, by),
    }
}

impl<'t> DrawnPart<'t> {
    /// The boxes of these operations, and of those that show why a read among them has no other source.
    pub fn of(
        alloc: Global,
        part: PartTrace<'t>,
        choice: &mut DrawnChoice,
    ) -> Result<DrawnPart<'t>, AllocError> {
        let items = items_beside(alloc, part, choice)?;
        let mut is_open = Vec::new(alloc);
        let mut unseen = Vec::new(alloc);
        // By now the choice has exactly the operations of the items. One that it had and no item were would be neither drawn nor hidden, and its readers would seem
        // to have no source.
        for item in &items {
            let hidden = HiddenSources::of(alloc, part, choice, item)?;
            is_open.push(hidden.is_open)?;
            unseen.push(hidden.excluded.len())?;
        }
        Ok(DrawnPart {
            part,
            items,
            is_open,
            unseen,
        })
    }

    /// Returns whether an operation that is not drawn may give the box its value. Then nothing is said of its source.
    pub(crate) fn is_open(&self, number: usize) -> bool {
        match self.is_open.get(number) {
            Some(is_open) => *is_open,
            None => true,
        }
    }

    /// The write that comes between the writer and the reader, if one does.
    fn overwriter(
        &self,
        found: &FoundOrder,
        location: &[u8],
        writer: usize,
        reader: usize,
    ) -> Option<usize> {
        for other in 0..self.items.len() {
            if other != writer
                && other != reader
                && self.items[other].writes_at(location)
                && found.relation.holds(writer, other)
                && found.relation.holds(other, reader)
            {
                return Some(other);
            }
        }
        None
    }

    /// The other box that has its value from the writer, if that one needs a source of its own. That the reader does too is for the caller to
    /// look at.
    fn taker(&self, found: &FoundOrder, writer: usize, reader: usize) -> Option<usize> {
        for other in 0..self.items.len() {
            if other != reader
                && self.items[other].takes_its_source()
                && found.source_of(other) == Some(writer)
            {
                return Some(other);
            }
        }
        None
    }

    /// Returns why the reader cannot have its value from the writer, if the order says so. Of several reasons it is the first that
    /// is asked for here.
    pub(crate) fn why_excluded(
        &self,
        found: &FoundOrder,
        item: &PictureItem<'t>,
        writer: usize,
        reader: usize,
    ) -> Option<WhyExcluded> {
        if found.relation.holds(reader, writer) {
            return Some(WhyExcluded::Late);
        }
        if let Some(other) = self.overwriter(found, item.location, writer, reader) {
            return Some(WhyExcluded::Overwritten(other));
        }
        if item.takes_its_source() {
            if let Some(other) = self.taker(found, writer, reader) {
                return Some(WhyExcluded::Taken(other));
            }
        }
        None
    }

    /// The sources from which the reader of this number may have its value. Those that it cannot have it from join the list, with the number
    /// of arrows that are known now.
    fn possible_sources(
        &self,
        found: &FoundOrder,
        item: &PictureItem<'t>,
        reader: usize,
        exclusions: &mut Vec<Exclusion>,
    ) -> Result<PossibleSources, AllocError> {
        let mut sources = PossibleSources::Nowhere;
        for writer in 0..self.items.len() {
            if writer != reader && item.may_read_from(&self.items[writer]) {
                match self.why_excluded(found, item, writer, reader) {
                    Some(why) => exclusions.push(Exclusion {
                        reader,
                        writer,
                        why,
                        known: found.arrows.len(),
                        is_used: false,
                    })?,
                    None => {
                        sources = match sources {
                            PossibleSources::Nowhere => PossibleSources::Only(writer),
                            _ => PossibleSources::Several,
                        }
                    }
                }
            }
        }
        Ok(sources)
    }

    /// Notes what follows for the other writes of where the reader has its value from.
    fn derive_all(
        &self,
        alloc: Global,
        found: &mut FoundOrder,
        item: &PictureItem<'t>,
        reader: usize,
        writer: usize,
    ) -> Result<(), AllocError> {
        let known = KnownSource {
            reader,
            writer,
            is_last: item.is_final(),
        };
        for other in 0..self.items.len() {
            if other != reader && other != writer && self.items[other].writes_at(item.location) {
                derive_of(alloc, found, known, other)?;
            }
        }
        Ok(())
    }

    /// Returns whether the sources of the reader of this number are looked for: it reads, and its source is not known yet.
    fn is_looked_at(&self, found: &FoundOrder, item: &PictureItem<'t>, reader: usize) -> bool {
        item.read.is_some() && found.source_of(reader).is_none() && !self.is_open(reader)
    }

    /// For each box, where it may have its value from, all by the same order; nothing for those that are not looked at.
    fn all_possible_sources(
        &self,
        alloc: Global,
        found: &FoundOrder,
        exclusions: &mut Vec<Exclusion>,
    ) -> Result<Vec<Option<PossibleSources>>, AllocError> {
        let mut all = Vec::new(alloc);
        for reader in 0..self.items.len() {
            let item = &self.items[reader];
            if self.is_looked_at(found, item, reader) {
                all.push(Some(self.possible_sources(found, item, reader, exclusions)?))?;
            } else {
                all.push(None)?;
            }
        }
        Ok(all)
    }

    /// Notes the sources that are the only ones by the order so far, and the boxes that have none. Exclusions are kept of these alone: those of
    /// a reader that has several sources left are found again in the next round.
    fn note_sources(&self, alloc: Global, found: &mut FoundOrder) -> Result<(), AllocError> {
        let mut exclusions = Vec::new(alloc);
        let all = self.all_possible_sources(alloc, found, &mut exclusions)?;
        for reader in 0..all.len() {
            match all[reader] {
                Some(PossibleSources::Nowhere) => found.note_lack(reader),
                Some(PossibleSources::Only(writer)) => found.note_source(alloc, reader, writer)?,
                _ => {}
            }
        }
        // A box whose source was known before this round was not looked at, so none of its exclusions is kept twice.
        for exclusion in &exclusions {
            let reader = exclusion.reader;
            if found.source_of(reader).is_some() || found.is_lacking(reader) {
                found.exclusions.push(*exclusion)?;
            }
        }
        Ok(())
    }

    /// Notes what follows of the sources that are known.
    fn derive_orders(&self, alloc: Global, found: &mut FoundOrder) -> Result<(), AllocError> {
        for reader in 0..self.items.len() {
            if let Some(writer) = found.source_of(reader) {
                self.derive_all(alloc, found, &self.items[reader], reader, writer)?;
            }
        }
        Ok(())
    }

    /// Goes on until nothing more follows, or the order is contradicted. A round that leaves the number of arrows as it was has found nothing,
    /// and so would the next.
    fn go_on(&self, alloc: Global, found: &mut FoundOrder) -> Result<(), AllocError> {
        for _ in 0..ROUNDS {
            let known = found.arrows.len();
            self.note_sources(alloc, found)?;
            if found.first_lacking().is_some() {
                break;
            }
            self.derive_orders(alloc, found)?;
            if found.has_cycle() || found.arrows.len() == known {
                break;
            }
        }
        Ok(())
    }

    /// The order that follows of program order, before lines, times, and the values that are read.
    ///
    /// In each round all sources are noted before an order is derived of one of them: two reads that contradict
    /// each other then close a cycle, where else the second one would have no source.
    pub fn saturate(&self, alloc: Global) -> Result<FoundOrder, AllocError> {
        let mut found = FoundOrder::of_lines(alloc, self.items.as_slice(), self.part)?;
        for reader in 0..self.unseen.len() {
            found.note_unseen(reader, self.unseen[reader]);
        }
        if !found.has_cycle() {
            self.go_on(alloc, &mut found)?;
        }
        if !found.has_cycle() && found.first_lacking().is_none() {
            found.shortage = find_shortage(alloc, self, &found)?;
        }
        mark_used(alloc, &mut found)?;
        Ok(found)
    }

    /// The trace.
    pub fn trace(&self) -> &'t Trace {
        self.part.trace
    }
}
