//! Sentences that say why the arrows of a contradiction are there.

use crate::arrows::is_shown;
use crate::shown_names::ShownNames;
use drawn_order::{
    ArrowKind, DerivedBy, DerivedRule, Exclusion, FoundOrder, PictureItem, WhyExcluded, cycle_of,
};
use note_text::{GrowingText, decimal};
use std::alloc::{AllocError, Global};
use trace_semantics::operation::{Op, Origin};

/// The most sentences of a part below a picture: of the reasons, and of the contradiction, which comes last. A line says how many more there are.
const MOST_SENTENCES: usize = 20;

/// The most sources that a sentence excludes one by one.
const MOST_NAMED: usize = 4;

/// The sentences below a picture.
#[derive(Drop)]
pub(crate) struct ReasonLines {
    pub lines: Vec<Vec<u8>>,
    /// How many sentences the part that is being added still has room for.
    room: usize,
    /// How many of its sentences had no room.
    left_out: u64,
}

/// What sentences are about.
#[derive(Clone, Copy)]
struct Told<'p, 't> {
    items: &'p [PictureItem<'t>],
    found: &'p FoundOrder,
    names: ShownNames<'p>,
}

/// The mark that stands before a reason, after this number of others: the first one follows the words of the sentence.
fn mark_before(others: usize) -> &'static [u8] {
    if others == 0 { b": " } else { b"; " }
}

/// Returns whether something is said of where a read has its value from.
fn is_said(origin: &Origin) -> bool {
    match origin {
        Origin::Any => false,
        _ => true,
    }
}

impl Told<'_, '_> {
    /// Adds the name of the box, as `P.2`, `the initial value` or `the final value`.
    fn add_name(&self, text: &mut GrowingText, number: usize) {
        match self.items.get(number) {
            Some(item) if item.is_initial() => text.add(&[b"the initial value"]),
            Some(item) if item.is_final() => text.add(&[b"the final value"]),
            Some(item) => {
                let place = decimal(self.names.place_of_item(item));
                text.add(&[item.process, b".", place.as_slice()]);
            }
            None => {}
        }
    }

    /// Adds the names of two boxes, with words between them and behind them.
    fn add_names(
        &self,
        text: &mut GrowingText,
        first: usize,
        words: &[u8],
        second: usize,
        more: &[u8],
    ) {
        self.add_name(text, first);
        text.add(&[words]);
        self.add_name(text, second);
        text.add(&[more]);
    }

    /// Adds that the first of two boxes comes before the second, with words behind that.
    fn add_before(&self, text: &mut GrowingText, first: usize, second: usize, more: &[u8]) {
        self.add_names(text, first, b" comes before ", second, more);
    }

    /// Adds the location of the box.
    fn add_location(&self, text: &mut GrowingText, number: usize) {
        if let Some(item) = self.items.get(number) {
            text.add(&[item.location]);
        }
    }

    /// Adds the location and the value that the box reads, as `x = 1`. Each caller gives a box that reads.
    fn add_value(&self, text: &mut GrowingText, number: usize) {
        if let Some(item) = self.items.get(number) {
            let value = decimal(item.read.unwrap_or(0));
            text.add(&[item.location, b" = ", value.as_slice()]);
        }
    }

    /// Adds why a write is not the source of its reader.
    fn add_exclusion(&self, text: &mut GrowingText, exclusion: &Exclusion) {
        text.add(&[b"not from "]);
        match exclusion.why {
            WhyExcluded::Late => {
                self.add_name(text, exclusion.writer);
                text.add(&[b", which comes later"]);
            }
            WhyExcluded::Overwritten(other) => {
                self.add_names(
                    text,
                    exclusion.writer,
                    b", which ",
                    other,
                    b" overwrites before it",
                );
            }
            WhyExcluded::Taken(other) => {
                self.add_names(
                    text,
                    exclusion.writer,
                    b", which ",
                    other,
                    b" needs for itself",
                );
            }
        }
    }

    /// Adds why the reader has no other source. Returns whether there was anything to say. The sources that are not named one by one are
    /// those past `MOST_NAMED` and those that are not drawn, of which only the number is known.
    fn add_exclusions(&self, text: &mut GrowingText, reader: usize) -> bool {
        let mut named: usize = 0;
        let mut more: u64 = 0;
        for exclusion in &self.found.exclusions {
            if exclusion.reader == reader {
                if named < MOST_NAMED {
                    text.add(&[mark_before(named)]);
                    self.add_exclusion(text, exclusion);
                    named = named.saturating_add(1);
                } else {
                    more = more.saturating_add(1);
                }
            }
        }
        let unseen = self.found.unseen_sources(reader) as u64;
        let rest = more.saturating_add(unseen);
        if rest > 0 {
            let count = decimal(rest);
            text.add(&[
                mark_before(named),
                b"not from ",
                count.as_slice(),
                b" more writes of this value, which come later, are overwritten or are needed by others",
            ]);
        }
        named > 0 || rest > 0
    }

    /// The sentence on the source of a reader, if there is more to say than the arrow does.
    fn sentence_of_source(
        &self,
        alloc: Global,
        writer: usize,
        reader: usize,
    ) -> Option<GrowingText> {
        let mut text = GrowingText::new(alloc);
        self.add_name(&mut text, reader);
        text.add(&[b" has "]);
        self.add_value(&mut text, reader);
        text.add(&[b" from "]);
        self.add_name(&mut text, writer);
        if self.add_exclusions(&mut text, reader) {
            Some(text)
        } else {
            None
        }
    }

    /// Returns whether the line of the box names its source.
    fn names_source(&self, number: usize) -> bool {
        match self.items.get(number) {
            Some(item) => match item.op {
                Some(Op::Read { origin, .. }) => is_said(origin),
                Some(Op::Update { origin, .. }) => is_said(origin),
                _ => false,
            },
            None => false,
        }
    }

    /// The sentence on a box that nothing gives its value.
    fn sentence_of_lack(&self, alloc: Global, reader: usize) -> GrowingText {
        let mut text = GrowingText::new(alloc);
        text.add(&[b"Nothing gives "]);
        self.add_name(&mut text, reader);
        text.add(&[b" "]);
        self.add_value(&mut text, reader);
        let has_reasons = self.add_exclusions(&mut text, reader);
        match (has_reasons, self.names_source(reader)) {
            (true, true) => text.add(&[b"; its line names no other source"]),
            (true, false) => {}
            (false, true) => text.add(&[b": its line names a source that does not leave this"]),
            (false, false) => text.add(&[b": no operation and no init line does"]),
        }
        text
    }

    /// Adds that the reader has its value from the writer.
    fn add_reading(&self, text: &mut GrowingText, reader: usize, writer: usize) {
        self.add_name(text, reader);
        text.add(&[b" reads "]);
        self.add_location(text, reader);
        text.add(&[b" from "]);
        self.add_name(text, writer);
        text.add(&[b", and "]);
    }

    /// The sentence on an order that follows of a source.
    fn sentence_of_order(&self, alloc: Global, number: u64, by: DerivedBy) -> GrowingText {
        let mut text = GrowingText::new(alloc);
        text.add(&[decimal(number).as_slice(), b": "]);
        match by.rule {
            DerivedRule::AfterSource => {
                self.add_before(&mut text, by.reader, by.other, b", since ");
                self.add_reading(&mut text, by.reader, by.writer);
                self.add_names(&mut text, by.other, b" overwrites ", by.writer, b"");
            }
            DerivedRule::BeforeReader => {
                self.add_before(&mut text, by.other, by.writer, b", since ");
                self.add_reading(&mut text, by.reader, by.writer);
                self.add_names(&mut text, by.other, b" writes it before ", by.reader, b"");
            }
            DerivedRule::LastWrite => {
                self.add_before(
                    &mut text,
                    by.other,
                    by.writer,
                    b", which leaves the final value of ",
                );
                self.add_location(&mut text, by.reader);
            }
        }
        text
    }

    /// The sentence on the cycle that is marked. Its first box stands at its end once more.
    fn sentence_of_cycle(&self, alloc: Global) -> Result<GrowingText, AllocError> {
        let boxes = cycle_of(alloc, self.found.arrows.as_slice())?;
        let mut text = GrowingText::new(alloc);
        text.add(&[b"So each would have to come before the next: "]);
        for number in &boxes {
            self.add_name(&mut text, *number);
            text.add(&[b", "]);
        }
        match boxes.first() {
            Some(first) => self.add_name(&mut text, *first),
            None => {}
        }
        Ok(text)
    }

    /// The sentence on boxes that need more sources than there are.
    fn sentence_of_shortage(&self, alloc: Global) -> Option<GrowingText> {
        let Some(shortage) = &self.found.shortage else {
            return None;
        };
        let mut text = GrowingText::new(alloc);
        let needing = decimal(shortage.count_needing());
        text.add(&[needing.as_slice(), b" need "]);
        self.add_value(&mut text, shortage.first);
        let giving = decimal(shortage.count_giving());
        text.add(&[
            b" from a source of their own, and ",
            giving.as_slice(),
            b" can be one",
        ]);
        Some(text)
    }
}

impl ReasonLines {
    /// Adds a sentence, if its part has room for one.
    fn add(&mut self, sentence: GrowingText) -> Result<(), AllocError> {
        let line = sentence.into_whole()?;
        if self.room > 0 {
            self.room = self.room.wrapping_sub(1);
            self.lines.push(line)?;
        } else {
            self.left_out = self.left_out.saturating_add(1);
        }
        Ok(())
    }

    /// Ends a part: says how many of its sentences had no room, if any had none. The next part has room of its own.
    fn end_part(&mut self, alloc: Global) -> Result<(), AllocError> {
        if self.left_out > 0 {
            let mut text = GrowingText::new(alloc);
            let count = decimal(self.left_out);
            text.add(&[b"and ", count.as_slice(), b" more, which are left out"]);
            self.lines.push(text.into_whole()?)?;
        }
        self.room = MOST_SENTENCES;
        self.left_out = 0;
        Ok(())
    }

    /// Adds the sentences on sources, in the order in which they are found.
    fn add_sources(&mut self, alloc: Global, told: Told<'_, '_>) -> Result<(), AllocError> {
        for arrow in &told.found.arrows {
            match arrow.kind {
                ArrowKind::Source if arrow.is_used => {
                    if let Some(sentence) = told.sentence_of_source(alloc, arrow.from, arrow.to) {
                        self.add(sentence)?;
                    }
                }
                _ => {}
            }
        }
        Ok(())
    }

    /// Adds the numbered sentences. `ArrowPage::draw_arrows` puts the same numbers at the arrows, so both have to count the same arrows in the
    /// same order.
    fn add_orders(&mut self, alloc: Global, told: Told<'_, '_>) -> Result<(), AllocError> {
        let mut number: u64 = 0;
        for arrow in &told.found.arrows {
            match arrow.kind {
                ArrowKind::Derived(by) if is_shown(arrow) => {
                    number = number.saturating_add(1);
                    self.add(told.sentence_of_order(alloc, number, by))?;
                }
                _ => {}
            }
        }
        Ok(())
    }

    /// The sentences on what contradicts itself in the boxes.
    pub fn of(
        alloc: Global,
        items: &[PictureItem<'_>],
        found: &FoundOrder,
        names: ShownNames<'_>,
    ) -> Result<ReasonLines, AllocError> {
        let told = Told {
            items,
            found,
            names,
        };
        let mut reasons = ReasonLines {
            lines: Vec::new(alloc),
            room: MOST_SENTENCES,
            left_out: 0,
        };
        reasons.add_sources(alloc, told)?;
        reasons.add_orders(alloc, told)?;
        reasons.end_part(alloc)?;
        if found.has_cycle() {
            reasons.add(told.sentence_of_cycle(alloc)?)?;
        }
        for reader in 0..items.len() {
            if found.is_lacking(reader) {
                reasons.add(told.sentence_of_lack(alloc, reader))?;
            }
        }
        if let Some(sentence) = told.sentence_of_shortage(alloc) {
            reasons.add(sentence)?;
        }
        reasons.end_part(alloc)?;
        Ok(reasons)
    }

    /// The length of the longest sentence, in characters. `draw` makes the picture wide enough for it.
    pub fn longest(&self) -> u64 {
        let mut longest: u64 = 0;
        for line in &self.lines {
            longest = longest.max(line.len() as u64);
        }
        longest
    }
}
