//! Sentences on what is read from where.

use crate::standing_sentences::Standing;
use crate::story::{Phrase, Story};
use crate::telling::{Conclusion, Teller};
use clause_meaning::meaning::ClauseMeaning;
use std::alloc::AllocError;
use trace_semantics::operation::Origin;
use var_layout::candidate::{Candidate, ReadsFromChoice};
use var_layout::layout::Layout;
use verdict_notes::origin_of;

/// An operation that reads, its source, and a writer that may stand between them, by their numbers.
#[derive(Clone, Copy)]
struct BetweenWriter {
    reader: usize,
    source: usize,
    writer: usize,
}

/// The choices of the reader, or none if the operation of this number reads nothing.
fn choices_of(layout: &Layout, reader: usize) -> &[ReadsFromChoice] {
    if !layout.is_reader(reader) {
        return &[];
    }
    layout.choices(reader)
}

/// The candidate of the reader that has the variable.
fn chosen(layout: &Layout, reader: usize, variable: u32) -> Option<Candidate> {
    for choice in choices_of(layout, reader) {
        if choice.variable == variable {
            return Some(choice.candidate);
        }
    }
    None
}

/// Returns whether the line of the operation of this number says from where it reads. Then the
/// line, and not the values, is given as the reason.
fn has_origin(story: &Story<'_>, number: usize) -> bool {
    match story.ops().get(number) {
        Some(op) => match origin_of(op.op) {
            Some(Origin::Any) => false,
            Some(_) => true,
            None => false,
        },
        None => false,
    }
}

impl<'t> Teller<'t> {
    /// Says a clause of what is read, or of final values. The conclusion is what the clause implies in the step at hand, where all its other literals are
    /// known to be false. Clauses of order are said by `tell_orders`, so nothing is said of them here.
    pub fn tell_sources(
        &mut self,
        meaning: ClauseMeaning,
        conclusion: Conclusion,
    ) -> Result<(), AllocError> {
        match meaning {
            ClauseMeaning::HasSource(reader) => self.tell_source(reader, conclusion),
            ClauseMeaning::NoSource { reader, .. } => self.tell_source(reader, conclusion),
            ClauseMeaning::BeforeWriter { reader, writer, .. } => {
                self.tell_standing(Standing::BeforeWriter { reader, writer }, conclusion)?
            }
            ClauseMeaning::AfterSource { reader, source, .. } => {
                self.tell_standing(Standing::AfterSource { reader, source }, conclusion)?
            }
            ClauseMeaning::NotBetween {
                reader,
                source,
                writer,
                ..
            } => {
                let between = BetweenWriter {
                    reader,
                    source,
                    writer,
                };
                self.tell_not_between(between, conclusion)?
            }
            ClauseMeaning::HasLast(final_value) => self.tell_last(final_value, conclusion),
            ClauseMeaning::NoLast { final_value, .. } => self.tell_last(final_value, conclusion),
            ClauseMeaning::BeforeLast { last, writer, .. } => {
                self.tell_standing(Standing::BeforeLast { last, writer }, conclusion)?
            }
            ClauseMeaning::ProgramOrder(_)
            | ClauseMeaning::NoCycle { .. }
            | ClauseMeaning::BeforePair(_, _) => {}
        }
        Ok(())
    }

    /// Says why the reader reads from this candidate. `is_only` says that it has no other candidate at all; otherwise the others were ruled out
    /// before.
    fn say_source(&mut self, reader: usize, candidate: Candidate, is_only: bool) {
        let by_line = has_origin(&self.story, reader);
        match candidate {
            Candidate::InitialValue => {
                let words: &[u8] = match (by_line, is_only) {
                    (true, _) => b", by its line",
                    (false, true) => b": nothing else writes that value",
                    (false, false) => b": no writer of that value is left",
                };
                self.story.say(&[
                    Phrase::Whole(reader),
                    Phrase::Words(b" reads the initial value"),
                    Phrase::Words(words),
                ])
            }
            Candidate::Writer(source) => {
                let words: &[u8] = match (by_line, is_only) {
                    (true, _) => b", by its line",
                    (false, true) => b", the only writer of ",
                    (false, false) => b", the only one left that writes ",
                };
                let end = if by_line {
                    Phrase::Words(b"")
                } else {
                    Phrase::ValueRead(reader)
                };
                self.story.say(&[
                    Phrase::Whole(reader),
                    Phrase::Words(b" reads from "),
                    Phrase::Name(source),
                    Phrase::Words(words),
                    end,
                ])
            }
        }
    }

    /// Says the clause that the operation reads from somewhere. If nothing can be its source, two clauses contradict each other on a variable that
    /// no candidate has: the first says nothing, and the second is the contradiction.
    fn tell_source(&mut self, reader: usize, conclusion: Conclusion) {
        let layout = self.clauses.layout();
        let is_only = choices_of(layout, reader).len() == 1;
        match conclusion {
            Conclusion::Of(variable) => match chosen(layout, reader, variable) {
                Some(candidate) => self.say_source(reader, candidate, is_only),
                None => {}
            },
            Conclusion::Contradiction => self.story.say(&[
                Phrase::Whole(reader),
                Phrase::Words(b" has nothing left to read from: contradiction"),
            ]),
            Conclusion::Order(_, _) => {}
        }
    }

    /// Says the clause that the writer does not stand between the source and the reader. An order that it concludes is one of two: that the writer
    /// stands before the source, or after the reader.
    fn tell_not_between(
        &mut self,
        at: BetweenWriter,
        conclusion: Conclusion,
    ) -> Result<(), AllocError> {
        match conclusion {
            Conclusion::Order(_, second) => self.say_pushed(at, second == at.source),
            Conclusion::Contradiction => {
                self.say_between(at, Phrase::Name(at.reader), b": contradiction")
            }
            Conclusion::Of(_) => self.say_between(
                at,
                Phrase::Whole(at.reader),
                b", which so does not read from there",
            ),
        }
    }

    /// Says that the writer stands between the source and the reader, once it is said how it stands to each of them.
    fn say_between(
        &mut self,
        at: BetweenWriter,
        reader: Phrase<'static>,
        end: &'static [u8],
    ) -> Result<(), AllocError> {
        self.say_order(at.source, at.writer)?;
        self.say_order(at.writer, at.reader)?;
        self.story.say(&[
            Phrase::Whole(at.writer),
            Phrase::Words(b" stands between "),
            Phrase::Name(at.source),
            Phrase::Words(b" and "),
            reader,
            Phrase::Words(end),
        ]);
        Ok(())
    }

    /// Says to which side of the source and the reader the writer is pushed. What is known is said first: a writer that stands before the reader is
    /// pushed before the source, and one that stands after the source is pushed after the reader.
    fn say_pushed(&mut self, at: BetweenWriter, is_before_source: bool) -> Result<(), AllocError> {
        if is_before_source {
            self.say_order(at.writer, at.reader)?;
        } else {
            self.say_order(at.source, at.writer)?;
        }
        let known: &[u8] = if is_before_source {
            b", which stands before "
        } else {
            b", which stands after "
        };
        let told: &[u8] = if is_before_source {
            b", stands before "
        } else {
            b", stands after "
        };
        let (near, far) = if is_before_source {
            (at.reader, at.source)
        } else {
            (at.source, at.reader)
        };
        self.story.say(&[
            Phrase::Name(at.reader),
            Phrase::Words(b" reads from "),
            Phrase::Name(at.source),
            Phrase::Words(b", so "),
            Phrase::Whole(at.writer),
            Phrase::Words(known),
            Phrase::Name(near),
            Phrase::Words(told),
            Phrase::Name(far),
        ]);
        Ok(())
    }
}
