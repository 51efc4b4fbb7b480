//! Sentences on how two operations stand, which a clause does not allow, or not with what it rules out.

use crate::story::Phrase;
use crate::telling::{Conclusion, Teller};
use std::alloc::AllocError;

/// A clause on how two operations stand.
#[derive(Clone, Copy)]
pub enum Standing {
    /// The reader of the initial value stands before the writer.
    BeforeWriter { reader: usize, writer: usize },
    /// The reader stands after its source.
    AfterSource { reader: usize, source: usize },
    /// The writer stands before the last one.
    BeforeLast { last: usize, writer: usize },
}

impl Standing {
    /// The order that the clause does not allow: that the first operation stands before the second.
    fn denied(self) -> (usize, usize) {
        match self {
            Standing::BeforeWriter { reader, writer } => (writer, reader),
            Standing::AfterSource { reader, source } => (reader, source),
            Standing::BeforeLast { last, writer } => (last, writer),
        }
    }

    /// The first words of the sentence on that order: the one operation, how it stands, and the other one.
    fn stands(self) -> (usize, &'static [u8], Phrase<'static>) {
        match self {
            Standing::BeforeWriter { reader, writer } => {
                (writer, b" stands before ", Phrase::Name(reader))
            }
            Standing::AfterSource { reader, source } => {
                (reader, b" stands before ", Phrase::Whole(source))
            }
            Standing::BeforeLast { last, writer } => {
                (writer, b" stands after ", Phrase::Whole(last))
            }
        }
    }

    /// The end of that sentence, if what is said is a contradiction, or if it rules out a source of the reader or a last writer.
    fn end(self, is_contradiction: bool) -> &'static [u8] {
        match (self, is_contradiction) {
            (Standing::BeforeWriter { .. }, true) => {
                b", which reads the initial value: contradiction"
            }
            (Standing::BeforeWriter { .. }, false) => {
                b", which so does not read the initial value"
            }
            (Standing::AfterSource { .. }, true) => b", from which it reads: contradiction",
            (Standing::AfterSource { .. }, false) => b", so it does not read from there",
            (Standing::BeforeLast { .. }, true) => b", the last write there: contradiction",
            (Standing::BeforeLast { .. }, false) => b", which so is not the last write there",
        }
    }
}

impl<'t> Teller<'t> {
    /// Says the order that the clause concludes, unless that goes without saying: a reader whose source is known stands after it.
    fn say_concluded(&mut self, standing: Standing) {
        match standing {
            Standing::BeforeWriter { reader, writer } => self.story.say(&[
                Phrase::Name(reader),
                Phrase::Words(b" reads the initial value, so "),
                Phrase::Whole(writer),
                Phrase::Words(b" stands after it"),
            ]),
            Standing::AfterSource { .. } => {}
            Standing::BeforeLast { last, writer } => self.story.say(&[
                Phrase::Whole(writer),
                Phrase::Words(b" stands before "),
                Phrase::Name(last),
                Phrase::Words(b", the last write there"),
            ]),
        }
    }

    /// Says the clause: the order that it concludes, or else the order that it does not allow, and what follows of that.
    pub fn tell_standing(
        &mut self,
        standing: Standing,
        conclusion: Conclusion,
    ) -> Result<(), AllocError> {
        let is_contradiction = match conclusion {
            Conclusion::Order(_, _) => {
                self.say_concluded(standing);
                return Ok(());
            }
            Conclusion::Contradiction => true,
            Conclusion::Of(_) => false,
        };
        let (first, second) = standing.denied();
        self.say_order(first, second)?;
        let (operation, so, other) = standing.stands();
        self.story.say(&[
            Phrase::Whole(operation),
            Phrase::Words(so),
            other,
            Phrase::Words(standing.end(is_contradiction)),
        ]);
        Ok(())
    }
}
