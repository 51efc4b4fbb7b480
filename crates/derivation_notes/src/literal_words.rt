//! What a literal says, in words.

use crate::literal_order::order_of;
use crate::story::{Phrase, Story};
use dimacs::Lit;
use var_layout::candidate::Candidate;
use var_layout::layout::Layout;
use verdict_notes::Sentence;

/// What a variable stands for, of operations by their numbers.
#[derive(Clone, Copy)]
enum VariableMeaning {
    /// The reader reads from the candidate.
    Source { reader: usize, candidate: Candidate },
    /// This writer leaves a final value.
    Last(usize),
    /// No choice has the variable: it belongs to a read or a final value that nothing can give, of which two clauses contradict each other.
    Nothing,
}

/// The choice of the reader that has the variable.
fn choice_of(layout: &Layout, reader: usize, variable: u32) -> Option<Candidate> {
    if !layout.is_reader(reader) {
        return None;
    }
    for choice in layout.choices(reader) {
        if choice.variable == variable {
            return Some(choice.candidate);
        }
    }
    None
}

/// The writer whose variable says that it is the last one.
fn last_of(layout: &Layout, variable: u32) -> Option<usize> {
    for k in 0..layout.final_values() {
        for choice in layout.finals(k) {
            if choice.variable == variable {
                return Some(choice.writer);
            }
        }
    }
    None
}

/// Gives what the variable stands for. The caller has found that it is none of the order: those are not looked for here.
fn meaning_of(layout: &Layout, variable: u32) -> VariableMeaning {
    for reader in 0..layout.operations() {
        if let Some(candidate) = choice_of(layout, reader, variable) {
            return VariableMeaning::Source { reader, candidate };
        }
    }
    match last_of(layout, variable) {
        Some(writer) => VariableMeaning::Last(writer),
        None => VariableMeaning::Nothing,
    }
}

/// Adds that the reader reads from the candidate, or does not.
fn add_source(
    story: &Story<'_>,
    sentence: &mut Sentence,
    reader: usize,
    candidate: Candidate,
    is_positive: bool,
) {
    story.add_phrase(sentence, Phrase::Whole(reader));
    let words: &[u8] = if is_positive {
        b" reads"
    } else {
        b" does not read"
    };
    sentence.add(&[words]);
    match candidate {
        Candidate::InitialValue => sentence.add(&[b" the initial value"]),
        Candidate::Writer(source) => {
            sentence.add(&[b" from "]);
            story.add_phrase(sentence, Phrase::Name(source))
        }
    }
}

/// Adds that the writer is the last one of its location, or is not.
fn add_last(story: &Story<'_>, sentence: &mut Sentence, writer: usize, is_positive: bool) {
    story.add_phrase(sentence, Phrase::Whole(writer));
    let words: &[u8] = if is_positive { b" is" } else { b" is not" };
    sentence.add(&[words, b" the last write there"]);
}

/// Adds what the literal says. Variables of the order are known by their numbers, and all others are looked up in the tables of the layout.
pub fn add_literal(layout: &Layout, story: &Story<'_>, sentence: &mut Sentence, literal: Lit) {
    if let Some((first, second)) = order_of(layout.operations(), literal) {
        story.add_phrase(sentence, Phrase::Name(first));
        sentence.add(&[b" before "]);
        return story.add_phrase(sentence, Phrase::Name(second));
    }
    match meaning_of(layout, literal.variable()) {
        VariableMeaning::Source { reader, candidate } => {
            add_source(story, sentence, reader, candidate, literal.is_positive())
        }
        VariableMeaning::Last(writer) => add_last(story, sentence, writer, literal.is_positive()),
        VariableMeaning::Nothing => sentence.add(&[b"a value without a source"]),
    }
}
