//! The numbers of the clauses that say what a choice means.

use formula_numbers::ClauseId;

/// The clauses that say what a choice means. They stand one after the other, so that their numbers follow from the first one.
///
/// Let s be the variable of the choice, and x(i,j) say that i stands before j. By rising writers q of the location, the clauses are
/// - `-s x(w,r)`, and then `-s x(q,w) x(r,q)` for all q other than w and r, if the reader r has the value of the writer w;
/// - `-s x(r,q)` for all q other than r, if the reader r has the initial value;
/// - `-s x(q,w)` for all q other than w, if the final value is that of the writer w.
///
/// The encoding writes them in this order: with another one here each hint names a wrong clause. Writers are named by their places among those of the
/// location, counted from 0 by rising numbers.
#[derive(Clone, Copy)]
pub struct ChoiceClauses {
    /// The first of them.
    pub first: ClauseId,
    /// The place of the reader, if places count it: it may be one of the writers, and no clause is against it.
    pub reader: Option<u32>,
    /// The place of the writer of which the value is, or none for the initial value.
    pub source: Option<u32>,
    /// Whether the choice is of a final value, which is read behind all writers.
    pub is_final: bool,
}

impl ChoiceClauses {
    /// Returns the clause which says that the writer of this place does not come between the source and the reader. For the source it is the first
    /// one, which puts it before the reader. The writer must not be the reader, nor the source of a final value: of these there is no clause.
    #[inline(always)]
    pub fn against(self, writer: u32) -> ClauseId {
        let mut clause = self.first.ahead(writer);
        if let Some(reader) = self.reader
            && reader < writer
        {
            clause = clause.previous();
        }
        match self.source {
            None => clause,
            Some(source) if self.is_final => {
                if source < writer {
                    clause.previous()
                } else {
                    clause
                }
            }
            Some(source) if source == writer => self.first,
            // The clause of the source stands before those of all others.
            Some(source) if writer < source => clause.next(),
            // For those behind the source the place counts it already.
            Some(_) => clause,
        }
    }
}
