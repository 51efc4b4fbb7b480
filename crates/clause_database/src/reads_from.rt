//! Hints about the reads-from variables of an encoding.

use order_sets::{ChoiceClauses, Element, ElementSets, MAX_ELEMENTS};
use proof_log::ClauseId;
use proof_log::codes::Variable;
use std::alloc::{AllocError, Global};
use total_tables::{at, put};

/// Maximum number of reads-from variables that are tabled. Others are left to their clauses, so that no number that a caller names makes a
/// table long.
const MAX_VARIABLES: u32 = 1 << 16;

/// A reads-from variable: if it is true, the reader reads from this writer.
#[derive(Clone, Copy)]
pub struct ReadsFromVariable {
    pub variable: Variable,
    /// The element that reads.
    pub reader: Element,
    /// The writer, or none for the initial value.
    pub writer: Option<Element>,
    /// The first of its clauses.
    pub first: ClauseId,
}

/// A writer that may be the last one of its location, if the final value is known.
#[derive(Clone, Copy)]
pub struct LastWriter {
    /// The variable which says that it is the last one.
    pub variable: Variable,
    pub writer: Element,
    /// The clause that says that one of the location's last writers is the last one.
    pub clause: ClauseId,
    /// The first of its own clauses.
    pub first: ClauseId,
}

/// Hints of a caller of `solve` about the reads of an order: which elements write where others read, and which clauses say what a choice
/// means. `ChoiceClauses` has their order. With y of `EncodingHints`, x(i,j) is there `y(i,j)` for i below j, and `-y(j,i)` otherwise.
///
/// The clauses of a choice are those against all writers of its reader that are known here. The clause which says that one of a reader's choices is
/// made stands before those of its first choice.
///
/// The clauses of a last writer are those of a final value. They are read as any clauses are; the count of sources cites them by their numbers.
///
/// Untrusted too: an error here can only slow the search down (see `EncodingHints`).
pub struct ReadsFromTable {
    /// The number of elements, which are counted from 0, at most 192 of them.
    elements: u32,
    /// The last variable of the order.
    base: u32,
    /// For each element those others that write its location.
    writers: ElementSets,
    /// The choices by their variables: at place 0 that of the variable behind `base`.
    choices: Vec<Option<ReadsFromVariable>>,
    /// 1 for each element that has a choice.
    reading: Vec<u8>,
    /// 1 for each element that writes a location of others.
    writing: Vec<u8>,
    /// For each reader and each writer the variable of the choice, or none; after the writers the one of the choice without a
    /// writer. So a reader has one entry more than there are elements.
    variables: Vec<Variable>,
    /// For each reader the variable of the choice without a writer, or none: once more, since propagation asks for it at each literal that orders a writer
    /// before a reader.
    without_writer: Vec<Variable>,
    /// The last writers, those of one location one after the other.
    last_writers: Vec<LastWriter>,
}

/// Drops the tables in one call. A derived `Drop` would drop each at every exit of a function that owns a table, which makes its proof longer.
impl Drop for ReadsFromTable {
    fn drop(self) {
        let ReadsFromTable {
            elements: _,
            base: _,
            writers: _writers,
            choices: _choices,
            reading: _reading,
            writing: _writing,
            variables: _variables,
            without_writer: _without_writer,
            last_writers: _last_writers,
        } = self;
    }
}

impl ReadsFromTable {
    /// Starts without reads-from variables, over this number of elements, or 192 if there are more.
    pub fn new(alloc: Global, elements: u32) -> Result<ReadsFromTable, AllocError> {
        let elements = elements.min(MAX_ELEMENTS);
        let pairs = elements.wrapping_mul(elements.wrapping_add(1));
        Ok(ReadsFromTable {
            elements,
            base: elements.wrapping_mul(elements.wrapping_sub(1)) / 2,
            writers: ElementSets::new(alloc, elements)?,
            choices: Vec::new(alloc),
            reading: vec![in alloc; 0; elements as usize]?,
            writing: vec![in alloc; 0; elements as usize]?,
            variables: vec![in alloc; Variable::NONE; pairs as usize]?,
            without_writer: vec![in alloc; Variable::NONE; elements as usize]?,
            last_writers: Vec::new(alloc),
        })
    }

    /// Notes that the writer writes the location that the element reads or writes. Does nothing if both are the same, or if the writer is
    /// no element of the order.
    pub fn add_writer(&mut self, element: Element, writer: Element) {
        if element != writer && writer.number() < self.elements {
            self.writers.insert(element, writer);
            put(self.writing.as_mut_slice(), writer.number(), 1);
        }
    }

    /// Adds a choice. They are added by rising variables; others, and those that are not of two elements of the order, are left to their
    /// clauses.
    pub fn add_choice(&mut self, choice: ReadsFromVariable) -> Result<(), AllocError> {
        let place = self.place_of_variable(choice.variable);
        let reader = choice.reader.number();
        let column = match choice.writer {
            Some(writer) => writer.number(),
            None => self.elements,
        };
        if place >= MAX_VARIABLES
            || (place as usize) < self.choices.len()
            || reader >= self.elements
            || column > self.elements
            || column == reader
        {
            return Ok(());
        }
        for _ in self.choices.len()..place as usize {
            self.choices.push(None)?;
        }
        self.choices.push(Some(choice))?;
        let place = self.place_of(choice.reader, column);
        put(self.variables.as_mut_slice(), place, choice.variable);
        if column == self.elements {
            put(self.without_writer.as_mut_slice(), reader, choice.variable);
        }
        put(self.reading.as_mut_slice(), reader, 1);
        Ok(())
    }

    /// Adds a last writer. Those of one location are added one after the other.
    pub fn add_last_writer(&mut self, last: LastWriter) -> Result<(), AllocError> {
        self.last_writers.push(last)?;
        Ok(())
    }

    /// Returns the place of the variable among those of choices. For a variable of the order it wraps to a place that is too large.
    #[inline(always)]
    fn place_of_variable(&self, variable: Variable) -> u32 {
        variable.number().wrapping_sub(self.base).wrapping_sub(1)
    }

    /// Returns the place of the choice of this reader in `variables`. The column is its writer, or the number of elements without one.
    #[inline(always)]
    fn place_of(&self, reader: Element, column: u32) -> u32 {
        reader
            .number()
            .wrapping_mul(self.elements.wrapping_add(1))
            .wrapping_add(column)
    }

    /// Returns the number of elements.
    pub fn elements(&self) -> u32 {
        self.elements
    }

    /// Returns all choices. A gap is a variable that is none: the place of a choice follows from its variable, without a search.
    pub fn choices(&self) -> &[Option<ReadsFromVariable>] {
        self.choices.as_slice()
    }

    /// Returns the last writers, those of one location one after the other.
    pub fn last_writers(&self) -> &[LastWriter] {
        self.last_writers.as_slice()
    }

    /// Returns whether the last writer at this place is the first one of its location. Those of one location have the same clause.
    pub fn begins_location(&self, place: u32) -> bool {
        self.clause_of_last(place) != self.clause_of_last(place.wrapping_sub(1))
    }

    /// Returns the clause of the last writer at this place, or none past the end.
    fn clause_of_last(&self, place: u32) -> ClauseId {
        let nobody = LastWriter {
            variable: Variable::NONE,
            writer: Element::NONE,
            clause: ClauseId::NONE,
            first: ClauseId::NONE,
        };
        at(self.last_writers.as_slice(), place, nobody).clause
    }

    /// Returns the place of the writer among those of its location, counted from 0. Its own set has the others, so those below it are counted.
    pub fn place_of_writer(&self, writer: Element) -> u32 {
        self.writers.count_below(writer, writer)
    }

    /// Returns for each element those others that write its location.
    #[inline(always)]
    pub fn writers(&self) -> &ElementSets {
        &self.writers
    }

    /// Returns the choice of this variable, if it is one.
    #[inline(always)]
    pub fn choice(&self, variable: Variable) -> Option<ReadsFromVariable> {
        let place = self.place_of_variable(variable);
        at(self.choices.as_slice(), place, None)
    }

    /// Returns the variable of the choice of this reader and this writer, or none.
    #[inline(always)]
    pub fn variable(&self, reader: Element, writer: Element) -> Variable {
        at(
            self.variables.as_slice(),
            self.place_of(reader, writer.number()),
            Variable::NONE,
        )
    }

    /// Returns the variable of the choice of this reader without a writer, or none.
    #[inline(always)]
    pub fn variable_without_writer(&self, reader: Element) -> Variable {
        at(
            self.without_writer.as_slice(),
            reader.number(),
            Variable::NONE,
        )
    }

    /// Returns whether the element writes a location of others.
    #[inline(always)]
    pub fn writes(&self, element: Element) -> bool {
        at(self.writing.as_slice(), element.number(), 0) != 0
    }

    /// Returns the event that represents the location of this one: the first of its writers. So locations need no numbers of their own, which
    /// a caller would have to give.
    pub fn location(&self, element: Element) -> Element {
        match self.writers.first(element) {
            Some(first) if first < element || !self.writes(element) => first,
            // An event represents its location itself if no other one writes it, or only later ones do.
            _ => element,
        }
    }

    /// Returns whether the element reads.
    pub fn reads(&self, element: Element) -> bool {
        at(self.reading.as_slice(), element.number(), 0) != 0
    }

    /// Returns whether the element both reads and writes.
    pub fn is_update(&self, element: Element) -> bool {
        self.reads(element) && self.writes(element)
    }

    /// Returns the id after the last clause of the variable: it has one for each writer.
    pub fn end_id(&self, choice: ReadsFromVariable) -> ClauseId {
        choice.first.ahead(self.writers.count(choice.reader))
    }

    /// Returns the number of the choice's clause for this writer. Places are those in the reader's own set, which does not have the reader.
    pub fn clause_of(&self, choice: ReadsFromVariable, writer: Element) -> ClauseId {
        let clauses = ChoiceClauses {
            first: choice.first,
            reader: None,
            source: match choice.writer {
                Some(chosen) => Some(self.writers.count_below(choice.reader, chosen)),
                None => None,
            },
            is_final: false,
        };
        clauses.against(self.writers.count_below(choice.reader, writer))
    }
}
