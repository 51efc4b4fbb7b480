//! Formulas of traces with one location, in which all processes have the same number of writers.

use counting_proofs::{
    KnownOrder, MatchingInstance, OrderClauses, Reader, ReadsFromEdge, SourceId, Update,
};
use dimacs::{Clause, Formula, Lit};
use order_sets::{Element, ElementSets};
use proof_log::ClauseId;
use proof_log::codes::{LiteralCode, Variable};
use std::alloc::{AllocError, Global};

/// A writer of the location: a write, or an update, which reads too.
#[derive(Clone, Copy)]
pub struct LocationWriter {
    pub reads: Option<u32>,
    pub leaves: u32,
}

/// The writers, of which this number that follow each other are of one process, the value that the location holds at the start, and the one
/// that it holds in the end, if that is known.
#[derive(Clone, Copy)]
pub struct Location<'a> {
    pub writers: &'a [LocationWriter],
    pub in_process: u32,
    pub initial: u32,
    pub last: Option<u32>,
    pub seed: u64,
    /// Excluded choices, of 1000.
    pub excluded: u64,
}

/// A formula while it is made, and what is said of its readers.
#[derive(Drop)]
pub struct Spelling {
    alloc: Global,
    writers: u32,
    variables: u32,
    random: u64,
    excluded: u64,
    clauses: Vec<Clause>,
    /// The literals that have clauses of their own, and these clauses.
    units: Vec<(LiteralCode, ClauseId)>,
    other_writers: ElementSets,
    successors: ElementSets,
    pub reads: MatchingInstance,
}

/// The number of the literal that says that one writer stands before another.
fn before(writers: u32, first: u32, second: u32) -> i32 {
    let (low, high) = if first < second {
        (first, second)
    } else {
        (second, first)
    };
    let skipped = low.wrapping_mul(writers.wrapping_mul(2).wrapping_sub(low).wrapping_sub(1)) / 2;
    let number = i32::try_from(skipped.wrapping_add(high.wrapping_sub(low))).unwrap_or(0);
    if first < second {
        number
    } else {
        number.wrapping_neg()
    }
}

impl Spelling {
    /// The formula of the location, and what is said of its readers.
    pub fn of(alloc: Global, location: Location<'_>) -> Result<Spelling, AllocError> {
        let writers = u32::try_from(location.writers.len()).unwrap_or(0);
        let mut spelling = Spelling {
            alloc,
            writers,
            variables: writers.wrapping_mul(writers.wrapping_sub(1)) / 2,
            random: location.seed.wrapping_mul(0x9E37_79B9_7F4A_7C15) | 1,
            excluded: location.excluded,
            clauses: Vec::new(alloc),
            units: Vec::new(alloc),
            other_writers: ElementSets::new(alloc, writers)?,
            successors: ElementSets::new(alloc, writers)?,
            reads: MatchingInstance::new(alloc),
        };
        spelling.add_order()?;
        spelling.add_program_order(location.in_process)?;
        for place in 0..writers {
            let value = value_read(location, place);
            if let Some(value) = value {
                spelling.add_reader(location, Some(place), value)?;
            }
        }
        if let Some(value) = location.last {
            spelling.add_reader(location, None, value)?;
        }
        Ok(spelling)
    }

    /// Adds the clauses which say that the order of the writers is transitive.
    fn add_order(&mut self) -> Result<(), AllocError> {
        let count = self.writers;
        for i in 0..count {
            for j in i.saturating_add(1)..count {
                for k in j.saturating_add(1)..count {
                    let steps = (before(count, i, j), before(count, j, k));
                    let all = before(count, i, k);
                    self.add(&[steps.0.wrapping_neg(), steps.1.wrapping_neg(), all])?;
                    self.add(&[steps.0, steps.1, all.wrapping_neg()])?;
                }
            }
        }
        Ok(())
    }

    /// Adds a clause for each two writers of one process, of which this number follow each other.
    fn add_program_order(&mut self, in_process: u32) -> Result<(), AllocError> {
        for i in 0..self.writers {
            for j in 0..self.writers {
                if i != j {
                    self.other_writers.insert(Element::new(i), Element::new(j));
                }
                if i < j && i.checked_div(in_process) == j.checked_div(in_process) {
                    self.successors.insert(Element::new(i), Element::new(j));
                    self.add_unit(before(self.writers, i, j))?;
                }
            }
        }
        Ok(())
    }

    /// Adds the clause of this one number.
    fn add_unit(&mut self, number: i32) -> Result<(), AllocError> {
        let clause = self.add(&[number])?;
        let variable = Variable::new(number.unsigned_abs());
        let literal = LiteralCode::of(variable, number >= 0);
        self.units.push((literal, ClauseId::new(clause)))?;
        Ok(())
    }

    /// The clause that has this literal alone.
    fn unit(&self, literal: LiteralCode) -> ClauseId {
        let mut found = ClauseId::NONE;
        for (other, clause) in &self.units {
            if *other == literal {
                found = *clause;
            }
        }
        found
    }

    /// The clauses that have one of these literals alone.
    pub fn units(&self, literals: &[LiteralCode]) -> Result<Vec<ClauseId>, AllocError> {
        let mut clauses = Vec::new(self.alloc);
        for literal in literals {
            clauses.push(self.unit(*literal))?;
        }
        Ok(clauses)
    }

    /// Gives what is known of the order.
    pub fn known(&self) -> KnownOrder<'_> {
        KnownOrder {
            order: OrderClauses {
                operations: self.writers,
                first: ClauseId::new(1),
            },
            writers: &self.other_writers,
            successors: &self.successors,
        }
    }

    /// Adds the clause of these numbers. Its own number.
    fn add(&mut self, numbers: &[i32]) -> Result<u32, AllocError> {
        let mut literals = Vec::new(self.alloc);
        for number in numbers {
            literals.push(Lit::new(*number).unwrap_or_default())?;
        }
        self.clauses
            .push(Clause::from_slice(self.alloc, literals.as_slice())?)?;
        Ok(self.count())
    }

    /// The number of clauses.
    pub fn count(&self) -> u32 {
        u32::try_from(self.clauses.len()).unwrap_or(0)
    }

    /// The number of variables.
    pub fn variables(&self) -> u32 {
        self.variables
    }

    /// The formula of the clauses.
    pub fn formula(&self) -> Result<Formula, AllocError> {
        let mut clauses = Vec::new(self.alloc);
        for clause in &self.clauses {
            clauses.push(Clause::from_slice(self.alloc, clause.as_slice())?)?;
        }
        if Formula::fits(self.variables, clauses.as_slice()) {
            Ok(Formula::new(self.variables, clauses))
        } else {
            Ok(Formula::new(0, Vec::new(self.alloc)))
        }
    }

    /// Adds the clauses of a reader of this value, which is the writer at this place, or the final value.
    fn add_reader(
        &mut self,
        location: Location<'_>,
        place: Option<u32>,
        value: u32,
    ) -> Result<(), AllocError> {
        let mut sources: Vec<Option<u32>> = Vec::new(self.alloc);
        if location.initial == value && place.is_some() {
            sources.push(None)?;
        }
        for source in 0..self.writers {
            if place != Some(source) && value_left(location, source) == Some(value) {
                sources.push(Some(source))?;
            }
        }
        let mut numbers = Vec::new(self.alloc);
        let first = self.variables.wrapping_add(1);
        for _source in &sources {
            self.variables = self.variables.wrapping_add(1);
            numbers.push(i32::try_from(self.variables).unwrap_or(0))?;
        }
        let clause = self.add(numbers.as_slice())?;
        let update = place.map(|place| Update {
            operation: Element::new(place),
            place,
        });
        let clause = ClauseId::new(clause);
        self.reads.add_reader(Reader { update, clause })?;
        let mut variable = first;
        for source in &sources {
            self.add_choice(place, *source, variable)?;
            variable = variable.wrapping_add(1);
        }
        Ok(())
    }

    /// Adds the clauses of a choice.
    fn add_choice(
        &mut self,
        place: Option<u32>,
        source: Option<u32>,
        variable: u32,
    ) -> Result<(), AllocError> {
        let first = self.count().wrapping_add(1);
        let made = i32::try_from(variable).unwrap_or(0);
        if let (Some(reader), Some(source)) = (place, source) {
            self.add(&[-made, before(self.writers, source, reader)])?;
        }
        for writer in 0..self.writers {
            if place == Some(writer) || source == Some(writer) {
                continue;
            }
            self.add_between(place, source, made, writer)?;
        }
        let is_excluded = self.exclude(made)?;
        self.reads.add_choice(ReadsFromEdge {
            source: SourceId::new(source.unwrap_or(self.writers)),
            place: source,
            variable: Variable::new(variable),
            first: ClauseId::new(first),
            is_excluded,
        })
    }

    /// Appends the number of the literal that says that one writer stands before another, if there are both.
    fn push_before(
        &self,
        numbers: &mut Vec<i32>,
        first: Option<u32>,
        second: Option<u32>,
    ) -> Result<(), AllocError> {
        if let (Some(first), Some(second)) = (first, second) {
            numbers.push(before(self.writers, first, second))?;
        }
        Ok(())
    }

    /// Adds the clause which says that the writer does not come between the source and the reader, where the choice is made.
    fn add_between(
        &mut self,
        place: Option<u32>,
        source: Option<u32>,
        made: i32,
        writer: u32,
    ) -> Result<(), AllocError> {
        let mut numbers = Vec::new(self.alloc);
        numbers.push(made.wrapping_neg())?;
        self.push_before(&mut numbers, Some(writer), source)?;
        self.push_before(&mut numbers, place, Some(writer))?;
        let _number = self.add(numbers.as_slice())?;
        Ok(())
    }

    /// Adds a clause which says that the choice is not made, if chance wants it. Returns whether it did.
    fn exclude(&mut self, made: i32) -> Result<bool, AllocError> {
        self.random ^= self.random << 13;
        self.random ^= self.random >> 7;
        self.random ^= self.random << 17;
        let is_excluded = (self.random >> 32) % 1000 < self.excluded;
        if is_excluded {
            self.add_unit(made.wrapping_neg())?;
        }
        Ok(is_excluded)
    }
}

/// Gives what the writer at this place reads, if it is an update.
fn value_read(location: Location<'_>, place: u32) -> Option<u32> {
    let place = place as usize;
    if place < location.writers.len() {
        location.writers[place].reads
    } else {
        None
    }
}

/// Gives what the writer at this place leaves.
fn value_left(location: Location<'_>, place: u32) -> Option<u32> {
    let place = place as usize;
    if place < location.writers.len() {
        Some(location.writers[place].leaves)
    } else {
        None
    }
}
