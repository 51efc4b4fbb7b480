//! The proof log: learned clauses with their hints.
//!
//! A table of marks begins with the clause of the number `from`: that of the log's first addition, or, if several logs make one derivation and share the
//! table (`log_chain.rt`), the number from which their chain counts.

ghost use Rattle.std.specs.Prelude.{◌≡◌, ◌≤◌, ◌+◌, length, IfOk, OnOk};

use crate::codes::{LiteralCode, literal_of};
use crate::logged_additions::LoggedAdditions;
use dimacs::Clause;
use formula_numbers::ClauseId;
use lrat_check::derivation::{Derivation, Step};
use lrat_check::hints::Hints;
use std::alloc::{AllocError, Global};
use std::marker::Model;
use total_tables::{at, piece, put, size};

/// The ends of an addition in the lists of literals and of hints: the places after its last ones, where the next addition begins.
#[derive(Clone, Copy)]
struct End {
    literals: u32,
    hints: u32,
}

/// Marks those of these clauses that have this number or a larger one, by their numbers from that one on. The others have no mark: they are of the
/// formula or of an earlier log.
pub(crate) fn mark(clauses: &[ClauseId], from: ClauseId, marks: &mut [u8]) {
    for clause in clauses {
        if *clause >= from {
            put(marks, clause.since(from), 1);
        }
    }
}

/// The additions of a derivation, apart from the search, so that nothing but `add` makes them more. Contracts see their number. They lie in
/// three lists and become steps at the end, so that a conflict rarely asks for memory.
pub struct ProofLog {
    /// The number of the first addition.
    first: ClauseId,
    literals: Vec<LiteralCode>,
    hints: Vec<ClauseId>,
    ends: Vec<End>,
}

/// Drops the tables in one call. A derived `Drop` would drop each at every exit of a function that owns a log, which makes its proof longer.
impl Drop for ProofLog {
    fn drop(self) {
        let ProofLog {
            first: _,
            literals: _literals,
            hints: _hints,
            ends: _ends,
        } = self;
    }
}

impl Model for ProofLog {
    ghost use Rattle.std.specs.Prelude.{ℕ, vec_len};

    ghost Value = { ℕ };

    ghost view = { λ log. vec_len log.ends };
}

impl ProofLog {
    /// Starts empty. The first addition will have this number.
    pub fn new(alloc: Global, first: ClauseId) -> ProofLog
        ensures { result ≡ 0 }
    {
        ProofLog {
            first,
            literals: Vec::new(alloc),
            hints: Vec::new(alloc),
            ends: Vec::new(alloc),
        }
    }

    /// Returns how many additions there are.
    pub fn additions(&self) -> u64
        ensures { result ≡ self.now }
    {
        self.ends.len() as u64
    }

    /// Returns the number that the first addition has or will have.
    pub fn first_id(&self) -> ClauseId {
        self.first
    }

    /// Returns the number of the next addition.
    pub fn next_id(&self) -> ClauseId {
        self.first.ahead(size(self.ends.as_slice()))
    }

    /// Adds the clause of these literals with these hints.
    pub fn add(&mut self, literals: &[LiteralCode], hints: &[ClauseId]) -> Result<(), AllocError>
        ensures { OnOk result (self.new ≤ self.old + 1) }
    {
        self.literals.extend_from_slice(literals)?;
        self.hints.extend_from_slice(hints)?;
        let end = End {
            literals: size(self.literals.as_slice()),
            hints: size(self.hints.as_slice()),
        };
        self.ends.push(end)?;
        Ok(())
    }

    /// Returns the place where the addition of this number, counted from 0, ends. The one before the first ends at 0.
    fn end_before(&self, addition: u32) -> End {
        let nothing = End {
            literals: 0,
            hints: 0,
        };
        if addition == 0 {
            nothing
        } else {
            at(self.ends.as_slice(), addition.wrapping_sub(1), nothing)
        }
    }

    /// Returns the hints of the addition of this number, counted from 0.
    fn hints_of(&self, addition: u32) -> &[ClauseId] {
        let from = self.end_before(addition).hints;
        let to = self.end_before(addition.wrapping_add(1)).hints;
        piece(self.hints.as_slice(), from, to)
    }

    /// Returns the literals of the addition of this number, counted from 0.
    fn literals_of(&self, addition: u32) -> &[LiteralCode] {
        let from = self.end_before(addition).literals;
        let to = self.end_before(addition.wrapping_add(1)).literals;
        piece(self.literals.as_slice(), from, to)
    }

    /// Marks what each marked addition rests on, from the last one back: the backward pass that trims a proof to its core. Hints have smaller numbers
    /// than their addition, so one pass is enough. The marks are of clauses from this number on, which is that of the first addition or a smaller one.
    pub(crate) fn mark_needed(&self, from: ClauseId, marks: &mut [u8]) {
        let base = self.first.since(from);
        for addition in (0..size(self.ends.as_slice())).rev() {
            if at(marks, base.wrapping_add(addition), 0) != 0 {
                mark(self.hints_of(addition), from, marks);
            }
        }
    }

    /// Returns 1 for each addition on which these clauses rest.
    fn needed(&self, alloc: Global, clauses: &[ClauseId]) -> Result<Vec<u8>, AllocError> {
        let mut needed = vec![in alloc; 0; self.ends.len()]?;
        mark(clauses, self.first, needed.as_mut_slice());
        self.mark_needed(self.first, needed.as_mut_slice());
        Ok(needed)
    }

    /// Returns the addition of this number as a step.
    fn step(&self, alloc: Global, addition: u32) -> Result<Step, AllocError> {
        let codes = self.literals_of(addition);
        let mut literals = Vec::with_capacity(alloc, codes.len())?;
        for code in codes {
            literals.push(literal_of(*code))?;
        }
        let hints = self.hints_of(addition);
        let mut ids = Vec::with_capacity(alloc, hints.len())?;
        for hint in hints {
            ids.push(hint.hint())?;
        }
        Ok(Step::Addition {
            id: u64::from(self.first.ahead(addition).number()),
            literals: Clause::from_slice(alloc, literals.as_slice())?,
            hints: Hints::compact(alloc, ids.as_slice())?,
        })
    }

    /// Returns the clauses on which the additions rest, one list after the other.
    pub fn cited(&self) -> &[ClauseId] {
        self.hints.as_slice()
    }

    /// Returns all additions as steps.
    pub fn steps(&self, alloc: Global) -> Result<Vec<Step>, AllocError> {
        let mut steps = Vec::with_capacity(alloc, self.ends.len())?;
        for addition in 0..size(self.ends.as_slice()) {
            steps.push(self.step(alloc, addition)?)?;
        }
        Ok(steps)
    }

    /// Adds those additions as steps that are marked, or have no mark at all: with an empty list of marks that is all of them. The marks are of clauses
    /// from this number on.
    pub(crate) fn push_marked(
        &self,
        alloc: Global,
        from: ClauseId,
        marks: &[u8],
        steps: &mut Vec<Step>,
    ) -> Result<(), AllocError>
        ensures { OnOk result (length steps.new.items ≤ length steps.old.items + self.now) }
    {
        let base = self.first.since(from);
        for place in 0..self.ends.len() {
            let addition = u32::try_from(place).unwrap_or(u32::MAX);
            if at(marks, base.wrapping_add(addition), 1) != 0 {
                steps.push(self.step(alloc, addition)?)?;
            }
        }
        Ok(())
    }

    /// Returns those additions as steps that are marked, or have no mark at all.
    fn marked_steps(&self, alloc: Global, marks: &[u8]) -> Result<Vec<Step>, AllocError>
        ensures { IfOk result (λ steps. length steps.items ≤ self.now) }
    {
        let mut steps = Vec::new(alloc);
        self.push_marked(alloc, self.first, marks, &mut steps)?;
        Ok(steps)
    }

    /// Returns the derivation, trimmed to the additions on which the last one rests, which leaves out 1 to 28 % of them for the checker. If
    /// there is no memory to mark these, it has all of them.
    pub fn derivation(&self, alloc: Global) -> Result<Derivation, AllocError>
        ensures { IfOk result (λ derivation. length derivation ≤ self.now) }
    {
        let last = self.next_id().previous();
        let needed = match self.needed(alloc, &[last]) {
            Ok(needed) => needed,
            Err(_) => Vec::new(alloc),
        };
        let steps = self.marked_steps(alloc, needed.as_slice())?;
        Ok(Derivation::new(steps))
    }
}

impl LoggedAdditions for ProofLog {
    fn free_id(&self) -> ClauseId {
        self.next_id()
    }

    fn steps_to(&self, alloc: Global, clauses: &[ClauseId]) -> Result<Vec<Step>, AllocError> {
        let needed = self.needed(alloc, clauses)?;
        self.marked_steps(alloc, needed.as_slice())
    }
}
