//! Learned clauses.
//!
//! Past the end of a table `at` reads as its last argument, and `put` does nothing; so arithmetic may wrap, and a wrong place makes no fault.

use closed_rows::PairReason;
use numbered_log::OperationId;
use order_propagation::{Propagated, Propagation, Stop};
use std::alloc::{AllocError, Global};
use total_tables::{at, piece, put, size};

/// That the first operation stands before the second.
#[derive(Clone, Copy)]
pub struct Literal {
    pub first: OperationId,
    pub second: OperationId,
}

/// No literal.
const NO_LITERAL: Literal = Literal {
    first: OperationId::FIRST,
    second: OperationId::FIRST,
};

/// A clause: one of its literals holds.
#[derive(Clone, Copy)]
struct LearnedClause {
    /// Its literals stand in the table of all from the first place up to the second, which is not one of them.
    begin: u32,
    end: u32,
    /// Two literals that were not refuted when they were last looked at. They are places in the table of all literals, and the same one twice if they were
    /// not looked for yet. To take decisions back refutes no literal, so they need not be undone.
    watched: (u32, u32),
    /// Whether it is looked at. One that is given up stays a reason of pairs, so its literals stay.
    is_kept: bool,
}

/// No clause.
const NO_CLAUSE: LearnedClause = LearnedClause {
    begin: 0,
    end: 0,
    watched: (0, 0),
    is_kept: false,
};

/// The most clauses that are looked at, and the length up to which they are never given up.
const MOST_CLAUSES: u32 = 2000;

const SHORT: u32 = 6;

/// The most literals, at 8 bytes each.
const MOST_LITERALS: u32 = 1 << 21;

/// The gain of an operation in the first conflict. It grows by a fiftieth with each.
const FIRST_GAIN: u64 = 1 << 10;

/// A gain at which all are divided, so that sums stay in range.
const LARGEST_GAIN: u64 = 1 << 50;

/// The clauses, and which operations were in many conflicts of late.
pub struct LearnedClauses {
    literals: Vec<Literal>,
    clauses: Vec<LearnedClause>,
    /// The numbers of those that are looked at, rising, and the most of them.
    kept: Vec<u32>,
    most: u32,
    /// For each operation the sum of the gains of clauses that name it, of which later ones weigh more.
    activities: Vec<u64>,
    /// What a new clause adds to the activity of each operation that it names.
    gain: u64,
}

/// Drops each table in one call. A derived `Drop` would drop each at every exit of a function that owns clauses, which makes its proof longer.
impl Drop for LearnedClauses {
    fn drop(self) {
        let LearnedClauses {
            literals: _literals,
            clauses: _clauses,
            kept: _kept,
            most: _,
            activities: _activities,
            gain: _,
        } = self;
    }
}

/// What a clause says of the order at hand.
#[derive(Clone, Copy, PartialEq, Eq)]
enum ClauseReading {
    /// Nothing, or nothing new.
    Nothing,
    /// That the literal at this place holds.
    Holds(u32),
}

impl LearnedClauses {
    /// No clause, for a log of this number of operations.
    pub fn new(alloc: Global, operations: u32) -> Result<LearnedClauses, AllocError> {
        Ok(LearnedClauses {
            literals: Vec::new(alloc),
            clauses: Vec::new(alloc),
            kept: Vec::new(alloc),
            most: MOST_CLAUSES,
            activities: vec![in alloc; 0; operations as usize]?,
            gain: FIRST_GAIN,
        })
    }

    /// No clause, for some of those that a walk over such a log has learned, in their order: each is looked at here as long as it was there.
    pub fn for_replay(alloc: Global, operations: u32) -> Result<LearnedClauses, AllocError> {
        let mut clauses = LearnedClauses::new(alloc, operations)?;
        // Half of the long ones are given up at a time, so of the last ones twice as many are kept as there were.
        clauses.most = MOST_CLAUSES.wrapping_mul(2);
        Ok(clauses)
    }

    /// The number of clauses.
    #[inline(always)]
    pub fn count(&self) -> u32 {
        size(self.clauses.as_slice())
    }

    /// Returns whether there is no room for more. The walk then gives up.
    pub fn is_full(&self) -> bool {
        size(self.literals.as_slice()) >= MOST_LITERALS
    }

    #[inline(always)]
    fn clause(&self, number: u32) -> LearnedClause {
        at(self.clauses.as_slice(), number, NO_CLAUSE)
    }

    #[inline(always)]
    fn literal(&self, place: u32) -> Literal {
        at(self.literals.as_slice(), place, NO_LITERAL)
    }

    /// The literals of the clause.
    pub fn literals(&self, number: u32) -> &[Literal] {
        let clause = self.clause(number);
        piece(self.literals.as_slice(), clause.begin, clause.end)
    }

    /// Adds a clause, and returns its number.
    pub fn add(&mut self, literals: &[Literal]) -> Result<u32, AllocError> {
        let number = self.count();
        let begin = size(self.literals.as_slice());
        for literal in literals {
            self.literals.push(*literal)?;
            self.raise_activity(literal.first);
            self.raise_activity(literal.second);
        }
        let end = size(self.literals.as_slice());
        self.clauses.push(LearnedClause {
            begin,
            end,
            watched: (begin, begin),
            is_kept: true,
        })?;
        self.kept.push(number)?;
        self.gain = self.gain.wrapping_add(self.gain / 50);
        if self.gain > LARGEST_GAIN {
            self.divide_activities();
        }
        if size(self.kept.as_slice()) > self.most {
            self.give_up_half();
        }
        Ok(number)
    }

    fn raise_activity(&mut self, operation: OperationId) {
        let activity = at(self.activities.as_slice(), operation.number(), 0);
        let raised = activity.saturating_add(self.gain);
        put(self.activities.as_mut_slice(), operation.number(), raised);
    }

    /// Divides all by 2 to the power of 40, which is the largest gain by the first one: so old activities keep their size beside new ones.
    fn divide_activities(&mut self) {
        self.gain = FIRST_GAIN;
        for operation in OperationId::first(size(self.activities.as_slice())) {
            let activity = at(self.activities.as_slice(), operation.number(), 0);
            put(
                self.activities.as_mut_slice(),
                operation.number(),
                activity >> 40,
            );
        }
    }

    /// Gives up the oldest long clauses, up to half of all. They stay reasons.
    fn give_up_half(&mut self) {
        let count = size(self.kept.as_slice());
        let mut left: u32 = 0;
        for place in 0..count {
            let number = at(self.kept.as_slice(), place, 0);
            let clause = self.clause(number);
            let is_short = clause.end.wrapping_sub(clause.begin) <= SHORT;
            let count_given_up = place.wrapping_sub(left);
            if is_short || count_given_up >= self.most / 2 {
                put(self.kept.as_mut_slice(), left, number);
                left = left.wrapping_add(1);
            } else {
                let is_kept = false;
                let given_up = LearnedClause { is_kept, ..clause };
                put(self.clauses.as_mut_slice(), number, given_up);
            }
        }
        for _ in left..count {
            if self.kept.pop().is_none() {
                break;
            }
        }
    }

    /// Propagates the order and the clauses, until nothing more follows.
    pub fn propagate(&mut self, order: &mut Propagation<'_>) -> Result<Propagated, AllocError> {
        for _ in 0..order.budget().left() {
            match order.propagate()? {
                Propagated::Done => {}
                Propagated::Conflict => return Ok(Propagated::Conflict),
                Propagated::Spent => return Ok(Propagated::Spent),
            }
            // A clause adds a pair or is a conflict, so without a new pair nothing more follows.
            let before = order.pairs().count();
            match self.look_at_all(order) {
                Ok(()) => {}
                Err(Stop::Conflict) => {
                    order.forget_waiting();
                    return Ok(Propagated::Conflict);
                }
                Err(Stop::OutOfMemory) => return Err(AllocError),
            }
            if order.pairs().count() == before {
                return Ok(Propagated::Done);
            }
        }
        Ok(Propagated::Spent)
    }

    /// Adds what the clauses say. All that are kept are looked at, at two literals each: a literal is refuted by whatever closes the rows, and no
    /// assignment of its own could wake just the clauses that watch it.
    fn look_at_all(&mut self, order: &mut Propagation<'_>) -> Result<(), Stop> {
        let count = size(self.kept.as_slice());
        order.spend((count as u64).wrapping_mul(4));
        for place in 0..count {
            let number = at(self.kept.as_slice(), place, 0);
            if let ClauseReading::Holds(place) = self.read(order, number) {
                let literal = self.literal(place);
                order.add(literal.first, literal.second, PairReason::Learned(number))?;
            }
        }
        Ok(())
    }

    /// Returns whether the order has the literal at this place turned round.
    #[inline(always)]
    fn is_refuted(&self, order: &Propagation<'_>, place: u32) -> bool {
        let literal = self.literal(place);
        order.stands_before(literal.second, literal.first)
    }

    /// Returns whether the literal at this place holds by the order.
    #[inline(always)]
    fn holds(&self, order: &Propagation<'_>, place: u32) -> bool {
        let literal = self.literal(place);
        order.stands_before(literal.first, literal.second)
    }

    /// Looks whether all literals but one are refuted.
    #[inline(always)]
    fn read(&mut self, order: &Propagation<'_>, number: u32) -> ClauseReading {
        let clause = self.clause(number);
        let (first, second) = clause.watched;
        if first != second && !self.is_refuted(order, first) && !self.is_refuted(order, second) {
            return ClauseReading::Nothing;
        }
        self.watch_anew(order, number, clause)
    }

    /// Finds two literals that are not refuted. If all are refuted, it returns one of these: to add that pair is a conflict.
    fn watch_anew(
        &mut self,
        order: &Propagation<'_>,
        number: u32,
        clause: LearnedClause,
    ) -> ClauseReading {
        let mut found = None;
        for place in clause.begin..clause.end {
            if !self.is_refuted(order, place) {
                if let Some(first) = found {
                    let watched = (first, place);
                    put(
                        self.clauses.as_mut_slice(),
                        number,
                        LearnedClause { watched, ..clause },
                    );
                    return ClauseReading::Nothing;
                }
                found = Some(place);
            }
        }
        let place = match found {
            Some(place) => place,
            None => return ClauseReading::Holds(clause.begin),
        };
        if self.holds(order, place) {
            ClauseReading::Nothing
        } else {
            ClauseReading::Holds(place)
        }
    }

    /// A literal of one of the clauses that were learned last and do not hold yet, the one whose operations were in most conflicts of late: so
    /// a walk stays at what it has just learned of (Goldberg and Novikov, "BerkMin", 2002).
    pub fn pick(&self, order: &Propagation<'_>, clauses: u32) -> Option<Literal> {
        let count = self.count();
        for back in 1..clauses.min(count).wrapping_add(1) {
            let clause = self.clause(count.wrapping_sub(back));
            if clause.is_kept {
                if let Some(literal) = self.open_literal(order, clause) {
                    return Some(literal);
                }
            }
        }
        None
    }

    /// The literal of the clause whose operations were in most conflicts of late, of those that are open; none if one holds.
    fn open_literal(&self, order: &Propagation<'_>, clause: LearnedClause) -> Option<Literal> {
        let mut best = None;
        let mut most: u64 = 0;
        for place in clause.begin..clause.end {
            if self.holds(order, place) {
                return None;
            }
            if !self.is_refuted(order, place) {
                let literal = self.literal(place);
                let activity = at(
                    self.activities.as_slice(),
                    literal.first.number(),
                    0,
                ).saturating_add(at(self.activities.as_slice(), literal.second.number(), 0));
                if best.is_none() || activity > most {
                    best = Some(literal);
                    most = activity;
                }
            }
        }
        best
    }
}
