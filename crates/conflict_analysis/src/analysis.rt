//! The analysis of a conflict.
//!
//! Past the end of a table `at` reads as its last argument, and `put` does nothing; so arithmetic may wrap, and a wrong place makes no fault. Pairs are
//! numbered by rising times, and a larger number never has a smaller level.

use crate::clause_grounds::ClauseGrounds;
use crate::learned_clauses::{LearnedClauses, Literal};
use crate::pair_cycle::pairs_of_cycle;
use crate::way_search::{WayQuestion, WaySearch};
use closed_rows::OrderedPair;
use numbered_log::{NO_NUMBER, NOBODY, OperationId};
use order_propagation::{Conflict, Propagation};
use possible_sources::{EarlierSources, Time};
use std::alloc::{AllocError, Global};
use total_tables::{at, put, size};

/// The number of decisions to which a search goes back, and what then follows.
#[derive(Clone, Copy)]
pub enum Backjump {
    /// The conflict rests on no decision.
    Refuted,
    /// Back to this number of decisions: there the literal follows from the clause that was learned.
    To(u32, Literal),
}

/// A question that was answered in the analysis of this number.
#[derive(Clone, Copy)]
struct Answered {
    question: WayQuestion,
    turn: u32,
}

/// The number of answered questions that are kept, which is a power of two. One whose slot another has taken is asked again, which costs time
/// alone.
const KEPT_ANSWERS: u32 = 1 << 14;

/// Nothing answered.
const NO_ANSWER: Answered = Answered {
    question: WayQuestion {
        first: NOBODY,
        second: NOBODY,
        time: Time::START,
    },
    turn: 0,
};

/// What a conflict rests on.
pub struct Analysis {
    alloc: Global,
    search: WaySearch,
    /// For each pair, by number, whether the conflict rests on it.
    pub(crate) is_marked: Vec<bool>,
    /// The pairs that are marked.
    marked: Vec<u32>,
    /// A hash table without search: each question has one slot.
    answered: Vec<Answered>,
    /// The number of the analysis at hand. What another one has answered does not count.
    turn: u32,
    /// The largest number of a pair that is marked and was not looked at. It only rises, and both ways back begin at it: reasons of a pair have smaller
    /// numbers.
    pub(crate) highest: u32,
    /// The level of the last decision that the conflict rests on, and the number of marked pairs of it that were not looked at.
    top: u32,
    left_at_top: u32,
    literals: Vec<Literal>,
    /// The sources that the reader had left, as `ask_sources` found them last.
    pub(crate) earlier: EarlierSources,
    /// Whether pairs of no decision are asked for too, for a core.
    pub(crate) asks_all: bool,
    /// For each operation whether it was named, and those that were.
    pub(crate) is_named: Vec<bool>,
    named: Vec<OperationId>,
    /// The learned clauses that were used.
    pub(crate) used: Vec<u32>,
    /// The marked pairs of no decision.
    base_pairs: Vec<u32>,
    pub(crate) grounds: ClauseGrounds,
    /// For each learned clause whether the last core rests on it.
    pub(crate) is_needed: Vec<bool>,
    /// Looks at entries that `take_steps` has not handed over yet.
    steps: u64,
}

/// Drops each table in one call. A derived `Drop` would drop each at every exit of a function that owns an analysis, which makes its proof longer.
impl Drop for Analysis {
    fn drop(self) {
        let Analysis {
            alloc: _,
            search: _search,
            is_marked: _is_marked,
            marked: _marked,
            answered: _answered,
            turn: _,
            highest: _,
            top: _,
            left_at_top: _,
            literals: _literals,
            earlier: _earlier,
            asks_all: _,
            is_named: _is_named,
            named: _named,
            used: _used,
            base_pairs: _base_pairs,
            grounds: _grounds,
            is_needed: _is_needed,
            steps: _,
        } = self;
    }
}

impl Analysis {
    /// An analysis of nothing, for a log of this number of operations.
    pub fn new(alloc: Global, operations: u32) -> Result<Analysis, AllocError> {
        Ok(Analysis {
            alloc,
            search: WaySearch::new(alloc, operations)?,
            is_marked: Vec::new(alloc),
            marked: Vec::new(alloc),
            answered: vec![in alloc; NO_ANSWER; KEPT_ANSWERS as usize]?,
            turn: 0,
            highest: 0,
            top: 0,
            left_at_top: 0,
            literals: Vec::new(alloc),
            earlier: EarlierSources::new(alloc),
            asks_all: false,
            is_named: vec![in alloc; false; operations as usize]?,
            named: Vec::new(alloc),
            used: Vec::new(alloc),
            base_pairs: Vec::new(alloc),
            grounds: ClauseGrounds::new(alloc)?,
            is_needed: Vec::new(alloc),
            steps: 0,
        })
    }

    /// Forgets the last conflict.
    pub fn begin(&mut self) {
        for number in self.marked.as_slice() {
            put(self.is_marked.as_mut_slice(), *number, false);
        }
        self.marked.clear();
        self.literals.clear();
        self.turn = self.turn.wrapping_add(1);
        self.highest = 0;
        // No pair has this level, so `mark` counts none before `find_top` has counted them.
        self.top = NO_NUMBER;
        self.left_at_top = 0;
        self.asks_all = false;
        for operation in self.named.as_slice() {
            put(self.is_named.as_mut_slice(), operation.number(), false);
        }
        self.named.clear();
        self.used.clear();
    }

    /// Forgets the last conflict. From now on pairs of no decision are asked for too.
    pub fn begin_core(&mut self) {
        self.begin();
        self.asks_all = true;
    }

    /// Names the operation as one that the conflict rests on. A number of no operation is none. The final value of a location, as a reader, has such a
    /// number.
    pub fn name(&mut self, operation: OperationId) -> Result<(), AllocError> {
        if !at(self.is_named.as_slice(), operation.number(), true) {
            put(self.is_named.as_mut_slice(), operation.number(), true);
            self.named.push(operation)?;
        }
        Ok(())
    }

    /// The literals of the clause that was learned.
    pub fn literals(&self) -> &[Literal] {
        self.literals.as_slice()
    }

    /// Returns whether the steps are more than the order's budget.
    pub(crate) fn is_spent(&self, order: &Propagation<'_>) -> bool {
        self.steps.saturating_add(self.search.steps()) > order.budget().left()
    }

    /// Counts a look at an entry.
    #[inline(always)]
    pub(crate) fn count_look(&mut self) {
        self.steps = self.steps.wrapping_add(1);
    }

    /// The number of steps since it was last asked.
    pub fn take_steps(&mut self) -> u64 {
        let steps = self.steps.saturating_add(self.search.take_steps());
        self.steps = 0;
        steps
    }

    /// Asks why the order is in conflict.
    pub fn ask_conflict(
        &mut self,
        order: &Propagation<'_>,
        clauses: &LearnedClauses,
    ) -> Result<(), AllocError> {
        match order.conflict() {
            Conflict::Cycle(pair) => {
                self.name_ends(pair)?;
                self.ask_reason(order, clauses, pair)?;
                // No way is needed from an operation to itself: a pair of one operation is a cycle alone.
                if pair.first != pair.second {
                    self.ask(order, pair.second, pair.first, pair.time)?;
                }
                Ok(())
            }
            Conflict::NoSource(reader) => self.ask_sources(order, reader, order.later()),
            Conflict::CyclicPairs => self.ask_cycle(order),
            Conflict::None => Ok(()),
        }
    }

    /// Asks for the pairs of a cycle.
    fn ask_cycle(&mut self, order: &Propagation<'_>) -> Result<(), AllocError> {
        let cycle = pairs_of_cycle(self.alloc, order)?;
        self.steps = self.steps.wrapping_add(order.log().count() as u64);
        for number in cycle.as_slice() {
            self.mark(order, *number)?;
        }
        Ok(())
    }

    /// Asks why the first operation stands before the second, by pairs that are older than the time.
    pub fn ask(
        &mut self,
        order: &Propagation<'_>,
        first: OperationId,
        second: OperationId,
        time: Time,
    ) -> Result<(), AllocError> {
        let question = WayQuestion::new(first, second, time);
        if question.is_of_program_order(order.log()) || self.is_answered(question) {
            return Ok(());
        }
        let is_marked = self.is_marked.as_slice();
        self.search.find(order, question, is_marked, self.asks_all)?;
        for number in 0..self.search.pairs() {
            let pair = self.search.pair(number);
            self.mark(order, pair)?;
        }
        Ok(())
    }

    /// Returns whether the question was answered in this analysis, by pairs that are old enough. If not, it is now. The factors are odd numbers that
    /// scatter neighbours among the slots.
    fn is_answered(&mut self, question: WayQuestion) -> bool {
        let mixed = question
            .first
            .number()
            .wrapping_mul(2_654_435_761)
            .wrapping_add(question.second.number().wrapping_mul(2_654_404_609));
        let slot = (mixed >> 8) & KEPT_ANSWERS.wrapping_sub(1);
        let kept = at(self.answered.as_slice(), slot, NO_ANSWER);
        if kept.turn == self.turn
            && kept.question.first == question.first
            && kept.question.second == question.second
            && !question.time.is_before(kept.question.time)
        {
            return true;
        }
        let turn = self.turn;
        put(
            self.answered.as_mut_slice(),
            slot,
            Answered { question, turn },
        );
        false
    }

    /// Marks the pair. The number must be that of a pair, since the table gets entries up to it.
    pub(crate) fn mark(&mut self, order: &Propagation<'_>, number: u32) -> Result<(), AllocError> {
        for _ in size(self.is_marked.as_slice())..number.saturating_add(1) {
            self.is_marked.push(false)?;
        }
        if !at(self.is_marked.as_slice(), number, true) {
            put(self.is_marked.as_mut_slice(), number, true);
            self.marked.push(number)?;
            self.highest = self.highest.max(number);
            if order.pairs().pair(number).level == self.top {
                self.left_at_top = self.left_at_top.wrapping_add(1);
            }
        }
        Ok(())
    }

    /// Goes back from what was asked to the first unique implication point: the last pair of the last level on which all of the conflict rests
    /// that this level says. The clause that is learned says that it does not hold with the pairs of earlier levels.
    pub fn find_clause(
        &mut self,
        order: &Propagation<'_>,
        clauses: &LearnedClauses,
    ) -> Result<Backjump, AllocError> {
        self.find_top(order);
        if self.top == 0 {
            return Ok(Backjump::Refuted);
        }
        let mut level: u32 = 0;
        let mut asserted = None;
        for number in (0..self.highest.wrapping_add(1)).rev() {
            self.count_look();
            if !at(self.is_marked.as_slice(), number, false) {
                continue;
            }
            let pair = order.pairs().pair(number);
            // All pairs before it are of no decision too: such a pair needs no literal.
            if pair.level == 0 {
                break;
            }
            self.name_ends(pair)?;
            // The pair turned round. Of pairs of earlier levels no reason is asked: they become literals themselves.
            let literal = Literal {
                first: pair.second,
                second: pair.first,
            };
            if pair.level < self.top {
                level = level.max(pair.level);
                self.literals.push(literal)?;
            } else if self.left_at_top == 1 && asserted.is_none() {
                asserted = Some(literal);
                self.literals.push(literal)?;
            } else {
                // The pair is looked at, and those of its reason that are of this level are counted by `mark`.
                self.left_at_top = self.left_at_top.wrapping_sub(1);
                self.ask_reason(order, clauses, pair)?;
            }
        }
        // The decision of the last level is such a point at the latest, so there is one.
        let Some(literal) = asserted else {
            return Ok(Backjump::Refuted);
        };
        self.keep_grounds(order)?;
        Ok(Backjump::To(level, literal))
    }

    /// Keeps what the clause rests on that was just found. The list that this adds has the number of the clause, since each clause that is found is added
    /// to `LearnedClauses` next.
    fn keep_grounds(&mut self, order: &Propagation<'_>) -> Result<(), AllocError> {
        self.base_pairs.clear();
        for number in self.marked.as_slice() {
            if order.pairs().pair(*number).level == 0 {
                self.base_pairs.push(*number)?;
            }
        }
        let operations = self.named.as_slice();
        let clauses = self.used.as_slice();
        let pairs = self.base_pairs.as_slice();
        self.grounds.add(operations, clauses, pairs)
    }

    /// Names both operations of the pair.
    pub(crate) fn name_ends(&mut self, pair: OrderedPair) -> Result<(), AllocError> {
        self.name(pair.first)?;
        self.name(pair.second)
    }

    /// Finds the last level that the conflict rests on, and counts its pairs.
    fn find_top(&mut self, order: &Propagation<'_>) {
        let mut top: u32 = 0;
        let mut count: u32 = 0;
        for number in self.marked.as_slice() {
            let level = order.pairs().pair(*number).level;
            if level > top {
                top = level;
                count = 0;
            }
            if level == top {
                count = count.wrapping_add(1);
            }
        }
        self.top = top;
        self.left_at_top = count;
    }
}
