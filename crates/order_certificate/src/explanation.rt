//! The explanation of a conflict, from it backwards to what a derivation may begin with.
//!
//! Past the end of a table `at` reads as its last argument, and `put` does nothing; so arithmetic may wrap, and a wrong place makes no fault. Only one
//! line is unfinished at a time: whatever asks for facts while a line is made must write no line of its own.

use crate::derivation_steps::{DerivationHint, DerivationSteps};
use crate::hint_list::HintList;
use crate::marked_pairs::MarkedPairs;
use crate::numbered_lines::NumberedLines;
use crate::order_facts::OrderFacts;
use crate::stuck_heads::StuckHeads;
use closed_rows::OrderedPair;
use conflict_analysis::{LearnedClauses, Literal, WayQuestion, WaySearch, pairs_of_cycle};
use numbered_log::{NO_NUMBER, NOBODY, OperationId};
use order_propagation::{Conflict, Propagation};
use possible_sources::EarlierSources;
use std::alloc::{AllocError, Global};
use total_tables::{at, size};

/// What was derived: a pair, or the conflict if that is `NO_NUMBER`. It follows from the facts at these places of the list by the clause of the
/// hint, or by the facts alone.
#[derive(Clone, Copy)]
pub(crate) struct DerivedPair {
    pub(crate) pair: u32,
    pub(crate) hint: Option<DerivationHint>,
    /// The first of these places and the one behind the last.
    pub(crate) begin: u32,
    pub(crate) end: u32,
}

/// Nothing derived.
pub(crate) const NOTHING_DERIVED: DerivedPair = DerivedPair {
    pair: NO_NUMBER,
    hint: None,
    begin: 0,
    end: 0,
};

/// Explanations of conflicts, one after the other, with the lines and steps that all of them need.
pub(crate) struct Explanation {
    pub(crate) alloc: Global,
    search: WaySearch,
    pub(crate) lines: NumberedLines,
    pub(crate) steps: DerivationSteps,
    pub(crate) facts: OrderFacts,
    pub(crate) marks: MarkedPairs,
    pub(crate) hints: HintList,
    /// What the conflict at hand follows from, the last first.
    pub(crate) derived: Vec<DerivedPair>,
    /// The facts of all that is derived.
    pub(crate) fact_numbers: Vec<u32>,
    /// For each learned clause its step. Only clauses that were derived anew are in it, under the numbers that the replay gives them.
    pub(crate) clause_steps: Vec<u32>,
    /// Whether each pair of no decision has a step of its own, since many clauses rest on it.
    has_units: bool,
    /// The sources that the reader had left, as `add_pieces` found them last.
    pub(crate) earlier: EarlierSources,
    /// Whether something has no line. Then the conflict at hand has no step.
    pub(crate) is_lost: bool,
    /// Pairs looked at by `ask_reasons` that are not taken out of the budget yet.
    looked: u64,
}

/// Drops each table in one call. A derived `Drop` would drop each at every exit of a function that owns explanations, which makes its proof longer.
impl Drop for Explanation {
    fn drop(self) {
        let Explanation {
            alloc: _,
            search: _search,
            lines: _lines,
            steps: _steps,
            facts: _facts,
            marks: _marks,
            hints: _hints,
            derived: _derived,
            fact_numbers: _fact_numbers,
            clause_steps: _clause_steps,
            has_units: _,
            earlier: _earlier,
            is_lost: _,
            looked: _,
        } = self;
    }
}

impl Explanation {
    /// No explanation, for a log of this number of operations.
    pub(crate) fn new(
        alloc: Global,
        operations: u32,
        has_units: bool,
    ) -> Result<Explanation, AllocError> {
        Ok(Explanation {
            alloc,
            search: WaySearch::new(alloc, operations)?,
            lines: NumberedLines::new(alloc)?,
            steps: DerivationSteps::new(alloc)?,
            facts: OrderFacts::new(alloc)?,
            marks: MarkedPairs::new(alloc),
            hints: HintList::new(alloc),
            derived: Vec::new(alloc),
            fact_numbers: Vec::new(alloc),
            clause_steps: Vec::new(alloc),
            has_units,
            earlier: EarlierSources::new(alloc),
            is_lost: false,
            looked: 0,
        })
    }

    /// Returns whether each pair of no decision has a step of its own.
    pub(crate) fn has_units(&self) -> bool {
        self.has_units
    }

    /// Forgets the last conflict.
    pub(crate) fn begin(&mut self) {
        self.marks.clear();
        self.facts.clear();
        self.derived.clear();
        self.fact_numbers.clear();
        self.is_lost = false;
    }

    /// Explains the conflict of the order, and derives the clause of these literals from it. Returns its step; none if a reason has no line,
    /// if there is no room, or if the budget is spent before. Decisions must still stand: the pairs of the conflict are looked up.
    pub(crate) fn explain(
        &mut self,
        order: &mut Propagation<'_>,
        clauses: &LearnedClauses,
        literals: &[Literal],
    ) -> Result<Option<u32>, AllocError> {
        self.begin();
        self.ask_conflict(order, clauses)?;
        self.finish(order, clauses, literals)
    }

    /// Explains that these updates and last writes have too few possible sources, and derives the empty clause from it.
    pub(crate) fn explain_takers(
        &mut self,
        order: &mut Propagation<'_>,
        clauses: &LearnedClauses,
        takers: &[OperationId],
    ) -> Result<Option<u32>, AllocError> {
        self.begin();
        self.lines.begin(b'n')?;
        for taker in takers {
            if !order.log().is_final(*taker) {
                self.lines.letter(b'r')?;
                self.lines.operation(*taker)?;
            } else {
                self.lines.letter(b'l')?;
                let location = order.log().final_location(*taker);
                self.lines.location(location)?;
            }
            self.add_pieces(order, *taker, order.later())?;
        }
        let hint = self.finish_line()?;
        self.note_derived(NO_NUMBER, hint)?;
        self.finish(order, clauses, &[])
    }

    /// Explains that none of these operations can come first, and derives the clause of these literals from it.
    pub(crate) fn explain_stuck(
        &mut self,
        order: &mut Propagation<'_>,
        clauses: &LearnedClauses,
        heads: &StuckHeads,
        literals: &[Literal],
    ) -> Result<Option<u32>, AllocError> {
        self.begin();
        self.ask_stuck(order, heads)?;
        self.finish(order, clauses, literals)
    }

    /// Goes back from what was asked, and derives the clause of these literals. Without a line for each reason there is no step, since a checker
    /// would refuse it.
    pub(crate) fn finish(
        &mut self,
        order: &mut Propagation<'_>,
        clauses: &LearnedClauses,
        literals: &[Literal],
    ) -> Result<Option<u32>, AllocError> {
        self.ask_reasons(order, clauses)?;
        let steps = self.search.take_steps().saturating_add(self.looked);
        self.looked = 0;
        order.spend(steps);
        // `derive` relies on this: a clause without a step would be a hint of no number.
        if self.is_lost || self.lines.is_full() || self.steps.is_full() {
            return Ok(None);
        }
        let step = self.derive(order, literals)?;
        Ok(Some(step))
    }

    /// Asks why the order is in conflict.
    fn ask_conflict(
        &mut self,
        order: &Propagation<'_>,
        clauses: &LearnedClauses,
    ) -> Result<(), AllocError> {
        match order.conflict() {
            Conflict::Cycle(pair) => self.ask_closing(order, clauses, pair),
            Conflict::NoSource(reader) => {
                self.begin_sources(order, reader, order.later())?;
                let hint = self.finish_line()?;
                self.note_derived(NO_NUMBER, hint)
            }
            Conflict::CyclicPairs => self.ask_cycle(order, clauses),
            Conflict::None => {
                self.is_lost = true;
                Ok(())
            }
        }
    }

    /// Asks for the pair that closes a cycle, and for the way from its second operation to its first.
    fn ask_closing(
        &mut self,
        order: &Propagation<'_>,
        clauses: &LearnedClauses,
        pair: OrderedPair,
    ) -> Result<(), AllocError> {
        let hint = self.ask_reason(order, clauses, pair)?;
        if pair.first != pair.second {
            self.ask(order, WayQuestion::new(pair.second, pair.first, pair.time))?;
        }
        self.note_derived(NO_NUMBER, hint)
    }

    /// Asks for the pairs of a cycle. A pair of one process that turns program order round is the conflict by itself.
    fn ask_cycle(
        &mut self,
        order: &Propagation<'_>,
        clauses: &LearnedClauses,
    ) -> Result<(), AllocError> {
        let cycle = pairs_of_cycle(self.alloc, order)?;
        for number in cycle.as_slice() {
            let pair = order.pairs().pair(*number);
            if order.log().operation(pair.first).process
                == order.log().operation(pair.second).process
            {
                let hint = self.ask_reason(order, clauses, pair)?;
                return self.note_derived(NO_NUMBER, hint);
            }
        }
        self.add_cycle(order, cycle.as_slice())
    }

    /// Notes that the pairs, of which the last comes first, are a cycle. Two that are each other turned round need no line for that.
    fn add_cycle(&mut self, order: &Propagation<'_>, cycle: &[u32]) -> Result<(), AllocError> {
        self.lines.begin(b'c')?;
        // A cycle of pairs runs backwards, so its way begins at the first operation of its last pair.
        let begin = order
            .pairs()
            .pair(at(cycle, size(cycle).wrapping_sub(1), NO_NUMBER))
            .first;
        let mut operations: u32 = 0;
        let mut last = NOBODY;
        for place in (0..size(cycle)).rev() {
            let number = at(cycle, place, NO_NUMBER);
            self.marks.mark(number)?;
            let pair = order.pairs().pair(number);
            if pair.first != last {
                self.lines.operation(pair.first)?;
                operations = operations.wrapping_add(1);
            }
            if place > 0 || pair.second != begin {
                self.lines.operation(pair.second)?;
                operations = operations.wrapping_add(1);
            }
            last = pair.second;
        }
        if operations <= 2 {
            // The line that was begun is dropped when the next one begins.
            return self.note_derived(NO_NUMBER, None);
        }
        let hint = self.finish_line()?;
        self.note_derived(NO_NUMBER, hint)
    }

    /// Finishes the line at hand.
    pub(crate) fn finish_line(&mut self) -> Result<Option<DerivationHint>, AllocError> {
        let line = self.lines.finish()?;
        Ok(Some(DerivationHint::Line(line)))
    }

    /// Notes that the pair, or the conflict, follows from the facts that were asked since something was noted.
    pub(crate) fn note_derived(
        &mut self,
        pair: u32,
        hint: Option<DerivationHint>,
    ) -> Result<(), AllocError> {
        let last = size(self.derived.as_slice()).wrapping_sub(1);
        let begin = at(self.derived.as_slice(), last, NOTHING_DERIVED).end;
        let end = size(self.fact_numbers.as_slice());
        self.derived.push(DerivedPair {
            pair,
            hint,
            begin,
            end,
        })?;
        Ok(())
    }

    /// Asks why each marked pair was added, the last first: reasons have earlier times, so each pair is asked for once.
    fn ask_reasons(
        &mut self,
        order: &Propagation<'_>,
        clauses: &LearnedClauses,
    ) -> Result<(), AllocError> {
        // A reason is older than its pair and has a smaller number, so what it marks is still to come.
        for number in (0..self.marks.highest().wrapping_add(1)).rev() {
            self.looked = self.looked.wrapping_add(1);
            if self.is_lost || self.search.steps() > order.budget().left() {
                self.is_lost = true;
                break;
            }
            let pair = order.pairs().pair(number);
            if self.marks.is_open(number) && !Explanation::is_assumed(order, pair) {
                let hint = self.ask_reason(order, clauses, pair)?;
                self.note_derived(number, hint)?;
            }
        }
        Ok(())
    }

    /// Asks the question, unless program order answers it. It writes no line. That of a way of several pairs is
    /// made by `cycle_line`, when all lines of reasons are finished.
    pub(crate) fn ask(
        &mut self,
        order: &Propagation<'_>,
        question: WayQuestion,
    ) -> Result<(), AllocError> {
        if question.is_of_program_order(order.log()) {
            return Ok(());
        }
        let mut fact = self.facts.find(question);
        if fact == NO_NUMBER {
            fact = self.find_way(order, question)?;
        }
        self.fact_numbers.push(fact)?;
        Ok(())
    }

    /// Finds a way that answers the question, and marks its pairs. The way begins at the first operation: the search has its last pair first.
    fn find_way(
        &mut self,
        order: &Propagation<'_>,
        question: WayQuestion,
    ) -> Result<u32, AllocError> {
        let begin = self.facts.end();
        self.search
            .find(order, question, self.marks.as_slice(), true)?;
        for number in (0..self.search.pairs()).rev() {
            let pair = self.search.pair(number);
            self.facts.add_pair(pair)?;
            self.marks.mark(pair)?;
        }
        if begin == self.facts.end() {
            self.is_lost = true;
        }
        self.facts.add(question, begin)
    }
}
