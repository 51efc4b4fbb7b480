//! The steps of an explanation, in the order of unit propagation.

use crate::derivation_steps::DerivationHint;
use crate::explanation::{DerivedPair, Explanation, NOTHING_DERIVED};
use conflict_analysis::Literal;
use numbered_log::NO_NUMBER;
use order_propagation::Propagation;
use std::alloc::AllocError;
use total_tables::{at, size};

impl Explanation {
    /// Derives the clause of these literals by all that was asked, from the first pair on: in the order of times each hint is unit when its turn
    /// comes. Returns its step.
    pub(crate) fn derive(
        &mut self,
        order: &Propagation<'_>,
        literals: &[Literal],
    ) -> Result<u32, AllocError> {
        if self.has_units() {
            self.derive_units(order)?;
        }
        self.hints.begin();
        for number in (0..size(self.derived.as_slice())).rev() {
            let derived = at(self.derived.as_slice(), number, NOTHING_DERIVED);
            if !self.has_unit(order, derived) {
                self.add_hints(order, derived)?;
            }
        }
        self.steps.add(literals, self.hints.as_slice())
    }

    /// Returns whether what was derived is a pair with a step of its own.
    fn has_unit(&self, order: &Propagation<'_>, derived: DerivedPair) -> bool {
        self.has_units() && derived.pair != NO_NUMBER && order.pairs().pair(derived.pair).level == 0
    }

    /// Derives each pair of no decision by a step of its own. The oldest pair comes first, since the steps of later ones name its step.
    fn derive_units(&mut self, order: &Propagation<'_>) -> Result<(), AllocError> {
        for number in (0..size(self.derived.as_slice())).rev() {
            let derived = at(self.derived.as_slice(), number, NOTHING_DERIVED);
            if self.has_unit(order, derived) {
                let step = self.derive_unit(order, derived)?;
                self.marks.keep_step(derived.pair, step);
            }
        }
        Ok(())
    }

    /// Derives the pair. If it is all that a learned clause says, that one's step does.
    fn derive_unit(
        &mut self,
        order: &Propagation<'_>,
        derived: DerivedPair,
    ) -> Result<u32, AllocError> {
        if let Some(DerivationHint::Step(step)) = derived.hint {
            if derived.begin == derived.end {
                return Ok(step);
            }
        }
        self.hints.begin();
        self.add_hints(order, derived)?;
        let pair = order.pairs().pair(derived.pair);
        let literal = Literal {
            first: pair.first,
            second: pair.second,
        };
        self.steps.add(&[literal], self.hints.as_slice())
    }

    /// Adds the hints of what was derived: those of its facts, and the clause that then says it.
    fn add_hints(
        &mut self,
        order: &Propagation<'_>,
        derived: DerivedPair,
    ) -> Result<(), AllocError> {
        for place in derived.begin..derived.end {
            let fact = at(self.fact_numbers.as_slice(), place, NO_NUMBER);
            self.add_fact_hints(order, fact)?;
        }
        if let Some(hint) = derived.hint {
            self.hints.add(hint)?;
        }
        Ok(())
    }

    /// Adds the hints of a fact: steps of its pairs, and the line that says that these and the fact turned round would be a cycle.
    fn add_fact_hints(&mut self, order: &Propagation<'_>, number: u32) -> Result<(), AllocError> {
        let fact = self.facts.fact(number);
        for place in fact.begin..fact.end {
            // A pair without a step of its own was derived earlier in this step, or is one that `is_assumed` names: its order is known by then.
            let step = self.marks.step(self.facts.pair(place));
            if step != NO_NUMBER {
                self.hints.add(DerivationHint::Step(step))?;
            }
        }
        let pair = order.pairs().pair(self.facts.pair(fact.begin));
        let is_pair = fact.end == fact.begin.wrapping_add(1)
            && pair.first == fact.question.first
            && pair.second == fact.question.second;
        if is_pair {
            return Ok(());
        }
        let line = self.cycle_line(order, number)?;
        self.hints.add(DerivationHint::Line(line))
    }

    /// The line of the fact's cycle.
    fn cycle_line(&mut self, order: &Propagation<'_>, number: u32) -> Result<u32, AllocError> {
        let fact = self.facts.fact(number);
        if fact.line != NO_NUMBER {
            return Ok(fact.line);
        }
        self.lines.begin(b'c')?;
        let mut last = fact.question.first;
        self.lines.operation(last)?;
        for place in fact.begin..fact.end {
            let pair = order.pairs().pair(self.facts.pair(place));
            if pair.first != last {
                self.lines.operation(pair.first)?;
            }
            self.lines.operation(pair.second)?;
            last = pair.second;
        }
        if last != fact.question.second {
            self.lines.operation(fact.question.second)?;
        }
        let line = self.lines.finish()?;
        self.facts.keep_line(number, line);
        Ok(line)
    }
}
