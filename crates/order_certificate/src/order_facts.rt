//! Facts: that one operation stands before another by a way of older pairs.
//!
//! A pair is given by its number in `OrderedPairs`, which has the reason for it. The line of a fact in the certificate says that its way and the fact turned
//! round would be a cycle, so the fact follows from the pairs of the way.

use conflict_analysis::WayQuestion;
use numbered_log::{NO_NUMBER, NOBODY};
use possible_sources::Time;
use std::alloc::{AllocError, Global};
use total_tables::{at, put, size};

/// That the first operation of the question stands before the second, with the places of the pairs of a way among those of all ways, and the
/// line of the cycle that says it, or `NO_NUMBER`.
#[derive(Clone, Copy)]
pub(crate) struct OrderFact {
    pub(crate) question: WayQuestion,
    pub(crate) begin: u32,
    pub(crate) end: u32,
    pub(crate) line: u32,
}

/// No fact.
const NO_FACT: OrderFact = OrderFact {
    question: WayQuestion {
        first: NOBODY,
        second: NOBODY,
        time: Time::START,
    },
    begin: 0,
    end: 0,
    line: NO_NUMBER,
};

/// A fact that was found in this turn.
#[derive(Clone, Copy)]
struct FoundFact {
    fact: u32,
    turn: u32,
}

/// The number of facts that are found again, which is a power of two. One whose slot another has taken is looked for anew.
const KEPT_FACTS: u32 = 1 << 14;

/// The facts of one explanation.
#[derive(Drop)]
pub(crate) struct OrderFacts {
    facts: Vec<OrderFact>,
    /// The pairs of all ways.
    ways: Vec<u32>,
    found: Vec<FoundFact>,
    turn: u32,
}

/// The slot in which a fact of these two operations is kept, whatever its time. The factors are odd numbers that scatter neighbours.
fn slot_of(question: WayQuestion) -> u32 {
    let mixed = question
        .first
        .number()
        .wrapping_mul(2_654_435_761)
        .wrapping_add(question.second.number().wrapping_mul(2_654_404_609));
    (mixed >> 8) & KEPT_FACTS.wrapping_sub(1)
}

impl OrderFacts {
    /// No fact.
    pub(crate) fn new(alloc: Global) -> Result<OrderFacts, AllocError> {
        Ok(OrderFacts {
            facts: Vec::new(alloc),
            ways: Vec::new(alloc),
            found: vec![in alloc; FoundFact {
                fact: NO_NUMBER,
                turn: 0
            }; KEPT_FACTS as usize]?,
            turn: 0,
        })
    }

    /// Forgets all facts.
    pub(crate) fn clear(&mut self) {
        self.facts.clear();
        self.ways.clear();
        self.turn = self.turn.wrapping_add(1);
    }

    pub(crate) fn fact(&self, number: u32) -> OrderFact {
        at(self.facts.as_slice(), number, NO_FACT)
    }

    /// The number of the pair at this place of the ways. Those of a fact stand from its `begin` up to its `end`.
    pub(crate) fn pair(&self, place: u32) -> u32 {
        at(self.ways.as_slice(), place, NO_NUMBER)
    }

    /// The fact that answers the question by pairs that are old enough, or `NO_NUMBER`.
    pub(crate) fn find(&self, question: WayQuestion) -> u32 {
        let nothing = FoundFact {
            fact: NO_NUMBER,
            turn: 0,
        };
        let found = at(self.found.as_slice(), slot_of(question), nothing);
        let known = self.fact(found.fact).question;
        if found.turn == self.turn
            && known.first == question.first
            && known.second == question.second
            && !question.time.is_before(known.time)
        {
            return found.fact;
        }
        NO_NUMBER
    }

    /// Adds a pair to the way of the fact that comes next.
    pub(crate) fn add_pair(&mut self, pair: u32) -> Result<(), AllocError> {
        self.ways.push(pair)?;
        Ok(())
    }

    /// The place behind all ways.
    pub(crate) fn end(&self) -> u32 {
        size(self.ways.as_slice())
    }

    /// Adds the fact that answers the question by the pairs from this place on. The pairs from `begin` on are those that `add_pair` has added since the
    /// fact before it.
    pub(crate) fn add(&mut self, question: WayQuestion, begin: u32) -> Result<u32, AllocError> {
        let fact = size(self.facts.as_slice());
        let end = self.end();
        self.facts.push(OrderFact {
            question,
            begin,
            end,
            line: NO_NUMBER,
        })?;
        let turn = self.turn;
        let found = FoundFact { fact, turn };
        put(self.found.as_mut_slice(), slot_of(question), found);
        Ok(fact)
    }

    /// Keeps the line of the fact's cycle.
    pub(crate) fn keep_line(&mut self, number: u32, line: u32) {
        let fact = self.fact(number);
        put(
            self.facts.as_mut_slice(),
            number,
            OrderFact { line, ..fact },
        );
    }
}
