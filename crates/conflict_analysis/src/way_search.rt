//! A way from one operation to a later one by program order and older pairs.
//!
//! Past the end of a table `at` reads as its last argument, and `put` does nothing; so arithmetic may wrap, and a wrong place makes no fault.

use closed_rows::OrderedPairs;
use numbered_log::{NO_NUMBER, NumberedLog, OperationId};
use order_propagation::Propagation;
use possible_sources::Time;
use std::alloc::{AllocError, Global};
use total_tables::{at, put, size};

/// What is asked for: why the first operation stands before the second by pairs that are older than a time.
#[derive(Clone, Copy)]
pub struct WayQuestion {
    pub first: OperationId,
    pub second: OperationId,
    pub time: Time,
}

impl WayQuestion {
    /// Asks why the first operation stands before the second, by pairs that are older than the time.
    pub fn new(first: OperationId, second: OperationId, time: Time) -> WayQuestion {
        WayQuestion {
            first,
            second,
            time,
        }
    }

    /// Returns whether program order answers it, or both operations are one.
    pub fn is_of_program_order(self, log: &NumberedLog) -> bool {
        let earlier = log.operation(self.first);
        let later = log.operation(self.second);
        earlier.process == later.process && earlier.place <= later.place
    }
}

/// A search for a way with the fewest pairs that are not used yet, since each of them is a further literal or a further question. A pair costs
/// one or nothing, so two lists are enough for the order in which operations are met.
pub struct WaySearch {
    /// The number of the search at hand, by which each operation that it has met is known.
    turn: u32,
    /// For each operation the number of the search that has met it last.
    turns: Vec<u32>,
    /// For each operation that was met the number of new pairs up to it. It is of use only while `turns` has the number of the search at hand, as is the
    /// arrival.
    lengths: Vec<u32>,
    /// The pair by which it was met, or `NO_NUMBER` for the one before it in its process.
    arrivals: Vec<u32>,
    /// The operations met at the length at hand, and at the next.
    near: Vec<OperationId>,
    far: Vec<OperationId>,
    /// The pairs of the way, the last first.
    way: Vec<u32>,
    /// Whether a way may lead over any operation, and not only over those that stand before its end by the rows.
    leads_anywhere: bool,
    /// Looks that `take_steps` has not handed over yet.
    steps: u64,
}

/// Drops each table in one call. A derived `Drop` would drop each at every exit of a function that owns a search, which makes its proof longer.
impl Drop for WaySearch {
    fn drop(self) {
        let WaySearch {
            turn: _,
            turns: _turns,
            lengths: _lengths,
            arrivals: _arrivals,
            near: _near,
            far: _far,
            way: _way,
            leads_anywhere: _,
            steps: _,
        } = self;
    }
}

impl WaySearch {
    /// A search that has not begun, in a log of this number of operations.
    pub fn new(alloc: Global, operations: u32) -> Result<WaySearch, AllocError> {
        let count = operations as usize;
        Ok(WaySearch {
            turn: 0,
            turns: vec![in alloc; 0; count]?,
            lengths: vec![in alloc; 0; count]?,
            arrivals: vec![in alloc; NO_NUMBER; count]?,
            near: Vec::new(alloc),
            far: Vec::new(alloc),
            way: Vec::new(alloc),
            leads_anywhere: false,
            steps: 0,
        })
    }

    /// The number of pairs of the way that was found.
    pub fn pairs(&self) -> u32 {
        size(self.way.as_slice())
    }

    /// The pair of the way that has this number.
    pub fn pair(&self, number: u32) -> u32 {
        at(self.way.as_slice(), number, NO_NUMBER)
    }

    /// The number of steps since it was last asked, which goes on.
    pub fn steps(&self) -> u64 {
        self.steps
    }

    /// The number of steps since it was last asked.
    pub fn take_steps(&mut self) -> u64 {
        let steps = self.steps;
        self.steps = 0;
        steps
    }

    /// Finds a way. Pairs that are marked cost nothing, and neither do those of no decision if these need no reason.
    ///
    /// While a walk looks only at what is in reach, a row of what stands after an operation may lack what the other rows have. A question
    /// without an answer would leave the conflict with fewer reasons than it has, so the way is then looked for without these rows.
    pub fn find(
        &mut self,
        order: &Propagation<'_>,
        question: WayQuestion,
        is_marked: &[bool],
        asks_all: bool,
    ) -> Result<(), AllocError> {
        self.leads_anywhere = false;
        self.look_for(order, question, (is_marked, asks_all))?;
        if !self.is_met(question.second) {
            self.leads_anywhere = true;
            self.look_for(order, question, (is_marked, asks_all))?;
        }
        self.retrace(order.pairs(), question)
    }

    /// Returns whether the search at hand has met the operation.
    #[inline(always)]
    fn is_met(&self, number: OperationId) -> bool {
        at(self.turns.as_slice(), number.number(), 0) == self.turn
    }

    /// Goes on from the first operation of the question until its second is met, or nothing is left. `costs` has for each pair whether it is marked, and
    /// whether pairs of no decision cost as others do.
    fn look_for(
        &mut self,
        order: &Propagation<'_>,
        question: WayQuestion,
        costs: (&[bool], bool),
    ) -> Result<(), AllocError> {
        self.turn = self.turn.wrapping_add(1);
        self.near.clear();
        self.far.clear();
        self.meet(question.first, 0, NO_NUMBER, true)?;
        let mut length: u32 = 0;
        // The bound is never reached: an operation is met again only at a smaller length.
        for _ in 0..u64::MAX {
            let Some(number) = self.near.pop() else {
                if self.far.is_empty() {
                    break;
                }
                length = length.wrapping_add(1);
                self.begin_next()?;
                continue;
            };
            if number == question.second {
                break;
            }
            // An operation that was met again at a smaller length is still in the list of the larger one, and was gone on from before.
            if at(self.lengths.as_slice(), number.number(), 0) == length {
                let from = (number, length);
                self.go_on(order, question, from)?;
                self.follow_pairs(order, question, from, costs)?;
            }
        }
        Ok(())
    }

    /// Makes the operations of the next length those at hand.
    fn begin_next(&mut self) -> Result<(), AllocError> {
        for _ in 0..self.far.len() {
            let Some(number) = self.far.pop() else {
                break;
            };
            self.near.push(number)?;
        }
        Ok(())
    }

    /// Meets the operation, unless it was met at this length or a smaller one.
    #[inline(always)]
    fn meet(
        &mut self,
        number: OperationId,
        length: u32,
        arrival: u32,
        is_near: bool,
    ) -> Result<(), AllocError> {
        if self.is_met(number) && at(self.lengths.as_slice(), number.number(), 0) <= length {
            return Ok(());
        }
        put(self.turns.as_mut_slice(), number.number(), self.turn);
        put(self.lengths.as_mut_slice(), number.number(), length);
        put(self.arrivals.as_mut_slice(), number.number(), arrival);
        if is_near {
            self.near.push(number)?;
        } else {
            self.far.push(number)?;
        }
        Ok(())
    }

    /// Returns whether a way may lead over this operation.
    #[inline(always)]
    fn leads_on(
        &self,
        order: &Propagation<'_>,
        question: WayQuestion,
        number: OperationId,
    ) -> bool {
        number == question.second
            || self.leads_anywhere
            || order.stands_before(number, question.second)
    }

    /// Goes on to the next operation of the process. `from` has the operation, and the number of new pairs up to it.
    fn go_on(
        &mut self,
        order: &Propagation<'_>,
        question: WayQuestion,
        from: (OperationId, u32),
    ) -> Result<(), AllocError> {
        self.steps = self.steps.wrapping_add(4);
        let operation = order.log().operation(from.0);
        let next = from.0.next();
        if operation.place < order.log().last_place(operation.process)
            && self.leads_on(order, question, next)
        {
            self.meet(next, from.1, NO_NUMBER, true)?;
        }
        Ok(())
    }

    /// Goes on by the pairs of which the operation is the first.
    fn follow_pairs(
        &mut self,
        order: &Propagation<'_>,
        question: WayQuestion,
        from: (OperationId, u32),
        costs: (&[bool], bool),
    ) -> Result<(), AllocError> {
        // The last pair comes first, so those that are too new are passed over, and older ones follow.
        let mut number = order.pairs().last_of(from.0);
        for _ in 0..order.pairs().count() {
            if number == NO_NUMBER {
                break;
            }
            let pair = order.pairs().pair(number);
            self.steps = self.steps.wrapping_add(4);
            if pair.time.is_before(question.time) && self.leads_on(order, question, pair.second) {
                let is_free = at(costs.0, number, false) || (pair.level == 0 && !costs.1);
                let length = from.1.wrapping_add(!is_free as u32);
                self.meet(pair.second, length, number, is_free)?;
            }
            number = pair.previous;
        }
        Ok(())
    }

    /// Notes the pairs of the way that was found. If the second operation was not met, there are none.
    fn retrace(&mut self, pairs: &OrderedPairs, question: WayQuestion) -> Result<(), AllocError> {
        self.way.clear();
        let mut number = question.second;
        for _ in 0..self.turns.len() {
            if number == question.first || !self.is_met(number) {
                break;
            }
            let arrival = at(self.arrivals.as_slice(), number.number(), NO_NUMBER);
            if arrival == NO_NUMBER {
                // It was met from the operation before it in its process, whose number is one less.
                number = number.previous();
            } else {
                self.way.push(arrival)?;
                number = pairs.pair(arrival).first;
            }
        }
        Ok(())
    }
}
