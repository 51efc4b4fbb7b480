//! A trail with an order that is transitively closed at each assignment.

use crate::activities::Activities;
use crate::candidates::Candidates;
use crate::trail::Trail;
use clause_database::{EncodingHints, ReadsFromTable, Reason, ReasonClause, Store};
use order_sets::{Element, OrderMatrix, TripleIds};
use proof_log::codes::{LiteralCode, NEVER, Variable};
use std::alloc::{AllocError, Global};
use total_tables::at;

/// A trail, and the order that the hints describe. When a literal of the order becomes true, all that transitivity implies becomes true
/// with it, so that its clauses never come into conflict and are never visited. (To close the order only when the literal is propagated
/// took up to twice the time in a prototype.)
pub struct OrderedTrail<'a> {
    /// The trail. Literals are made true by `assign` alone.
    pub trail: Trail,
    order: OrderMatrix,
    ids: TripleIds,
    /// The reads-from variables, if the hints have them.
    pub reads_from: Option<&'a ReadsFromTable>,
    /// Reads-from candidates: which choices are open, and which are made. They follow the trail, so that propagation and counting look at sets of bits, and not
    /// at each variable.
    pub candidates: Candidates,
}

/// Drops the tables in one call. A derived `Drop` would drop each at every exit of a function that owns an ordered trail, which makes its proof longer.
impl Drop for OrderedTrail<'_> {
    fn drop(self) {
        let OrderedTrail {
            trail: _trail,
            order: _order,
            ids: _ids,
            reads_from: _,
            candidates: _candidates,
        } = self;
    }
}

impl<'a> OrderedTrail<'a> {
    /// Starts with an empty trail over this many variables.
    pub fn new(
        alloc: Global,
        variables: u32,
        encoding: EncodingHints<'a>,
    ) -> Result<OrderedTrail<'a>, AllocError> {
        let order = OrderMatrix::new(alloc, encoding.elements())?;
        let mut candidates = Candidates::new(alloc, encoding.elements())?;
        for choice in encoding.choices() {
            if let Some(choice) = choice {
                candidates.offer(*choice);
            }
        }
        Ok(OrderedTrail {
            trail: Trail::new(alloc, variables, order.variables())?,
            order,
            ids: TripleIds::new(alloc, encoding.elements(), encoding.first())?,
            reads_from: encoding.reads_from(),
            candidates,
        })
    }

    /// Returns the order that the trail implies.
    #[inline(always)]
    pub fn order(&self) -> &OrderMatrix {
        &self.order
    }

    /// Returns the literal which says that the first of two elements stands before the second.
    #[inline(always)]
    pub fn before(&self, a: Element, b: Element) -> LiteralCode {
        self.order.literal(a, b)
    }

    /// Returns the elements of which an order literal says that the first stands before the second.
    #[inline(always)]
    pub(crate) fn ends(&self, literal: LiteralCode) -> (Element, Element) {
        self.order.ends(literal)
    }

    /// Returns whether the variable is one of the order.
    #[inline(always)]
    pub(crate) fn is_of_order(&self, variable: Variable) -> bool {
        variable.number() <= self.order.variables()
    }

    #[inline(always)]
    pub fn value(&self, literal: LiteralCode) -> u8 {
        self.trail.value(literal)
    }

    /// Assigns the literal, and all that it implies in the order.
    #[inline(always)]
    pub fn assign(&mut self, literal: LiteralCode, reason: Reason) {
        self.trail.push(literal, reason);
        if self.is_of_order(literal.variable()) {
            self.close(literal);
        } else if let Some(reads_from) = self.reads_from
            && let Some(choice) = reads_from.choice(literal.variable())
        {
            self.candidates.settle(choice, literal.is_positive());
        }
    }

    /// Assigns what the literal implies by transitivity. The literal must have been open, so that the pair closes no cycle. `implied` has each
    /// literal behind those from which it follows, so on the trail the reasons of a literal stand before it, as conflict analysis needs.
    fn close(&mut self, literal: LiteralCode) {
        let (a, b) = self.ends(literal);
        self.order.add(a, b);
        for implied in self.order.implied() {
            self.trail.push(
                implied.literal,
                Reason::Transitive {
                    element: implied.over,
                },
            );
        }
    }

    /// Returns the reason of a true literal as a clause. A stored clause and that of a choice have the literal too, the others only those that made
    /// it true: a caller has marked its variable before. A decision has none (`ReasonClause::none`).
    #[inline(always)]
    pub fn reason(&self, store: &Store, literal: LiteralCode) -> ReasonClause {
        match self.trail.state(literal.variable()).reason {
            Reason::Decision => ReasonClause::none(),
            Reason::Clause { id, first, second } => ReasonClause::of_literals(
                id, first, second, NEVER,
            ),
            Reason::Stored { clause } => store.reason(clause),
            Reason::Choice { choice, writer } => match self.reads_from {
                Some(reads_from) => self.clause_of_choice(reads_from, choice, writer),
                None => ReasonClause::none(),
            },
            Reason::Transitive { element } => {
                let (a, b) = self.ends(literal);
                ReasonClause::of_literals(
                    self.ids.of_cycle(a, element, b),
                    self.before(element, a),
                    self.before(b, element),
                    NEVER,
                )
            }
        }
    }

    /// Returns whether the literal, or its negation, was decided. It is asked of variables that have a value.
    pub fn was_decided(&self, literal: LiteralCode) -> bool {
        let reason = self.trail.state(literal.variable()).reason;
        matches!(reason, Reason::Decision)
    }

    /// Backtracks to the level: undoes all later assignments. Their variables go back into the heap, from which a decision takes those out
    /// that it finds assigned.
    pub fn backtrack(&mut self, level: u32, activities: &mut Activities) {
        if level >= self.trail.level() {
            return;
        }
        let from = self.trail.limit(level);
        for _ in from..self.trail.count() {
            let literal = self.trail.pop();
            if self.is_of_order(literal.variable()) {
                let (a, b) = self.ends(literal);
                self.order.remove(a, b);
            } else if let Some(reads_from) = self.reads_from
                && let Some(choice) = reads_from.choice(literal.variable())
            {
                self.candidates.reopen(choice, literal.is_positive());
            }
            activities.insert(literal.variable());
        }
        self.trail.resume(level);
    }

    /// Returns the rank of each event in a total order that extends the known one. An event with fewer predecessors comes first: the order is
    /// closed, so whatever stands before an event has fewer. Ties go by number, in the lower eight bits.
    pub fn ranks(&self, alloc: Global) -> Result<Vec<u32>, AllocError> {
        let elements = self.order.elements();
        let mut ranks = Vec::with_capacity(alloc, elements as usize)?;
        for element in 0..elements {
            ranks.push(
                self.order
                    .predecessors()
                    .count(Element::new(element))
                    .wrapping_mul(256)
                    .wrapping_add(element),
            )?;
        }
        Ok(ranks)
    }

    /// Returns the value of an order variable under these ranks, or none for another variable.
    pub fn by_rank(&self, ranks: &[u32], variable: Variable) -> Option<bool> {
        if !self.is_of_order(variable) {
            return None;
        }
        let (a, b) = self.ends(variable.positive());
        Some(at(ranks, a.number(), 0) < at(ranks, b.number(), 0))
    }
}
