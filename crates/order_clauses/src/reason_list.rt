//! The clauses that a certificate names.

ghost use Rattle.std.specs.Prelude.{◌≡◌, ◌⊎◌, ◌++◌, ◌∷◌, [], List, IfOk, OnOk};
ghost use Rattle.order_clauses.specs.ClauseOf.{IsClauseOf};
ghost use Rattle.order_clauses.specs.OrderVariables.{IsExtended};
ghost use Rattle.order_clauses.specs.declared.order_pair.OrderPair.{OrderPair as Order};
ghost use Rattle.order_clauses.specs.Unmade.{AreAlwaysTrue, AreFull, IsAlwaysTrue};
ghost use Rattle.order_clauses.specs.declared.reason_list.ClauseOutcome.TheVariants.{Made, AlwaysTrue, TooManyVariables};

use crate::literal_places::LiteralPlaces;
use crate::order_pair::OrderPair;
use crate::order_variables::OrderVariables;
use dimacs::{Clause, Formula, Lit};
use std::alloc::{AllocError, Global};

/// What came of orders that were to be made a clause.
#[derive(Clone, Copy, Debug, PartialEq, Eq)]
pub enum ClauseOutcome {
    /// The clause was made.
    Made,
    /// One of two of the orders always stands, as program order has one so, or they are opposite.
    AlwaysTrue,
    /// There are more variables than can be numbered.
    TooManyVariables,
}

/// Clauses over orders, and the variables that they are over.
#[derive(Drop)]
pub struct ReasonList {
    variables: OrderVariables,
    clauses: Vec<Clause>,
    places: LiteralPlaces,
}

/// Appends a literal that says the order, if none among the literals does.
fn put_order(
    variables: &mut OrderVariables,
    places: &mut LiteralPlaces,
    literals: &mut Vec<Lit>,
    order: OrderPair,
) -> Result<ClauseOutcome, AllocError>
    ensures extended { OnOk result (IsExtended variables.old variables.new) }
    ensures says { IfOk result (λ outcome. outcome ≡ Made → (orders : List Order) → IsClauseOf variables.old orders literals.old.items → IsClauseOf variables.new (orders ++ order ∷ []) literals.new.items) }
    ensures always { IfOk result (λ outcome. outcome ≡ AlwaysTrue → (orders : List Order) → IsClauseOf variables.old orders literals.old.items → IsAlwaysTrue orders order) }
    ensures full { IfOk result (λ outcome. outcome ≡ TooManyVariables → AreFull variables.new) }
{
    // The makers of clauses leave out orders that program order denies (`push_order` of the crate `reason_clauses`), so program order has this one.
    if order.is_of_one_process() {
        return Ok(ClauseOutcome::AlwaysTrue);
    }
    let Some(literal) = variables.literal(order)? else {
        return Ok(ClauseOutcome::TooManyVariables);
    };
    if places.has(literals.as_slice(), literal.negated()) {
        return Ok(ClauseOutcome::AlwaysTrue);
    }
    places.put(literals, literal)?;
    Ok(ClauseOutcome::Made)
}

/// Appends literals that say the orders; `places` knows which literals the list has. It ends at the first order that gives none: then there is no
/// clause, and the list is worth nothing.
fn put_orders(
    variables: &mut OrderVariables,
    places: &mut LiteralPlaces,
    literals: &mut Vec<Lit>,
    orders: &[OrderPair],
) -> Result<ClauseOutcome, AllocError>
    ensures extended { OnOk result (IsExtended variables.old variables.new) }
    ensures says { IfOk result (λ outcome. outcome ≡ Made → literals.old.items ≡ [] → IsClauseOf variables.new orders.now literals.new.items) }
    ensures none { IfOk result (λ outcome. orders.now ≡ [] → outcome ≡ Made) }
    ensures always { IfOk result (λ outcome. outcome ≡ AlwaysTrue → literals.old.items ≡ [] → AreAlwaysTrue orders.now) }
    ensures full { IfOk result (λ outcome. outcome ≡ TooManyVariables → AreFull variables.new) }
{
    for order in orders {
        let outcome = put_order(variables, places, literals, *order)?;
        if outcome != ClauseOutcome::Made {
            return Ok(outcome);
        }
    }
    Ok(ClauseOutcome::Made)
}

impl ReasonList {
    ghost use Rattle.std.specs.Prelude.{ℕ, length, true};
    ghost use Rattle.std.specs.List.{list_all};
    ghost use Rattle.dimacs.specs.Literal.{is_clause_up_to};
    ghost use Rattle.trace_semantics.specs.Trace.{TraceValue};
    ghost use Rattle.order_reasons.specs.Orders.{HoldsOfSchedules};
    ghost use Rattle.order_clauses.specs.Numbered.{named_orders};
    ghost use Rattle.order_clauses.specs.Appended.{HasSameClauses, IsAppended};
    ghost use Rattle.order_clauses.specs.ReasonList.{HoldReasons};

    /// No clauses yet.
    pub fn new(alloc: Global) -> ReasonList
        ensures none { result.clauses.items ≡ [] }
        ensures hold { (t : TraceValue) → HoldReasons t result.variables result.clauses.items }
    {
        ReasonList {
            variables: OrderVariables::new(alloc),
            clauses: Vec::new(alloc),
            places: LiteralPlaces::new(alloc),
        }
    }

    /// The number of clauses.
    pub fn count(&self) -> usize
        ensures { result ≡ length self.now.clauses.items }
    {
        self.clauses.len()
    }

    /// Appends the clause that one of the orders stands. If none is made, the pairs that it has numbered keep their variables.
    pub fn add(&mut self, alloc: Global, orders: &[OrderPair]) -> Result<ClauseOutcome, AllocError>
        ensures appended { IfOk result (λ outcome. outcome ≡ Made → IsAppended self.old self.new orders.now) }
        ensures none { IfOk result (λ outcome. orders.now ≡ [] → outcome ≡ Made) }
        ensures always { IfOk result (λ outcome. outcome ≡ AlwaysTrue → AreAlwaysTrue orders.now) }
        ensures full { IfOk result (λ outcome. outcome ≡ TooManyVariables → AreFull self.new.variables) }
        ensures hold { OnOk result ((t : TraceValue) → HoldsOfSchedules t (named_orders t orders.now) → HoldReasons t self.old.variables self.old.clauses.items → HoldReasons t self.new.variables self.new.clauses.items) }
    {
        let mut literals = Vec::with_capacity(alloc, orders.len())?;
        let outcome = put_orders(&mut self.variables, &mut self.places, &mut literals, orders)?;
        if outcome == ClauseOutcome::Made {
            self.clauses
                .push(Clause::from_slice(alloc, literals.as_slice())?)?;
        }
        Ok(outcome)
    }

    /// Numbers the pair of the order, if it has no variable yet. No clause changes.
    pub fn number(&mut self, order: OrderPair) -> Result<ClauseOutcome, AllocError>
        ensures same { OnOk result (HasSameClauses self.old self.new) }
        ensures numbered { IfOk result (λ outcome. (outcome ≡ Made) ⊎ ((outcome ≡ TooManyVariables) × AreFull self.new.variables)) }
        ensures hold { OnOk result ((t : TraceValue) → HoldReasons t self.old.variables self.old.clauses.items → HoldReasons t self.new.variables self.new.clauses.items) }
    {
        match self.variables.literal(order)? {
            Some(_literal) => Ok(ClauseOutcome::Made),
            None => Ok(ClauseOutcome::TooManyVariables),
        }
    }

    /// Consumes the list and returns its clauses as a formula over its variables.
    pub fn into_formula(self) -> Result<Formula, AllocError>
        requires { list_all (is_clause_up_to (length self.variables)) self.clauses.items ≡ true }
        ensures { IfOk result (λ formula. formula.clauses ≡ self.clauses.items) }
    {
        let ReasonList {
            variables,
            clauses,
            ..
        } = self;
        // There are at most as many pairs as variables can be numbered, so this does not fail.
        let Ok(count) = u32::try_from(variables.pairs().len()) else {
            return Err(AllocError);
        };
        Ok(Formula::new(count, clauses))
    }
}
