//! Variables that stand for orders of two operations.

ghost use Rattle.std.specs.Prelude.{◌≡◌, true};
ghost use Rattle.order_clauses.specs.Literals.{IsPairOf};

use crate::order_pair::OrderPair;
use dimacs::{Lit, MAX_VARIABLE};
use std::alloc::{AllocError, Global};
use std::collections::HashMap;
use std::marker::Model;

/// Pairs of operations, each with a variable: they are numbered from 1 in the order of their first use.
#[derive(Drop)]
pub struct OrderVariables {
    /// The pair of variable v stands at place v - 1.
    pairs: Vec<OrderPair>,
    /// For each pair its variable. It is compared with `pairs` before it is relied on.
    numbers: HashMap<OrderPair, u32>,
}

impl Model for OrderVariables {
    ghost use Rattle.std.specs.Prelude.{List};
    ghost use Rattle.order_clauses.specs.declared.order_pair.OrderPair.{OrderPair};

    ghost Value = { List OrderPair };

    ghost view = { λ variables. variables.pairs.items };
}

/// Returns whether this is the pair of the variable.
fn is_pair_of(pairs: &[OrderPair], variable: u32, pair: OrderPair) -> bool
    ensures { result ≡ true → IsPairOf pairs.now variable pair }
{
    let place = variable as usize;
    if place == 0 || place > pairs.len() {
        return false;
    }
    pairs[place - 1] == pair
}

impl OrderVariables {
    ghost use Rattle.std.specs.Prelude.{[], None, IfOk, IfSome, OnOk};
    ghost use Rattle.order_clauses.specs.OrderVariables.{IsExtended};
    ghost use Rattle.order_clauses.specs.Literals.{SaysOrder};
    ghost use Rattle.order_clauses.specs.Unmade.{AreFull};

    /// No variables yet.
    pub fn new(alloc: Global) -> OrderVariables
        ensures { result ≡ [] }
    {
        OrderVariables {
            pairs: Vec::new(alloc),
            numbers: HashMap::new(alloc),
        }
    }

    /// The pairs of the variables, in order.
    pub fn pairs(&self) -> &[OrderPair]
        ensures { result.now ≡ self.now }
    {
        self.pairs.as_slice()
    }

    /// The variable that was kept for the pair, if there is one.
    fn find(&self, pair: OrderPair) -> Option<u32>
        ensures { IfSome result (λ variable. IsPairOf self.now variable pair) }
    {
        let variable = self.numbers.get(&pair).copied()?;
        if is_pair_of(self.pairs.as_slice(), variable, pair) {
            Some(variable)
        } else {
            None
        }
    }

    /// A new variable for the pair; none if there are as many as can be numbered.
    fn add(&mut self, pair: OrderPair) -> Result<Option<u32>, AllocError>
        ensures extended { OnOk result (IsExtended self.old self.new) }
        ensures pair { IfOk result (λ found. IfSome found (λ variable. IsPairOf self.new variable pair)) }
        ensures full { IfOk result (λ found. found ≡ None → AreFull self.new) }
    {
        let count = self.pairs.len();
        if count >= MAX_VARIABLE as usize {
            return Ok(None);
        }
        let variable = (count + 1) as u32;
        self.pairs.push(pair)?;
        self.numbers.insert(pair, variable)?;
        Ok(Some(variable))
    }

    /// The variable of the pair.
    fn variable(&mut self, pair: OrderPair) -> Result<Option<u32>, AllocError>
        ensures extended { OnOk result (IsExtended self.old self.new) }
        ensures pair { IfOk result (λ found. IfSome found (λ variable. IsPairOf self.new variable pair)) }
        ensures full { IfOk result (λ found. found ≡ None → AreFull self.new) }
    {
        if let Some(variable) = self.find(pair) {
            return Ok(Some(variable));
        }
        let variable = self.add(pair)?;
        Ok(variable)
    }

    /// The literal that says that the first operation stands before the second; none if there are too many variables. The pair of a
    /// variable is rising, so that both orders of two operations have one variable.
    pub fn literal(&mut self, order: OrderPair) -> Result<Option<Lit>, AllocError>
        ensures extended { OnOk result (IsExtended self.old self.new) }
        ensures says { IfOk result (λ found. IfSome found (λ literal. SaysOrder self.new literal order)) }
        ensures full { IfOk result (λ found. found ≡ None → AreFull self.new) }
    {
        let rising = order.is_rising();
        let pair = if rising { order } else { order.turned() };
        let Some(variable) = self.variable(pair)? else {
            return Ok(None);
        };
        // This does not happen: `add` numbers from 1 up to the largest variable.
        if variable == 0 || variable > MAX_VARIABLE {
            return Ok(None);
        }
        let positive = Lit::positive(variable);
        if rising {
            Ok(Some(positive))
        } else {
            Ok(Some(positive.negated()))
        }
    }
}
