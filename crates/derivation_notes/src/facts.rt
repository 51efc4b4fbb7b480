//! What is known at a point of a unit propagation.

use known_literals::KnownLiterals;
use std::alloc::{AllocError, Global};

/// Why an order of two operations is known. Operations are named by their numbers, from 0, in the reduced trace.
#[derive(Clone, Copy)]
pub enum OrderReason {
    ProgramOrder,
    /// The trace says it, by a before line or by times.
    BeforePair,
    /// The operation of this number stands between them, and both halves were known before this order.
    Through(usize),
    /// A sentence has said it, or a step supposes it: no further reason is given.
    Said,
}

/// An order of two operations that is known.
#[derive(Clone, Copy)]
pub struct ReasonedOrder {
    pub first: usize,
    pub second: usize,
    pub reason: OrderReason,
}

/// The literals that are true, and the orders among them with their reasons. Only a derivation of few hints is followed so (`explaining.rt`), and each hint
/// and each literal that a step supposes gives one order or none: the list is short, so `reason_of` goes over it.
#[derive(Drop)]
pub struct Facts {
    /// All literals that are true, by which clauses are followed.
    pub literals: KnownLiterals,
    /// The orders that they say, by which sentences are made.
    orders: Vec<ReasonedOrder>,
}

impl Facts {
    /// Nothing.
    pub fn new(alloc: Global) -> Facts {
        Facts {
            literals: KnownLiterals::new(alloc),
            orders: Vec::new(alloc),
        }
    }

    /// Adds an order, with its reason. The caller adds its literal to `literals`. If an order is added twice, its first reason stands.
    pub fn add_order(
        &mut self,
        first: usize,
        second: usize,
        reason: OrderReason,
    ) -> Result<(), AllocError> {
        self.orders.push(ReasonedOrder {
            first,
            second,
            reason,
        })?;
        Ok(())
    }

    /// Why the first operation stands before the second, if that is known.
    pub fn reason_of(&self, first: usize, second: usize) -> Option<OrderReason> {
        for order in &self.orders {
            if order.first == first && order.second == second {
                return Some(order.reason);
            }
        }
        None
    }
}
