//! Literals that are known to be true, and what they make of a clause. Notes follow hints with it: those that lead to a contradiction, and those
//! of a step that is refused.
//!
//! What notes say of it is untrusted, and lists are short, so a literal is looked for one by one. The checker has its own, with a contract, in
//! `lrat_check`.
#![tactic(auto)]

use dimacs::Lit;
use std::alloc::{AllocError, Global};

/// What the literals that are known make of a clause.
#[derive(Clone, Copy)]
pub enum ClauseEffect {
    /// All its literals are false.
    Contradiction,
    /// This one alone is not false. It may be known already.
    Implies(Lit),
    /// These two are the first that are not false.
    Open(Lit, Lit),
}

/// Literals that are known to be true.
#[derive(Drop)]
pub struct KnownLiterals {
    literals: Vec<Lit>,
}

impl KnownLiterals {
    /// No literal.
    pub fn new(alloc: Global) -> KnownLiterals {
        KnownLiterals {
            literals: Vec::new(alloc),
        }
    }

    /// Adds the literal.
    pub fn add(&mut self, literal: Lit) -> Result<(), AllocError> {
        self.literals.push(literal)?;
        Ok(())
    }

    /// Returns whether the literal is known to be true.
    pub fn has(&self, literal: Lit) -> bool {
        for known in &self.literals {
            if known.number() == literal.number() {
                return true;
            }
        }
        false
    }

    /// Gives what they make of the clause of these literals. A literal that stands twice in it counts once. That one of them is known to be
    /// true is not looked for: it is one that is not false.
    pub fn effect_on(&self, clause: &[Lit]) -> ClauseEffect {
        let mut open: Option<Lit> = None;
        for literal in clause {
            if self.has(literal.negated()) {
                continue;
            }
            match open {
                None => open = Some(*literal),
                Some(first) => {
                    if first.number() != literal.number() {
                        return ClauseEffect::Open(first, *literal);
                    }
                }
            }
        }
        match open {
            Some(literal) => ClauseEffect::Implies(literal),
            None => ClauseEffect::Contradiction,
        }
    }
}
