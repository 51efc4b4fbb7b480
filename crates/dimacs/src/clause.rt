//! Clauses: lists of literals.
ghost use Rattle.std.specs.Prelude.{◌≡◌, [], ◌∷◌, ◌≤◌, length, IsTrue, IsOk, IfOk};
ghost use Rattle.dimacs.specs.Literal.{is_clause, is_clause_up_to};

use crate::literal::Lit;
use smallvec::SmallVec;
use std::alloc::{AllocError, Global};
use std::marker::Model;

/// Clauses up to this length are stored inline.
const INLINE: usize = 4;

/// A list of literals, of which a true one makes it true.
pub struct Clause {
    literals: SmallVec<Lit, INLINE>,
}

/// Drops the literals in one call. A derived `Drop` would drop each at every exit of a function that owns a clause, which makes its proof longer.
impl Drop for Clause {
    fn drop(self) {
        let Clause {
            literals: _literals,
        } = self;
    }
}

impl Model for Clause {
    ghost use Rattle.std.specs.Prelude.{List, ℤ, IsTrue};
    ghost use Rattle.dimacs.specs.Literal.{is_clause};

    ghost Value = { List ℤ };

    ghost view = { λ clause. clause.literals.items };

    ghost invariant = { λ clause. IsTrue (is_clause clause.literals.items) };
}

/// Hands its caller, in proofs alone, what literals keep: none is 0. Does nothing when run.
pub fn recall_literals(literals: &[Lit])
    ensures { IsTrue (is_clause literals.now) }
{
    for literal in literals {
        let _number = literal.number();
    }
}

impl Clause {
    /// A copy of these literals. Up to four need no memory.
    pub fn from_slice(alloc: Global, literals: &[Lit]) -> Result<Clause, AllocError>
        ensures ok { IfOk result (λ clause. clause ≡ literals.now) }
        ensures short { length literals.now ≤ 4 → IsOk result }
    {
        recall_literals(literals);
        Ok(Clause {
            literals: SmallVec::from_slice(alloc, literals)?,
        })
    }

    /// The clause of this literal. It needs no memory.
    pub fn unit(alloc: Global, literal: Lit) -> Clause
        ensures { result ≡ literal ∷ [] }
    {
        // an array must be full: the places past the length hold literals that are never read, here and below
        let places = [literal; INLINE];
        recall_literals(&places);
        Clause {
            literals: SmallVec::from_buf_and_len(alloc, places, 1),
        }
    }

    /// The clause of these two literals. It needs no memory.
    pub fn binary(alloc: Global, first: Lit, second: Lit) -> Clause
        ensures { result ≡ first ∷ (second ∷ []) }
    {
        let places = [first, second, second, second];
        recall_literals(&places);
        Clause {
            literals: SmallVec::from_buf_and_len(alloc, places, 2),
        }
    }

    /// The clause of these three literals. It needs no memory.
    pub fn ternary(alloc: Global, first: Lit, second: Lit, third: Lit) -> Clause
        ensures { result ≡ first ∷ (second ∷ (third ∷ [])) }
    {
        let places = [first, second, third, third];
        recall_literals(&places);
        Clause {
            literals: SmallVec::from_buf_and_len(alloc, places, 3),
        }
    }

    /// Returns whether all of its variables are among 1 to that.
    pub fn is_over(&self, variables: u32) -> bool
        ensures { result ≡ is_clause_up_to variables self.now }
    {
        self.literals
            .as_slice()
            .iter()
            .all(|literal| literal.is_over(variables))
    }

    /// The literals, none of which is 0.
    pub fn as_slice(&self) -> &[Lit]
        ensures literals { result.now ≡ self.now }
        ensures clause { IsTrue (is_clause result.now) }
    {
        self.literals.as_slice()
    }
}
