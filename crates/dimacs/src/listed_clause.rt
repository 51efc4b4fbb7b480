//! A clause of a clause list, which takes no memory.
ghost use Rattle.std.specs.Prelude.{◌≡◌, [], ◌∷◌, IsTrue};
ghost use Rattle.dimacs.specs.Literal.{is_clause};

use crate::clause::{Clause, recall_literals};
use crate::literal::Lit;
use std::marker::Model;

/// The literals of a clause that is stored somewhere, or of one that was made just now.
#[derive(Drop)]
enum Literals<'a> {
    /// Those of a stored clause.
    Lent(&'a [Lit]),
    /// Those of a clause that was made, as in the two variants below.
    One([Lit; 1]),
    Two([Lit; 2]),
    Three([Lit; 3]),
}

/// A clause of a clause list. One that is stored is lent, and one of up to three literals may be made when it is asked
/// for.
#[derive(Drop)]
pub struct ListedClause<'a> {
    literals: Literals<'a>,
}

impl<'a> Model for ListedClause<'a> {
    ghost use Rattle.std.specs.Prelude.{List, ℤ, IsTrue};
    ghost use Rattle.dimacs.specs.Literal.{is_clause};

    ghost Value = { List ℤ };

    ghost use Rattle.dimacs.specs.ListedClause.{literals_of};

    ghost view = { λ clause. literals_of clause.literals };

    ghost invariant = { λ clause. IsTrue (is_clause (literals_of clause.literals)) };
}

impl<'a> ListedClause<'a> {
    /// A clause that is stored.
    pub fn lent(clause: &'a Clause) -> ListedClause<'a>
        ensures { result ≡ clause.now }
    {
        ListedClause {
            literals: Literals::Lent(clause.as_slice()),
        }
    }

    /// The clause of this literal.
    pub fn unit(literal: Lit) -> ListedClause<'a>
        ensures { result ≡ literal ∷ [] }
    {
        let places = [literal];
        recall_literals(&places);
        ListedClause {
            literals: Literals::One(places),
        }
    }

    /// The clause of these two literals.
    pub fn binary(first: Lit, second: Lit) -> ListedClause<'a>
        ensures { result ≡ first ∷ (second ∷ []) }
    {
        let places = [first, second];
        recall_literals(&places);
        ListedClause {
            literals: Literals::Two(places),
        }
    }

    /// The clause of these three literals.
    pub fn ternary(first: Lit, second: Lit, third: Lit) -> ListedClause<'a>
        ensures { result ≡ first ∷ (second ∷ (third ∷ [])) }
    {
        let places = [first, second, third];
        recall_literals(&places);
        ListedClause {
            literals: Literals::Three(places),
        }
    }

    /// The literals, none of which is 0.
    pub fn as_slice(&self) -> &[Lit]
        ensures literals { result.now ≡ self.now }
        ensures clause { IsTrue (is_clause result.now) }
    {
        match &self.literals {
            Literals::Lent(literals) => literals,
            Literals::One(places) => places,
            Literals::Two(places) => places,
            Literals::Three(places) => places,
        }
    }
}
