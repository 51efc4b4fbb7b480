//! The numbers of the clauses that say that an order is transitive.

use crate::element::Element;
use formula_numbers::ClauseId;
use std::alloc::{AllocError, Global};
use total_tables::{at, put};

/// The numbers of the clauses `-y(i,j) -y(j,k) y(i,k)` and `y(i,j) y(j,k) -y(i,k)`, for all i below j below k in lexicographic order. The
/// encoding writes them in this order: with another one here each hint names a wrong clause.
///
/// Two tables by elements are added up, where one by triples would have 669,920 entries for 160 elements.
#[derive(Drop)]
pub struct TripleIds {
    first: ClauseId,
    /// For each i the number of triples that begin below i, less that of the pairs (j, k) with j up to i, which `middle` counts and which do not
    /// come behind i. This may wrap below 0; the sum with an entry of `middle` does not.
    smallest: Vec<u32>,
    /// For each element the number of pairs (j, k) with j below it and k above j.
    middle: Vec<u32>,
}

impl TripleIds {
    /// Makes the numbers for an order of this number of elements, if this is the first clause.
    pub fn new(alloc: Global, elements: u32, first: ClauseId) -> Result<TripleIds, AllocError> {
        let mut smallest = vec![in alloc; 0; elements as usize]?;
        let mut middle = vec![in alloc; 0; elements as usize]?;
        // The number of triples that begin below i, and of pairs (j, k) with j below the element at hand.
        let mut triples: u32 = 0;
        let mut pairs: u32 = 0;
        for i in 0..elements {
            let above = elements - 1 - i;
            put(middle.as_mut_slice(), i, pairs);
            pairs = pairs.wrapping_add(above);
            put(smallest.as_mut_slice(), i, triples.wrapping_sub(pairs));
            triples = triples.wrapping_add(above.wrapping_mul(above.wrapping_sub(1)) / 2);
        }
        Ok(TripleIds {
            first,
            smallest,
            middle,
        })
    }

    /// Returns the number of the clause of i below j below k that has two negative literals, or with 1 instead of 0 that of the one which has one.
    fn of_triple(&self, i: Element, j: Element, k: Element, one_negative: u32) -> ClauseId {
        let triple = at(self.smallest.as_slice(), i.number(), 0)
            .wrapping_add(at(self.middle.as_slice(), j.number(), 0))
            .wrapping_add(k.number().wrapping_sub(j.number()).wrapping_sub(1));
        self.first.ahead(triple.wrapping_mul(2)).ahead(one_negative)
    }

    /// Returns the number of the clause that forbids the cycle in which a stands before b, b before c and c before a.
    pub fn of_cycle(&self, a: Element, b: Element, c: Element) -> ClauseId {
        // The cycle is turned so that its smallest element comes first. Then its direction picks one of two clauses.
        let (i, p, q) = if b < a && b < c {
            (b, c, a)
        } else if c < a && c < b {
            (c, a, b)
        } else {
            (a, b, c)
        };
        if p < q {
            self.of_triple(i, p, q, 0)
        } else {
            self.of_triple(i, q, p, 1)
        }
    }
}
