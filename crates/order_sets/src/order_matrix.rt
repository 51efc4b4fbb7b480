//! A transitively closed strict order as sets of bits.

use crate::element::Element;
use crate::element_sets::{ElementSets, MAX_ELEMENTS, next_element};
use crate::order_numbers::{pair_count, pairs_below, variable_of_pair};
use formula_numbers::{LiteralCode, NEVER, Variable};
use std::alloc::{AllocError, Global};
use total_tables::{at, piece, put};

/// A literal of the order that follows, and the element over which it does: x(a,c) over b, from x(a,b) and x(b,c).
#[derive(Clone, Copy)]
pub struct Implied {
    pub literal: LiteralCode,
    /// The element between the two that the literal puts in order.
    pub over: Element,
}

/// A strict order of elements. For each element there are two sets, of those after it and of those before it, and
/// both are transitively closed at all times, so that transitivity never comes into conflict.
///
/// The variable y(i,j) = i * (2n - i - 1) / 2 + (j - i) says that i stands before j, for i below j below n. Its negation says
/// that j stands before i.
#[derive(Drop)]
pub struct OrderMatrix {
    elements: u32,
    variables: u32,
    successors: ElementSets,
    before: ElementSets,
    /// For each element i the number y(i,j) minus j, so that a literal's number takes one addition.
    bases: Vec<u32>,
    /// For each variable its two elements, i in the upper half. They are tabled since y(i,j) is quadratic in i: to find i again would take a
    /// root or a search.
    pairs: Vec<u32>,
    /// What the last added pair implied, up to `count`. It has room for all variables, so that `add` takes no memory and cannot fail.
    implied: Vec<Implied>,
    count: u32,
}

impl OrderMatrix {
    /// Makes the order of at most 192 elements in which no two are in order yet. More are never asked for: `EncodingHints`, which has their
    /// number, takes no order of more.
    pub fn new(alloc: Global, elements: u32) -> Result<OrderMatrix, AllocError> {
        let elements = elements.min(MAX_ELEMENTS);
        let variables = pair_count(elements);
        let nothing = Implied {
            literal: NEVER,
            over: Element::NONE,
        };
        let mut matrix = OrderMatrix {
            elements,
            variables,
            successors: ElementSets::new(alloc, elements)?,
            before: ElementSets::new(alloc, elements)?,
            bases: vec![in alloc; 0; elements as usize]?,
            pairs: vec![in alloc; 0; variables.wrapping_add(1) as usize]?,
            implied: vec![in alloc; nothing; variables.wrapping_add(1) as usize]?,
            count: 0,
        };
        matrix.number_variables();
        Ok(matrix)
    }

    /// Gives each pair its variable.
    fn number_variables(&mut self) {
        let elements = self.elements;
        for i in 0..elements {
            let base = pairs_below(elements, Element::new(i)).wrapping_sub(i);
            put(self.bases.as_mut_slice(), i, base);
            for j in i + 1..elements {
                let variable = variable_of_pair(elements, Element::new(i), Element::new(j));
                put(self.pairs.as_mut_slice(), variable.number(), (i << 16) | j);
            }
        }
    }

    /// Returns the number of variables of the order, which are counted from 1.
    #[inline(always)]
    pub fn variables(&self) -> u32 {
        self.variables
    }

    /// Returns the number of elements.
    pub fn elements(&self) -> u32 {
        self.elements
    }

    /// Returns the literal that says that the one stands before the other. They must be two different elements: of one with itself the number would be 0 or
    /// that of another pair.
    #[inline(always)]
    pub fn literal(&self, a: Element, b: Element) -> LiteralCode {
        let bases = self.bases.as_slice();
        if a < b {
            let base = at(bases, a.number(), 0);
            Variable::new(base.wrapping_add(b.number())).positive()
        } else {
            let base = at(bases, b.number(), 0);
            Variable::new(base.wrapping_add(a.number())).negative()
        }
    }

    /// Returns the two elements of the literal, the one that it puts first before the other.
    #[inline(always)]
    pub fn ends(&self, literal: LiteralCode) -> (Element, Element) {
        let pair = at(self.pairs.as_slice(), literal.variable().number(), 0);
        let lower = Element::new(pair >> 16);
        let higher = Element::new(pair & 0xffff);
        if literal.is_positive() {
            (lower, higher)
        } else {
            (higher, lower)
        }
    }

    /// Returns the successors of each element.
    #[inline(always)]
    pub fn successors(&self) -> &ElementSets {
        &self.successors
    }

    /// Returns the predecessors of each element. Sorting by their number gives a total order that extends this one.
    #[inline(always)]
    pub fn predecessors(&self) -> &ElementSets {
        &self.before
    }

    /// Records that a stands before b over the element.
    #[inline(always)]
    fn imply(&mut self, a: Element, b: Element, over: Element) {
        let literal = self.literal(a, b);
        put(
            self.implied.as_mut_slice(),
            self.count,
            Implied { literal, over },
        );
        self.count = self.count.wrapping_add(1);
    }

    /// Puts a before all elements that stand after b and not yet after a, over b. The literal that a stands before b must be known or recorded by now.
    #[inline(always)]
    fn inherit_behind(&mut self, a: Element, b: Element) {
        for w in 0..self.successors.words() {
            let mut added = self.successors.join_word(a, b, w);
            for _ in 0..64 {
                let Some(c) = next_element(&mut added, w) else {
                    break;
                };
                self.before.insert(c, a);
                self.imply(a, c, b);
            }
        }
    }

    /// Adds the pair (a, b) and closes the order incrementally: all of a and its predecessors come before all of b and its successors. New
    /// literals are in `implied`, without that of the pair itself, each after those from which it follows, since hints of a proof must name what is
    /// known already.
    /// Precondition (not checked): b is not before a.
    pub fn add(&mut self, a: Element, b: Element) {
        self.count = 0;
        self.inherit_behind(a, b);
        self.successors.insert(a, b);
        for v in 0..self.before.words() {
            let mut added = self.before.join_word(b, a, v);
            for _ in 0..64 {
                let Some(c) = next_element(&mut added, v) else {
                    break;
                };
                self.successors.insert(c, b);
                self.imply(c, b, a);
                self.inherit_behind(c, b);
            }
        }
        self.before.insert(b, a);
    }

    /// Returns the literals that the last added pair implied.
    #[inline(always)]
    pub fn implied(&self) -> &[Implied] {
        piece(self.implied.as_slice(), 0, self.count)
    }

    /// Removes the pair (a, b) alone. Callers undo all later pairs too, in reverse order, as the trail does: each implied pair is a literal of
    /// its own there, so nothing has to be closed anew.
    #[inline(always)]
    pub fn remove(&mut self, a: Element, b: Element) {
        self.successors.take_out(a, b);
        self.before.take_out(b, a);
    }
}
