//! The numbers of an order's variables, and how many clauses say that it is transitive.
//!
//! `var_layout` and `clause_blocks` have these rules too, where they are proved. They stand here again since a search knows no trace, and
//! what it computes is not believed.

use crate::element::Element;
use formula_numbers::Variable;

/// Returns the number of pairs of elements, which is that of the order's variables.
#[inline(always)]
pub fn pair_count(elements: u32) -> u32 {
    elements.wrapping_mul(elements.wrapping_sub(1)) / 2
}

/// Returns the number of pairs whose lower element is below i.
#[inline(always)]
pub(crate) fn pairs_below(elements: u32, i: Element) -> u32 {
    let i = i.number();
    let before = elements.wrapping_mul(2).wrapping_sub(i).wrapping_sub(1);
    i.wrapping_mul(before) / 2
}

/// Returns the order variable of these two elements: `y(i,j) = i * (2n - i - 1) / 2 + (j - i)`, where i is the lower one and j the
/// higher one of n elements. It says that i stands before j.
#[inline(always)]
pub fn variable_of_pair(elements: u32, a: Element, b: Element) -> Variable {
    let (i, j) = if a < b { (a, b) } else { (b, a) };
    let behind = j.number().wrapping_sub(i.number());
    Variable::new(pairs_below(elements, i).wrapping_add(behind))
}

/// Returns the number of transitivity clauses of an order of this many elements: two for each three of them. They stand one after the other in a
/// formula, and `EncodingHints` counts by it to the id behind them. There elements are at most `MAX_ELEMENTS`, so no product wraps.
pub fn transitivity_count(elements: u32) -> u32 {
    let triples = elements
        .wrapping_mul(elements.wrapping_sub(1))
        .wrapping_mul(elements.wrapping_sub(2));
    triples / 3
}
