//! Sets of elements that are compared as a whole, in each of their three words.

use crate::expectations::{ample, expect};
use order_sets::{Element, ElementSets};

/// Elements of the first, the second and the third word.
const OF_EACH_WORD: [u32; 3] = [5, 69, 133];

/// The owners of a set of one element, and of one with it and its next one.
const ONE: Element = Element::FIRST;

const BOTH: Element = Element::SECOND;

/// Returns the owner of the empty one.
fn empty_one() -> Element {
    Element::new(2)
}

#[test]
fn whole_sets_are_compared_in_each_word(rt: HostRuntime) {
    for number in OF_EACH_WORD {
        let element = Element::new(number);
        let mut sets = ample(&rt, ElementSets::new(rt.alloc(), 160));
        sets.insert(ONE, element);
        sets.insert(BOTH, element);
        sets.insert(BOTH, element.next());
        let number = number as usize;
        expect(
            &rt,
            sets.is_empty(empty_one()) && !sets.is_empty(ONE),
            number,
        );
        expect(&rt, !sets.is_disjoint(ONE, &sets, BOTH), number);
        expect(&rt, sets.is_disjoint(ONE, &sets, empty_one()), number);
        expect(&rt, sets.is_subset(ONE, &sets, BOTH), number);
        expect(&rt, !sets.is_subset(BOTH, &sets, ONE), number);
        expect(&rt, sets.is_subset(empty_one(), &sets, ONE), number);
        sets.take_out(BOTH, element);
        expect(&rt, sets.is_disjoint(ONE, &sets, BOTH), number);
        expect(&rt, !sets.is_subset(ONE, &sets, BOTH), number);
    }
}

#[test]
fn a_set_past_the_table_is_empty(rt: HostRuntime) {
    let mut sets = ample(&rt, ElementSets::new(rt.alloc(), 3));
    sets.insert(ONE, Element::new(2));
    expect(&rt, sets.is_empty(Element::new(3)), 0);
    expect(&rt, sets.is_empty(Element::NONE), 1);
    expect(&rt, sets.is_disjoint(ONE, &sets, Element::new(3)), 2);
    expect(&rt, !sets.is_subset(ONE, &sets, Element::new(3)), 3);
}
