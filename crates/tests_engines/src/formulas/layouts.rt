//! The variables of small traces, and their formulas as values.

use crate::expectations::{ample, expect};
use crate::traces::{STORE_BUFFERING, reduced_of};
use std::alloc::Global;
use std::process::Abort;
use var_layout::candidate::{Candidate, ReadsFromChoice};
use var_layout::layout::{Layout, ReadsFromOwner};

/// One update undoes the other, and the final value is the initial one.
const TWO_UPDATES: &str = "vsc 1\ninit x 0\nfinal x 0\nproc P\nU x 0 1\nproc Q\nU x 1 0\n";

/// A value that no operation writes, and a final value that no operation leaves.
const LOST_VALUES: &str = "vsc 1\nfinal y 5\nproc P\nR x 1\n";

/// Independent reads of independent writes: two readers see two writes in opposite orders.
const IRIW: &str =
    "vsc 1\ninit x 0\ninit y 0\nproc P\nW x 1\nproc Q\nW y 1\nproc S\nR x 1\nR y 0\nproc T\nR y 1\nR x 0\n";

fn layout_of(rt: &impl Abort, alloc: Global, text: &str) -> Layout {
    ample(rt, Layout::of(alloc, &reduced_of(rt, alloc, text)))
}

/// Asserts that these are the first split variables, if no more than the given number is asked for.
fn assert_splits(rt: &impl Abort, alloc: Global, layout: &Layout, most: usize, splits: &[u32]) {
    let found = ample(rt, layout.first_splits(alloc, most));
    expect(rt, found.as_slice() == splits, most);
}

/// Asserts that this literal says that operation i stands before operation j, and its negation that j stands before i.
fn assert_order(rt: &impl Abort, layout: &Layout, i: usize, j: usize, literal: i32) {
    if i == j || i >= layout.operations() || j >= layout.operations() {
        panic!(rt; "no two operations have the numbers {i} and {j}");
    }
    expect(rt, layout.order_lit(i, j).number() == literal, j);
    let turned = layout.order_lit(j, i);
    expect(rt, turned.negated().number() == literal, i);
}

/// Returns whether it is the choice of this writer, or of the initial value where that is None, with this variable.
fn is_choice(choice: &ReadsFromChoice, writer: Option<usize>, variable: u32) -> bool {
    let is_chosen = match choice.candidate {
        Candidate::Writer(found) => writer == Some(found),
        Candidate::InitialValue => writer.is_none(),
    };
    is_chosen && choice.variable == variable
}

/// Asserts which candidates an operation has that reads, with the variables from this one on.
fn assert_choices(
    rt: &impl Abort,
    layout: &Layout,
    reader: usize,
    writers: &[Option<usize>],
    first: u32,
) {
    if !layout.is_reader(reader) {
        panic!(rt; "operation {reader} does not read");
    }
    let choices = layout.choices(reader);
    expect(rt, choices.len() == writers.len(), reader);
    let mut variable = first;
    for (choice, writer) in choices.iter().zip(writers) {
        expect(rt, is_choice(choice, *writer, variable), reader);
        variable = variable.wrapping_add(1);
    }
}

/// Asserts which writers leave the final value of this number, with the variables from this one on.
fn assert_finals(rt: &impl Abort, layout: &Layout, number: usize, writers: &[usize], first: u32) {
    if number >= layout.final_values() {
        panic!(rt; "there is no final value {number}");
    }
    let finals = layout.finals(number);
    expect(rt, finals.len() == writers.len(), number);
    let mut variable = first;
    for (choice, writer) in finals.iter().zip(writers) {
        let is_right = choice.writer == *writer && choice.variable == variable;
        expect(rt, is_right, number);
        variable = variable.wrapping_add(1);
    }
}

/// The order variables of store buffering: of which two operations each says which stands first.
const ORDERS: [(usize, usize, i32); 6] = [
    (0, 1, 1),
    (0, 2, 2),
    (0, 3, 3),
    (1, 2, 4),
    (1, 3, 5),
    (2, 3, 6),
];

#[test]
fn numbers_the_variables_of_store_buffering(rt: HostRuntime) {
    let layout = layout_of(&rt, rt.alloc(), STORE_BUFFERING);
    assert!(rt; layout.count() == 8 && layout.final_values() == 0);
    for (first, second, literal) in &ORDERS {
        assert_order(&rt, &layout, *first, *second, *literal);
    }
    assert_choices(&rt, &layout, 1, &[None], 7);
    assert_choices(&rt, &layout, 3, &[None], 8);
    assert!(rt; layout.void_var(ReadsFromOwner::Read(1)).is_none());
    assert_splits(&rt, rt.alloc(), &layout, 21, &[3, 4]);
    assert_splits(&rt, rt.alloc(), &layout, 1, &[3]);
}

#[test]
fn numbers_the_variables_of_two_updates(rt: HostRuntime) {
    let layout = layout_of(&rt, rt.alloc(), TWO_UPDATES);
    assert!(rt; layout.count() == 5 && layout.final_values() == 1);
    assert_choices(&rt, &layout, 0, &[None, Some(1)], 2);
    assert_choices(&rt, &layout, 1, &[Some(0)], 4);
    assert_finals(&rt, &layout, 0, &[1], 5);
    assert!(rt; layout.void_var(ReadsFromOwner::Final(0)).is_none());
    assert_splits(&rt, rt.alloc(), &layout, 21, &[1]);
}

#[test]
fn has_void_variables_for_lost_values(rt: HostRuntime) {
    let layout = layout_of(&rt, rt.alloc(), LOST_VALUES);
    assert!(rt; layout.count() == 2);
    assert_choices(&rt, &layout, 0, &[], 0);
    assert_finals(&rt, &layout, 0, &[], 0);
    assert!(rt; layout.void_var(ReadsFromOwner::Read(0)) == Some(1));
    assert!(rt; layout.void_var(ReadsFromOwner::Final(0)) == Some(2));
}

#[test]
fn splits_on_conflicts_alone(rt: HostRuntime) {
    let layout = layout_of(&rt, rt.alloc(), IRIW);
    assert!(rt; layout.count() == 19);
    assert_splits(&rt, rt.alloc(), &layout, 4, &[2, 5, 7, 8]);
    assert_splits(&rt, rt.alloc(), &layout, 3, &[2, 5, 7]);
}
