//! The literals of an open cube as orders of operations.
//!
//! A report that a trace is undecided has a line `open LITERAL .. 0` for each cube that stayed open. `open_cubes` notes the first of them
//! in words, by the trace and the layout of its variables. A cube is made by splitting on order variables alone, so each of its literals
//! says of two operations which one stands before the other.

ghost use Rattle.std.specs.Prelude.{◌≡◌, ◌<◌, ◌++◌, ℕ, List, Some, IfOk, OnOk, MatchOption};
ghost use Rattle.std.specs.List.{flat_map};
ghost use Rattle.text_lines.specs.Numbers.{solver_number};
ghost use Rattle.text_lines.specs.Words.{words_of};
ghost use Rattle.trace_semantics.specs.Trace.{operation_count};
ghost use Rattle.verdict_notes.specs.declared.open_orders.NumberedOrder.{NumberedOrder as SaidOrder};
ghost use Rattle.verdict_notes.specs.OpenCubes.{Says, Writes, WritesNone, WritesNoLiteral, AreWritten, name_at, order_text, later_text, orders_text};

use crate::kept_operations::KeptOp;
use dimacs::Lit;
use itoa::Buffer;
use lrat_check::lrat_number::read_literal;
use std::alloc::{AllocError, Global};
use text_lines::words::cut_word;
use var_layout::layout::Layout;

/// Two operations by their numbers, of which the first stands before the second.
#[derive(Clone, Copy)]
pub struct NumberedOrder {
    pub first: usize,
    pub second: usize,
}

/// The operation of which the literal says that operation i stands before it, if there is one.
fn later_of(layout: &Layout, literal: Lit, i: usize) -> Option<usize>
    requires { i < operation_count layout.now }
    ensures { MatchOption result ((j : ℕ) → Says (operation_count layout.now) literal i j → ⊥) (λ j. Says (operation_count layout.now) literal i j) }
{
    for j in 0..layout.operations() {
        if i != j && layout.order_lit(i, j).number() == literal.number() {
            return Some(j);
        }
    }
    None
}

/// The order that the literal says, if its variable is one of the order.
fn order_said(layout: &Layout, literal: Lit) -> Option<NumberedOrder>
    ensures { MatchOption result
        ((i j : ℕ) → Says (operation_count layout.now) literal i j → ⊥)
        (λ order. Says (operation_count layout.now) literal order.first order.second) }
{
    for i in 0..layout.operations() {
        if let Some(j) = later_of(layout, literal, i) {
            return Some(NumberedOrder {
                first: i,
                second: j,
            });
        }
    }
    None
}

/// The literal that the word writes, if it does.
fn literal_written(word: &[u8]) -> Option<Lit>
    ensures { MatchOption result (WritesNoLiteral word.now) (λ literal. solver_number word.now ≡ Some literal) }
{
    match read_literal(word) {
        Ok(Some(literal)) => Some(literal),
        Ok(None) => None,
        Err(_cause) => None,
    }
}

/// The order that the word writes, if it is a literal that says one.
fn order_written(layout: &Layout, word: &[u8]) -> Option<NumberedOrder>
    ensures { MatchOption result (WritesNone (operation_count layout.now) word.now) (Writes (operation_count layout.now) word.now) }
{
    layout.recall_limits();
    let Some(literal) = literal_written(word) else {
        return None;
    };
    order_said(layout, literal)
}

/// Appends the name of the operation of this number.
fn push_name(text: &mut Vec<u8>, ops: &[KeptOp<'_>], number: usize) -> Result<(), AllocError>
    ensures { OnOk result (text.new.items ≡ text.old.items ++ name_at ops.now number) }
{
    let Some(op) = ops.get(number) else {
        return Ok(());
    };
    let mut buffer = Buffer::new();
    text.extend_from_slice(op.process)?;
    text.push(b'.')?;
    text.extend_from_slice(buffer.format(op.place).as_bytes())?;
    Ok(())
}

/// Appends the order as `A before B`.
fn push_order(
    text: &mut Vec<u8>,
    ops: &[KeptOp<'_>],
    order: NumberedOrder,
) -> Result<(), AllocError>
    ensures { OnOk result (text.new.items ≡ text.old.items ++ order_text ops.now order) }
{
    push_name(text, ops, order.first)?;
    text.extend_from_slice(b" before ")?;
    push_name(text, ops, order.second)
}

/// The orders that the words of the cube write. A word that is no literal of an order, as the 0 at the end of a line, is passed over, as
/// notes are no verdict and refuse nothing; each other word has its order.
fn orders_of(alloc: Global, layout: &Layout, cube: &[u8]) -> Result<Vec<NumberedOrder>, AllocError>
    ensures { IfOk result (λ orders. AreWritten (operation_count layout.now) (words_of cube.now) orders.items) }
{
    let mut orders = Vec::new(alloc);
    let mut rest = cube;
    while let Some((word, after)) = cut_word(rest) {
        if let Some(order) = order_written(layout, word) {
            orders.push(order)?;
        }
        rest = after;
    }
    Ok(orders)
}

/// Appends the other orders, each after a comma.
fn push_others(
    text: &mut Vec<u8>,
    ops: &[KeptOp<'_>],
    others: &[NumberedOrder],
) -> Result<(), AllocError>
    ensures { OnOk result (text.new.items ≡ text.old.items ++ flat_map (later_text ops.now) others.now) }
{
    for order in others {
        text.extend_from_slice(b", ")?;
        push_order(text, ops, *order)?;
    }
    Ok(())
}

/// The words of the orders, byte by byte those of `orders_text`. A cube without literals, of a search that was not split, leaves every order open.
fn text_of_orders(
    alloc: Global,
    ops: &[KeptOp<'_>],
    orders: &[NumberedOrder],
) -> Result<Vec<u8>, AllocError>
    ensures { IfOk result (λ text. text.items ≡ orders_text ops.now orders.now) }
{
    let mut text = Vec::new(alloc);
    let Some((first, others)) = orders.split_first() else {
        text.extend_from_slice(b"every order")?;
        return Ok(text);
    };
    push_order(&mut text, ops, *first)?;
    push_others(&mut text, ops, others)?;
    Ok(text)
}

/// The words of a cube, which are of its orders: each is what the layout says of the variable of a literal, and its operations are named as
/// those of these numbers.
pub fn text_of_cube(
    alloc: Global,
    layout: &Layout,
    ops: &[KeptOp<'_>],
    cube: &[u8],
) -> Result<Vec<u8>, AllocError>
    ensures { IfOk result (λ text. (orders : List SaidOrder) × AreWritten (operation_count layout.now) (words_of cube.now) orders × (text.items ≡ orders_text ops.now orders)) }
{
    let orders = orders_of(alloc, layout, cube)?;
    text_of_orders(alloc, ops, orders.as_slice())
}
