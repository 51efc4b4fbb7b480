//! What bars sources of a reading operation.

ghost use Rattle.std.specs.Prelude.{◌≡◌, ◌≤◌, ◌⊎◌, ⊤, Some, OnOk, IfErr};
ghost use Rattle.reason_clauses.specs.AddedOrders.{AddsOnly, IsOrder};
ghost use Rattle.reason_clauses.specs.RefusedBy.{IsRefusedBy};
ghost use Rattle.reason_clauses.specs.StretchOrders.{IsTakenOrder, IsRestOrder, IsTakenRefused, IsRestRefused};
ghost use Rattle.reason_clauses.specs.declared.cause.ReasonCause.TheVariants.{HidesItself};
ghost use Rattle.reason_clauses.specs.Numbered.{at_number, Grows, MakesHidden, MakesApart, BarsPlaces, IsGivenWitness, IsGivenFront, IsInHidden, IsFrom, IsInMain, AreTaken};
ghost use Rattle.reason_clauses.specs.Mains.{IsGivenMain};

use crate::cause::{ReasonCause, ReasonRefusal};
use crate::lookups::are_same;
use crate::orders::push_order;
use crate::stretches::Stretches;
use order_clauses::order_pair::OrderPair;
use std::alloc::AllocError;
use writer_table::operation_place::OperationPlace;

/// Appends that the witness stands before the bound, or after the reader.
pub fn bar_hidden(
    orders: &mut Vec<OrderPair>,
    reader: OperationPlace,
    witness: OperationPlace,
    bound: OperationPlace,
) -> Result<(), AllocError>
    ensures grows { OnOk result (Grows orders.old.items orders.new.items) }
    ensures hidden { OnOk result (MakesHidden orders.new.items reader witness bound) }
    ensures only { OnOk result (AddsOnly orders.old.items orders.new.items (λ o. IsOrder witness bound o ⊎ IsOrder reader witness o)) }
{
    push_order(orders, witness, bound)?;
    push_order(orders, reader, witness)?;
    Ok(())
}

/// Appends that the bound stands before the operation between, or that one before the reader.
pub fn bar_apart(
    orders: &mut Vec<OrderPair>,
    reader: OperationPlace,
    bound: OperationPlace,
    between: OperationPlace,
) -> Result<(), AllocError>
    ensures grows { OnOk result (Grows orders.old.items orders.new.items) }
    ensures apart { OnOk result (MakesApart orders.new.items reader bound between) }
    ensures only { OnOk result (AddsOnly orders.old.items orders.new.items (λ o. IsOrder bound between o ⊎ IsOrder between reader o)) }
{
    push_order(orders, bound, between)?;
    push_order(orders, between, reader)?;
    Ok(())
}

/// How the sources are barred that are in no other stretch.
#[derive(Clone, Copy, Debug, PartialEq, Eq)]
pub enum MainPiece {
    /// They stand before the reader.
    Plain,
    /// A witness stands before the last of them, or after the reader. It also bars the initial value.
    Witness(OperationPlace),
    /// An operation stands after the first of them, or before the reader.
    Between(OperationPlace),
}

/// Bars what is up to this place by the witness, unless that is this place. The place is the last of the sources that are barred: if the witness stands
/// before any of them, it stands before this one.
fn bar_up_to(
    orders: &mut Vec<OrderPair>,
    reader: OperationPlace,
    process: u32,
    place: u32,
    witness: OperationPlace,
) -> Result<(), ReasonRefusal>
    ensures grows { OnOk result (Grows orders.old.items orders.new.items) }
    ensures bars { OnOk result (BarsPlaces orders.new.items reader process (λ t location d. IsGivenWitness t location d reader witness) (λ n p. (p ≤ place) × (place ≤ n))) }
    ensures only { OnOk result (AddsOnly orders.old.items orders.new.items (λ o. IsOrder witness (at_number process place) o ⊎ IsOrder reader witness o)) }
    ensures refused { IfErr result (IsRefusedBy (λ cause. (witness ≡ at_number process place) × (cause ≡ HidesItself))) }
{
    let bound = OperationPlace { process, place };
    if are_same(witness, bound) {
        return Err(ReasonRefusal::For(ReasonCause::HidesItself));
    }
    bar_hidden(orders, reader, witness, bound)?;
    Ok(())
}

/// Bars what is up to the last hidden place. Fails where there is one and no witness.
fn bar_front(
    orders: &mut Vec<OrderPair>,
    reader: OperationPlace,
    process: u32,
    s: Stretches,
    witness: Option<OperationPlace>,
) -> Result<(), ReasonRefusal>
    ensures grows { OnOk result (Grows orders.old.items orders.new.items) }
    ensures bars { OnOk result (BarsPlaces orders.new.items reader process (λ t location d. IsGivenFront t location d reader witness) (IsInHidden s)) }
    ensures only { OnOk result (AddsOnly orders.old.items orders.new.items (IsTakenOrder reader process s witness)) }
    ensures refused { IfErr result (IsRefusedBy (IsTakenRefused process s witness)) }
{
    if s.hidden == 0 {
        return Ok(());
    }
    let Some(x) = witness else {
        return Err(ReasonRefusal::For(ReasonCause::NoWitness));
    };
    bar_up_to(orders, reader, process, s.hidden, x)?;
    Ok(())
}

/// Bars what is from this place on, or nothing if it is 0. The place is the first of the sources that are barred, so if it comes after the reader, all do.
fn bar_from(
    orders: &mut Vec<OrderPair>,
    reader: OperationPlace,
    process: u32,
    place: u32,
) -> Result<(), AllocError>
    ensures grows { OnOk result (Grows orders.old.items orders.new.items) }
    ensures bars { OnOk result (BarsPlaces orders.new.items reader process (λ t location d. ⊤) (IsFrom place)) }
    ensures only { OnOk result (AddsOnly orders.old.items orders.new.items (λ o. (1 ≤ place) × IsOrder (at_number process place) reader o)) }
{
    if place == 0 {
        return Ok(());
    }
    push_order(orders, OperationPlace { process, place }, reader)?;
    Ok(())
}

/// Bars the main stretch, by its first or its last place. It is empty if the first is 0, and then the last is 0 too.
fn bar_main(
    orders: &mut Vec<OrderPair>,
    reader: OperationPlace,
    process: u32,
    s: Stretches,
    main: MainPiece,
) -> Result<(), ReasonRefusal>
    ensures grows { OnOk result (Grows orders.old.items orders.new.items) }
    ensures bars { OnOk result (BarsPlaces orders.new.items reader process (λ t location d. IsGivenMain t location d reader main) (IsInMain s)) }
    ensures only { OnOk result (AddsOnly orders.old.items orders.new.items (IsRestOrder reader process s main)) }
    ensures refused { IfErr result (IsRefusedBy (IsRestRefused process s main)) }
{
    if s.first == 0 {
        return Ok(());
    }
    match main {
        MainPiece::Plain => {
            bar_from(orders, reader, process, s.first)?;
            Ok(())
        }
        MainPiece::Witness(x) => {
            bar_up_to(orders, reader, process, s.last, x)?;
            Ok(())
        }
        MainPiece::Between(u) => {
            let bound = OperationPlace {
                process,
                place: s.first,
            };
            bar_apart(orders, reader, bound, u)?;
            Ok(())
        }
    }
}

/// Bars all stretches of a process. Fails where a witness is wanted, or hides itself.
pub fn bar_process(
    orders: &mut Vec<OrderPair>,
    reader: OperationPlace,
    process: u32,
    s: Stretches,
    witness: Option<OperationPlace>,
    main: MainPiece,
) -> Result<(), ReasonRefusal>
    ensures grows { OnOk result (Grows orders.old.items orders.new.items) }
    ensures bars { OnOk result (BarsPlaces orders.new.items reader process (λ t location d. IsGivenFront t location d reader witness × IsGivenMain t location d reader main) (AreTaken s)) }
    ensures only { OnOk result (AddsOnly orders.old.items orders.new.items (λ o. IsTakenOrder reader process s witness o ⊎ IsRestOrder reader process s main o)) }
    ensures refused { IfErr result (IsRefusedBy (λ cause. IsTakenRefused process s witness cause ⊎ IsRestRefused process s main cause)) }
{
    bar_front(orders, reader, process, s, witness)?;
    bar_from(orders, reader, process, s.later)?;
    bar_main(orders, reader, process, s, main)?;
    Ok(())
}
