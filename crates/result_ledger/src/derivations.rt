//! The derivations that are answers.
//!
//! A slot is a leaf of the split tree: its cube, and the answer that was entered for it, if one was. If each cube is refuted, the derivations in the order
//! of the leaves are those of a certificate.
ghost use Rattle.std.specs.Prelude.{◌≡◌, ◌++◌, IfOk, OnOk, option_to_list};
ghost use Rattle.result_ledger.specs.Ledger.{derivation_of, derivations_in, said_derivation};

use crate::slot::Slot;
use cube_jobs::Outcome;
use lrat_check::derivation::Derivation;
use plain_lists::PlainList;
use std::alloc::{AllocError, Global};

/// The derivation that is the answer, if it is one.
fn into_derivation(outcome: Option<Outcome>) -> Option<Derivation>
    ensures { result ≡ said_derivation outcome }
{
    match outcome {
        Some(Outcome::Refuted(derivation)) => Some(derivation),
        Some(Outcome::Model(_model)) => None,
        Some(Outcome::Open) => None,
        Some(Outcome::Skipped) => None,
        None => None,
    }
}

/// Puts the derivation that is the slot's answer, if there is one, at the end of the list.
fn push_answer(derivations: &mut Vec<Derivation>, slot: Slot) -> Result<(), AllocError>
    ensures { OnOk result (derivations.new.items ≡ derivations.old.items ++ option_to_list (derivation_of slot)) }
{
    let Slot {
        cube: _cube,
        outcome,
    } = slot;
    if let Some(derivation) = into_derivation(outcome) {
        derivations.push(derivation)?;
    }
    Ok(())
}

/// The derivations among the answers, in the order of the slots. None is copied.
pub(crate) fn take_derivations(
    alloc: Global,
    slots: Vec<Slot>,
) -> Result<PlainList<Derivation>, AllocError>
    ensures { IfOk result (λ derivations. derivations ≡ derivations_in slots.items) }
{
    let mut derivations = Vec::with_capacity(alloc, slots.len())?;
    for slot in slots {
        push_answer(&mut derivations, slot)?;
    }
    Ok(PlainList::new(derivations))
}
