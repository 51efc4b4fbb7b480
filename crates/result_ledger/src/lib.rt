//! The ledger of a tree's leaves: what was answered for each of them, and the verdict that follows.
#![tactic(auto)]

mod confirming;
mod derivation_pieces;
mod derivations;
mod entering;
mod entry_fault;
mod laws;
mod ledger;
mod lrat_steps;
mod slot;
mod unproved;
mod verdict;

pub use entering::enter_all;
pub use entry_fault::EntryFault;
pub use laws::{
    agreeing_ledgers_agree, entered_in_either_order, entered_in_turn_is_entered,
    inconsistent_has_no_model, proofs_by_leaf, skipped_only_above_a_model,
    split_tree_splits_a_cube, unknown_holds_all_models,
};
pub use ledger::Ledger;
pub use slot::Slot;
pub use verdict::Verdict;
