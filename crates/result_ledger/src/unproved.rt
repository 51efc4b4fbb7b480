//! Which leaves are not proved: they have no derivation that can be written and is accepted.
ghost use Rattle.std.specs.Prelude.{◌≡◌, ℕ, ◌+◌, ◌<◌, ◌≤◌, length, slice_index_or, IfOk, IfSome};
ghost use Rattle.result_ledger.specs.Verdict.{HasProofAt, IsProofAnswer};
ghost use Rattle.result_ledger.specs.Pieces.{AreWithoutBetween, piece_start};

use crate::confirming::{is_proved, is_served};
use crate::derivation_pieces::is_proved_in_pieces;
use crate::slot::Slot;
use cube_jobs::options::needed;
use dimacs::ClauseList;
use std::alloc::{AllocError, Global};
use std::thread::{Threads, map_indices};

/// The leaves that are not proved, rising, of those from the one number on and before the other. A derivation that was accepted for one
/// leaf is not checked again for another that it serves; nor is one that `proved_before` has and that serves the leaf.
fn without_proof_between<'a, L: ClauseList>(
    alloc: Global,
    formula: &L,
    slots: &'a [Slot],
    proved_before: Option<&'a Slot>,
    from: usize,
    end: usize,
) -> Result<Vec<u32>, AllocError>
    requires proved { IfSome proved_before (λ first. IsProofAnswer (L.formula formula.now).clauses first.now) }
    requires few { length slots.now ≤ 1024 }
    requires within { (from ≤ end) × (end ≤ length slots.now) }
    ensures { IfOk result (λ leaves. AreWithoutBetween (HasProofAt (L.formula formula.now).clauses slots.now) from end leaves.items) }
{
    let mut leaves = Vec::new(alloc);
    // The last slot that the checker accepted, for the next ones to be compared with.
    let mut known = proved_before;
    for leaf in from..end {
        let slot = &slots[leaf];
        let served = is_served(formula, known, slot);
        if served {
            continue;
        }
        let proved = is_proved(alloc, formula, slot)?;
        if proved {
            known = Some(slot);
            continue;
        }
        leaves.push(leaf as u32)?;
    }
    Ok(leaves)
}

/// The number of the leaf with which a piece begins, by the size of pieces and the number of leaves. Pieces count from 0, and each ends where the next
/// one begins. The size is rounded up, so the last pieces can be short or empty: those that would begin past the leaves begin at their end.
fn start_of(size: usize, count: usize, piece: usize) -> usize
    requires { (size ≤ 1024) × (piece ≤ 8) }
    ensures { result ≡ piece_start size count piece }
{
    (piece * size).min(count)
}

/// The leaves of a piece that are not proved, rising.
fn without_proof_in<'a, L: ClauseList>(
    alloc: Global,
    formula: &L,
    slots: &'a [Slot],
    proved_before: Option<&'a Slot>,
    size: usize,
    piece: usize,
) -> Result<Vec<u32>, AllocError>
    requires proved { IfSome proved_before (λ first. IsProofAnswer (L.formula formula.now).clauses first.now) }
    requires few { length slots.now ≤ 1024 }
    requires piece { (size ≤ 1024) × (piece < 8) }
    ensures { IfOk result (λ leaves. AreWithoutBetween (HasProofAt (L.formula formula.now).clauses slots.now) (piece_start size (length slots.now) piece) (piece_start size (length slots.now) (piece + 1)) leaves.items) }
{
    let from = start_of(size, slots.len(), piece);
    let end = start_of(size, slots.len(), piece + 1);
    without_proof_between(alloc, formula, slots, proved_before, from, end)
}

/// The leaves of all pieces, in order, given those of each piece. The formula, the slots and the size stand here for the clauses, which name them.
fn joined<L: ClauseList>(
    alloc: Global,
    _formula: &L,
    _slots: &[Slot],
    _size: usize,
    pieces: Vec<Result<Vec<u32>, AllocError>>,
) -> Result<Vec<u32>, AllocError>
    requires { (k : ℕ) (d : _) → k < length pieces.items → IfOk (slice_index_or pieces.items k d) (λ leaves. AreWithoutBetween (HasProofAt (L.formula _formula.now).clauses _slots.now) (piece_start _size (length _slots.now) k) (piece_start _size (length _slots.now) (k + 1)) leaves.items) }
    ensures { IfOk result (λ leaves. AreWithoutBetween (HasProofAt (L.formula _formula.now).clauses _slots.now) 0 (piece_start _size (length _slots.now) (length pieces.items)) leaves.items) }
{
    let mut all = Vec::new(alloc);
    for piece in pieces {
        let mut leaves = piece?;
        all.append(&mut leaves)?;
    }
    Ok(all)
}

/// The leaves that are not proved, rising. There are as many pieces as workers, each in a thread of its own where one
/// can be made.
fn without_proof_in_pieces<R: Threads + Sync, L: ClauseList + Sync>(
    alloc: Global,
    rt: &R,
    formula: &L,
    slots: &[Slot],
    proved_before: Option<&Slot>,
    workers: u32,
) -> Result<Vec<u32>, AllocError>
    requires proved { IfSome proved_before (λ first. IsProofAnswer (L.formula formula.now).clauses first.now) }
    requires few { length slots.now ≤ 1024 }
    requires workers { (1 ≤ workers) × (workers ≤ 8) }
    ensures { IfOk result (λ leaves. AreWithoutBetween (HasProofAt (L.formula formula.now).clauses slots.now) 0 (length slots.now) leaves.items) }
{
    let count = workers as usize;
    let size = slots.len().div_ceil(count);
    let in_piece = move |piece: usize| -> Result<Vec<u32>, AllocError>
        requires { (piece < 8) × (size ≤ 1024) × (length slots.now ≤ 1024) × IfSome proved_before (λ first. IsProofAnswer (L.formula formula.now).clauses first.now) }
        ensures { IfOk result (λ leaves. AreWithoutBetween (HasProofAt (L.formula formula.entry.now).clauses slots.entry.now) (piece_start size (length slots.entry.now) piece) (piece_start size (length slots.entry.now) (piece + 1)) leaves.items) }
    { without_proof_in(alloc, formula, slots, proved_before, size, piece) };
    let pieces = map_indices(rt, alloc, count, &in_piece)?;
    joined(alloc, formula, slots, size, pieces)
}

/// The first slot, if its derivation is long and this number of workers finds that it is proved. If one search has refuted the whole, all others have the same
/// derivation.
fn first_by_all<'a, R: Threads + Sync, L: ClauseList + Sync>(
    alloc: Global,
    rt: &R,
    formula: &L,
    slots: &'a [Slot],
    workers: u32,
) -> Option<&'a Slot>
    ensures { IfSome result (λ first. IsProofAnswer (L.formula formula.now).clauses first.now) }
{
    let first = slots.first()?;
    let passed = workers >= 2 && is_proved_in_pieces(alloc, rt, formula, first, workers);
    if passed { Some(first) } else { None }
}

/// The leaves that are not proved, rising, looked for by at most `workers` workers.
pub(crate) fn without_proof<R: Threads + Sync, L: ClauseList + Sync>(
    alloc: Global,
    rt: &R,
    formula: &L,
    slots: &[Slot],
    workers: u32,
) -> Result<Vec<u32>, AllocError>
    requires few { length slots.now ≤ 1024 }
    requires workers { (1 ≤ workers) × (workers ≤ 8) }
    ensures { IfOk result (λ leaves. AreWithoutBetween (HasProofAt (L.formula formula.now).clauses slots.now) 0 (length slots.now) leaves.items) }
{
    let first = first_by_all(alloc, rt, formula, slots, workers);
    let workers = needed(workers, slots.len());
    if workers < 2 {
        without_proof_between(alloc, formula, slots, first, 0, slots.len())
    } else {
        without_proof_in_pieces(alloc, rt, formula, slots, first, workers)
    }
}
