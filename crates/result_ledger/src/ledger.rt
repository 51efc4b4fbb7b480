//! Ledgers.
ghost use Rattle.std.specs.Prelude.{◌≡◌, ◌+◌, ◌<◌, ◌≤◌, ◌↔◌, ◌∷◌, ◌++◌, length, map, take, drop, IsSome, IsTrue, IfOk, IfErr, OnOk, OnErr, MatchOption, Some};
ghost use Rattle.std.specs.List.{list_all, slice_get};
ghost use Rattle.cube_tree.specs.CubeTree.{cubes_of};
ghost use Rattle.dimacs.specs.Literal.{is_clause};
ghost use Rattle.result_ledger.specs.Ledger.{empty_slot, cubes_in, derivations_in, Fills, IsEntryFault, HasAnswerAt, SplitsCube, IsSplitAt};
ghost use Rattle.cube_jobs.specs.Results.{AreLeaves};
ghost use Rattle.result_ledger.specs.Verdict.{IsVerdict, AreWithout};

use crate::confirming::first_model;
use crate::derivations::take_derivations;
use crate::entry_fault::EntryFault;
use crate::slot::Slot;
use crate::unproved::without_proof;
use crate::verdict::Verdict;
use cube_jobs::Settled;
use cube_tree::{Tree, bounded_cubes};
use dimacs::{ClauseList, Cube, Lit, MAX_CUBE_LITERALS, are_same};
use lrat_check::derivation::Derivation;
use plain_lists::PlainList;
use std::alloc::{AllocError, Global};
use std::marker::Model;
use std::thread::Threads;

/// One slot for each leaf of a tree, in their order: its cube, and the answer that was entered for it, if one was.
#[derive(Drop)]
pub struct Ledger {
    slots: Vec<Slot>,
}

impl Model for Ledger {
    ghost use Rattle.std.specs.Prelude.{List, ◌≤◌, length};
    ghost use Rattle.result_ledger.specs.declared.slot.Slot.{Slot};

    ghost Value = { List Slot };

    ghost view = { λ ledger. ledger.slots.items };

    ghost invariant = { λ ledger. length ledger.slots.items ≤ 1024 };
}

/// A slot without an answer for each of these cubes.
fn empty_slots(alloc: Global, cubes: &[Cube]) -> Result<Vec<Slot>, AllocError>
    ensures { IfOk result (λ slots. slots.items ≡ map empty_slot cubes.now) }
{
    let mut slots = Vec::with_capacity(alloc, cubes.len())?;
    for cube in cubes {
        slots.push(empty(alloc, cube.as_slice()))?;
    }
    Ok(slots)
}

/// A slot of this cube without an answer.
fn empty(alloc: Global, cube: &[Lit]) -> Slot
    requires { length cube.now ≤ MAX_CUBE_LITERALS }
    ensures { result ≡ empty_slot cube.now }
{
    Slot {
        cube: Cube::of(alloc, cube),
        outcome: None,
    }
}

/// The reason why the result is not entered, if it is not: there is no such leaf, it has an answer already, or it has another cube.
fn fault_of(slots: &[Slot], settled: &Settled) -> Option<EntryFault>
    ensures { MatchOption result
        (slice_get slots.now settled.now.ticket ≡ Some (empty_slot settled.now.cube))
        (λ fault. IsEntryFault slots.now settled.now fault) }
{
    let leaf = settled.ticket() as usize;
    if leaf >= slots.len() {
        return Some(EntryFault::Stranger);
    }
    let slot = &slots[leaf];
    if slot.outcome.is_some() {
        return Some(EntryFault::Double);
    }
    if !are_same(slot.cube.as_slice(), settled.cube()) {
        return Some(EntryFault::WrongCube);
    }
    None
}

/// Hands its caller, in proofs alone, what cubes keep: no literal is 0. Does nothing when run.
fn recall_clauses(slots: &[Slot])
    ensures { IsTrue (list_all is_clause (cubes_in slots.now)) }
{
    for slot in slots {
        let _literals = slot.cube.as_slice();
    }
}

/// Fills the slot that the result names.
fn fill(slots: &mut [Slot], settled: Settled)
    requires { slice_get slots.old settled.ticket ≡ Some (empty_slot settled.cube) }
    ensures { Fills slots.old slots.new settled }
{
    let leaf = settled.ticket() as usize;
    slots[leaf].outcome = Some(settled.into_outcome());
}

/// The slots with the one at this place replaced by two. Without memory they come back as they were.
fn split_slot(
    slots: Vec<Slot>,
    place: usize,
    left: Slot,
    right: Slot,
) -> Result<Vec<Slot>, (Vec<Slot>, AllocError)>
    requires { place < length slots.items }
    ensures split { IfOk result (λ new. new.items ≡ take place slots.items ++ (left ∷ (right ∷ drop (place + 1) slots.items))) }
    ensures same { IfErr result (λ back. back.0.items ≡ slots.items) }
{
    let mut slots = slots;
    // The insertion comes first, since it alone can fail: then no slot has changed.
    match slots.insert(place + 1, right) {
        Ok(()) => {
            slots.as_mut_slice()[place] = left;
            Ok(slots)
        }
        Err(_) => Err((slots, AllocError)),
    }
}

/// Returns whether the leaf has an answer. `Open` and `Skipped` are answers too.
fn is_answered(slot: &Slot) -> bool
    ensures { IsTrue result ↔ IsSome slot.now.outcome }
{
    slot.outcome.is_some()
}

/// The leaves without an answer, rising.
fn unanswered_among(alloc: Global, slots: &[Slot]) -> Result<Vec<u32>, AllocError>
    requires { length slots.now ≤ 1024 }
    ensures leaves { IfOk result (λ leaves. AreWithout (HasAnswerAt slots.now) (length slots.now) leaves.items) }
    ensures asked { IfOk result (λ leaves. AreLeaves (cubes_in slots.now) leaves.items) }
{
    let mut leaves = Vec::new(alloc);
    for leaf in 0..slots.len() {
        let answered = is_answered(&slots[leaf]);
        if answered {
            continue;
        }
        leaves.push(leaf as u32)?;
    }
    Ok(leaves)
}

impl Ledger {
    /// A slot without an answer for each leaf of the tree.
    pub fn new(alloc: Global, tree: &Tree) -> Result<Ledger, AllocError>
        ensures slots { IfOk result (λ ledger. ledger ≡ map empty_slot (cubes_of tree.now)) }
        ensures cubes { IfOk result (λ ledger. cubes_in ledger ≡ cubes_of tree.now) }
    {
        let cubes = bounded_cubes(alloc, tree)?;
        let slots = empty_slots(alloc, cubes.as_slice())?;
        Ok(Ledger { slots })
    }

    /// Hands its caller, in proofs alone, what each ledger keeps: no literal of its cubes is 0. Does nothing when run.
    pub fn recall_clauses(&self)
        ensures { IsTrue (list_all is_clause (cubes_in self.now)) }
    {
        recall_clauses(self.slots.as_slice());
    }

    /// The number of leaves.
    pub fn leaves(&self) -> u32
        ensures count { result ≡ length self.now }
        ensures few { result ≤ 1024 }
    {
        self.slots.len() as u32
    }

    /// The literals of the leaf's cube.
    pub fn cube(&self, leaf: u32) -> &[Lit]
        requires { leaf < length self.now }
        ensures cube { slice_get (cubes_in self.now) leaf ≡ Some result.now }
        ensures short { length result.now ≤ MAX_CUBE_LITERALS }
    {
        let slots = self.slots.as_slice();
        slots[leaf as usize].cube.as_slice()
    }

    /// The leaves without an answer, rising.
    pub fn unanswered(&self, alloc: Global) -> Result<Vec<u32>, AllocError>
        ensures leaves { IfOk result (λ leaves. AreWithout (HasAnswerAt self.now) (length self.now) leaves.items) }
        ensures asked { IfOk result (λ leaves. AreLeaves (cubes_in self.now) leaves.items) }
    {
        unanswered_among(alloc, self.slots.as_slice())
    }

    /// Enters the result as the answer for its leaf. It is returned, and nothing changes, if there is no such leaf, or that leaf has an
    /// answer already, or another cube; the lowest that holds is reported. It takes no memory.
    pub fn enter(&mut self, settled: Settled) -> Result<(), (Settled, EntryFault)>
        ensures filled { OnOk result (Fills self.old self.new settled) }
        ensures refused { IfErr result (λ back. (back.0 ≡ settled) × IsEntryFault self.old settled back.1) }
        ensures same { OnErr result (self.new ≡ self.old) }
        ensures cubes { cubes_in self.new ≡ cubes_in self.old }
    {
        match fault_of(self.slots.as_slice(), &settled) {
            Some(fault) => Err((settled, fault)),
            None => {
                fill(self.slots.as_mut_slice(), settled);
                Ok(())
            }
        }
    }

    /// The verdict that follows from the answers. Each model is tried on the formula, and each derivation is checked, or is word for word
    /// one that was and serves this leaf's cube too: no answer is believed. One to eight workers check the derivations side by side, each in
    /// a thread of its own where one can be made; one worker needs none. The verdict is the same for any number of them.
    pub fn confirm<R: Threads + Sync, L: ClauseList + Sync>(
        &self,
        alloc: Global,
        rt: &R,
        formula: &L,
        workers: u32,
    ) -> Result<Verdict, AllocError>
        requires some { 1 ≤ workers }
        requires few { workers ≤ 8 }
        ensures { IfOk result (λ verdict. IsVerdict (L.formula formula.now).clauses self.now verdict) }
    {
        let slots = self.slots.as_slice();
        match first_model(formula, slots) {
            Some(found) => {
                let truth = found.assignment.copied(alloc)?;
                Ok(Verdict::Consistent(found.leaf as u32, truth))
            }
            None => {
                let leaves = without_proof(alloc, rt, formula, slots, workers)?;
                if leaves.is_empty() {
                    return Ok(Verdict::Inconsistent(slots.len() as u32));
                }
                Ok(Verdict::Unknown(PlainList::new(leaves)))
            }
        }
    }

    /// The derivations among the answers, in the order of the leaves: all of them, where the verdict is that each cube is refuted.
    pub fn into_derivations(self, alloc: Global) -> Result<PlainList<Derivation>, AllocError>
        ensures { IfOk result (λ derivations. derivations ≡ derivations_in self) }
    {
        let Ledger { slots } = self;
        take_derivations(alloc, slots)
    }

    /// The ledger of the tree in which this leaf was split. Whatever was answered for it, two leaves without an answer stand
    /// in its place, and the others keep theirs. Without memory it comes back as it was.
    pub fn split(
        self,
        alloc: Global,
        leaf: u32,
        tree: &Tree,
    ) -> Result<Ledger, (Ledger, AllocError)>
        requires { SplitsCube leaf (cubes_in self) (cubes_of tree.now) }
        ensures split { IfOk result (λ ledger. IsSplitAt leaf (cubes_of tree.now) self ledger) }
        ensures same { IfErr result (λ back. back.0 ≡ self) }
    {
        let Ok(cubes) = bounded_cubes(alloc, tree) else {
            return Err((self, AllocError));
        };
        let place = leaf as usize;
        let left = empty(alloc, cubes.as_slice()[place].as_slice());
        let right = empty(alloc, cubes.as_slice()[place + 1].as_slice());
        let Ledger { slots } = self;
        match split_slot(slots, place, left, right) {
            Ok(slots) => Ok(Ledger { slots }),
            Err((slots, error)) => Err((Ledger { slots }, error)),
        }
    }
}
