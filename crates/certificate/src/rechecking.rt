//! Whether a certificate shows that a formula has no model.

ghost use Rattle.std.specs.Prelude.{◌≡◌, ◌<◌, ◌≤◌, ◌↔◌, ℕ, Bool, List, true, false, length, IsTrue, IfOk, IfErr, MatchOption};
ghost use Rattle.std.specs.List.{list_any};
ghost use Rattle.cube_tree.specs.CubeTree.{leaves, cubes_of};
ghost use Rattle.dimacs.specs.Models.{IsModel};
ghost use Rattle.lrat_check.specs.Checked.{IsAccepted, IsRefused};
ghost use Rattle.lrat_check.specs.Counted.{AreFormulaCounts};
ghost use Rattle.lrat_check.specs.declared.refusal.StepFault.{StepFault};
ghost use Rattle.text_lines.specs.Fault.{IsRefusal};
ghost use Rattle.certificate.specs.Rechecked.{is_of, section_fault, AreRight, IsFirstWrong, HaveSections, IsFirstOf, IsFirstMissing, IsFirstRefused, AreProvedBelow, IsRechecked, HasRecheckFault, are_sections_of_clauses};

use crate::cert_fault::{CertCause, CertFault};
use crate::certificate::{Certificate, Section};
use cube_tree::cubes;
use cube_tree::laws::a_cube_for_each_leaf;
use dimacs::{ClauseList, Cube, Lit};
use lrat_check::checker::check_with;
use lrat_check::derivation::Derivation;
use lrat_check::formula_counts::FormulaCounts;
use lrat_check::refusal::Refusal;
use std::alloc::{AllocError, Global};

/// Returns whether one of the sections is of this leaf.
fn has_section(sections: &[Section], leaf: u32) -> bool
    ensures { result ≡ list_any (is_of leaf) sections.now }
{
    sections.iter().any(|section| section.leaf == leaf)
}

/// Gives what is wrong with a section after these, if the tree has `count` leaves, whose numbers are those below `count`.
fn fault_of(before: &[Section], section: &Section, count: u32) -> Option<CertCause>
    ensures { result ≡ section_fault count before.now section.now }
{
    if section.leaf >= count {
        Some(CertCause::Stranger)
    } else if has_section(before, section.leaf) {
        Some(CertCause::Double)
    } else {
        None
    }
}

/// The first section with which something is wrong: what it is, and its leaf. At most as many sections as leaves stand before it.
fn first_wrong(sections: &[Section], count: u32) -> Option<(CertCause, u32)>
    ensures { MatchOption result (AreRight count sections.now) (λ found. IsFirstWrong count sections.now found.0 found.1) }
{
    for place in 0..sections.len() {
        match fault_of(&sections[..place], &sections[place], count) {
            Some(cause) => return Some((cause, sections[place].leaf)),
            None => {}
        }
    }
    None
}

/// The lowest leaf without a section.
fn first_missing(sections: &[Section], count: u32) -> Option<u32>
    ensures { MatchOption result (HaveSections count sections.now) (λ leaf. IsFirstMissing count sections.now leaf) }
{
    for leaf in 0..count {
        if !has_section(sections, leaf) {
            return Some(leaf);
        }
    }
    None
}

/// The first section of this leaf.
fn section_of(sections: &[Section], leaf: u32) -> Option<&Section>
    ensures { MatchOption result (list_any (is_of leaf) sections.now ≡ false) (λ found. IsFirstOf sections.now leaf found.now) }
{
    for section in sections {
        if section.leaf == leaf {
            return Some(section);
        }
    }
    None
}

/// Returns whether the derivation is accepted for the cube.
fn is_accepted<L: ClauseList>(
    alloc: Global,
    clauses: &L,
    counts: &mut FormulaCounts,
    cube: &[Lit],
    derivation: &Derivation,
) -> Result<bool, AllocError>
    requires { AreFormulaCounts (L.formula clauses.now).clauses counts.old }
    ensures formula { AreFormulaCounts (L.formula clauses.now).clauses counts.new }
    ensures accepted { IfOk result (λ accepted. accepted ≡ true → IsAccepted (L.formula clauses.now).clauses cube.now derivation.now) }
    ensures refused { IfOk result (λ accepted. accepted ≡ false → (fault : StepFault) × (step : ℕ) × IsRefused (L.formula clauses.now).clauses cube.now derivation.now fault step) }
{
    match check_with(alloc, clauses, counts, cube, derivation) {
        Ok(_) => Ok(true),
        Err(Refusal::At(_, _)) => Ok(false),
        Err(Refusal::OutOfMemory) => Err(AllocError),
    }
}

/// The lowest leaf whose derivation is refused. The formula's literals are counted once for all leaves.
fn first_refused<L: ClauseList>(
    alloc: Global,
    clauses: &L,
    cubes: &[Cube],
    sections: &[Section],
) -> Result<Option<u32>, AllocError>
    requires right { AreRight (length cubes.now) sections.now }
    requires every { HaveSections (length cubes.now) sections.now }
    requires few { length cubes.now ≤ 1024 }
    ensures { IfOk result (λ found. MatchOption found
        (AreProvedBelow (L.formula clauses.now).clauses cubes.now sections.now (length cubes.now))
        (λ leaf. IsFirstRefused (L.formula clauses.now).clauses cubes.now sections.now leaf)) }
{
    let mut counts = FormulaCounts::new();
    for leaf in 0..cubes.len() {
        // Each leaf has a section, as the contract asks, so none is left out here.
        let Some(section) = section_of(sections, leaf as u32) else {
            continue;
        };
        if !is_accepted(
            alloc,
            clauses,
            &mut counts,
            cubes[leaf].as_slice(),
            &section.derivation,
        )? {
            return Ok(Some(leaf as u32));
        }
    }
    Ok(None)
}

/// Hands its caller, in proofs alone, what derivations keep: the literals that the sections' steps add are clauses. Does nothing when run.
fn recall_clauses(sections: &[Section])
    ensures { IsTrue (are_sections_of_clauses sections.now) }
{
    for section in sections {
        let _steps = section.derivation.steps();
    }
}

/// Checks that the certificate shows that the formula has no model, with no solver. Returns the number of cubes of its tree.
///
/// Each leaf of the tree has one section, no section is of another leaf, and each derivation is accepted for the formula and its leaf's
/// cube. If not, the error says what is wrong and the leaf: the first section that is a `Stranger` or a `Double`; else the lowest leaf
/// that is `Missing`; else the lowest leaf whose `Derivation` is refused. `OutOfMemory` says nothing of the certificate.
pub fn recheck<L: ClauseList>(
    alloc: Global,
    clauses: &L,
    certificate: &Certificate,
) -> Result<u32, CertFault>
    ensures accepted { IfOk result (λ count. IsRechecked (L.formula clauses.now).clauses certificate.now count) }
    ensures sound { IfOk result (λ _. (value : ℕ → Bool) → IsModel value (L.formula clauses.now).clauses → ⊥) }
    ensures refused { IfErr result (λ fault. IsRefusal (HasRecheckFault (L.formula clauses.now).clauses certificate.now) fault) }
{
    a_cube_for_each_leaf();
    certificate.tree.recall_cover();
    clauses.recall_invariant();
    recall_clauses(certificate.sections.as_slice());
    let count = certificate.tree.leaves();
    let sections = certificate.sections.as_slice();
    // Once no section is wrong there are at most as many as leaves, which bounds the time of the two searches below.
    if let Some((cause, leaf)) = first_wrong(sections, count) {
        return Err(CertFault::At(cause, leaf as usize));
    }
    if let Some(leaf) = first_missing(sections, count) {
        return Err(CertFault::At(CertCause::Missing, leaf as usize));
    }
    let cubes = cubes(alloc, &certificate.tree)?;
    match first_refused(alloc, clauses, cubes.as_slice(), sections)? {
        Some(leaf) => Err(CertFault::At(CertCause::Derivation, leaf as usize)),
        None => Ok(count),
    }
}
