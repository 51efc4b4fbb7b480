//! Calls that may be refused memory: each says so, and returns what it was given as it was. With memory enough these tests show that the
//! calls succeed; `tests/refused-memory` runs them with each request for memory refused in turn. If that leaves nothing to show, a test
//! ends with an error, and so none of these asks for what is `ample`.
ghost use Rattle.std.specs.Prelude.{◌≡◌, IfOk};
ghost use Rattle.cube_tree.specs.CubeTree.{cubes_of};
ghost use Rattle.result_ledger.specs.Ledger.{cubes_in, SplitsCube};

use crate::cubes::answers::{Says, result_of};
use crate::cubes::searches::{enter, enter_all, results_of};
use crate::cubes::texts::{STORE_BUFFERING, are_literals, is_text};
use crate::expectations::{ample, expect};
use certificate::{Certificate, Section, read_cert, recheck, write_cert};
use cnf_text::read_cnf;
use cube_jobs::{OpenGate, Options, Outcome, Settled};
use cube_tree::{Tree, cubes, grow, read_tree, split_leaf};
use dimacs::{Formula, MemorySink};
use lrat_check::derivation::Derivation;
use lrat_check::lrat_reader::read_lrat;
use lrat_check::lrat_writer::write_lrat;
use reducer::reduced::reduce;
use result_ledger::{Ledger, Verdict, split_tree_splits_a_cube};
use std::alloc::{AllocError, Global};
use std::process::Abort;
use std::test::Fail;
use text_lines::fault::PlacedFault;
use trace_text::trace_reader::read_trace;
use var_layout::layout::Layout;

/// The answer of a call to which nothing is handed that it refuses.
fn given<T, E: Drop>(outcome: Result<T, E>) -> Result<T, AllocError> {
    match outcome {
        Ok(value) => Ok(value),
        Err(_) => Err(AllocError),
    }
}

/// The tree of this text.
fn tree_if_memory(alloc: Global, text: &str) -> Result<Tree, AllocError> {
    let (tree, _) = given(read_tree(alloc, text.as_bytes()))?;
    Ok(tree)
}

/// The formula of store buffering.
fn formula_if_memory(alloc: Global) -> Result<Formula, AllocError> {
    given(read_cnf(alloc, STORE_BUFFERING.as_bytes()))
}

/// The tree of this text, which is read again where there was no memory, and nothing else was reported.
fn tree_read_again(rt: &impl Abort, alloc: Global, text: &str) -> Result<Tree, AllocError> {
    match read_tree(alloc, text.as_bytes()) {
        Ok((tree, _)) => Ok(tree),
        Err(fault) => {
            expect(rt, matches!(fault, PlacedFault::OutOfMemory), 0);
            tree_if_memory(alloc, text)
        }
    }
}

#[test]
fn trees_are_read_written_and_listed(rt: HostRuntime) -> Result<(), Fail> {
    let text = "split 3\nleaf\nsplit 5\nleaf\nleaf\n";
    let tree = tree_read_again(&rt, rt.alloc(), text)?;
    let _written = is_text(rt.alloc(), &tree, text.as_bytes());
    let _listed = cubes(rt.alloc(), &tree);
    let count = cubes(rt.alloc(), &tree)?.len();
    let is_same = is_text(rt.alloc(), &tree, text.as_bytes())?;
    expect(&rt, is_same && count == 3, count);
    Ok(())
}

/// The tree of this text with leaf 1 split on variable 5. If there was no memory, it came back as it was, and is split again.
fn tree_split_again(rt: &impl Abort, alloc: Global, text: &str) -> Result<Tree, AllocError> {
    match split_leaf(alloc, tree_if_memory(alloc, text)?, 1, 5) {
        Ok(tree) => Ok(tree),
        Err((tree, fault)) => {
            expect(rt, matches!(fault, PlacedFault::OutOfMemory), 0);
            let is_same = is_text(alloc, &tree, text.as_bytes())?;
            expect(rt, is_same, text.len());
            let Ok(tree) = split_leaf(alloc, tree, 1, 5) else {
                panic!(rt; "the leaf is not split");
            };
            Ok(tree)
        }
    }
}

#[test]
fn a_split_that_is_refused_hands_the_tree_back(rt: HostRuntime) -> Result<(), Fail> {
    let tree = tree_split_again(&rt, rt.alloc(), "split 3\nleaf\nleaf\n")?;
    let text = b"split 3\nleaf\nsplit 5\nleaf\nleaf\n";
    let is_right = is_text(rt.alloc(), &tree, text)?;
    expect(&rt, is_right, text.len());
    Ok(())
}

/// The variables of the trace of this text.
fn layout_if_memory(alloc: Global, text: &str) -> Result<Layout, AllocError> {
    let trace = given(read_trace(alloc, text.as_bytes()))?;
    let reduced = given(reduce(alloc, &trace))?;
    Layout::of(alloc, &reduced)
}

/// The full tree of these variables, which is grown again where there was no memory.
fn tree_grown_again(alloc: Global, layout: &Layout) -> Result<Tree, AllocError> {
    match grow(alloc, layout, 3) {
        Ok(tree) => Ok(tree),
        Err(_) => grow(alloc, layout, 3),
    }
}

#[test]
fn a_full_tree_grows(rt: HostRuntime) -> Result<(), Fail> {
    let text = "vsc 1\nproc P\nW x 1\nproc Q\nR x 1\n";
    let layout = layout_if_memory(rt.alloc(), text)?;
    let tree = tree_grown_again(rt.alloc(), &layout)?;
    let is_right = is_text(rt.alloc(), &tree, b"split 1\nleaf\nleaf\n")?;
    expect(&rt, is_right, text.len());
    Ok(())
}

/// Asserts that the ledger has the leaves 3 and -3, and that the first has an answer.
fn assert_two_leaves(rt: &impl Abort, alloc: Global, ledger: &Ledger) -> Result<(), AllocError> {
    if ledger.leaves() != 2 {
        panic!(rt; "there are not two leaves");
    }
    let is_first = are_literals(alloc, ledger.cube(0), &[3])?;
    expect(rt, is_first, 0);
    let is_second = are_literals(alloc, ledger.cube(1), &[-3])?;
    expect(rt, is_second, 1);
    assert_unanswered(rt, alloc, ledger, &[1])
}

/// Asserts that these leaves have no answer.
fn assert_unanswered(
    rt: &impl Abort,
    alloc: Global,
    ledger: &Ledger,
    leaves: &[u32],
) -> Result<(), AllocError> {
    let unanswered = ledger.unanswered(alloc)?;
    expect(rt, unanswered.as_slice() == leaves, leaves.len());
    Ok(())
}

/// The ledger of the tree, whose first leaf is 3, with an answer for this one.
fn ledger_with_answer(rt: &impl Abort, alloc: Global, tree: &Tree) -> Result<Ledger, AllocError>
    ensures { IfOk result (λ ledger. cubes_in ledger ≡ cubes_of tree.now) }
{
    let mut ledger = Ledger::new(alloc, tree)?;
    let answer = result_of(rt, alloc, 0, &[3], Says::Open)?;
    enter(rt, &mut ledger, answer);
    Ok(ledger)
}

/// The ledger with its leaf 1 split, as it is in the tree. If there was no memory, it came back as it was, and is split again.
fn ledger_split_again(
    rt: &impl Abort,
    alloc: Global,
    ledger: Ledger,
    tree: &Tree,
) -> Result<Ledger, AllocError>
    requires { SplitsCube 1 (cubes_in ledger) (cubes_of tree.now) }
{
    match ledger.split(alloc, 1, tree) {
        Ok(ledger) => Ok(ledger),
        Err((ledger, _)) => {
            assert_two_leaves(rt, alloc, &ledger)?;
            let Ok(ledger) = ledger.split(alloc, 1, tree) else {
                panic!(rt; "the ledger's leaf is not split");
            };
            Ok(ledger)
        }
    }
}

#[test]
fn a_split_that_is_refused_hands_the_ledger_back(rt: HostRuntime) -> Result<(), Fail> {
    let tree = tree_if_memory(rt.alloc(), "split 3\nleaf\nleaf\n")?;
    let ledger = ledger_with_answer(&rt, rt.alloc(), &tree)?;
    split_tree_splits_a_cube();
    let Ok(tree) = split_leaf(rt.alloc(), tree, 1, 4) else {
        return Err(Fail::from("the tree's leaf is not split"));
    };
    let ledger = ledger_split_again(&rt, rt.alloc(), ledger, &tree)?;
    expect(&rt, ledger.leaves() == 3, 3);
    assert_unanswered(&rt, rt.alloc(), &ledger, &[1, 2])?;
    Ok(())
}

/// The number of results that say that the search came to no end.
fn count_open(results: &[Settled]) -> usize {
    let mut count = 0usize;
    for settled in results {
        let is_open = matches!(settled.outcome(), Outcome::Open);
        count = count.wrapping_add(usize::from(is_open));
    }
    count
}

/// Returns whether the verdict is that there is no model, or that this number of the two leaves is open.
fn is_without_model(verdict: &Verdict, open: usize) -> bool {
    match verdict {
        Verdict::Inconsistent(count) => open == 0 && *count == 2,
        Verdict::Unknown(leaves) => open > 0 && leaves.as_slice().len() == open,
        Verdict::Consistent(_, _) => false,
    }
}

#[test]
fn a_cube_without_memory_stays_open(rt: HostRuntime) -> Result<(), Fail> {
    let alloc = rt.alloc();
    let formula = formula_if_memory(alloc)?;
    let tree = tree_if_memory(alloc, "split 3\nleaf\nleaf\n")?;
    let mut ledger = Ledger::new(alloc, &tree)?;
    let options = ample(&rt, Options::new(1, 3, 100, 1));
    let found = results_of(&rt, alloc, &formula, &tree, &options, &OpenGate);
    let results = given(found)?;
    let open = count_open(results.as_slice());
    enter_all(&rt, &mut ledger, results);
    let verdict = ledger.confirm(alloc, &rt, &formula, 1)?;
    expect(&rt, is_without_model(&verdict, open), open);
    Ok(())
}

/// A certificate of store buffering, as it is written.
const CERTIFICATE: &str =
    "vsc-cert 1\nsplit 3\nleaf\nleaf\nproof 0\n16 -1 0 13 14 15 0\n0 d 1 2 0\n17 0 13 14 15 0\nend\nproof 1\n16 0 1 2 11 12 3 7 15 0\nend\n";

/// The certificate, which is read again where there was no memory, and nothing else was reported.
fn certificate_read_again(rt: &impl Abort, alloc: Global) -> Result<Certificate, AllocError> {
    match read_cert(alloc, CERTIFICATE.as_bytes()) {
        Ok(certificate) => Ok(certificate),
        Err(fault) => {
            expect(rt, matches!(fault, PlacedFault::OutOfMemory), 0);
            given(read_cert(alloc, CERTIFICATE.as_bytes()))
        }
    }
}

/// Asserts that the certificate is accepted, or that there is no memory; and then again that it is accepted.
fn assert_rechecked(
    rt: &impl Abort,
    alloc: Global,
    formula: &Formula,
    certificate: &Certificate,
) -> Result<(), AllocError> {
    match recheck(alloc, formula, certificate) {
        Ok(count) => expect(rt, count == 2, 2),
        Err(fault) => expect(rt, matches!(fault, PlacedFault::OutOfMemory), 0),
    }
    let count = given(recheck(alloc, formula, certificate))?;
    expect(rt, count == 2, 2);
    Ok(())
}

/// The derivation, written and read again.
fn copied(alloc: Global, derivation: &Derivation) -> Result<Derivation, AllocError> {
    let text = write_lrat(alloc, derivation)?;
    given(read_lrat(alloc, text.as_slice()))
}

/// The derivations of the sections, each written and read again.
fn copies_of(alloc: Global, sections: &[Section]) -> Result<Vec<Derivation>, AllocError> {
    let mut derivations = Vec::new(alloc);
    for section in sections {
        derivations.push(copied(alloc, &section.derivation)?)?;
    }
    Ok(derivations)
}

/// Asserts that the text of the certificate is written, or a prefix of it, if there is no memory.
fn assert_written(
    rt: &impl Abort,
    alloc: Global,
    tree: &Tree,
    derivations: &[Derivation],
) -> Result<(), AllocError> {
    let mut sink = MemorySink::new(alloc);
    let written = write_cert(alloc, tree, derivations, &mut sink);
    let text = CERTIFICATE.as_bytes();
    expect(rt, text.starts_with(sink.as_slice()), 0);
    given(written)?;
    expect(rt, sink.as_slice().len() == text.len(), text.len());
    Ok(())
}

#[test]
fn a_certificate_is_checked_and_written_again_byte_for_byte(rt: HostRuntime) -> Result<(), Fail> {
    let alloc = rt.alloc();
    let certificate = certificate_read_again(&rt, alloc)?;
    let formula = formula_if_memory(alloc)?;
    assert_rechecked(&rt, alloc, &formula, &certificate)?;
    let derivations = copies_of(alloc, certificate.sections.as_slice())?;
    assert_written(&rt, alloc, &certificate.tree, derivations.as_slice())?;
    Ok(())
}
