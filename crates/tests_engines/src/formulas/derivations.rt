//! Derivations: under a cube, and as they are written.

use crate::expectations::ample;
use crate::formulas::formulas::{formula_of, literals_of};
use lrat_check::checker::{Accepted, check};
use lrat_check::lrat_reader::read_lrat;
use lrat_check::lrat_writer::write_lrat;

#[test]
fn counts_the_cube_behind_the_clauses(rt: HostRuntime) {
    let alloc = rt.alloc();
    let formula = formula_of(&rt, alloc, 2, &[&[-1, -2]]);
    let derivation = ample(&rt, read_lrat(alloc, b"4 0 2 3 1 0\n"));
    let cube = literals_of(&rt, alloc, &[1, 2]);
    assert!(rt; check(alloc, &formula, cube.as_slice(), &derivation) == Ok(Accepted));
    let Err(refusal) = check(alloc, &formula, &[], &derivation) else {
        panic!(rt; "it is accepted without the cube");
    };
    let line = ample(&rt, refusal.to_string(alloc));
    assert!(rt; line.as_str() == "2 UnknownHint at 1");
}

/// A text with comments, blanks, signs and zeros, of four steps.
const TEXT: &str = "c text\n\t07 d 01 2 0\r\n8 -1 4194304 0 3 09 0\n9 0 0\n44 0 41 42 43 8 0";

/// What is written of it.
const CANONICAL: &str = "7 d 1 2 0\n8 -1 4194304 0 3 9 0\n9 0 0\n44 0 41 42 43 8 0\n";

#[test]
fn writes_what_it_reads(rt: HostRuntime) {
    let derivation = ample(&rt, read_lrat(rt.alloc(), TEXT.as_bytes()));
    assert!(rt; derivation.steps().len() == 4);
    let written = ample(&rt, write_lrat(rt.alloc(), &derivation));
    assert!(rt; written.as_slice() == CANONICAL.as_bytes());
}
