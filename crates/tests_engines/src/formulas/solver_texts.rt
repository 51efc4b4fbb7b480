//! The texts of formulas, as values. `tests/examples/decode.txt` has those of solvers' answers.

use crate::expectations::{ample, expect};
use cnf_text::read_cnf;
use dimacs::{MemorySink, write_cnf};
use std::alloc::Global;
use std::process::Abort;

/// Texts, and how the formula of each is written.
const READ: [(&str, &str); 7] = [
    (
        "c old file\np cnf 2 2\n1\n -2 0 2 0\n%\n0\n",
        "p cnf 2 2\n1 -2 0\n2 0\n",
    ),
    ("p cnf 2 2\n2 0\n-2 1 0\n", "p cnf 2 2\n2 0\n-2 1 0\n"),
    ("p cnf 0 0", "p cnf 0 0\n"),
    ("p cnf 1 2\n-1 1 1 0 0", "p cnf 1 2\n-1 1 1 0\n0\n"),
    (
        "\n \t\r\n\tp\t cnf 002  01 \r\n-02 001 00\r\n",
        "p cnf 2 1\n-2 1 0\n",
    ),
    (
        "c\n comment\ncnf\np cnf 3 1\n1\nc 2\n\n   c3 0\n3 0\n",
        "p cnf 3 1\n1 3 0\n",
    ),
    (
        "p cnf 4194304 1\n-4194304 4194304 0",
        "p cnf 4194304 1\n-4194304 4194304 0\n",
    ),
];

/// Returns whether the text spells the formula that is written so.
fn is_read(rt: &impl Abort, alloc: Global, text: &str, canonical: &str) -> bool {
    let formula = ample(rt, read_cnf(alloc, text.as_bytes()));
    let mut sink = MemorySink::new(alloc);
    write_cnf(alloc, &formula, &mut sink).is_ok() && sink.as_slice() == canonical.as_bytes()
}

#[test]
fn reads_formulas(rt: HostRuntime) {
    for (text, canonical) in &READ {
        expect(&rt, is_read(&rt, rt.alloc(), text, canonical), text.len());
    }
}
