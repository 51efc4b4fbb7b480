//! Texts of trees: what is read and written, up to the limits. `tests/examples/recheck.txt` has their faults, as those of certificates.

use crate::cubes::large_trees::{deep_text, full_text};
use crate::expectations::{ample, expect};
use cube_tree::{read_tree, write_tree};
use std::alloc::Global;
use std::process::Abort;

/// A text, how many bytes of it spell a tree of how many leaves, and what is written of this tree.
type Read = (&'static str, usize, u32, &'static str);

const READ: [Read; 4] = [
    (
        "split 3\nleaf\nleaf\nproof 0\n",
        18,
        2,
        "split 3\nleaf\nleaf\n",
    ),
    ("leaf", 4, 1, "leaf\n"),
    ("leaf\n\nleaf", 5, 1, "leaf\n"),
    (
        " split\t4194304 \r\n\tleaf\nleaf \nx",
        29,
        2,
        "split 4194304\nleaf\nleaf\n",
    ),
];

/// Asserts that the first bytes of the text, by their number, spell a tree of this number of leaves, whose canonical text is this.
fn assert_reads(
    rt: &impl Abort,
    alloc: Global,
    text: &[u8],
    bytes: usize,
    leaves: u32,
    canonical: &[u8],
) {
    let (tree, taken) = ample(rt, read_tree(alloc, text));
    expect(rt, taken == bytes && tree.leaves() == leaves, text.len());
    let written = ample(rt, write_tree(alloc, &tree));
    expect(rt, written.as_slice() == canonical, text.len());
}

#[test]
fn reads_a_tree_and_no_further(rt: HostRuntime) {
    for (text, bytes, leaves, canonical) in &READ {
        let [text, written] = [text.as_bytes(), canonical.as_bytes()];
        assert_reads(&rt, rt.alloc(), text, *bytes, *leaves, written);
    }
}

#[test]
fn keeps_the_limits(rt: HostRuntime) {
    let deepest = deep_text(&rt, rt.alloc(), 20);
    let deep = deepest.as_slice();
    assert_reads(&rt, rt.alloc(), deep, deep.len(), 21, deep);
    let largest = full_text(&rt, rt.alloc());
    let full = largest.as_slice();
    assert_reads(&rt, rt.alloc(), full, full.len(), 1024, full);
}
