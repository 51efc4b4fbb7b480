//! The cubes of a tree's leaves, and leaves that are split, within the limits.

use crate::cubes::large_trees::{crowded_text, deep_text, full_text};
use crate::cubes::texts::{are_literals, is_text, tree_of};
use crate::expectations::{ample, expect};
use cube_tree::{SplitCause, cubes, split_leaf};
use dimacs::Cube;
use std::alloc::Global;
use std::process::Abort;
use text_lines::fault::PlacedFault;

/// Asserts that the cube of this leaf has these literals.
fn assert_cube(rt: &impl Abort, alloc: Global, cubes: &[Cube], leaf: usize, numbers: &[i32]) {
    match cubes.get(leaf) {
        Some(cube) => {
            let is_right = ample(rt, are_literals(alloc, cube.as_slice(), numbers));
            expect(rt, is_right, leaf);
        }
        None => panic!(rt; "there is no leaf {leaf}"),
    }
}

#[test]
fn lists_cubes(rt: HostRuntime) {
    let text = b"split 3\nsplit 4\nleaf\nleaf\nsplit 3\nleaf\nleaf\n";
    let tree = tree_of(&rt, rt.alloc(), text);
    let listed = ample(&rt, cubes(rt.alloc(), &tree));
    let cubes = listed.as_slice();
    assert!(&rt; tree.leaves() == 4 && cubes.len() == 4);
    assert_cube(&rt, rt.alloc(), cubes, 0, &[3, 4]);
    assert_cube(&rt, rt.alloc(), cubes, 1, &[3, -4]);
    assert_cube(&rt, rt.alloc(), cubes, 2, &[-3, 3]);
    assert_cube(&rt, rt.alloc(), cubes, 3, &[-3, -3]);
}

#[test]
fn splits_one_leaf(rt: HostRuntime) {
    let tree = tree_of(&rt, rt.alloc(), b"split 3\nleaf\nleaf\n");
    let Ok(tree) = split_leaf(rt.alloc(), tree, 1, 5) else {
        panic!(&rt; "the leaf is not split");
    };
    let text = b"split 3\nleaf\nsplit 5\nleaf\nleaf\n";
    assert!(&rt; ample(&rt, is_text(rt.alloc(), &tree, text)));
    assert_not_split(&rt, rt.alloc(), text, 3, SplitCause::NoSuchLeaf);
}

/// Asserts that a leaf of the tree of this text is not split, for this cause, and that the tree comes back as it was.
fn assert_not_split(rt: &impl Abort, alloc: Global, text: &[u8], leaf: u32, cause: SplitCause) {
    let Err((tree, fault)) = split_leaf(alloc, tree_of(rt, alloc, text), leaf, 2) else {
        panic!(rt; "leaf {leaf} is split");
    };
    let is_told = fault == PlacedFault::At(cause, leaf as usize);
    expect(rt, is_told, leaf as usize);
    let is_same = ample(rt, is_text(alloc, &tree, text));
    expect(rt, is_same, leaf as usize);
}

/// A leaf that is not split, and why.
type UnsplitLeaf = (u32, SplitCause);

/// Leaves of a tree of 20 splits, each in the left tree of the one before.
const OF_DEEP: &[UnsplitLeaf] = &[
    (0, SplitCause::TooDeep),
    (1, SplitCause::TooDeep),
    (21, SplitCause::NoSuchLeaf),
];

/// Leaves of the full tree.
const OF_FULL: &[UnsplitLeaf] = &[
    (1023, SplitCause::TooManyLeaves),
    (1024, SplitCause::NoSuchLeaf),
];

/// Leaves of the crowded tree. Its first leaf is deep too: the lowest cause is reported.
const OF_CROWDED: &[UnsplitLeaf] = &[
    (0, SplitCause::TooManyLeaves),
    (1024, SplitCause::NoSuchLeaf),
];

/// Asserts so of each of these leaves.
fn assert_none_split(rt: &impl Abort, alloc: Global, text: &[u8], leaves: &[UnsplitLeaf]) {
    for (leaf, cause) in leaves {
        assert_not_split(rt, alloc, text, *leaf, *cause);
    }
}

#[test]
fn splits_no_leaf_that_is_deep_or_of_many(rt: HostRuntime) {
    let deep = deep_text(&rt, rt.alloc(), 20);
    assert_none_split(&rt, rt.alloc(), deep.as_slice(), OF_DEEP);
    let full = full_text(&rt, rt.alloc());
    assert_none_split(&rt, rt.alloc(), full.as_slice(), OF_FULL);
    let crowded = crowded_text(&rt, rt.alloc());
    let leaves = tree_of(&rt, rt.alloc(), crowded.as_slice()).leaves();
    assert!(&rt; leaves == 1024);
    assert_none_split(&rt, rt.alloc(), crowded.as_slice(), OF_CROWDED);
}
