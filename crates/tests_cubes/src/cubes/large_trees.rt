//! The texts of deep trees and of trees with many leaves.

use crate::expectations::ample;
use std::alloc::Global;
use std::process::Abort;

/// Appends the given number of lines that split on variable 1, and then the given number of leaves.
pub fn push_lines(rt: &impl Abort, text: &mut Vec<u8>, splits: u32, leaves: u32) {
    for _ in 0..splits {
        ample(rt, text.extend_from_slice(b"split 1\n"));
    }
    for _ in 0..leaves {
        ample(rt, text.extend_from_slice(b"leaf\n"));
    }
}

/// The text of this number of splits, each in the left tree of the one before, and of all their leaves.
pub fn deep_text(rt: &impl Abort, alloc: Global, splits: u32) -> Vec<u8> {
    let mut text = Vec::new(alloc);
    push_lines(rt, &mut text, splits, splits.wrapping_add(1));
    text
}

/// Appends the text of a full tree of this depth, which has this number of leaves. As many splits stand before a leaf as its number,
/// counted from 0, can be halved; before the first one as many as the tree is deep.
fn push_full_text(rt: &impl Abort, text: &mut Vec<u8>, depth: u32, leaves: u32) {
    push_lines(rt, text, depth, 1);
    for leaf in 1..leaves {
        push_lines(rt, text, leaf.trailing_zeros(), 1);
    }
}

/// The text of the full tree of depth 10.
pub fn full_text(rt: &impl Abort, alloc: Global) -> Vec<u8> {
    let mut text = Vec::new(alloc);
    push_full_text(rt, &mut text, 10, 1024);
    text
}

/// The depths of the full trees of the crowded text, and how many leaves each has.
const FULL_TREES: [(u32, u32); 7] = [
    (1, 2),
    (4, 16),
    (5, 32),
    (6, 64),
    (7, 128),
    (8, 256),
    (9, 512),
];

/// The text of a tree of 1,024 leaves, of which the first two have 20 splits above them. The right trees of the splits on their
/// path, from the deepest, are twelve leaves and full trees of depth 1, 4, 5, 6, 7, 8 and 9.
pub fn crowded_text(rt: &impl Abort, alloc: Global) -> Vec<u8> {
    let mut text = Vec::new(alloc);
    push_lines(rt, &mut text, 20, 14);
    for (depth, leaves) in &FULL_TREES {
        push_full_text(rt, &mut text, *depth, *leaves);
    }
    text
}
