//! The limits of a tree.

/// Maximum number of splits above a leaf, and so of literals of its cube.
pub const MAX_DEPTH: usize = 20;

/// Maximum number of leaves. A tree has one split fewer than leaves, so at most 2,047 nodes.
pub const MAX_LEAVES: usize = 1024;
