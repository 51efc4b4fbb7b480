//! The nodes of a tree.

/// A node of a tree. A split's left tree stands after it, and its right tree after that one.
#[derive(Clone, Copy)]
pub(crate) enum Node {
    /// A leaf.
    Leaf,
    /// A split of this variable.
    Split(u32),
}
