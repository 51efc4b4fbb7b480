//! Trees that split on variables, the cubes of their leaves, which cover, and the text of a tree (cube and conquer: Heule, Kullmann,
//! Wieringa, Biere 2011).
#![tactic(auto)]

mod grown;
pub mod laws;
mod leaf_cubes;
mod leaf_place;
mod leaf_split;
mod limits;
mod node;
mod node_line;
mod split_fault;
mod tree;
mod tree_fault;
pub mod tree_laws;
mod tree_reader;
mod tree_writer;

pub use grown::grow;
pub use leaf_cubes::{bounded_cubes, cubes};
pub use leaf_split::split_leaf;
pub use limits::{MAX_DEPTH, MAX_LEAVES};
pub use split_fault::SplitCause;
pub use tree::Tree;
pub use tree_fault::TreeCause;
pub use tree_reader::read_tree;
pub use tree_writer::write_tree;
