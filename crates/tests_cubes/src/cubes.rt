//! Trees, the search of a tree's leaves, and ledgers with answers that are right, wrong, or those of another leaf.

mod answers;
mod false_answers;
mod false_searches;
mod gates;
mod large_trees;
mod leaves;
mod ledgers;
mod options;
mod refused_memory;
mod searches;
mod texts;
mod tree_texts;
mod verdicts;
