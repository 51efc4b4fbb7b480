//! What may be wrong with the text of a tree.

use text_lines::fault::FaultCause;

/// What is wrong with a line of a tree's text. A fault has the line as its place, counted from 1.
#[derive(Clone, Copy, Debug, PartialEq, Eq)]
pub enum TreeCause {
    /// The line is neither `leaf` nor `split` and a variable; or the text ends within the tree.
    BadLine,
    /// A split that is 20 splits deep.
    TooDeep,
    /// The 1,025th leaf.
    TooManyLeaves,
}

impl FaultCause for TreeCause {
    ghost use Rattle.cube_tree.specs.TreeFault.{cause_number, cause_name};

    ghost number_of = { cause_number };

    ghost name_of = { cause_name };

    /// The number that stands for the cause. It begins at 2, since 1 says in each table of causes that memory ran out.
    fn number(&self) -> u8 {
        match self {
            TreeCause::BadLine => 2,
            TreeCause::TooDeep => 3,
            TreeCause::TooManyLeaves => 4,
        }
    }

    fn name(&self) -> &'static str {
        match self {
            TreeCause::BadLine => "BadLine",
            TreeCause::TooDeep => "TooDeep",
            TreeCause::TooManyLeaves => "TooManyLeaves",
        }
    }
}
