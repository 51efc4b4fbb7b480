//! Why a leaf is not split.

use text_lines::fault::FaultCause;

/// Why a leaf is not split. A fault has the leaf's number as its place.
#[derive(Clone, Copy, Debug, PartialEq, Eq)]
pub enum SplitCause {
    /// The tree has no leaf of this number.
    NoSuchLeaf,
    /// The tree has 1,024 leaves.
    TooManyLeaves,
    /// The leaf is 20 splits deep.
    TooDeep,
}

impl FaultCause for SplitCause {
    ghost use Rattle.cube_tree.specs.SplitFault.{cause_number, cause_name};

    ghost number_of = { cause_number };

    ghost name_of = { cause_name };

    /// The number that stands for the cause. It begins at 2, since 1 says in each table of causes that memory ran out.
    fn number(&self) -> u8 {
        match self {
            SplitCause::NoSuchLeaf => 2,
            SplitCause::TooManyLeaves => 3,
            SplitCause::TooDeep => 4,
        }
    }

    fn name(&self) -> &'static str {
        match self {
            SplitCause::NoSuchLeaf => "NoSuchLeaf",
            SplitCause::TooManyLeaves => "TooManyLeaves",
            SplitCause::TooDeep => "TooDeep",
        }
    }
}
