//! What may be wrong with a certificate.

use text_lines::fault::{FaultCause, PlacedFault};

/// What is wrong with a certificate: with a line of its text, or with a leaf.
#[derive(Clone, Copy, Debug, PartialEq, Eq)]
pub enum CertCause {
    /// The first line that is not skipped is not `vsc-cert 1`, or there is none.
    Header,
    /// A line of the tree is neither `leaf` nor `split` and a variable; or the text ends within the tree.
    BadTree,
    /// A split that is 20 splits deep.
    TooDeep,
    /// The 1,025th leaf.
    TooManyLeaves,
    /// A line outside a section that is not `proof` and a number; or the text ends within a section.
    BadLine,
    /// A line of a section is no step of a derivation.
    BadLrat,
    /// A section for a leaf that the tree does not have.
    Stranger,
    /// A second section for a leaf.
    Double,
    /// A leaf without a section.
    Missing,
    /// The derivation for a leaf is refused.
    Derivation,
}

/// Why a certificate is refused: what is wrong with its text, at a line counted from 1; or what is wrong with a leaf, which has the
/// leaf's number as its place; or that memory ran out.
pub type CertFault = PlacedFault<CertCause>;

impl FaultCause for CertCause {
    ghost use Rattle.certificate.specs.CertCause.{cause_number, cause_name};

    ghost number_of = { cause_number };

    ghost name_of = { cause_name };

    /// The number that a refusal prints before the name. It begins at 2, since 1 says in each table of causes that memory ran out.
    fn number(&self) -> u8 {
        match self {
            CertCause::Header => 2,
            CertCause::BadTree => 3,
            CertCause::TooDeep => 4,
            CertCause::TooManyLeaves => 5,
            CertCause::BadLine => 6,
            CertCause::BadLrat => 7,
            CertCause::Stranger => 8,
            CertCause::Double => 9,
            CertCause::Missing => 10,
            CertCause::Derivation => 11,
        }
    }

    fn name(&self) -> &'static str {
        match self {
            CertCause::Header => "Header",
            CertCause::BadTree => "BadTree",
            CertCause::TooDeep => "TooDeep",
            CertCause::TooManyLeaves => "TooManyLeaves",
            CertCause::BadLine => "BadLine",
            CertCause::BadLrat => "BadLrat",
            CertCause::Stranger => "Stranger",
            CertCause::Double => "Double",
            CertCause::Missing => "Missing",
            CertCause::Derivation => "Derivation",
        }
    }
}
