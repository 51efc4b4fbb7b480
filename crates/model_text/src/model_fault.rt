//! What may be wrong with the text of a solver's answer.

use text_lines::fault::{FaultCause, PlacedFault};

/// What is wrong at a line of a solver's answer.
#[derive(Clone, Copy, Debug, PartialEq, Eq)]
pub enum ModelCause {
    /// The line says that there is no model.
    SaysUnsatisfiable,
    /// The line is none of those that an answer may have, or has a word after the 0 that ends the model.
    BadLine,
    /// A word is no number, or one whose absolute value is above 4,194,304.
    BadNumber,
    /// The negation of a literal came before it.
    Clash,
    /// No 0 ends the model.
    Unended,
}

/// Why a text is not read as a model: its first fault and its line, counted from 1, or that memory ran out.
pub type ModelFault = PlacedFault<ModelCause>;

impl FaultCause for ModelCause {
    ghost use Rattle.model_text.specs.ModelCauses.{cause_number, cause_name};

    ghost number_of = { cause_number };

    ghost name_of = { cause_name };

    fn number(&self) -> u8 {
        match self {
            // 1 says that memory ran out, for faults of all kinds
            ModelCause::SaysUnsatisfiable => 2,
            ModelCause::BadLine => 3,
            ModelCause::BadNumber => 4,
            ModelCause::Clash => 5,
            ModelCause::Unended => 6,
        }
    }

    fn name(&self) -> &'static str {
        match self {
            ModelCause::SaysUnsatisfiable => "SaysUnsatisfiable",
            ModelCause::BadLine => "BadLine",
            ModelCause::BadNumber => "BadNumber",
            ModelCause::Clash => "Clash",
            ModelCause::Unended => "Unended",
        }
    }
}
