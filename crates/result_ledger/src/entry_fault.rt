//! The reason why a result is not entered.
//!
//! A ledger has a slot for each leaf of a split tree, and the ticket of a result is the number of its leaf. Each result of a search fits its slot, as
//! `enter_all` requires; so no command prints a number or a name of these, which are for other callers of `Ledger::enter`.

use text_lines::fault::FaultCause;

/// The reason why a result is not entered.
#[derive(Clone, Copy, Debug, PartialEq, Eq)]
pub enum EntryFault {
    /// There is no leaf of its ticket.
    Stranger,
    /// That leaf has an answer already.
    Double,
    /// That leaf has another cube.
    WrongCube,
}

impl FaultCause for EntryFault {
    ghost use Rattle.result_ledger.specs.Ledger.{cause_number, cause_name};

    ghost number_of = { cause_number };

    ghost name_of = { cause_name };

    // From 2 on: 1 is no cause, since it says that memory ran out.
    fn number(&self) -> u8 {
        match self {
            EntryFault::Stranger => 2,
            EntryFault::Double => 3,
            EntryFault::WrongCube => 4,
        }
    }

    fn name(&self) -> &'static str {
        match self {
            EntryFault::Stranger => "Stranger",
            EntryFault::Double => "Double",
            EntryFault::WrongCube => "WrongCube",
        }
    }
}
