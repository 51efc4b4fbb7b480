//! Why the dealing machine refuses an event.

use text_lines::fault::FaultCause;
use text_lines::plain_fault::PlainFault;

/// The fault of an event.
#[derive(Clone, Copy, Debug, PartialEq, Eq)]
pub enum EventCause {
    /// The ticket was put before.
    PutTwice,
    /// The job queue is empty.
    NoJob,
    /// The worker has a job in flight.
    Busy,
    /// The worker has no job in flight.
    HoldsNothing,
    /// The result queue is empty.
    NoResult,
    /// The machine has no such worker.
    NoSuchWorker,
}

/// The reason why an event is refused: its fault, or that memory ran out.
pub type Refused = PlainFault<EventCause>;

impl FaultCause for EventCause {
    ghost use Rattle.dealing.specs.EventCauses.{cause_number, cause_name};

    ghost number_of = { cause_number };

    ghost name_of = { cause_name };

    // From 2 on: 1 is no cause, since it says that memory ran out.
    fn number(&self) -> u8 {
        match self {
            EventCause::PutTwice => 2,
            EventCause::NoJob => 3,
            EventCause::Busy => 4,
            EventCause::HoldsNothing => 5,
            EventCause::NoResult => 6,
            EventCause::NoSuchWorker => 7,
        }
    }

    fn name(&self) -> &'static str {
        match self {
            EventCause::PutTwice => "PutTwice",
            EventCause::NoJob => "NoJob",
            EventCause::Busy => "Busy",
            EventCause::HoldsNothing => "HoldsNothing",
            EventCause::NoResult => "NoResult",
            EventCause::NoSuchWorker => "NoSuchWorker",
        }
    }
}
