//! Laws of the dealing machine.
//!
//! A law's body is empty, or calls other laws: what it says is proved in the folder of its name in `proofs/laws`, or needs no
//! answer. Who calls it has what it says in proofs; the call does nothing when run.

ghost use Rattle.std.specs.Prelude.{ℕ, List};
ghost use Rattle.dealing.specs.declared.event.Event.{Event};
ghost use Rattle.dealing.specs.Counting.{IsDealt};
ghost use Rattle.dealing.specs.Machine.{empty_machine};
ghost use Rattle.dealing.specs.Run.{accepted, run};

/// Of every list of events, for any number of workers, 1 to 8 among them: the queues, jobs in flight and ledger are those found by counting
/// the events that were not refused; each ticket put is in exactly one of job queue, jobs in flight, result queue and ledger; the ledger
/// holds an outcome under a ticket only if the worker that took it gave that outcome for it; and where queues are empty and no job is in
/// flight, the ledger holds each ticket put, once, and no other.
pub fn every_run()
    ensures { (workers : ℕ) (events : List Event) → IsDealt (accepted (empty_machine workers) events) (run (empty_machine workers) events) }
{}
