//! The dealing machine.
//!
//! It is a sequential model of the queues between threads: a dealer puts jobs into the job queue, each under a ticket; a worker takes one, and gives its
//! outcome into the result queue; a collector gathers outcomes into the ledger. The laws (`laws.rt`) are of every list of these events, and no command
//! runs the machine.
ghost use Rattle.std.specs.Prelude.{◌≡◌, ◌≤◌, ◌==◌};
ghost use Rattle.std.specs.List.{list_any};
ghost use Rattle.std.specs.Option.{option_copied};
ghost use Rattle.dealing.specs.Machine.{State, empty_machine, tickets_in, is_among, outcome_under, IsStep};
ghost use Rattle.dealing.specs.declared.event.Event.TheVariants.{Put, Take, Give, Gather};

use crate::event::Event;
use crate::given_outcome::GivenOutcome;
use crate::hands::Hands;
use crate::refused::{EventCause, Refused};
use cube_jobs::Outcome;
use std::alloc::Global;
use std::collections::VecDeque;
use std::marker::Model;
use text_lines::plain_fault::PlainFault;

/// The dealing machine. Its outcomes stand in one list, in the order in which they were given: first those that were gathered,
/// which are the ledger, and then the result queue.
#[derive(Drop)]
pub struct Machine {
    jobs: VecDeque<u32>,
    hands: Hands,
    /// No two have one ticket, since `put` refuses a ticket that is anywhere in the machine.
    given: Vec<GivenOutcome>,
    /// The number of outcomes of `given` that are in the ledger.
    gathered: usize,
}

impl Model for Machine {
    ghost use Rattle.std.specs.Prelude.{◌≤◌, drop, take, length};
    ghost use Rattle.dealing.specs.Machine.{State};

    ghost Value = { State };

    ghost view = { λ m. record { jobs = m.jobs.items; hands = m.hands; results = drop m.gathered m.given.items; ledger = take m.gathered m.given.items } };

    ghost invariant = { λ m. m.gathered ≤ length m.given.items };
}

/// Returns whether one of these was given under the ticket.
fn has_ticket(given: &[GivenOutcome], ticket: u32) -> bool
    ensures { result ≡ list_any (λ one. one.ticket == ticket) given.now }
{
    given.iter().any(|one| one.ticket == ticket)
}

/// The outcome that was given under the ticket.
fn find_outcome(given: &[GivenOutcome], ticket: u32) -> Option<&Outcome>
    ensures { option_copied result ≡ outcome_under ticket given.now }
{
    for one in given {
        if one.ticket == ticket {
            return Some(&one.outcome);
        }
    }
    None
}

impl Machine {
    /// The machine of 1 to 8 workers, before any event. It takes no memory.
    pub fn new(alloc: Global, workers: u32) -> Machine
        requires some { 1 ≤ workers }
        requires few { workers ≤ 8 }
        ensures { result ≡ empty_machine workers }
    {
        Machine {
            jobs: VecDeque::new(alloc),
            hands: Hands::new(workers),
            given: Vec::new(alloc),
            gathered: 0,
        }
    }

    /// Takes one event. If it is not possible, it is refused and given up, and the machine is unchanged: the number of an event's worker is
    /// looked at first, and then the lowest refusal from `PutTwice` on is reported. `OutOfMemory` is reported of possible events alone.
    pub fn step(&mut self, event: Event) -> Result<(), Refused>
        ensures { IsStep self.old event result self.new }
    {
        match event {
            Event::Put(ticket) => self.put(ticket),
            Event::Take(worker) => self.take(worker),
            Event::Give(worker, outcome) => self.give(worker, outcome),
            Event::Gather => self.gather(),
        }
    }

    /// The outcome that the ledger holds under the ticket. It takes no memory.
    pub fn outcome(&self, ticket: u32) -> Option<&Outcome>
        ensures { option_copied result ≡ outcome_under ticket self.now.ledger }
    {
        find_outcome(&self.given[..self.gathered], ticket)
    }

    /// Returns whether the ticket is in the machine.
    fn has(&self, ticket: u32) -> bool
        ensures { result ≡ is_among ticket (tickets_in self.now) }
    {
        if self.jobs.contains(&ticket) {
            return true;
        }
        if self.hands.have(ticket) {
            return true;
        }
        has_ticket(self.given.as_slice(), ticket)
    }

    /// The ticket joins the job queue's back.
    fn put(&mut self, ticket: u32) -> Result<(), Refused>
        ensures { IsStep self.old (Put ticket) result self.new }
    {
        if self.has(ticket) {
            return Err(PlainFault::For(EventCause::PutTwice));
        }
        self.jobs.push_back(ticket)?;
        Ok(())
    }

    /// The job queue's front goes to the worker, as its job in flight.
    fn take(&mut self, worker: u32) -> Result<(), Refused>
        ensures { IsStep self.old (Take worker) result self.new }
    {
        if worker as usize >= self.hands.len() {
            return Err(PlainFault::For(EventCause::NoSuchWorker));
        }
        if self.jobs.is_empty() {
            return Err(PlainFault::For(EventCause::NoJob));
        }
        if self.hands.hand(worker).is_some() {
            return Err(PlainFault::For(EventCause::Busy));
        }
        // There is a front, since the queue is not empty.
        let front = self.jobs.pop_front();
        self.hands.put(worker, front);
        Ok(())
    }

    /// The ticket in flight joins the result queue's back with the outcome, and the worker has none in flight.
    fn give(&mut self, worker: u32, outcome: Outcome) -> Result<(), Refused>
        ensures { IsStep self.old (Give worker outcome) result self.new }
    {
        if worker as usize >= self.hands.len() {
            return Err(PlainFault::For(EventCause::NoSuchWorker));
        }
        let Some(ticket) = self.hands.hand(worker) else {
            return Err(PlainFault::For(EventCause::HoldsNothing));
        };
        // First what may find no memory: then the worker still has its job, and the machine is unchanged.
        self.given.push(GivenOutcome { ticket, outcome })?;
        self.hands.put(worker, None);
        Ok(())
    }

    /// The result queue's front goes into the ledger.
    fn gather(&mut self) -> Result<(), Refused>
        ensures { IsStep self.old Gather result self.new }
    {
        if self.gathered >= self.given.len() {
            return Err(PlainFault::For(EventCause::NoResult));
        }
        self.gathered += 1;
        Ok(())
    }
}
