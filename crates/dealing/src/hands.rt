//! The jobs in flight, by worker.
ghost use Rattle.std.specs.Prelude.{◌≡◌, ◌<◌, ◌≤◌, ℕ, Option, length, replicate, slice_index_or, slice_set, None};
ghost use Rattle.std.specs.List.{list_any};
ghost use Rattle.dealing.specs.Machine.{is_in_hand};

use cube_jobs::MAX_WORKERS;
use std::marker::Model;

/// The most workers of a machine.
const PLACES: usize = MAX_WORKERS as usize;

/// For each worker what it has in flight: a ticket, or nothing. Of the eight places the first `workers` count, and the others stay empty.
#[derive(Drop)]
pub(crate) struct Hands {
    places: [Option<u32>; PLACES],
    workers: usize,
}

impl Model for Hands {
    ghost use Rattle.std.specs.Prelude.{◌≡◌, List, ℕ, ◌≤◌, Option, take, length};

    ghost Value = { List (Option ℕ) };

    ghost view = { λ hands. take hands.workers hands.places };

    ghost invariant = { λ hands. (hands.workers ≤ 8) × (length hands.places ≡ 8) };
}

/// Returns whether the ticket is in this slot.
fn is_in_hand(hand: Option<u32>, ticket: u32) -> bool
    ensures { result ≡ is_in_hand ticket hand }
{
    match hand {
        Some(held) => held == ticket,
        None => false,
    }
}

impl Hands {
    /// Slots for jobs in flight, one for each worker, all empty.
    pub(crate) fn new(workers: u32) -> Hands
        requires { workers ≤ 8 }
        ensures { result ≡ replicate workers None }
    {
        Hands {
            places: [None; PLACES],
            workers: workers as usize,
        }
    }

    /// The number of workers.
    pub(crate) fn len(&self) -> usize
        ensures { result ≡ length self.now }
    {
        self.workers
    }

    /// The ticket that the worker has in flight.
    pub(crate) fn hand(&self, worker: u32) -> Option<u32>
        requires { worker < length self.now }
        ensures { result ≡ slice_index_or self.now worker None }
    {
        self.places[worker as usize]
    }

    /// Sets what the worker has in flight.
    pub(crate) fn put(&mut self, worker: u32, hand: Option<u32>)
        requires { worker < length self.old }
        ensures { self.new ≡ slice_set self.old worker hand }
    {
        self.places[worker as usize] = hand;
    }

    /// Returns whether the ticket is in flight.
    pub(crate) fn have(&self, ticket: u32) -> bool
        ensures { result ≡ list_any (is_in_hand ticket) self.now }
    {
        self.places[..self.workers]
            .iter()
            .any(|hand| is_in_hand(*hand, ticket))
    }
}
