//! The stop word.
ghost use Rattle.std.specs.Prelude.{◌≡◌, ◌+◌, ◌-◌, ◌<◌, ◌≤◌, ◌++◌, ◌⊎◌, ◌^◌, [], length, min, IfOk, IfSome, IfNone};
ghost use Rattle.std.specs.List.{All};
ghost use Rattle.stop_word.specs.WordRule.{Looks, Marks, least_of, marks_in, or_nothing, nothing, view_of};
ghost use Rattle.stop_word.specs.Seats.{AreAllSeats, KnowsNothing, known_by};

use crate::rule::{LeastMark, Looking, Marking, OnePart, Together};
use crate::seat::StopSeat;
use crate::views::View;
use atomic_table::Table;
use std::alloc::{AllocError, Global};
use std::marker::Model;

/// The most seats at a stop word.
pub const MAX_SEATS: u32 = 8;

/// A number that only falls: nothing, or the least that was marked. A thread that has a seat may mark and look, and waits for no other one.
/// Contracts see which word it is.
#[derive(Drop)]
pub struct StopWord {
    table: Table<u8, View, (), LeastMark, Global>,
}

impl Model for StopWord {
    ghost use Rattle.std.specs.Prelude.{◌≡◌};
    ghost use Rattle.atomic_table.specs.Seated.{TableId};

    ghost Value = { TableId };

    ghost view = { λ w. w.table.shared.table_id };

    ghost invariant = { λ w. (w.table.shared.table_id.words ≡ 1) × (w.table.shared.table_id.slots ≡ 0) };
}

/// The number that the word is, if it is not nothing: the largest number of 64 bits, which no mark is, since marks have 32.
fn number_in(word: u64) -> Option<u32>
    requires { (word ≡ nothing) ⊎ (word < 2 ^ 32) }
    ensures { or_nothing result ≡ word }
{
    if word == u64::MAX {
        None
    } else {
        Some(word as u32)
    }
}

impl StopWord {
    /// A word that no seat has marked, and 1 to 8 seats at it. These are all its seats.
    pub fn open(alloc: Global, seats: u32) -> Result<(StopWord, Vec<StopSeat>), AllocError>
        requires some { 1 ≤ seats }
        requires few { seats ≤ MAX_SEATS }
        ensures seats { IfOk result (λ r. length r.1.items ≡ seats) }
        ensures all { IfOk result (λ r. AreAllSeats r.0 r.1.items) }
        ensures new { IfOk result (λ r. All KnowsNothing (known_by r.1.items)) }
    {
        let mut list = Vec::with_capacity(alloc, seats as usize)?;
        let (table, seat) = Table::of_words(alloc, &[u64::MAX], &())?;
        let word = StopWord { table };
        let mut first = StopSeat { seat };
        // The first seat keeps the parts that are not cut off, so all seats together have eight, however few they are.
        for _ in 1..seats {
            list.push(word.cut(&mut first))?;
        }
        list.push(first)?;
        Ok((word, list))
    }

    /// One seat more, with one of this seat's parts.
    fn cut(&self, seat: &mut StopSeat) -> StopSeat
        requires word { seat.old.word ≡ self.now }
        requires parts { 1 < seat.old.knows.parts }
        ensures word { seat.new.word ≡ seat.old.word }
        ensures left { seat.new.knows ≡ view_of seat.old.knows.marks seat.old.knows.least (seat.old.knows.parts - 1) }
        ensures word_of_new { result.word ≡ seat.old.word }
        ensures right { result.knows ≡ view_of [] seat.old.knows.least 1 }
    {
        StopSeat {
            seat: self.table.shared.split_seat::<OnePart>(&mut seat.seat),
        }
    }

    /// The first seat takes in all that the second knows.
    fn join(&self, seat: &mut StopSeat, other: StopSeat)
        requires word { seat.old.word ≡ self.now }
        requires other { other.word ≡ self.now }
        ensures word { seat.new.word ≡ seat.old.word }
        ensures both { seat.new.knows ≡ view_of (seat.old.knows.marks ++ other.knows.marks) (min seat.old.knows.least other.knows.least) (seat.old.knows.parts + other.knows.parts) }
    {
        self.table
            .shared
            .join_seat::<Together>(&mut seat.seat, other.seat);
    }

    /// Marks the number. It waits for no other thread and takes no memory.
    pub fn mark(&self, seat: &mut StopSeat, k: u32)
        requires { seat.old.word ≡ self.now }
        ensures word { seat.new.word ≡ seat.old.word }
        ensures marked { Marks seat.old.knows k seat.new.knows }
    {
        // The table has one word, at place 0. What was there before is of no use to the caller.
        let _found = self
            .table
            .shared
            .fetch_min::<Marking>(&mut seat.seat, 0, k as u64);
    }

    /// The word at one moment of the call: the least of all marks, and so a number that some seat has marked, at most the least that this
    /// seat has marked or been shown. There is none only where this seat has marked nothing and was shown nothing. It waits for no other
    /// thread and takes no memory.
    pub fn look(&self, seat: &mut StopSeat) -> Option<u32>
        requires { seat.old.word ≡ self.now }
        ensures word { seat.new.word ≡ seat.old.word }
        ensures shown { Looks seat.old.knows (or_nothing result) seat.new.knows }
        ensures at_most { IfSome result (λ k. k ≤ seat.old.knows.least) }
        ensures none { IfNone result (KnowsNothing seat.old.knows) }
    {
        let found = self.table.shared.load::<Looking>(&mut seat.seat, 0);
        number_in(found)
    }

    /// The least of all marks, if there is one, where these are all seats of the word. No seat was shown a lower number. It takes no
    /// memory.
    pub fn close(self, mut seats: Vec<StopSeat>) -> Option<u32>
        requires { AreAllSeats self seats.items }
        ensures least { or_nothing result ≡ least_of (marks_in (known_by seats.items)) }
        ensures shown { All (λ v. or_nothing result ≤ v.least) (known_by seats.items) }
    {
        let Some(mut whole) = seats.pop() else {
            unreachable!()
        };
        while let Some(seat) = seats.pop() {
            self.join(&mut whole, seat);
        }
        self.close_with(whole)
    }

    /// The least of this seat's marks, where it has all parts. With fewer, marks of other seats could be in the word too.
    fn close_with(self, seat: StopSeat) -> Option<u32>
        requires word { seat.word ≡ self }
        requires parts { seat.knows.parts ≡ 8 }
        ensures least { or_nothing result ≡ least_of seat.knows.marks }
        ensures shown { or_nothing result ≤ seat.knows.least }
    {
        let closed = self.table.close_with(seat.seat);
        let word = closed.word(0);
        closed.free();
        number_in(word)
    }
}
