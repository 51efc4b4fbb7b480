//! A seat at a stop word.
use crate::views::View;
use atomic_table::Seat;
use std::marker::Model;

/// A thread's seat at a stop word, with which it marks and looks. It has no bytes. Contracts see which word it is at, and what it
/// knows: the numbers that it has marked, the least number that it has marked or been shown, and its parts.
#[derive(Drop)]
pub struct StopSeat {
    pub(crate) seat: Seat<u8, View>,
}

impl Model for StopSeat {
    ghost use Rattle.std.specs.Prelude.{◌≡◌, ◌<◌, []};
    ghost use Rattle.stop_word.specs.Seats.{SeatValue};

    ghost Value = { SeatValue };

    ghost view = { λ s. record { word = s.seat.table_id; knows = s.seat.me.0 } };

    ghost invariant = { λ s. (0 < s.seat.me.0.parts) × (s.seat.me.1 ≡ []) };
}
