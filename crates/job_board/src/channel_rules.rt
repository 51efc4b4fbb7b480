//! The rules of the two channels, and what their steps show.
ghost use Rattle.std.specs.Prelude.{◌≡◌, List, [], ◌∷◌, ⊤};
ghost use Rattle.job_board.specs.declared.channel_view.ChannelView.TheVariants.{Single, Spent};
ghost use Rattle.job_board.specs.ChannelRules.{MeetsJobRule, MeetsResultRule, with_item, with_worker_made, worker_made, with_worker_joined, PutAddsUp, GotAddsUp};

use crate::channel_view::ChannelView;
use crossbeam_channel::protocol::{Join, Lesson, Outcome, Protocol, Split};

/// The rule of the job channel.
pub struct JobRule;

impl<T> Protocol<T, ChannelView<T>> for JobRule {
    ghost holds = { MeetsJobRule };

    ghost first = { Single [] 0 [] };
}

/// The rule of the result channel.
pub struct ResultRule;

impl<T> Protocol<T, ChannelView<T>> for ResultRule {
    ghost holds = { MeetsResultRule };

    ghost first = { Single [] 0 [] };
}

/// A send or a receive: the seat's list grows by the item, and by no other.
pub struct OneItem;

impl<T> Outcome<T, ChannelView<T>> for OneItem {
    ghost then = { λ v x w. w ≡ with_item v x };
}

impl<T> Lesson<T, ChannelView<T>> for OneItem {
    ghost fact = { λ v items. ⊤ };
}

/// A worker's pass is cut off.
pub struct NewWorker;

impl<T> Split<ChannelView<T>> for NewWorker {
    ghost left = { with_worker_made };

    ghost right = { worker_made };
}

/// A worker's pass is joined.
pub struct WorkerJoined;

impl<T> Join<ChannelView<T>> for WorkerJoined {
    ghost both = { with_worker_joined };

    ghost spent = { Spent };
}

/// The last receive on the job channel. Whether an item comes or not, it shows the job rule of the lists as they stood.
pub struct LastTake;

impl<T> Outcome<T, ChannelView<T>> for LastTake {
    ghost then = { λ v x w. (w ≡ Spent) × ((queue : List T) × PutAddsUp v (x ∷ queue)) };
}

impl<T> Lesson<T, ChannelView<T>> for LastTake {
    ghost fact = { PutAddsUp };
}

/// The last receive on the result channel. Whether an item comes or not, it shows the result rule of the lists as they stood.
pub struct LastGather;

impl<T> Outcome<T, ChannelView<T>> for LastGather {
    ghost then = { λ v x w. (w ≡ Spent) × ((queue : List T) × GotAddsUp v (x ∷ queue)) };
}

impl<T> Lesson<T, ChannelView<T>> for LastGather {
    ghost fact = { GotAddsUp };
}
