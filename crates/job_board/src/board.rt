//! The board: the two channels over which a dealer, workers and a collector pass cubes and results.
//!
//! A *seat* is the view that one of these participants has of the board. A *ticket* is the number of a job, which is that of its leaf in
//! the tree of cubes.
ghost use Rattle.std.specs.Prelude.{◌≡◌};
ghost use Rattle.crossbeam_channel.specs.Ends.{sends_on, receives_on};

use crate::channel_rules::{JobRule, ResultRule};
use crate::channel_view::ChannelView;
use crossbeam_channel::{RuledReceiver, RuledSender};
use cube_jobs::{Job, Settled};

/// A channel of jobs from one dealer to the workers, and a channel of results from these to one collector. It holds both ends of both
/// channels, and all seats share it.
#[derive(Drop)]
pub struct Board {
    /// The number of workers' seats, from 1 to 8.
    pub(crate) workers: u32,
    /// The number of leaves of the tree, from 1 to 1,024: the room of the result channel, and the first stop ticket.
    pub(crate) cubes: u32,
    pub(crate) job_sender: RuledSender<Job, ChannelView<Job>, JobRule>,
    pub(crate) job_receiver: RuledReceiver<Job, ChannelView<Job>, JobRule>,
    pub(crate) result_sender: RuledSender<Settled, ChannelView<Settled>, ResultRule>,
    pub(crate) result_receiver: RuledReceiver<Settled, ChannelView<Settled>, ResultRule>,
    ghost job_ends: { receives_on job_receiver ≡ sends_on job_sender },
    ghost result_ends: { receives_on result_receiver ≡ sends_on result_sender },
}

impl Board {
    /// The number of cubes. Tickets from this number on are stop tickets.
    pub fn cubes(&self) -> u32
        ensures { result ≡ self.now.cubes }
    {
        self.cubes
    }

    /// The number of workers' seats.
    pub fn workers(&self) -> u32
        ensures { result ≡ self.now.workers }
    {
        self.workers
    }
}
