//! The seats at a board.
ghost use Rattle.std.specs.Prelude.{◌≡◌, ◌<◌, ◌++◌, true, length};
ghost use Rattle.std.specs.List.{All};
ghost use Rattle.crossbeam_channel.specs.Claims.{view};
ghost use Rattle.job_board.specs.declared.channel_view.ChannelView.TheVariants.{Worker};
ghost use Rattle.job_board.specs.ChannelRules.{list_in};
ghost use Rattle.job_board.specs.Pairs.{of_jobs, of_results, below, Rise};
ghost use Rattle.job_board.specs.InFlight.{held_in, is_within};

use crate::channel_view::ChannelView;
use crate::in_flight::InFlight;
use crossbeam_channel::Pass;
use cube_jobs::{Job, Settled};

/// What a seat knows of the job channel.
pub(crate) type JobPass = Pass<Job, ChannelView<Job>>;

/// What a seat knows of the result channel.
pub(crate) type ResultPass = Pass<Settled, ChannelView<Settled>>;

/// The seat of who puts jobs. Their tickets rise.
#[derive(Drop)]
pub struct DealerSeat {
    /// The number of cubes of its board: a ticket below it is of a job, and any other one is a stop ticket.
    pub(crate) cubes: u32,
    pub(crate) jobs: JobPass,
    /// The number of jobs that it has put, stop tickets left out.
    pub(crate) put: u32,
    ghost counted: { put ≡ length (below cubes (of_jobs (list_in (view jobs)))) },
    ghost rising: { Rise (of_jobs (list_in (view jobs))) },
}

/// The seat of a worker, who takes jobs and gives results. The jobs that it settled are a prefix of those that it took, at most one
/// shorter; where it is one shorter, the last one is in flight.
#[derive(Drop)]
pub struct WorkerSeat {
    /// From 0 on, in the order in which the seats were cut. The board is closed with the seats in this order.
    pub(crate) number: u32,
    pub(crate) cubes: u32,
    pub(crate) jobs: JobPass,
    pub(crate) results: ResultPass,
    /// What it has taken and not settled: what `give` compares a result with.
    pub(crate) hand: InFlight,
    /// The number of jobs that it has taken, stop tickets left out.
    pub(crate) taken: u32,
    pub(crate) given: u32,
    ghost takes: { view jobs ≡ Worker number (list_in (view jobs)) },
    ghost gives: { view results ≡ Worker number (list_in (view results)) },
    ghost answers: { of_jobs (list_in (view jobs)) ≡ of_results (list_in (view results)) ++ held_in hand },
    ghost within: { is_within cubes hand ≡ true },
    ghost counted: { taken ≡ length (below cubes (of_jobs (list_in (view jobs)))) },
    ghost settled: { given ≡ length (below cubes (of_results (list_in (view results)))) },
    ghost no_stop: { All (λ s. s.ticket < cubes) (list_in (view results)) },
}

/// The seat of who gathers results.
#[derive(Drop)]
pub struct CollectorSeat {
    pub(crate) cubes: u32,
    pub(crate) results: ResultPass,
    /// The number of results that it has gathered.
    pub(crate) gathered: u32,
    ghost counted: { gathered ≡ length (below cubes (of_results (list_in (view results)))) },
}
