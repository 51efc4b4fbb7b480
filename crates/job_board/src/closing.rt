//! A board is closed.
//!
//! A seat lets one participant do its part: the dealer, who puts jobs, a worker, or the collector, who gathers results. A pass is a seat's token at a channel,
//! by which proofs know what the seat put or took there. The first passes are the dealer's and the collector's; those of workers were cut off them, and joined
//! again the first ones know the lists of all. A stop ticket, one from the number of cubes on, ends a worker.
ghost use Rattle.std.specs.Prelude.{◌≡◌, ◌<◌, ℕ, List, [], length, map, None};
ghost use Rattle.std.specs.List.{All};
ghost use Rattle.crossbeam_channel.specs.Claims.{view, IsSeatAt};
ghost use Rattle.crossbeam_channel.specs.Ends.{sends_on};
ghost use Rattle.cube_jobs.specs.declared.job.Job.{Job};
ghost use Rattle.cube_jobs.specs.declared.job.Settled.{Settled};
ghost use Rattle.job_board.specs.declared.channel_view.ChannelView.TheVariants.{Single};
ghost use Rattle.job_board.specs.ChannelRules.{list_in, PutAddsUp, GotAddsUp, with_worker_joined};
ghost use Rattle.job_board.specs.InFlight.{ticket_in};
ghost use Rattle.job_board.specs.Merge.{IsMergeOf};
ghost use Rattle.job_board.specs.Seats.{put_by, given_by, gathered_by, IsDealerAt, IsWorkerAt, IsCollectorAt, AreWorkersAt};
ghost use Rattle.job_board.specs.Accounts.{IsAccountOf, AreJoined, WereDealt, WereGathered, IsBalanced, AreAnswersTo};

use crate::account::Account;
use crate::board::Board;
use crate::channel_rules::{LastGather, LastTake, WorkerJoined};
use crate::counts::added;
use crate::seats::{CollectorSeat, DealerSeat, JobPass, ResultPass, WorkerSeat};
use std::sync::Wait;

impl Board {
    /// The account of all seats of the board, the workers' in the order of their numbers. What was put is some merge of what the workers
    /// took, followed by what no worker took; what was gathered, followed by what was never gathered, is some merge of what they gave. If
    /// as many results were gathered as jobs were put, the four numbers are equal. If these are, the results are those of the jobs put,
    /// each once, and of no other, no worker has a job left in flight, and nothing that a worker gave is left: what was gathered is all of
    /// it.
    pub fn close<R: Wait>(
        self,
        rt: &R,
        dealer: DealerSeat,
        workers: Vec<WorkerSeat>,
        collector: CollectorSeat,
    ) -> Account
        requires dealer { IsDealerAt self dealer }
        requires workers { AreWorkersAt self workers.items }
        requires collector { IsCollectorAt self collector }
        ensures numbers { IsAccountOf self.cubes dealer workers.items collector result }
        ensures dealt { WereDealt dealer workers.items }
        ensures gathered { WereGathered collector workers.items }
        ensures low { All (λ settled. settled.ticket < self.cubes) (gathered_by collector) }
        ensures complete { result.gathered ≡ result.put → IsBalanced result }
        ensures hands { IsBalanced result → All (λ seat. ticket_in seat.hand ≡ None) workers.items }
        ensures whole { IsBalanced result → IsMergeOf (map given_by workers.items) (gathered_by collector) }
        ensures settled { IsBalanced result → AreAnswersTo self.cubes (put_by dealer) (gathered_by collector) }
    {
        let DealerSeat { mut jobs, put, .. } = dealer;
        let CollectorSeat {
            mut results,
            gathered,
            ..
        } = collector;
        let (taken, given) = self.join_all(rt, workers, &mut jobs, &mut results);
        // After all workers are joined: what the last receives show is of the joined lists, and says nothing while one is missing.
        self.end_jobs(rt, &mut jobs);
        self.end_results(rt, &mut results);
        Account {
            put,
            taken,
            given,
            gathered,
        }
    }

    /// Both first passes take in those of all workers' seats. It answers how many jobs these took and how many results they gave, stop
    /// tickets left out.
    fn join_all<R: Wait>(
        &self,
        rt: &R,
        workers: Vec<WorkerSeat>,
        jobs: &mut JobPass,
        results: &mut ResultPass,
    ) -> (u32, u32)
        requires workers { AreWorkersAt self.now workers.items }
        requires jobs { IsSeatAt (sends_on self.now.job_sender) jobs.old × (view jobs.old ≡ Single (list_in (view jobs.old)) self.now.workers []) }
        requires results { IsSeatAt (sends_on self.now.result_sender) results.old × (view results.old ≡ Single (list_in (view results.old)) self.now.workers []) }
        ensures jobs { IsSeatAt (sends_on self.now.job_sender) jobs.new }
        ensures results { IsSeatAt (sends_on self.now.result_sender) results.new }
        ensures joined { AreJoined self.now.cubes self.now.workers (list_in (view jobs.old)) (list_in (view results.old)) workers.items (view jobs.new) (view results.new) result.0 result.1 }
    {
        let mut taken = 0;
        let mut given = 0;
        for seat in workers {
            taken = added(rt, taken, seat.taken);
            given = added(rt, given, seat.given);
            self.join(seat, jobs, results);
        }
        (taken, given)
    }

    /// Both first passes take in those of the next worker's seat.
    fn join(&self, seat: WorkerSeat, jobs: &mut JobPass, results: &mut ResultPass)
        requires seat { IsWorkerAt self.now seat }
        requires jobs { IsSeatAt (sends_on self.now.job_sender) jobs.old × ((put : List Job) × (joined : List (List Job)) × (view jobs.old ≡ Single put self.now.workers joined) × (seat.number ≡ length joined)) }
        requires results { IsSeatAt (sends_on self.now.result_sender) results.old × ((got : List Settled) × (joined : List (List Settled)) × (view results.old ≡ Single got self.now.workers joined) × (seat.number ≡ length joined)) }
        ensures jobs { IsSeatAt (sends_on self.now.job_sender) jobs.new × (view jobs.new ≡ with_worker_joined (view jobs.old) (view seat.jobs)) }
        ensures results { IsSeatAt (sends_on self.now.result_sender) results.new × (view results.new ≡ with_worker_joined (view results.old) (view seat.results)) }
    {
        let WorkerSeat {
            jobs: theirs,
            results: given,
            ..
        } = seat;
        self.job_sender.absorb::<WorkerJoined>(jobs, theirs);
        self.result_sender.absorb::<WorkerJoined>(results, given);
    }

    /// The last receive on the job channel, after which the dealer's pass is spent. It is made for what its contract shows, and an item that comes is dropped.
    fn end_jobs<R: Wait>(&self, rt: &R, jobs: &mut JobPass)
        requires jobs { IsSeatAt (sends_on self.now.job_sender) jobs.old }
        requires knows { (put : List Job) × (made : ℕ) × (joined : List (List Job)) × (view jobs.old ≡ Single put made joined) }
        ensures { (queue : List Job) × PutAddsUp (view jobs.old) queue }
    {
        let _last = self.job_receiver.try_recv_as::<LastTake, R>(rt, jobs);
    }

    /// The last receive on the result channel, after which the collector's pass is spent. It is made for what its contract shows, as that of jobs is.
    fn end_results<R: Wait>(&self, rt: &R, results: &mut ResultPass)
        requires results { IsSeatAt (sends_on self.now.result_sender) results.old }
        requires knows { (got : List Settled) × (made : ℕ) × (joined : List (List Settled)) × (view results.old ≡ Single got made joined) }
        ensures { (queue : List Settled) × GotAddsUp (view results.old) queue }
    {
        let _last = self
            .result_receiver
            .try_recv_as::<LastGather, R>(rt, results);
    }
}
