//! Laws of the two channels.
//!
//! A law's body is empty, or calls other laws: what it says is proved in the folder of its name in `proofs/laws`, or needs no
//! answer. Who calls it has what it says in proofs; the call does nothing when run.

ghost use Rattle.std.specs.Prelude.{List};
ghost use Rattle.cube_jobs.specs.declared.job.Job.{Job};
ghost use Rattle.cube_jobs.specs.declared.job.Settled.{Settled};
ghost use Rattle.job_board.specs.declared.channel_view.ChannelView.{ChannelView};
ghost use Rattle.job_board.specs.ChannelRules.{MeetsJobRule, MeetsResultRule, PutIsMerge, GotIsMerge};

/// If the job rule is met and the dealer's seat is there, what the dealer put is some merge of what each worker took, each in its own
/// order, followed by the job queue.
pub fn put_is_a_merge()
    ensures { (queue : List Job) (views : List (ChannelView Job)) → MeetsJobRule queue views → PutIsMerge queue views }
{}

/// If the result rule is met and the collector's seat is there, what the collector gathered, followed by the result queue, is some merge of
/// what each worker gave, each in its own order.
pub fn gathered_is_a_merge()
    ensures { (queue : List Settled) (views : List (ChannelView Settled)) → MeetsResultRule queue views → GotIsMerge queue views }
{}
