//! What is decided with a hint: a schedule that may be legal, of all or some operations.
ghost use Rattle.std.specs.Prelude.{IfOk};
ghost use Rattle.survey_verdict.specs.Hinted.{FollowsWithHint, IsLegalExactlyIf};
ghost use Rattle.survey_verdict.specs.Surveyed.{IsSurveyed};

use crate::deciding::decide_by_survey;
use crate::surveyed::Surveyed;
use cube_jobs::{Gate, SearchFault, SearchRun};
use schedule_judge::judge::judge;
use std::alloc::{AllocError, Global};
use std::sync::Wait;
use std::thread::Threads;
use surveyor::Surveyor;
use trace_decision::Decision;
use trace_semantics::judgement::Judgement;
use trace_semantics::laws::{legal_exactly_where_faultless, one_judgement};
use trace_semantics::schedule::Schedule;
use trace_semantics::trace::Trace;

/// Returns whether the schedule is a legal one of the trace.
fn is_legal(alloc: Global, trace: &Trace, schedule: &Schedule) -> Result<bool, AllocError>
    ensures { IfOk result (λ legal. IsLegalExactlyIf legal trace.now schedule.now) }
{
    trace.recall_invariant();
    legal_exactly_where_faultless();
    one_judgement();
    match judge(alloc, trace, schedule)? {
        Judgement::Legal => Ok(true),
        Judgement::Illegal(_cause, _place) => Ok(false),
    }
}

/// Decides whether the trace has a legal schedule: by the hint, if that is one, and else as [`decide_by_survey`] does, which hands the hint
/// on to the surveyor. A hint may be wrong, and an empty one is none.
pub fn decide_with_hint<R: Threads + Wait + Sync, S: Surveyor, G: Gate + Sync>(
    run: &SearchRun<'_, R, G>,
    trace: &Trace,
    hint: Schedule,
    surveyor: &S,
) -> Result<Surveyed, SearchFault>
    ensures decided { IfOk result (IsSurveyed run.now.options.now trace.now) }
    ensures follows { IfOk result (FollowsWithHint run.now.options.now trace.now hint (S.finds surveyor.now trace.now)) }
{
    let legal = is_legal(run.alloc, trace, &hint)?;
    if legal {
        return Ok(Surveyed::Decided(Decision::Consistent(hint)));
    }
    decide_by_survey(run, trace, hint.names(), surveyor)
}
