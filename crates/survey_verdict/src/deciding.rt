//! From what a survey finds to what is decided.
ghost use Rattle.std.specs.Prelude.{◌≡◌, ◌≤◌, IfOk};
ghost use Rattle.cube_jobs.specs.Options.{OptionsValue};
ghost use Rattle.reason_check.specs.Accepted.{IsAcceptedReasons};
ghost use Rattle.reducer.specs.Reduction.{kept_trace};
ghost use Rattle.survey_verdict.specs.Findings.{FollowsFrom, FollowsFromSome, IsAcceptedSome, IsDecidedWhole, IsFoundOr, IsJudged, IsOfWhole, IsShownBy, extent_within};
ghost use Rattle.survey_verdict.specs.Surveyed.{IsDecidedIfShort, IsReducedIfSmall, IsRefutedChoice, IsReasoned, IsRefutedIfShort, IsSurveyed, core_of, if_few, refutation_in};
ghost use Rattle.surveyor.specs.declared.Extent.{Extent as Reached};
ghost use Rattle.surveyor.specs.declared.Finding.TheVariants.{Core as CoreFound, Reasons as ReasonsFound, Schedule as ScheduleFound};
ghost use Rattle.trace_decision.specs.Decision.{IsDecided};
ghost use Rattle.trace_decision.specs.declared.decision.Decision.TheVariants.{Inconsistent};
ghost use Rattle.trace_part.specs.TraceParts.{IsPart};
ghost use Rattle.trace_semantics.specs.Legal.{HasNoSchedule};
ghost use Rattle.trace_semantics.specs.Trace.{operation_count};

use crate::core_names::{all_names, names_among};
use crate::extent::within_trace;
use crate::named_operations::named_operations;
use crate::surveyed::{ReasonCertificate, RefutedCore, Surveyed};
use cube_jobs::{Gate, OpenGate, Options, SearchFault, SearchRun, Stage};
use reason_check::reasons_check::check_reasons;
use reason_check::reasons_fault::ReasonsFault;
use reducer::reduced::{Reduced, reduce};
use schedule_judge::judge::judge;
use std::alloc::{AllocError, Global};
use std::sync::Wait;
use std::thread::Threads;
use surveyor::{Extent, Finding, Overview, Surveyor};
use text_lines::fault::PlacedFault;
use trace_decision::{Decision, Refutation, decide};
use trace_part::laws::unschedulable_where_its_part_is;
use trace_part::part::{TracePart, part_of};
use trace_semantics::judgement::Judgement;
use trace_semantics::laws::{legal_exactly_where_faultless, one_judgement};
use trace_semantics::operation::OpName;
use trace_semantics::schedule::Schedule;
use trace_semantics::trace::Trace;
use trace_semantics::trace_size::count_operations;

/// The most operations of a certificate of reasons whose names are shown.
const MAX_NAMED: usize = 64;

/// The schedule of these names, if it is a legal one of the trace.
fn judged(alloc: Global, trace: &Trace, names: Vec<OpName>) -> Result<Option<Schedule>, AllocError>
    ensures { IfOk result (IsJudged trace.now names.items) }
{
    trace.recall_invariant();
    legal_exactly_where_faultless();
    one_judgement();
    let schedule = Schedule::new(names);
    match judge(alloc, trace, &schedule)? {
        Judgement::Legal => Ok(Some(schedule)),
        Judgement::Illegal(_cause, _place) => Ok(None),
    }
}

/// The trace without its repeated local reads, if at most 160 operations are left, which is what a search takes.
fn reduced_if_small(alloc: Global, trace: &Trace) -> Result<Option<Reduced>, AllocError>
    ensures { IfOk result (IsReducedIfSmall trace.now) }
{
    match reduce(alloc, trace) {
        Ok(reduced) => Ok(Some(reduced)),
        Err(PlacedFault::OutOfMemory) => Err(AllocError),
        Err(PlacedFault::At(_cause, _left)) => Ok(None),
    }
}

/// Decides whether the whole trace has a legal schedule, between the two calls of the gate for this stage.
fn decide_in_stage<R: Threads + Wait + Sync, G: Gate + Sync>(
    run: &SearchRun<'_, R, G>,
    reduced: &Reduced,
    stage: Stage,
) -> Result<Decision, SearchFault>
    ensures { IfOk result (λ decision. IsDecided run.now.options.now reduced.now.whole decision) }
{
    run.gate.begin(stage);
    let decided = decide(run.alloc, run.rt, reduced, run.options, run.gate);
    run.gate.end(stage);
    decided
}

/// Gives what the search of this stage decides of the trace, if few enough operations are left of it.
fn decided_if_short<R: Threads + Wait + Sync, G: Gate + Sync>(
    run: &SearchRun<'_, R, G>,
    trace: &Trace,
    stage: Stage,
) -> Result<Option<Decision>, SearchFault>
    ensures { IfOk result (IsDecidedIfShort run.now.options.now trace.now) }
{
    let small = reduced_if_small(run.alloc, trace)?;
    match small {
        Some(reduced) => {
            let decision = decide_in_stage(run, &reduced, stage)?;
            Ok(Some(decision))
        }
        None => Ok(None),
    }
}

/// Gives what refutes the trace, if that is what was decided.
fn refutation_of(decision: Decision) -> Option<Refutation>
    ensures { result ≡ refutation_in decision }
{
    match decision {
        Decision::Consistent(_schedule) => None,
        Decision::Inconsistent(refutation) => Some(refutation),
        Decision::Unknown(_cubes) => None,
    }
}

/// Gives what shows that the trace of a core has no legal schedule, if few enough operations are left of it and the search refutes it.
fn refuted<R: Threads + Wait + Sync, G: Gate + Sync>(
    run: &SearchRun<'_, R, G>,
    trace: &Trace,
) -> Result<Option<Refutation>, SearchFault>
    ensures { IfOk result (IsRefutedIfShort run.now.options.now trace.now) }
{
    let stage = Stage::Core(count_operations(trace));
    let decided = decided_if_short(run, trace, stage)?;
    match decided {
        Some(decision) => Ok(refutation_of(decision)),
        None => Ok(None),
    }
}

/// The part that these operations of the trace make up, which stand in its order.
fn part_in_order(alloc: Global, trace: &Trace, names: &[OpName]) -> Result<TracePart, AllocError>
    requires { names.now ≡ core_of trace.now names.now }
    ensures { IfOk result (IsPart trace.now names.now) }
{
    trace.recall_invariant();
    match part_of(alloc, trace, names) {
        Ok(part) => Ok(part),
        Err(PlacedFault::OutOfMemory) => Err(AllocError),
        // Only a name that the trace does not have, or that came before, is refused, and these are in its order.
        Err(PlacedFault::At(_cause, _place)) => unreachable!(),
    }
}

/// The core of those operations of the trace that were found, if the search refutes their part.
fn refuted_core<R: Threads + Wait + Sync, G: Gate + Sync>(
    run: &SearchRun<'_, R, G>,
    trace: &Trace,
    found: &[OpName],
) -> Result<Option<RefutedCore>, SearchFault>
    ensures { IfOk result (IsRefutedChoice run.now.options.now trace.now (core_of trace.now found.now)) }
{
    trace.recall_invariant();
    unschedulable_where_its_part_is();
    let names = names_among(run.alloc, trace, found)?;
    let part = part_in_order(run.alloc, trace, names.as_slice())?;
    let refuted = refuted(run, part.trace())?;
    match refuted {
        Some(refutation) => Ok(Some(RefutedCore {
            names: Schedule::new(names),
            part,
            refutation,
        })),
        None => Ok(None),
    }
}

/// All operations as a core, if the search refutes the part that they make up. Else what refutes the trace itself: the part of all says
/// less than the trace where a before pair goes back in one process, or an origin does not write.
fn core_of_all<R: Threads + Wait + Sync, G: Gate + Sync>(
    run: &SearchRun<'_, R, G>,
    trace: &Trace,
    refutation: Refutation,
) -> Result<Surveyed, SearchFault>
    requires decided { IsDecided run.now.options.now trace.now (Inconsistent refutation) }
    requires few { operation_count (kept_trace trace.now) ≤ 160 }
    ensures { (extent : Reached) → IfOk result (IsDecidedWhole run.now.options.now trace.now extent) }
{
    let names = all_names(run.alloc, trace)?;
    let core = refuted_core(run, trace, names.as_slice())?;
    match core {
        Some(all) => Ok(Surveyed::Refuted(all)),
        None => Ok(Surveyed::Decided(Decision::Inconsistent(refutation))),
    }
}

/// Gives what is said of the whole trace, of which this is decided.
fn said_of_whole<R: Threads + Wait + Sync, G: Gate + Sync>(
    run: &SearchRun<'_, R, G>,
    trace: &Trace,
    decision: Decision,
    extent: Extent,
) -> Result<Surveyed, SearchFault>
    requires decided { IsDecided run.now.options.now trace.now decision }
    requires few { operation_count (kept_trace trace.now) ≤ 160 }
    requires placed { extent.placed ≤ operation_count trace.now }
    ensures { IfOk result (IsDecidedWhole run.now.options.now trace.now extent) }
{
    match decision {
        Decision::Consistent(schedule) => Ok(Surveyed::Decided(Decision::Consistent(schedule))),
        Decision::Inconsistent(refutation) => core_of_all(run, trace, refutation),
        Decision::Unknown(_cubes) => Ok(Surveyed::Undecided(extent)),
    }
}

/// Gives what the search shows of the whole trace, if few enough operations are left of it.
fn decided_whole<R: Threads + Wait + Sync, G: Gate + Sync>(
    run: &SearchRun<'_, R, G>,
    trace: &Trace,
    extent: Extent,
) -> Result<Surveyed, SearchFault>
    requires { extent.placed ≤ operation_count trace.now }
    ensures { IfOk result (IsDecidedWhole run.now.options.now trace.now extent) }
{
    let stage = Stage::Whole(count_operations(trace));
    let decided = decided_if_short(run, trace, stage)?;
    match decided {
        Some(decision) => said_of_whole(run, trace, decision, extent),
        None => Ok(Surveyed::Undecided(extent)),
    }
}

/// Gives what the schedule of these names shows, if it is legal.
fn shown_by_schedule(
    alloc: Global,
    trace: &Trace,
    names: Vec<OpName>,
) -> Result<Option<Surveyed>, AllocError>
    ensures { (options : OptionsValue) → IfOk result (IsShownBy options trace.now (ScheduleFound names)) }
{
    let judged = judged(alloc, trace, names)?;
    match judged {
        Some(schedule) => Ok(Some(Surveyed::Decided(Decision::Consistent(schedule)))),
        None => Ok(None),
    }
}

/// Gives what the core of these names shows, if the search refutes its part.
fn shown_by_core<R: Threads + Wait + Sync, G: Gate + Sync>(
    run: &SearchRun<'_, R, G>,
    trace: &Trace,
    names: Vec<OpName>,
) -> Result<Option<Surveyed>, SearchFault>
    ensures { IfOk result (IsShownBy run.now.options.now trace.now (CoreFound names)) }
{
    let refuted = refuted_core(run, trace, names.as_slice())?;
    match refuted {
        Some(core) => Ok(Some(Surveyed::Refuted(core))),
        None => Ok(None),
    }
}

/// The number of clauses of the certificate of reasons, if it is accepted for the trace.
fn accepted_clauses(alloc: Global, trace: &Trace, text: &[u8]) -> Result<Option<usize>, AllocError>
    ensures { IfOk result (IsAcceptedSome trace.now text.now) }
{
    match check_reasons(alloc, trace, text) {
        Ok(accepted) => Ok(Some(accepted.clauses)),
        Err(ReasonsFault::OutOfMemory) => Err(AllocError),
        Err(_refusal) => Ok(None),
    }
}

/// The names, or none if they are more than `MAX_NAMED`. The contract says 64 as `if_few`.
fn few_names(alloc: Global, names: Vec<OpName>) -> Vec<OpName>
    ensures { result.items ≡ if_few names.items }
{
    if names.len() <= MAX_NAMED {
        names
    } else {
        Vec::new(alloc)
    }
}

/// The certificate of reasons, which was accepted for the trace, with the operations that its lines name.
fn with_names(
    alloc: Global,
    trace: &Trace,
    text: Vec<u8>,
    clauses: usize,
) -> Result<ReasonCertificate, AllocError>
    requires accepted { IsAcceptedReasons trace.now text.items clauses }
    requires none_legal { HasNoSchedule trace.now }
    ensures reasoned { IfOk result (IsReasoned trace.now) }
    ensures same { IfOk result (λ reasons. reasons.text ≡ text) }
{
    let named = named_operations(alloc, trace, text.as_slice())?;
    let operations = named.len();
    let names = few_names(alloc, named);
    Ok(ReasonCertificate {
        text,
        clauses,
        operations,
        names: Schedule::new(names),
    })
}

/// Gives what the certificate of reasons shows, if it is accepted.
fn shown_by_reasons(
    alloc: Global,
    trace: &Trace,
    text: Vec<u8>,
) -> Result<Option<Surveyed>, AllocError>
    ensures { (options : OptionsValue) → IfOk result (IsShownBy options trace.now (ReasonsFound text)) }
{
    let accepted = accepted_clauses(alloc, trace, text.as_slice())?;
    match accepted {
        Some(clauses) => {
            let reasons = with_names(alloc, trace, text, clauses)?;
            Ok(Some(Surveyed::Reasoned(reasons)))
        }
        None => Ok(None),
    }
}

/// Gives what follows from what was found, if it is as it should be.
fn shown<R: Threads + Wait + Sync, G: Gate + Sync>(
    run: &SearchRun<'_, R, G>,
    trace: &Trace,
    finding: Finding,
) -> Result<Option<Surveyed>, SearchFault>
    ensures { IfOk result (IsShownBy run.now.options.now trace.now finding) }
{
    match finding {
        Finding::Schedule(names) => {
            let shown = shown_by_schedule(run.alloc, trace, names)?;
            Ok(shown)
        }
        Finding::Core(names) => shown_by_core(run, trace, names),
        Finding::Reasons(text) => {
            let shown = shown_by_reasons(run.alloc, trace, text)?;
            Ok(shown)
        }
        Finding::Nothing => Ok(None),
    }
}

/// Gives what is decided by what was found, or else by the search of the whole after a survey that came this far.
fn decide_by_finding<R: Threads + Wait + Sync, G: Gate + Sync>(
    run: &SearchRun<'_, R, G>,
    trace: &Trace,
    finding: Finding,
    extent: Extent,
) -> Result<Surveyed, SearchFault>
    ensures decided { IfOk result (IsSurveyed run.now.options.now trace.now) }
    ensures follows { IfOk result (IsFoundOr run.now.options.now trace.now finding (IsOfWhole trace.now (extent_within trace.now extent))) }
{
    let shown = shown(run, trace, finding)?;
    match shown {
        Some(surveyed) => Ok(surveyed),
        None => {
            let told = within_trace(trace, extent);
            decided_whole(run, trace, told)
        }
    }
}

/// Gives what is decided by the first of what was found that shows something, or else by the search of the whole.
fn decide_by_overview<R: Threads + Wait + Sync, G: Gate + Sync>(
    run: &SearchRun<'_, R, G>,
    trace: &Trace,
    overview: Overview,
) -> Result<Surveyed, SearchFault>
    ensures decided { IfOk result (IsSurveyed run.now.options.now trace.now) }
    ensures follows { IfOk result (FollowsFrom run.now.options.now trace.now overview) }
{
    let Overview {
        finding,
        otherwise,
        extent,
    } = overview;
    let shown = shown(run, trace, finding)?;
    match shown {
        Some(surveyed) => Ok(surveyed),
        None => decide_by_finding(run, trace, otherwise, extent),
    }
}

/// Gives what the surveyor finds in the trace, between the two calls of the gate for the survey.
fn overview_of<S: Surveyor, G: Gate>(
    alloc: Global,
    trace: &Trace,
    hint: &[OpName],
    surveyor: &S,
    gate: &G,
) -> Result<Overview, AllocError>
    ensures { IfOk result (S.finds surveyor.now trace.now) }
{
    let stage = Stage::Survey(count_operations(trace));
    gate.begin(stage);
    let found = surveyor.survey(alloc, trace, hint);
    gate.end(stage);
    found
}

/// Decides whether the trace has a legal schedule by what the survey finds, or else by the search of the whole, if few enough operations
/// are left of that. The first of its two findings that shows something is the answer: a legal schedule, or a certificate of reasons that is
/// accepted, or a core, if the search refutes its part. What the search decides of the whole does not stay undecided; but no search is bound to
/// decide anything, so the clauses say only that one with these options can leave it open, which is true of each trace.
///
/// The surveyor is given the hint, operations in an order in which a schedule may have them, and nothing else is made of it.
pub fn decide_by_survey<R: Threads + Wait + Sync, S: Surveyor, G: Gate + Sync>(
    run: &SearchRun<'_, R, G>,
    trace: &Trace,
    hint: &[OpName],
    surveyor: &S,
) -> Result<Surveyed, SearchFault>
    ensures decided { IfOk result (IsSurveyed run.now.options.now trace.now) }
    ensures follows { IfOk result (FollowsFromSome run.now.options.now trace.now (S.finds surveyor.now trace.now)) }
{
    let overview = overview_of(run.alloc, trace, hint, surveyor, run.gate)?;
    decide_by_overview(run, trace, overview)
}

/// Decides as [`decide_by_survey`] does, without a hint, and with nothing that sees how far it is.
pub fn decide_unwatched<R: Threads + Wait + Sync, S: Surveyor>(
    alloc: Global,
    rt: &R,
    trace: &Trace,
    options: &Options,
    surveyor: &S,
) -> Result<Surveyed, SearchFault>
    ensures decided { IfOk result (IsSurveyed options.now trace.now) }
    ensures follows { IfOk result (FollowsFromSome options.now trace.now (S.finds surveyor.now trace.now)) }
{
    let run = SearchRun {
        alloc,
        rt,
        options,
        gate: &OpenGate,
    };
    decide_by_survey(&run, trace, &[], surveyor)
}
