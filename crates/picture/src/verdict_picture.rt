//! The picture of a verdict.
ghost use Rattle.trace_semantics.specs.Judgement.{IsJudgement};
ghost use Rattle.trace_semantics.specs.declared.judgement.Judgement.TheVariants.{Legal};

use crate::drawing::Content;
use crate::message::{NothingDrawn, draw_message};
use crate::shown_names::ShownNames;
use crate::subject::{MAX_DRAWN, PictureSubject, count_all};
use drawn_order::{
    DrawnChoice, DrawnPart, PartTrace, items_of_schedule, order_of_schedule, too_few_sources,
};
use forced_order::forced_order::ForcedOrder;
use schedule_judge::judge::judge;
use std::alloc::{AllocError, Global};
use surveyor::{Finding, Overview, Surveyor};
use trace_semantics::judgement::Judgement;
use trace_semantics::operation::OpName;
use trace_semantics::schedule::Schedule;
use trace_semantics::trace::Trace;
use verdict_notes::ShownPlaces;

/// The most operations of a trace that is drawn whole where no core of it is found.
const MAX_OF_WHOLE: u64 = 60;

/// Draws the schedule, which was judged legal.
fn draw_legal(
    alloc: Global,
    part: PartTrace<'_>,
    places: &ShownPlaces,
    schedule: &Schedule,
) -> Result<Vec<u8>, AllocError>
    requires { IsJudgement part.trace.now schedule.now Legal }
{
    let items = items_of_schedule(alloc, part.trace, schedule.names())?;
    let found = order_of_schedule(alloc, part, items.as_slice())?;
    let content = Content {
        trace: part.trace,
        names: ShownNames {
            trace: part.trace,
            places,
        },
        subject: PictureSubject::InOrder,
        items: items.as_slice(),
        found: &found,
    };
    content.draw(alloc)
}

/// Draws the schedule, if it is legal.
fn draw_schedule(
    alloc: Global,
    part: PartTrace<'_>,
    places: &ShownPlaces,
    names: Vec<OpName>,
) -> Result<Vec<u8>, AllocError> {
    let schedule = Schedule::new(names);
    match judge(alloc, part.trace, &schedule)? {
        Judgement::Legal => draw_legal(alloc, part, places, &schedule),
        Judgement::Illegal(_, _) => draw_message(alloc, true, NothingDrawn::NotFound),
    }
}

/// Draws operations that have no legal schedule, if they are not too many.
fn draw_choice(
    alloc: Global,
    part: PartTrace<'_>,
    places: &ShownPlaces,
    subject: PictureSubject,
    choice: &mut DrawnChoice,
) -> Result<Vec<u8>, AllocError> {
    let count = choice.count() as u64;
    if count > MAX_DRAWN {
        return draw_message(alloc, false, NothingDrawn::TooMany(count));
    }
    let drawn = DrawnPart::of(alloc, part, choice)?;
    let found = drawn.saturate(alloc)?;
    let content = Content {
        trace: part.trace,
        names: ShownNames {
            trace: part.trace,
            places,
        },
        subject,
        items: drawn.items.as_slice(),
        found: &found,
    };
    content.draw(alloc)
}

/// Draws operations that need more sources than there are, or else the trace whole, if it is small.
fn draw_whole(
    alloc: Global,
    part: PartTrace<'_>,
    places: &ShownPlaces,
) -> Result<Vec<u8>, AllocError> {
    if let Some(mut choice) = too_few_sources(alloc, part.trace)? {
        return draw_choice(alloc, part, places, PictureSubject::TooFew, &mut choice);
    }
    if count_all(part.trace) > MAX_OF_WHOLE {
        return draw_message(alloc, false, NothingDrawn::NotFound);
    }
    let mut choice = DrawnChoice::of_all(alloc, part.trace)?;
    draw_choice(alloc, part, places, PictureSubject::Whole, &mut choice)
}

/// Draws what the survey finds, or says why it is not drawn. The survey is not trusted: a finding that does not fit the verdict counts as none.
fn draw_finding(
    alloc: Global,
    part: PartTrace<'_>,
    places: &ShownPlaces,
    finding: Finding,
    is_consistent: bool,
) -> Result<Vec<u8>, AllocError> {
    match finding {
        Finding::Schedule(names) if is_consistent => draw_schedule(alloc, part, places, names),
        Finding::Core(names) if !is_consistent => {
            let mut choice = DrawnChoice::of_names(alloc, part.trace, names.as_slice())?;
            draw_choice(alloc, part, places, PictureSubject::Core, &mut choice)
        }
        _ if is_consistent => draw_message(alloc, true, NothingDrawn::NotFound),
        _ => draw_whole(alloc, part, places),
    }
}

/// The picture of a verdict: of a schedule that the survey finds if the trace is consistent, and else of operations that contradict each
/// other, or of the whole trace if none are found and it is small. If there is nothing to be drawn, the picture says why. Operations are
/// named as notes name them, by the text, which spells the trace.
///
/// # Errors
///
/// `AllocError` if memory runs out.
pub fn draw_verdict<S: Surveyor>(
    alloc: Global,
    text: &[u8],
    trace: &Trace,
    surveyor: &S,
    is_consistent: bool,
) -> Result<Vec<u8>, AllocError> {
    let count = count_all(trace);
    // All operations of a schedule are drawn, so no survey is needed to see that they are too many. A core may be small all the same.
    if is_consistent && count > MAX_DRAWN {
        return draw_message(alloc, true, NothingDrawn::TooMany(count));
    }
    let Overview {
        finding,
        otherwise: _otherwise,
        extent: _,
    } = surveyor.survey(alloc, trace, &[])?;
    let places = ShownPlaces::of_comments(alloc, text)?;
    let forced = ForcedOrder::of_trace(alloc, trace)?;
    let part = PartTrace {
        trace,
        forced: &forced,
    };
    draw_finding(alloc, part, &places, finding, is_consistent)
}
