//! The report of what is decided with the help of a survey.
ghost use Rattle.std.specs.Prelude.{◌≡◌, ◌++◌, IfOk, codes, decimal};
ghost use Rattle.schedule_text.specs.ScheduleWritten.{canonical_schedule};
ghost use Rattle.survey_verdict.specs.Surveyed.{core_names, core_part, extent_line, survey_report};

use crate::surveyed::Surveyed;
use part_text::part_writer::write_part;
use schedule_text::schedule_writer::write_schedule;
use std::alloc::{AllocError, Global};
use surveyor::Extent;
use trace_decision::{line_with_names, report_of};
use trace_semantics::schedule::Schedule;

/// The report of operations that show that there is no legal schedule: how many they are, this text, of how many cubes or reasons that is, and their names.
fn report_of_names(
    alloc: Global,
    operations: usize,
    between: &str,
    count: usize,
    names: &Schedule,
) -> Result<Vec<u8>, AllocError>
    ensures { IfOk result (λ text. text.items ≡ (codes "INCONSISTENT operations=" ++ (decimal operations ++ (between.now ++ (decimal count ++ codes "\n")))) ++ canonical_schedule names.now) }
{
    let line = format!(in alloc; "INCONSISTENT operations={operations}{between}{count}\n")?;
    line_with_names(alloc, line.as_str(), names)
}

/// The line that says how far the survey came.
fn line_of_extent(alloc: Global, extent: &Extent) -> Result<Vec<u8>, AllocError>
    ensures { IfOk result (λ text. text.items ≡ extent_line extent.now) }
{
    let placed = extent.placed;
    let undecided = extent.undecided;
    let line = format!(in alloc; "UNKNOWN placed={placed} undecided={undecided}\n")?;
    Ok(line.into_bytes())
}

/// The report of what is decided.
pub fn report_of_survey(alloc: Global, surveyed: &Surveyed) -> Result<Vec<u8>, AllocError>
    ensures { IfOk result (λ text. text.items ≡ survey_report surveyed.now) }
{
    match surveyed {
        Surveyed::Decided(decision) => report_of(alloc, decision),
        Surveyed::Refuted(core) => report_of_names(
            alloc,
            core.names.names().len(),
            " cubes=",
            core.refutation.tree.leaves() as usize,
            &core.names,
        ),
        Surveyed::Reasoned(reasons) => report_of_names(
            alloc,
            reasons.operations,
            " reasons=",
            reasons.clauses,
            &reasons.names,
        ),
        Surveyed::Undecided(extent) => line_of_extent(alloc, extent),
    }
}

/// The names of the core, one a line, or nothing if there is none.
pub fn names_of_core(alloc: Global, surveyed: &Surveyed) -> Result<Vec<u8>, AllocError>
    ensures { IfOk result (λ text. text.items ≡ core_names surveyed.now) }
{
    match surveyed {
        Surveyed::Refuted(core) => write_schedule(alloc, &core.names),
        Surveyed::Decided(_) => Ok(Vec::new(alloc)),
        Surveyed::Reasoned(_) => Ok(Vec::new(alloc)),
        Surveyed::Undecided(_) => Ok(Vec::new(alloc)),
    }
}

/// The part that the core makes up, as a trace's text with the names of its operations in the whole, or nothing if there is no core.
pub fn part_of_core(alloc: Global, surveyed: &Surveyed) -> Result<Vec<u8>, AllocError>
    ensures { IfOk result (λ text. text.items ≡ core_part surveyed.now) }
{
    match surveyed {
        Surveyed::Refuted(core) => write_part(alloc, &core.part, true),
        Surveyed::Decided(_) => Ok(Vec::new(alloc)),
        Surveyed::Reasoned(_) => Ok(Vec::new(alloc)),
        Surveyed::Undecided(_) => Ok(Vec::new(alloc)),
    }
}
