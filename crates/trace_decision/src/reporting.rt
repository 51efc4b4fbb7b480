//! The report of what is decided.
ghost use Rattle.std.specs.Prelude.{◌≡◌, ◌++◌, IfOk, OnOk};
ghost use Rattle.std.specs.List.{flat_map};
ghost use Rattle.dimacs.specs.CnfText.{literal_text};
ghost use Rattle.schedule_text.specs.ScheduleWritten.{canonical_schedule};
ghost use Rattle.trace_decision.specs.Decision.{open_line, unknown_line, report};
ghost use Rattle.trace_decision.specs.declared.decision.Decision.TheVariants.{Consistent, Inconsistent, Unknown};

use crate::decision::Decision;
use crate::refutation::Refutation;
use dimacs::{Cube, Lit};
use schedule_text::schedule_writer::write_schedule;
use std::alloc::{AllocError, Global};
use trace_semantics::schedule::Schedule;

/// Appends the literal and a space.
fn push_literal(alloc: Global, text: &mut Vec<u8>, literal: Lit) -> Result<(), AllocError>
    ensures { OnOk result (text.new.items ≡ text.old.items ++ literal_text literal) }
{
    let number = literal.number();
    let word = format!(in alloc; "{number} ")?;
    text.extend_from_slice(word.as_bytes())
}

/// Appends the line of an open cube.
fn push_open_line(alloc: Global, text: &mut Vec<u8>, cube: &[Lit]) -> Result<(), AllocError>
    ensures { OnOk result (text.new.items ≡ text.old.items ++ open_line cube.now) }
{
    text.extend_from_slice(b"open ")?;
    for literal in cube {
        push_literal(alloc, text, *literal)?;
    }
    text.extend_from_slice(b"0\n")
}

/// Appends the lines of open cubes.
fn push_open_lines(alloc: Global, text: &mut Vec<u8>, cubes: &[Cube]) -> Result<(), AllocError>
    ensures { OnOk result (text.new.items ≡ text.old.items ++ flat_map open_line cubes.now) }
{
    for cube in cubes {
        push_open_line(alloc, text, cube.as_slice())?;
    }
    Ok(())
}

/// The line of a report, and behind it the names of a schedule, one a line.
pub fn line_with_names(alloc: Global, line: &str, names: &Schedule) -> Result<Vec<u8>, AllocError>
    ensures { IfOk result (λ text. text.items ≡ line.now ++ canonical_schedule names.now) }
{
    let mut text = Vec::new(alloc);
    text.extend_from_slice(line.as_bytes())?;
    let names = write_schedule(alloc, names)?;
    text.extend_from_slice(names.as_slice())?;
    Ok(text)
}

/// The report of a schedule.
fn consistent_report(alloc: Global, schedule: &Schedule) -> Result<Vec<u8>, AllocError>
    ensures { IfOk result (λ text. text.items ≡ report (Consistent schedule.now)) }
{
    line_with_names(alloc, "CONSISTENT\n", schedule)
}

/// The report of a trace that has no legal schedule, which says how many cubes were refuted: the leaves of the tree.
fn inconsistent_report(alloc: Global, refutation: &Refutation) -> Result<Vec<u8>, AllocError>
    ensures { IfOk result (λ text. text.items ≡ report (Inconsistent refutation.now)) }
{
    let count = refutation.tree.leaves();
    let line = format!(in alloc; "INCONSISTENT cubes={count}\n")?;
    Ok(line.into_bytes())
}

/// The line that says how many cubes are open.
fn counting_line(alloc: Global, count: usize) -> Result<Vec<u8>, AllocError>
    ensures { IfOk result (λ text. text.items ≡ unknown_line count) }
{
    let line = format!(in alloc; "UNKNOWN open={count}\n")?;
    Ok(line.into_bytes())
}

/// The report of open cubes.
fn unknown_report(alloc: Global, cubes: &[Cube]) -> Result<Vec<u8>, AllocError>
    ensures { IfOk result (λ text. text.items ≡ report (Unknown cubes.now)) }
{
    let mut text = counting_line(alloc, cubes.len())?;
    push_open_lines(alloc, &mut text, cubes)?;
    Ok(text)
}

/// The report of a decision.
pub fn report_of(alloc: Global, decision: &Decision) -> Result<Vec<u8>, AllocError>
    ensures { IfOk result (λ text. text.items ≡ report decision.now) }
{
    match decision {
        Decision::Consistent(schedule) => consistent_report(alloc, schedule),
        Decision::Inconsistent(refutation) => inconsistent_report(alloc, refutation),
        Decision::Unknown(cubes) => unknown_report(alloc, cubes.as_slice()),
    }
}
