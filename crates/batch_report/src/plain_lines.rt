//! The lines of a batch in the plain form.

ghost use Rattle.std.specs.Prelude.{◌≡◌, ◌++◌, IfOk, OnOk, codes, decimal};
ghost use Rattle.batch_report.specs.BatchLines.{batch_line, verdict_line};
ghost use Rattle.verdict_report.specs.Fault.{line_of};

use crate::piece_verdict::PieceVerdict;
use dimacs::MemorySink;
use std::alloc::{AllocError, Global};
use verdict_report::{Fault, write_fault};

/// The line that ends with this number.
fn line_of_count(alloc: Global, front: &str, count: usize) -> Result<Vec<u8>, AllocError>
    ensures { IfOk result (λ line. line.items ≡ front.now ++ (decimal count ++ codes "\n")) }
{
    let line = format!(in alloc; "{front}{count}\n")?;
    Ok(line.into_bytes())
}

/// The line that ends with these numbers, with a text between the two.
fn line_of_counts(
    alloc: Global,
    front: &str,
    first: usize,
    between: &str,
    second: usize,
) -> Result<Vec<u8>, AllocError>
    ensures { IfOk result (λ line. line.items ≡ front.now ++ (decimal first ++ (between.now ++ (decimal second ++ codes "\n")))) }
{
    let line = format!(in alloc; "{front}{first}{between}{second}\n")?;
    Ok(line.into_bytes())
}

/// The line of a refusal.
fn line_of_refusal(alloc: Global, fault: &Fault) -> Result<Vec<u8>, AllocError>
    ensures { IfOk result (λ line. line.items ≡ line_of fault.now) }
{
    let mut line = MemorySink::new(alloc);
    match write_fault(fault, &mut line) {
        Ok(()) => Vec::from_slice(alloc, line.as_slice()),
        Err(_) => Err(AllocError),
    }
}

/// The line that says what is found of a piece.
fn line_of_verdict(alloc: Global, verdict: &PieceVerdict) -> Result<Vec<u8>, AllocError>
    ensures { IfOk result (λ line. line.items ≡ verdict_line verdict.now) }
{
    match verdict {
        PieceVerdict::Consistent => Vec::from_slice(alloc, b"CONSISTENT\n"),
        PieceVerdict::Refuted { cubes } => line_of_count(
            alloc,
            "INCONSISTENT cubes=",
            *cubes as usize,
        ),
        PieceVerdict::RefutedCore { operations, cubes } => line_of_counts(
            alloc,
            "INCONSISTENT operations=",
            *operations,
            " cubes=",
            *cubes as usize,
        ),
        PieceVerdict::Reasoned {
            operations,
            reasons,
        } => line_of_counts(
            alloc,
            "INCONSISTENT operations=",
            *operations,
            " reasons=",
            *reasons,
        ),
        PieceVerdict::Open { left } => line_of_count(alloc, "UNKNOWN open=", *left),
        PieceVerdict::Undecided { placed, undecided } => line_of_counts(
            alloc,
            "UNKNOWN placed=",
            *placed as usize,
            " undecided=",
            *undecided as usize,
        ),
        PieceVerdict::Refused(fault) => line_of_refusal(alloc, fault),
    }
}

/// Appends the line of a piece: the file, the number of the piece there, and what is said of it.
pub(crate) fn push_plain(
    alloc: Global,
    text: &mut Vec<u8>,
    file: &str,
    number: usize,
    verdict: &PieceVerdict,
) -> Result<(), AllocError>
    ensures { OnOk result (text.new.items ≡ text.old.items ++ batch_line file.now number verdict.now) }
{
    let place = format!(in alloc; "{file}:{number} ")?;
    text.extend_from_slice(place.as_bytes())?;
    let line = line_of_verdict(alloc, verdict)?;
    text.extend_from_slice(line.as_slice())
}
