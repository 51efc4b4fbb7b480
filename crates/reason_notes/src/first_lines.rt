//! The first lines of a certificate.

ghost use Rattle.std.specs.Prelude.{◌≡◌, IfOk};
ghost use Rattle.reason_notes.specs.Noted.{AreFirstLines, IsAdded};
ghost use Rattle.reason_notes.specs.declared.noted_line.LineNote.TheVariants.{Noted};

use crate::noted_line::{LineNote, NotedLine, note_line};
use reason_check::trace_tables::tables_of;
use reason_clauses::cause::ReasonRefusal;
use reason_text::reason_header::cut_header;
use std::alloc::{AllocError, Global};
use text_lines::lines::cut_line;
use trace_semantics::trace::Trace;

/// Whether further lines are wanted.
#[derive(Clone, Copy, Debug, PartialEq, Eq)]
pub enum LinesWanted {
    /// They are.
    More,
    /// They are not.
    Ended,
}

/// Appends a line that is noted. If it leaves no order, its clause is empty and the certificate ends with it: what follows is not read.
fn add_line<'a>(
    noted: &mut Vec<NotedLine<'a>>,
    next: NotedLine<'a>,
) -> Result<LinesWanted, AllocError>
    ensures { IfOk result (IsAdded noted.old.items noted.new.items (Noted next.entry)) }
{
    let is_last = next.orders.is_empty();
    noted.push(next)?;
    if is_last {
        Ok(LinesWanted::Ended)
    } else {
        Ok(LinesWanted::More)
    }
}

/// Appends what came of a line.
fn add_noted<'a>(
    noted: &mut Vec<NotedLine<'a>>,
    outcome: LineNote<'a>,
) -> Result<LinesWanted, AllocError>
    ensures { IfOk result (IsAdded noted.old.items noted.new.items outcome.entry) }
{
    match outcome {
        LineNote::Passed => Ok(LinesWanted::More),
        LineNote::Noted(next) => add_line(noted, next),
        LineNote::End => Ok(LinesWanted::Ended),
    }
}

/// The first lines of the certificate that make clauses, as many as this at most: all up to the derivation, or up to one that makes an empty
/// clause, if they are fewer.
pub fn first_lines<'a>(
    alloc: Global,
    trace: &'a Trace,
    text: &'a [u8],
    most: usize,
) -> Result<Vec<NotedLine<'a>>, ReasonRefusal>
    ensures { IfOk result (λ noted. AreFirstLines trace.now text.now most noted.items) }
{
    let mut rest = cut_header(text)?;
    let tables = tables_of(alloc, trace)?;
    let mut noted = Vec::new(alloc);
    while let Some((line, after)) = cut_line(rest) {
        // This is asked before a line is read, so that no line is read in vain; a line without a clause does not count.
        if noted.len() >= most {
            return Ok(noted);
        }
        let outcome = note_line(alloc, trace, &tables, line)?;
        let reading = add_noted(&mut noted, outcome)?;
        rest = after;
        if reading == LinesWanted::Ended {
            return Ok(noted);
        }
    }
    Ok(noted)
}
