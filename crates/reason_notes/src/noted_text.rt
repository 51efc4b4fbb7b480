//! The notes of lines.
//!
//! A note is a sentence of `--explain` on a line of a certificate of reasons. Only the first lines are noted (`MOST_NOTED` in `explaining.rt`), since a
//! certificate may have very many; the last note counts the others.

ghost use Rattle.std.specs.Prelude.{◌≡◌, ◌-◌, ◌++◌, IfOk, OnOk, length};
ghost use Rattle.std.specs.List.{flat_map};
ghost use Rattle.reason_notes.specs.Words.{left_note, line_note};

use crate::line_words::push_reason;
use crate::listed::push_more;
use crate::noted_line::NotedLine;
use crate::order_words::push_orders;
use reason_clauses::cause::ReasonRefusal;
use std::alloc::Global;
use trace_semantics::trace::Trace;

/// Appends the note of the line: why, and the orders of which one stands.
fn push_line(text: &mut Vec<u8>, trace: &Trace, noted: &NotedLine<'_>) -> Result<(), ReasonRefusal>
    ensures { OnOk result (text.new.items ≡ text.old.items ++ line_note trace.now noted.now) }
{
    text.extend_from_slice(b"note: ")?;
    push_reason(text, trace, &noted.line)?;
    push_orders(text, trace, noted.orders.as_slice())?;
    text.push(b'\n')?;
    Ok(())
}

/// Appends the notes of the lines.
fn push_lines(
    text: &mut Vec<u8>,
    trace: &Trace,
    noted: &[NotedLine<'_>],
) -> Result<(), ReasonRefusal>
    ensures { OnOk result (text.new.items ≡ text.old.items ++ flat_map (line_note trace.now) noted.now) }
{
    for line in noted {
        push_line(text, trace, line)?;
    }
    Ok(())
}

/// The notes of the lines, of a certificate that has this number of lines with a clause, and how many of these are left out.
pub fn text_of_lines(
    alloc: Global,
    trace: &Trace,
    noted: &[NotedLine<'_>],
    count: usize,
) -> Result<Vec<u8>, ReasonRefusal>
    ensures { IfOk result (λ text. text.items ≡ flat_map (line_note trace.now) noted.now ++ left_note (count - length noted.now)) }
{
    let mut text = Vec::new(alloc);
    push_lines(&mut text, trace, noted)?;
    push_more(
        &mut text,
        "note: lines of the certificate that are left out here: ",
        count.saturating_sub(noted.len()),
        "\n",
    )?;
    Ok(text)
}
