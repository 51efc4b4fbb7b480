//! The words of a value of which there are fewer sources than updates that want one.

ghost use Rattle.std.specs.Prelude.{◌≡◌, ◌++◌, OnOk};
ghost use Rattle.reason_counting.specs.Tallies.{IsTallyOfTrace};
ghost use Rattle.reason_notes.specs.Words.{counted_text, ends_with, gives_text, needs_text, own_text, text_if, too_few_text};

use crate::listed::push_number;
use reason_clauses::held_at::is_held_at;
use reason_counting::tally::{Tally, tally_of};
use std::alloc::AllocError;
use trace_semantics::trace::Trace;

/// Appends the number, with the word for one or for several.
fn push_counted(
    text: &mut Vec<u8>,
    count: usize,
    one: &str,
    several: &str,
) -> Result<(), AllocError>
    ensures { OnOk result (text.new.items ≡ text.old.items ++ counted_text one.now several.now count) }
{
    push_number(text, count as u64)?;
    if count == 1 {
        text.extend_from_slice(one.as_bytes())?;
    } else {
        text.extend_from_slice(several.as_bytes())?;
    }
    Ok(())
}

/// Appends the words if this holds.
fn push_if(text: &mut Vec<u8>, holds: bool, words: &str) -> Result<(), AllocError>
    ensures { OnOk result (text.new.items ≡ text.old.items ++ text_if holds words.now) }
{
    if holds {
        text.extend_from_slice(words.as_bytes())?;
    }
    Ok(())
}

/// Returns whether the location ends with the value and is written. Its end then needs a source of its own, as an update does; the end of a
/// location that is never written is its initial value.
fn ends_with(trace: &Trace, location: &[u8], value: u64, tally: Tally) -> bool
    requires { IsTallyOfTrace trace.now location.now value tally }
    ensures { result ≡ ends_with trace.now location.now value }
{
    is_held_at(trace.final_values(), location, value) && tally.is_written
}

/// Appends that each of these must have the value of its own at the location.
fn push_own(text: &mut Vec<u8>, location: &[u8], value: u64) -> Result<(), AllocError>
    ensures { OnOk result (text.new.items ≡ text.old.items ++ own_text location.now value) }
{
    text.extend_from_slice(b" must have a ")?;
    push_number(text, value)?;
    text.extend_from_slice(b" of their own at ")?;
    text.extend_from_slice(location)?;
    Ok(())
}

/// Appends how many updates have to read the value at the location, and whether it ends with that.
fn push_needs(
    text: &mut Vec<u8>,
    location: &[u8],
    value: u64,
    wanting: usize,
    ends: bool,
) -> Result<(), AllocError>
    ensures { OnOk result (text.new.items ≡ text.old.items ++ needs_text location.now value wanting ends) }
{
    push_counted(text, wanting, " update", " updates")?;
    push_if(text, ends, " and the final value")?;
    push_own(text, location, value)?;
    Ok(())
}

/// Appends how many operations leave it, and whether it is there at first.
fn push_gives(text: &mut Vec<u8>, leaving: usize, starts: bool) -> Result<(), AllocError>
    ensures { OnOk result (text.new.items ≡ text.old.items ++ gives_text leaving starts) }
{
    text.extend_from_slice(b", and only ")?;
    push_counted(text, leaving, " operation", " operations")?;
    push_if(text, starts, " and the initial value")?;
    text.extend_from_slice(b" can give one")?;
    Ok(())
}

/// Appends how many need the value at the location, and how many give it.
pub fn push_too_few(
    text: &mut Vec<u8>,
    trace: &Trace,
    location: &[u8],
    value: u64,
) -> Result<(), AllocError>
    ensures { OnOk result (text.new.items ≡ text.old.items ++ too_few_text trace.now location.now value) }
{
    let tally = tally_of(trace, location, value);
    let ends = ends_with(trace, location, value, tally);
    let starts = is_held_at(trace.initial(), location, value);
    push_needs(text, location, value, tally.wanting, ends)?;
    push_gives(text, tally.leaving, starts)?;
    Ok(())
}
