//! The reader of a schedule's text.

ghost use Rattle.std.specs.Prelude.{◌≡◌, ◌==◌, true, false, position, slice_index, MatchOption, MatchResult, IfOk, IfErr};
ghost use Rattle.std.specs.List.{before_first, after_first, list_any};
ghost use Rattle.text_lines.specs.Fault.{IsRefusal};
ghost use Rattle.schedule_text.specs.ScheduleLine.{IsSkippedLine, IsNameLine, line_fault, IsLineRefusal};
ghost use Rattle.schedule_text.specs.ScheduleText.{SpellsSchedule, is_dot, place_within, name_fault, HasScheduleFault};

use crate::schedule_fault::{ScheduleCause, ScheduleFault};
use std::alloc::{AllocError, Global};
use text_lines::comments::begins_comment;
use text_lines::fault::PlacedFault;
use text_lines::lines::cut_line;
use text_lines::words::cut_word;
use trace_semantics::limits::Limits;
use trace_semantics::name::{Name, is_name_word};
use trace_semantics::operation::OpName;
use trace_semantics::place::read_place;
use trace_semantics::schedule::Schedule;

/// The place of the first dot.
fn find_dot(word: &[u8]) -> Option<usize>
    ensures { result ≡ position is_dot word.now }
{
    word.iter().position(|byte| *byte == b'.')
}

/// Gives what stands before the first dot, and what stands after it.
pub fn cut_at_dot(word: &[u8]) -> Option<(&[u8], &[u8])>
    ensures { MatchOption result (list_any is_dot word.now ≡ false)
        (λ cut. (list_any is_dot word.now ≡ true) × (cut.0.now ≡ before_first is_dot word.now) × (cut.1.now ≡ after_first is_dot word.now)) }
{
    let dot = find_dot(word)?;
    Some((&word[..dot], &word[dot + 1..]))
}

/// The place that the word writes, no higher than these limits allow.
pub fn read_place_within(limits: Limits, word: &[u8]) -> Option<u32>
    ensures { result ≡ place_within limits word.now }
{
    match read_place(word) {
        Some(place) if u64::from(place) <= limits.max_place() => Some(place),
        _ => None,
    }
}

/// The process and the place of a name, after that many names.
fn read_name(limits: Limits, word: &[u8], earlier: usize) -> Result<(&[u8], u32), ScheduleCause>
    ensures { MatchResult result
        (λ name. (name_fault limits earlier word.now ≡ None) × (name.0.now ≡ before_first is_dot word.now) × (place_within limits (after_first is_dot word.now) ≡ Some name.1))
        (λ cause. name_fault limits earlier word.now ≡ Some cause) }
{
    let Some((process, place)) = cut_at_dot(word) else {
        return Err(ScheduleCause::BadName);
    };
    if !is_name_word(process) {
        return Err(ScheduleCause::BadName);
    }
    let Some(place) = read_place_within(limits, place) else {
        return Err(ScheduleCause::BadNumber);
    };
    // last, so a line past the limit that has no name is a `BadName` or `BadNumber`
    if earlier >= limits.max_operations() {
        return Err(ScheduleCause::TooMany);
    }
    Ok((process, place))
}

/// The process and the place of the name on the line, after that many names; nothing if the line is skipped.
fn read_line(
    limits: Limits,
    line: &[u8],
    earlier: usize,
) -> Result<Option<(&[u8], u32)>, ScheduleCause>
    ensures { MatchResult result
        (λ found. MatchOption found (IsSkippedLine line.now) (λ name. IsNameLine limits earlier line.now (record { process = name.0.now; place = name.1 })))
        (λ cause. line_fault limits earlier line.now ≡ Some cause) }
{
    let Some((word, rest)) = cut_word(line) else {
        return Ok(None);
    };
    if begins_comment(word) {
        return Ok(None);
    }
    if cut_word(rest).is_some() {
        return Err(ScheduleCause::BadName);
    }
    match read_name(limits, word, earlier) {
        Ok(name) => Ok(Some(name)),
        Err(cause) => Err(cause),
    }
}

/// The name on the line of this number, after that many names; nothing if the line is skipped.
fn name_on_line(
    alloc: Global,
    limits: Limits,
    line: &[u8],
    number: usize,
    earlier: usize,
) -> Result<Option<OpName>, ScheduleFault>
    ensures { MatchResult result
        (λ found. MatchOption found (IsSkippedLine line.now) (λ n. IsNameLine limits earlier line.now n))
        (λ fault. IsLineRefusal limits earlier line.now number fault) }
{
    match read_line(limits, line, earlier) {
        Ok(None) => Ok(None),
        Ok(Some((process, place))) => {
            let process = Name::copy_of(alloc, process)?;
            Ok(Some(OpName { process, place }))
        }
        Err(cause) => Err(PlacedFault::At(cause, number)),
    }
}

/// The schedule that the text spells, within these limits, in one pass; memory is taken for the names alone.
///
/// A line has one word, the name of an operation as in `P.1`. Blank lines and lines whose first word begins with `#` are
/// skipped, whatever they hold. The error is the first fault of the text, with its line, counted from 1, or
/// `OutOfMemory`, which says nothing of the text.
pub fn read_schedule(alloc: Global, limits: Limits, text: &[u8]) -> Result<Schedule, ScheduleFault>
    ensures spelled { IfOk result (λ schedule. SpellsSchedule limits text.now schedule) }
    ensures faulty { IfErr result (λ fault. IsRefusal (HasScheduleFault limits text.now) fault) }
{
    let mut names = Vec::new(alloc);
    let mut number = 0usize;
    let mut rest = text;
    while let Some((line, after)) = cut_line(rest) {
        number += 1;
        if let Some(name) = name_on_line(alloc, limits, line, number, names.len())? {
            names.push(name)?;
        }
        rest = after;
    }
    Ok(Schedule::new(names))
}
