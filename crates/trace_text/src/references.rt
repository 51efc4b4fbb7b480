//! The operations that the lines of a trace text name.

ghost use Rattle.std.specs.Prelude.{◌≡◌, ◌&&◌, ℕ, List, None, OnOk, IfErr, nat_le, length, map, option_map};
ghost use Rattle.std.specs.List.{list_all, list_any};
ghost use Rattle.std.specs.Str.{bytes_eq};
ghost use Rattle.text_lines.specs.FirstFault.{IsFaultless};
ghost use Rattle.text_lines.specs.Lines.{lines_of};
ghost use Rattle.text_lines.specs.PlainFault.{IsRefusedFor};
ghost use Rattle.trace_text.specs.References.{is_of, is_among, fault_of_references, fault_of_line, IsRefusedByReferences};
ghost use Rattle.trace_text.specs.Said.{said, said_source};
ghost use Rattle.trace_semantics.specs.Place.{place_of};
ghost use Rattle.trace_text.specs.TraceFault.{references_of, references_of_source, is_before_itself};

use crate::statement::{ReadsFrom, Statement, read_statement};
use crate::trace_fault::{LineRefusal, TraceCause, TraceFault};
use crate::version::Version;
use text_lines::comments::is_skipped_line;
use text_lines::lines::cut_line;
use text_lines::plain_fault::PlainFault;
use text_lines::words::first_words;
use trace_semantics::place::read_place;
use trace_semantics::trace::Process;

/// Returns whether the process has this name, and an operation at this place. Places are counted from 1. The place must be 1 or more, as
/// `read_place` gives it, for there is no look at 0 here.
fn has_place(process: &Process, name: &[u8], place: u32) -> bool
    ensures { result ≡ is_of name.now place process.now }
{
    process.name.as_bytes() == name && place as usize <= process.operations.as_slice().len()
}

fn some_has_place(processes: &[Process], name: &[u8], place: u32) -> bool
    ensures { result ≡ list_any (is_of name.now place) processes.now }
{
    processes
        .iter()
        .any(|process| has_place(process, name, place))
}

/// Returns whether one of the processes has the operation that is named. A word that is no place names none. The limit of the version is not asked
/// here: the first reading of the text has refused higher places.
fn has_operation(processes: &[Process], name: &[u8], place: &[u8]) -> bool
    ensures { result ≡ is_among processes.now (name.now, place.now) }
{
    match read_place(place) {
        Some(place) => some_has_place(processes, name, place),
        None => false,
    }
}

fn source_is_known(processes: &[Process], source: ReadsFrom<'_>) -> bool
    ensures { result ≡ list_all (is_among processes.now) (references_of_source (said_source source.entry)) }
{
    match source {
        ReadsFrom::FromOp(process, place) => has_operation(processes, process, place),
        ReadsFrom::Unsaid => true,
        ReadsFrom::FromInit => true,
    }
}

/// Returns whether all operations that a line names exist.
fn all_are_known(processes: &[Process], statement: Statement<'_>) -> bool
    ensures { result ≡ list_all (is_among processes.now) (references_of (said statement.entry)) }
{
    match statement {
        Statement::Read(_, _, source, _) => source_is_known(processes, source),
        Statement::Update(_, _, _, source, _) => source_is_known(processes, source),
        Statement::Before(process, place, other, other_place) => {
            has_operation(processes, process, place) && has_operation(processes, other, other_place)
        }
        _ => true,
    }
}

/// Returns whether a line puts an operation before itself. A place is written in one way only, so the words are compared as they stand.
fn is_before_itself(statement: Statement<'_>) -> bool
    ensures { result ≡ is_before_itself (said statement.entry) }
{
    match statement {
        Statement::Before(process, place, other, other_place) => {
            process == other && place == other_place
        }
        _ => false,
    }
}

/// Gives what is wrong with the operations that a line names.
fn fault_of_names(processes: &[Process], statement: Statement<'_>) -> Result<(), LineRefusal>
    ensures refused { IfErr result (IsRefusedFor (fault_of_references processes.now (Some (said statement.entry)))) }
    ensures fine { OnOk result (fault_of_references processes.now (Some (said statement.entry)) ≡ None) }
{
    if !all_are_known(processes, statement) {
        return Err(PlainFault::For(TraceCause::NoSuchOp));
    }
    if is_before_itself(statement) {
        return Err(PlainFault::For(TraceCause::BeforeItself));
    }
    Ok(())
}

/// Checks the operations that a line names. A line that says no statement is passed: it is the header, as the first reading of the text has refused
/// all others.
fn check_line(version: Version, processes: &[Process], line: &[u8]) -> Result<(), LineRefusal>
    ensures refused { IfErr result (IsRefusedFor (fault_of_line version processes.now line.now)) }
    ensures fine { OnOk result (fault_of_line version processes.now line.now ≡ None) }
{
    let words = first_words(line);
    if is_skipped_line(words.as_slice()) {
        return Ok(());
    }
    match read_statement(version, words.as_slice()) {
        Some(statement) => fault_of_names(processes, statement),
        None => Ok(()),
    }
}

/// Checks the operations that each line of a text names.
fn check_lines(version: Version, processes: &[Process], text: &[u8]) -> Result<(), TraceFault>
    ensures refused { IfErr result (IsRefusedByReferences version processes.now text.now) }
    ensures fine { OnOk result (IsFaultless (λ (before : List (List ℕ)) (here : List ℕ). fault_of_line version processes.now here) (lines_of text.now)) }
{
    let mut rest = text;
    let mut next = 1usize;
    while let Some((line, after)) = cut_line(rest) {
        if let Err(refusal) = check_line(version, processes, line) {
            return Err(refusal.at(next));
        }
        rest = after;
        next += 1;
    }
    Ok(())
}

/// Checks that the operations that the lines of a text name are operations of these processes. A text of version 1
/// names none. The text is gone over a second time for that, as a line may name an operation that comes after it.
pub fn check_references(
    version: Version,
    processes: &[Process],
    text: &[u8],
) -> Result<(), TraceFault>
    ensures refused { IfErr result (IsRefusedByReferences version processes.now text.now) }
    ensures fine { OnOk result (IsFaultless (λ (before : List (List ℕ)) (here : List ℕ). fault_of_line version processes.now here) (lines_of text.now)) }
{
    if !version.has_version_2_lines() {
        return Ok(());
    }
    check_lines(version, processes, text)
}
