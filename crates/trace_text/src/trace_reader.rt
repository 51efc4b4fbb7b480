//! Reads the text of a trace.

ghost use Rattle.std.specs.Prelude.{◌≡◌, ◌≤◌, [], ◌∷◌, ◌++◌, ℕ, List, None, OnOk, IfOk, IfErr, map};
ghost use Rattle.text_lines.specs.Fault.{IsRefusal};
ghost use Rattle.trace_text.specs.Progress.{IsProgress};
ghost use Rattle.trace_text.specs.Read.{AreSaid, TakesLine, TakesWords, HasHeader, IsAllRead};
ghost use Rattle.text_lines.specs.PlainFault.{IsRefusedFor};
ghost use Rattle.trace_text.specs.Said.{said};
ghost use Rattle.trace_text.specs.Statement.{Statement as Said, statement_of};
ghost use Rattle.trace_text.specs.TraceFault.{statement_fault, said_fault, trace_line_fault, HasTraceFault};
ghost use Rattle.trace_text.specs.TraceText.{SpellsTrace};
ghost use Rattle.trace_text.specs.Version.{limits_of};
ghost use Rattle.trace_semantics.specs.declared.limits.Limits.{Limits as Of};
ghost use Rattle.trace_semantics.specs.Limits.{max_locations};
ghost use Rattle.trace_semantics.specs.Trace.{IsTrace};

use crate::entry::{is_turned, read_entry};
use crate::header::{Header, read_header};
use crate::line::has_high_byte;
use crate::place::fault_of_place;
use crate::references::check_references;
use crate::seen::Seen;
use crate::statement::{Statement, read_statement};
use crate::trace_builder::TraceBuilder;
use crate::trace_fault::{LineRefusal, TraceCause, TraceFault};
use crate::version::Version;
use std::alloc::Global;
use text_lines::comments::is_skipped_line;
use text_lines::lines::cut_line;
use text_lines::plain_fault::PlainFault;
use text_lines::words::first_words;
use trace_semantics::limits::Limits;
use trace_semantics::trace::Trace;

/// What has been read so far of the lines after the header.
#[derive(Drop)]
pub struct TraceReader<'a> {
    seen: Seen<'a>,
    gathered: TraceBuilder,
}

impl<'a> TraceReader<'a> {
    fn new(alloc: Global) -> TraceReader<'a>
        ensures { (limits : Of) → IsProgress limits [] result }
    {
        TraceReader {
            seen: Seen::new(alloc),
            gathered: TraceBuilder::new(alloc),
        }
    }

    /// Takes what a line says. The order of the checks decides which fault is reported of a line that has several; `statement_fault` has the same
    /// order.
    fn take_statement(
        &mut self,
        alloc: Global,
        limits: Limits,
        statement: Statement<'a>,
    ) -> Result<(), LineRefusal>
        requires { self.old.seen.location_count ≤ max_locations limits }
        ensures refused { IfErr result (λ refusal. (ss : List Said) → IsProgress limits ss self.old → IsRefusedFor (statement_fault limits ss (said statement.entry)) refusal) }
        ensures taken { OnOk result ((ss : List Said) → IsProgress limits ss self.old →
            (statement_fault limits ss (said statement.entry) ≡ None) × IsProgress limits (ss ++ said statement.entry ∷ []) self.new) }
    {
        if let Some(cause) = fault_of_place(self.gathered.has_open_process(), statement) {
            return Err(PlainFault::For(cause));
        }
        let entry = read_entry(alloc, limits, statement)?;
        if is_turned(&entry) {
            return Err(PlainFault::For(TraceCause::EndsBeforeStart));
        }
        self.seen.take(limits, statement)?;
        self.gathered.add(alloc, entry)
    }

    /// Takes a line by its words.
    fn take_words(
        &mut self,
        alloc: Global,
        version: Version,
        words: &[&'a [u8]],
    ) -> Result<(), LineRefusal>
        requires { self.old.seen.location_count ≤ max_locations (limits_of version) }
        ensures refused { IfErr result (λ refusal. (ss : List Said) → IsProgress (limits_of version) ss self.old →
            IsRefusedFor (said_fault (limits_of version) ss (statement_of version (map (λ word. word.now) words.now))) refusal) }
        ensures taken { OnOk result ((ss : List Said) → IsProgress (limits_of version) ss self.old → TakesWords version ss (map (λ word. word.now) words.now) self.new) }
    {
        match read_statement(version, words) {
            Some(statement) => self.take_statement(alloc, version.limits(), statement),
            None => Err(PlainFault::For(TraceCause::UnknownLine)),
        }
    }

    /// Takes a line. A comment is skipped before its bytes are looked at, so it may have any.
    fn take_line(
        &mut self,
        alloc: Global,
        version: Version,
        line: &'a [u8],
    ) -> Result<(), LineRefusal>
        requires { self.old.seen.location_count ≤ max_locations (limits_of version) }
        ensures refused { IfErr result (λ refusal. (before : List (List ℕ)) (ss : List Said) → AreSaid version before ss → IsProgress (limits_of version) ss self.old →
            IsRefusedFor (trace_line_fault before line.now) refusal) }
        ensures taken { OnOk result ((before : List (List ℕ)) (ss : List Said) → AreSaid version before ss → IsProgress (limits_of version) ss self.old → TakesLine version before line.now self.new) }
    {
        // These are no more than eleven, and no statement has as many: a line with too many words is refused without the rest of them.
        let words = first_words(line);
        if is_skipped_line(words.as_slice()) {
            return Ok(());
        }
        if has_high_byte(line) {
            return Err(PlainFault::For(TraceCause::NotAscii));
        }
        self.take_words(alloc, version, words.as_slice())
    }
}

/// Reads the lines after the header.
fn read_body<'a>(
    alloc: Global,
    text: &'a [u8],
    header: &Header<'a>,
) -> Result<TraceReader<'a>, TraceFault>
    requires { HasHeader text.now header.now.version header.now.rest.now header.now.next }
    ensures refused { IfErr result (IsRefusal (HasTraceFault text.now)) }
    ensures read { IfOk result (λ reader. IsAllRead text.now header.now.version reader) }
{
    let mut reader = TraceReader::new(alloc);
    let mut rest = header.rest;
    let mut next = header.next;
    while let Some((line, after)) = cut_line(rest) {
        if let Err(refusal) = reader.take_line(alloc, header.version, line) {
            return Err(refusal.at(next));
        }
        rest = after;
        next += 1;
    }
    Ok(reader)
}

/// The trace of a text whose lines are all read.
fn finish(text: &[u8], version: Version, reader: TraceReader<'_>) -> Result<Trace, TraceFault>
    requires { IsAllRead text.now version reader }
    ensures refused { IfErr result (IsRefusal (HasTraceFault text.now)) }
    ensures spelled { IfOk result (SpellsTrace text.now) }
{
    let TraceReader { mut gathered, .. } = reader;
    // first, since `processes` shows closed processes alone
    gathered.close_process()?;
    check_references(version, gathered.processes(), text)?;
    gathered.arrange()?;
    Ok(gathered.into_trace())
}

/// Reads the text of a trace.
///
/// The answer is the trace that the text spells, or else the first fault of the text with its line.
pub fn read_trace(alloc: Global, text: &[u8]) -> Result<Trace, TraceFault>
    ensures trace { IfOk result IsTrace }
    ensures spelled { IfOk result (SpellsTrace text.now) }
    ensures refused { IfErr result (IsRefusal (HasTraceFault text.now)) }
{
    let header = read_header(text)?;
    let reader = read_body(alloc, text, &header)?;
    finish(text, header.version, reader)
}
