//! The writer of a formula's text.
ghost use Rattle.std.specs.Prelude.{◌≡◌, ◌+◌, ◌≤◌, [], ◌∷◌, ◌++◌, length, take, neg_ℤ, IfOk, OnOk, OnErr, IfErr};
ghost use Rattle.std.specs.List.{flat_map};
ghost use Rattle.dimacs.specs.CnfText.{header_line, clause_line, cnf_text};
ghost use Rattle.dimacs.specs.Sink.{AppendsFront, IsSent};
ghost use Rattle.dimacs.specs.SinkFault.{failures_told};

use crate::agreement::{AGREEMENT, AgreeingLiterals, put_both_lines};
use crate::clause::Clause;
use crate::formula::Formula;
use crate::line_buffer::{
    HEADER, LITERAL, SHORT, SHORT_LINE, put_bytes, put_header, put_literal, put_short_clause,
};
use crate::literal::Lit;
use crate::sink::{Failed, Sink, write_whole};
use crate::sink_fault::SinkFault;
use crate::variable_table::VariableTable;
use std::alloc::{AllocError, Global};
use std::marker::Model;

/// Bytes of the text that are made before they go to the sink, since each call of a sink may be slow.
const BUFFER: usize = 65_536;

/// A buffer of that size.
fn new_buffer(alloc: Global) -> Result<Vec<u8>, AllocError>
    ensures { IfOk result (λ buffer. length buffer.items ≡ BUFFER) }
{
    vec![in alloc; 0; BUFFER]
}

/// Sends what was made to the sink if the buffer has no room for one more literal. Returns the number of bytes that the
/// buffer keeps.
#[inline(always)]
fn make_room<W: Sink>(buffer: &[u8], end: usize, sink: &mut W) -> Result<usize, Failed>
    requires within { end ≤ length buffer.now }
    requires room { LITERAL ≤ length buffer.now }
    ensures room { IfOk result (λ kept. kept + LITERAL ≤ length buffer.now) }
    ensures sent { IfOk result (λ kept. IsSent (W.written sink.old) (W.written sink.new) (take kept buffer.now) (take end buffer.now)) }
    ensures well { OnOk result (W.failures sink.new ≡ W.failures sink.old) }
    ensures front { OnErr result (AppendsFront (W.written sink.old) (W.written sink.new) (take end buffer.now)) }
    ensures failed { OnErr result (W.failures sink.new ≡ W.failures sink.old + 1) }
    ensures same { W.path sink.new ≡ W.path sink.old }
{
    if buffer.len() - end >= LITERAL {
        return Ok(end);
    }
    write_whole(sink, &buffer[..end])?;
    Ok(0)
}

/// Writes the clause's line after what the buffer has. If the buffer is full, the sink takes it.
fn put_long_clause<W: Sink>(
    literals: &[Lit],
    table: &VariableTable,
    buffer: &mut [u8],
    at: usize,
    sink: &mut W,
) -> Result<usize, Failed>
    requires within { at ≤ length buffer.old }
    requires room { LITERAL ≤ length buffer.old }
    ensures within { IfOk result (λ end. end ≤ length buffer.new) }
    ensures sent { IfOk result (λ end. IsSent (W.written sink.old) (W.written sink.new) (take end buffer.new) (take at buffer.old ++ clause_line literals.now)) }
    ensures well { OnOk result (W.failures sink.new ≡ W.failures sink.old) }
    ensures front { OnErr result (AppendsFront (W.written sink.old) (W.written sink.new) (take at buffer.old ++ clause_line literals.now)) }
    ensures failed { OnErr result (W.failures sink.new ≡ W.failures sink.old + 1) }
    ensures same { W.path sink.new ≡ W.path sink.old }
{
    let mut end = at;
    for literal in literals {
        let start = make_room(buffer, end, sink)?;
        end = put_literal(*literal, table, buffer, start);
    }
    let start = make_room(buffer, end, sink)?;
    // the room for a literal is more than these two bytes need
    Ok(put_bytes(b"0\n", buffer, start))
}

/// Writes the line of the clause of these literals after what the buffer has. If the buffer is full, the sink takes it.
fn put_line<W: Sink>(
    literals: &[Lit],
    table: &VariableTable,
    buffer: &mut [u8],
    at: usize,
    sink: &mut W,
) -> Result<usize, Failed>
    requires within { at ≤ length buffer.old }
    requires room { LITERAL ≤ length buffer.old }
    ensures within { IfOk result (λ end. end ≤ length buffer.new) }
    ensures sent { IfOk result (λ end. IsSent (W.written sink.old) (W.written sink.new) (take end buffer.new) (take at buffer.old ++ clause_line literals.now)) }
    ensures well { OnOk result (W.failures sink.new ≡ W.failures sink.old) }
    ensures front { OnErr result (AppendsFront (W.written sink.old) (W.written sink.new) (take at buffer.old ++ clause_line literals.now)) }
    ensures failed { OnErr result (W.failures sink.new ≡ W.failures sink.old + 1) }
    ensures same { W.path sink.new ≡ W.path sink.old }
{
    if literals.len() <= SHORT && buffer.len() - at >= SHORT_LINE {
        return Ok(put_short_clause(literals, table, buffer, at));
    }
    put_long_clause(literals, table, buffer, at, sink)
}

/// Writes the clauses' lines after what the buffer has. If the buffer is full, the sink takes it.
fn put_clauses<W: Sink>(
    clauses: &[Clause],
    table: &VariableTable,
    buffer: &mut [u8],
    at: usize,
    sink: &mut W,
) -> Result<usize, Failed>
    requires within { at ≤ length buffer.old }
    requires room { LITERAL ≤ length buffer.old }
    ensures within { IfOk result (λ end. end ≤ length buffer.new) }
    ensures sent { IfOk result (λ end. IsSent (W.written sink.old) (W.written sink.new) (take end buffer.new) (take at buffer.old ++ flat_map clause_line clauses.now)) }
    ensures well { OnOk result (W.failures sink.new ≡ W.failures sink.old) }
    ensures front { OnErr result (AppendsFront (W.written sink.old) (W.written sink.new) (take at buffer.old ++ flat_map clause_line clauses.now)) }
    ensures failed { OnErr result (W.failures sink.new ≡ W.failures sink.old + 1) }
    ensures same { W.path sink.new ≡ W.path sink.old }
{
    let mut end = at;
    for clause in clauses {
        end = put_line(clause.as_slice(), table, buffer, end, sink)?;
    }
    Ok(end)
}

/// Writes the lines of the two clauses that say that three literals agree, one after the other.
#[inline(never)]
fn put_each_line<W: Sink>(
    literals: AgreeingLiterals,
    table: &VariableTable,
    buffer: &mut [u8],
    at: usize,
    sink: &mut W,
) -> Result<usize, Failed>
    requires within { at ≤ length buffer.old }
    requires room { LITERAL ≤ length buffer.old }
    ensures within { IfOk result (λ end. end ≤ length buffer.new) }
    ensures sent { IfOk result (λ end. IsSent (W.written sink.old) (W.written sink.new) (take end buffer.new) (take at buffer.old ++ flat_map clause_line ((neg_ℤ literals.first ∷ neg_ℤ literals.second ∷ literals.third ∷ []) ∷ (literals.first ∷ literals.second ∷ neg_ℤ literals.third ∷ []) ∷ []))) }
    ensures well { OnOk result (W.failures sink.new ≡ W.failures sink.old) }
    ensures front { OnErr result (AppendsFront (W.written sink.old) (W.written sink.new) (take at buffer.old ++ flat_map clause_line ((neg_ℤ literals.first ∷ neg_ℤ literals.second ∷ literals.third ∷ []) ∷ (literals.first ∷ literals.second ∷ neg_ℤ literals.third ∷ []) ∷ []))) }
    ensures failed { OnErr result (W.failures sink.new ≡ W.failures sink.old + 1) }
    ensures same { W.path sink.new ≡ W.path sink.old }
{
    let kept = put_line(&literals.if_true(), table, buffer, at, sink)?;
    put_line(&literals.if_false(), table, buffer, kept, sink)
}

/// Writes the same two lines: at once, if the buffer has room. The place where the text ends in the buffer is returned, also by the other functions
/// that take `at`.
#[inline(always)]
fn put_agreement<W: Sink>(
    literals: AgreeingLiterals,
    table: &VariableTable,
    buffer: &mut [u8],
    at: usize,
    sink: &mut W,
) -> Result<usize, Failed>
    requires within { at ≤ length buffer.old }
    requires room { LITERAL ≤ length buffer.old }
    ensures within { IfOk result (λ end. end ≤ length buffer.new) }
    ensures sent { IfOk result (λ end. IsSent (W.written sink.old) (W.written sink.new) (take end buffer.new) (take at buffer.old ++ flat_map clause_line ((neg_ℤ literals.first ∷ neg_ℤ literals.second ∷ literals.third ∷ []) ∷ (literals.first ∷ literals.second ∷ neg_ℤ literals.third ∷ []) ∷ []))) }
    ensures well { OnOk result (W.failures sink.new ≡ W.failures sink.old) }
    ensures front { OnErr result (AppendsFront (W.written sink.old) (W.written sink.new) (take at buffer.old ++ flat_map clause_line ((neg_ℤ literals.first ∷ neg_ℤ literals.second ∷ literals.third ∷ []) ∷ (literals.first ∷ literals.second ∷ neg_ℤ literals.third ∷ []) ∷ []))) }
    ensures failed { OnErr result (W.failures sink.new ≡ W.failures sink.old + 1) }
    ensures same { W.path sink.new ≡ W.path sink.old }
{
    if buffer.len() - at >= AGREEMENT {
        return Ok(put_both_lines(literals, table, buffer, at));
    }
    put_each_line(literals, table, buffer, at, sink)
}

/// A formula's text, which goes to a sink piece by piece: its header, and then its clauses' lines.
#[derive(Drop)]
pub struct CnfWriter {
    /// The texts of the variables, from which lines are made.
    table: VariableTable,
    /// Always `BUFFER` bytes.
    buffer: Vec<u8>,
    /// The number of bytes of the buffer that have not gone to the sink yet.
    end: usize,
}

impl Model for CnfWriter {
    ghost use Rattle.std.specs.Prelude.{◌≡◌, ◌≤◌, ℕ, List, length, take};
    ghost use Rattle.dimacs.specs.declared.cnf_writer.TheConstants.{BUFFER};

    /// What was made and has not gone to the sink yet.
    ghost Value = { List ℕ };

    ghost view = { λ writer. take writer.end writer.buffer.items };

    ghost invariant = { λ writer. (length writer.buffer.items ≡ BUFFER) × (writer.end ≤ BUFFER) };
}

impl CnfWriter {
    /// The text's header, for these numbers of variables and clauses.
    pub fn begin(alloc: Global, variables: u32, clauses: usize) -> Result<CnfWriter, AllocError>
        ensures { IfOk result (λ writer. writer ≡ header_line variables clauses) }
    {
        let table = VariableTable::of(alloc, variables)?;
        let mut buffer = new_buffer(alloc)?;
        let end = put_header(variables, clauses, buffer.as_mut_slice());
        Ok(CnfWriter { table, buffer, end })
    }

    /// Writes the lines of the next clauses. The writer keeps some of them. If the sink fails, the text cannot be continued: part of it may be in
    /// the sink, and the buffer is overwritten in part.
    pub fn put<W: Sink>(&mut self, clauses: &[Clause], sink: &mut W) -> Result<(), Failed>
        ensures sent { OnOk result (IsSent (W.written sink.old) (W.written sink.new) self.new (self.old ++ flat_map clause_line clauses.now)) }
        ensures well { OnOk result (W.failures sink.new ≡ W.failures sink.old) }
        ensures front { OnErr result (AppendsFront (W.written sink.old) (W.written sink.new) (self.old ++ flat_map clause_line clauses.now)) }
        ensures failed { OnErr result (W.failures sink.new ≡ W.failures sink.old + 1) }
        ensures same { W.path sink.new ≡ W.path sink.old }
    {
        let end = put_clauses(
            clauses,
            &self.table,
            self.buffer.as_mut_slice(),
            self.end,
            sink,
        )?;
        self.end = end;
        Ok(())
    }

    /// Writes the lines of the two clauses which say that the third literal is what the first two are, where these are alike. The
    /// writer keeps some of them.
    #[inline]
    pub fn put_agreement<W: Sink>(
        &mut self,
        first: Lit,
        second: Lit,
        third: Lit,
        sink: &mut W,
    ) -> Result<(), Failed>
        ensures sent { OnOk result (IsSent (W.written sink.old) (W.written sink.new) self.new (self.old ++ flat_map clause_line ((neg_ℤ first ∷ neg_ℤ second ∷ third ∷ []) ∷ (first ∷ second ∷ neg_ℤ third ∷ []) ∷ []))) }
        ensures well { OnOk result (W.failures sink.new ≡ W.failures sink.old) }
        ensures front { OnErr result (AppendsFront (W.written sink.old) (W.written sink.new) (self.old ++ flat_map clause_line ((neg_ℤ first ∷ neg_ℤ second ∷ third ∷ []) ∷ (first ∷ second ∷ neg_ℤ third ∷ []) ∷ []))) }
        ensures failed { OnErr result (W.failures sink.new ≡ W.failures sink.old + 1) }
        ensures same { W.path sink.new ≡ W.path sink.old }
    {
        let literals = AgreeingLiterals {
            first,
            second,
            third,
        };
        let end = put_agreement(
            literals,
            &self.table,
            self.buffer.as_mut_slice(),
            self.end,
            sink,
        )?;
        self.end = end;
        Ok(())
    }

    /// The texts of variables that the writer uses, for those who make lines elsewhere.
    pub fn table(&self) -> &VariableTable {
        &self.table
    }

    /// Writes text that was made elsewhere, as by `ClauseLines`.
    pub fn put_text<W: Sink>(&mut self, text: &[u8], sink: &mut W) -> Result<(), Failed>
        ensures sent { OnOk result (IsSent (W.written sink.old) (W.written sink.new) self.new (self.old ++ text.now)) }
        ensures well { OnOk result (W.failures sink.new ≡ W.failures sink.old) }
        ensures front { OnErr result (AppendsFront (W.written sink.old) (W.written sink.new) (self.old ++ text.now)) }
        ensures failed { OnErr result (W.failures sink.new ≡ W.failures sink.old + 1) }
        ensures same { W.path sink.new ≡ W.path sink.old }
    {
        // what the buffer keeps stands before the text
        write_whole(sink, &self.buffer.as_slice()[..self.end])?;
        self.end = 0;
        write_whole(sink, text)
    }

    /// Writes what the writer keeps.
    pub fn finish<W: Sink>(self, sink: &mut W) -> Result<(), Failed>
        ensures whole { OnOk result (W.written sink.new ≡ W.written sink.old ++ self) }
        ensures well { OnOk result (W.failures sink.new ≡ W.failures sink.old) }
        ensures front { OnErr result (AppendsFront (W.written sink.old) (W.written sink.new) self) }
        ensures failed { OnErr result (W.failures sink.new ≡ W.failures sink.old + 1) }
        ensures same { W.path sink.new ≡ W.path sink.old }
    {
        let rest = &self.buffer.as_slice()[..self.end];
        write_whole(sink, rest)
    }
}

/// Writes the formula's text. If memory runs out or the sink fails, the sink has taken a prefix of it.
pub fn write_cnf<W: Sink>(alloc: Global, formula: &Formula, sink: &mut W) -> Result<(), SinkFault>
    ensures whole { OnOk result (W.written sink.new ≡ W.written sink.old ++ cnf_text formula.now) }
    ensures well { OnOk result (W.failures sink.new ≡ W.failures sink.old) }
    ensures front { OnErr result (AppendsFront (W.written sink.old) (W.written sink.new) (cnf_text formula.now)) }
    ensures failed { IfErr result (λ fault. W.failures sink.new ≡ W.failures sink.old + failures_told fault) }
    ensures same { W.path sink.new ≡ W.path sink.old }
{
    let clauses = formula.clauses();
    let mut writer = CnfWriter::begin(alloc, formula.variables(), clauses.len())?;
    writer.put(clauses, sink)?;
    writer.finish(sink)?;
    Ok(())
}
