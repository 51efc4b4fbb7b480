//! The text of a reduced trace's formula.

ghost use Rattle.std.specs.Prelude.{◌≡◌, ◌≤◌, ◌+◌, ◌++◌, length, OnOk, OnErr, IfErr};
ghost use Rattle.std.specs.List.{flat_map};
ghost use Rattle.dimacs.specs.CnfText.{clause_line, cnf_text};
ghost use Rattle.dimacs.specs.Sink.{AppendsFront, IsSent};
ghost use Rattle.dimacs.specs.SinkFault.{failures_told};
ghost use Rattle.trace_semantics.specs.Trace.{operation_count};
ghost use Rattle.clause_blocks.specs.Clauses.{clauses_of, formula_of};
ghost use Rattle.clause_blocks.specs.Clauses as list;
ghost use Rattle.clause_blocks.specs.Pieces.{clauses_between, clauses_in};

use crate::line_runs::{FULL, put_transitivity_in_threads};
use crate::pieces::Piece;
use crate::trace_clauses::TraceClauses;
use crate::transitivity::put_transitivity_from;
use dimacs::{CnfWriter, Failed, Sink, SinkFault};
use reducer::reduced::Reduced;
use std::alloc::Global;
use std::thread::Threads;
use var_layout::layout::Layout;

/// Writes the clauses of a piece. Those of transitivity are never made.
fn put_piece<W: Sink>(
    layout: &Layout,
    piece: Piece<'_>,
    writer: &mut CnfWriter,
    sink: &mut W,
) -> Result<(), Failed>
    ensures sent { OnOk result (IsSent (W.written sink.old) (W.written sink.new) writer.new (writer.old ++ flat_map clause_line (clauses_in (operation_count layout.now) piece.entry))) }
    ensures well { OnOk result (W.failures sink.new ≡ W.failures sink.old) }
    ensures front { OnErr result (AppendsFront (W.written sink.old) (W.written sink.new) (writer.old ++ flat_map clause_line (clauses_in (operation_count layout.now) piece.entry))) }
    ensures failed { OnErr result (W.failures sink.new ≡ W.failures sink.old + 1) }
    ensures same { W.path sink.new ≡ W.path sink.old }
{
    match piece {
        Piece::Stored(clauses) => writer.put(clauses, sink),
        Piece::TransitivityFrom(i) => put_transitivity_from(layout, i, writer, sink),
    }
}

/// Writes the pieces from one number up to the one before another.
fn put_pieces<W: Sink>(
    clauses: &TraceClauses,
    first: usize,
    end: usize,
    writer: &mut CnfWriter,
    sink: &mut W,
) -> Result<(), Failed>
    requires rising { first ≤ end }
    requires within { end ≤ length (list.pieces clauses.now) }
    ensures sent { OnOk result (IsSent (W.written sink.old) (W.written sink.new) writer.new (writer.old ++ flat_map clause_line (clauses_between clauses.now first end))) }
    ensures well { OnOk result (W.failures sink.new ≡ W.failures sink.old) }
    ensures front { OnErr result (AppendsFront (W.written sink.old) (W.written sink.new) (writer.old ++ flat_map clause_line (clauses_between clauses.now first end))) }
    ensures failed { OnErr result (W.failures sink.new ≡ W.failures sink.old + 1) }
    ensures same { W.path sink.new ≡ W.path sink.old }
{
    for k in first..end {
        put_piece(clauses.layout(), clauses.piece(k), writer, sink)?;
    }
    Ok(())
}

/// Writes all pieces. Threads make those of transitivity.
fn put_pieces_in_threads<R: Threads + Sync, W: Sink>(
    alloc: Global,
    rt: &R,
    clauses: &TraceClauses,
    workers: u32,
    writer: &mut CnfWriter,
    sink: &mut W,
) -> Result<(), SinkFault>
    requires { 1 ≤ workers }
    ensures sent { OnOk result (IsSent (W.written sink.old) (W.written sink.new) writer.new (writer.old ++ flat_map clause_line (clauses_of clauses.now))) }
    ensures well { OnOk result (W.failures sink.new ≡ W.failures sink.old) }
    ensures front { OnErr result (AppendsFront (W.written sink.old) (W.written sink.new) (writer.old ++ flat_map clause_line (clauses_of clauses.now))) }
    ensures failed { IfErr result (λ fault. W.failures sink.new ≡ W.failures sink.old + failures_told fault) }
    ensures same { W.path sink.new ≡ W.path sink.old }
{
    let transitivity = clauses.piece_of_transitivity();
    let reads = clauses.piece_of_reads();
    put_pieces(clauses, 0, transitivity, writer, sink)?;
    put_transitivity_in_threads(alloc, rt, clauses.layout(), workers, writer, sink)?;
    put_pieces(clauses, reads, clauses.pieces(), writer, sink)?;
    Ok(())
}

/// Writes all pieces, one after the other. Threads are only worth it for many clauses, more than one run takes; the text is the same.
fn put_all_pieces<R: Threads + Sync, W: Sink>(
    alloc: Global,
    rt: &R,
    clauses: &TraceClauses,
    workers: u32,
    writer: &mut CnfWriter,
    sink: &mut W,
) -> Result<(), SinkFault>
    requires { 1 ≤ workers }
    ensures sent { OnOk result (IsSent (W.written sink.old) (W.written sink.new) writer.new (writer.old ++ flat_map clause_line (clauses_of clauses.now))) }
    ensures well { OnOk result (W.failures sink.new ≡ W.failures sink.old) }
    ensures front { OnErr result (AppendsFront (W.written sink.old) (W.written sink.new) (writer.old ++ flat_map clause_line (clauses_of clauses.now))) }
    ensures failed { IfErr result (λ fault. W.failures sink.new ≡ W.failures sink.old + failures_told fault) }
    ensures same { W.path sink.new ≡ W.path sink.old }
{
    if workers > 1 && clauses.clause_count() > FULL {
        return put_pieces_in_threads(alloc, rt, clauses, workers, writer, sink);
    }
    put_pieces(clauses, 0, clauses.pieces(), writer, sink)?;
    Ok(())
}

/// Writes the text of a trace's formula. Its header announces both counts, so they are known before the first clause is written.
fn put_formula<R: Threads + Sync, W: Sink>(
    alloc: Global,
    rt: &R,
    clauses: &TraceClauses,
    workers: u32,
    sink: &mut W,
) -> Result<(), SinkFault>
    requires { 1 ≤ workers }
    ensures whole { OnOk result (W.written sink.new ≡ W.written sink.old ++ cnf_text (formula_of clauses.now)) }
    ensures well { OnOk result (W.failures sink.new ≡ W.failures sink.old) }
    ensures front { OnErr result (AppendsFront (W.written sink.old) (W.written sink.new) (cnf_text (formula_of clauses.now))) }
    ensures failed { IfErr result (λ fault. W.failures sink.new ≡ W.failures sink.old + failures_told fault) }
    ensures same { W.path sink.new ≡ W.path sink.old }
{
    let variables = clauses.layout().count();
    let mut writer = CnfWriter::begin(alloc, variables, clauses.clause_count())?;
    put_all_pieces(alloc, rt, clauses, workers, &mut writer, sink)?;
    writer.finish(sink)?;
    Ok(())
}

/// Writes the text of the formula of the kept trace. It is the same whatever the number of workers. With one, no thread is started; with
/// more, threads make the lines of transitivity if there are many. If memory runs out or the sink fails, the sink has taken a prefix of it.
pub fn stream_cnf<R: Threads + Sync, W: Sink>(
    alloc: Global,
    rt: &R,
    reduced: &Reduced,
    workers: u32,
    sink: &mut W,
) -> Result<(), SinkFault>
    requires some { 1 ≤ workers }
    requires few { workers ≤ 8 }
    ensures whole { OnOk result (W.written sink.new ≡ W.written sink.old ++ cnf_text (formula_of reduced.now.kept)) }
    ensures well { OnOk result (W.failures sink.new ≡ W.failures sink.old) }
    ensures front { OnErr result (AppendsFront (W.written sink.old) (W.written sink.new) (cnf_text (formula_of reduced.now.kept))) }
    ensures failed { IfErr result (λ fault. W.failures sink.new ≡ W.failures sink.old + failures_told fault) }
    ensures same { W.path sink.new ≡ W.path sink.old }
{
    let clauses = TraceClauses::of(alloc, reduced)?;
    put_formula(alloc, rt, &clauses, workers, sink)
}
