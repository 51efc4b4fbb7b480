//! Transitivity, made in parallel by the threads of `rayon`: each thread makes the lines of a run of neighbours, and the runs are sent in
//! their order.

ghost use Rattle.std.specs.Prelude.{◌≡◌, ◌+◌, ◌-◌, ◌<◌, ◌≤◌, ◌↔◌, ℕ, All, IsTrue, ◌++◌, [], length, OnOk, OnErr, IfErr, IfOk, slice_index_or};
ghost use Rattle.std.specs.List.{flat_map, range_with_len};
ghost use Rattle.dimacs.specs.CnfText.{clause_line};
ghost use Rattle.dimacs.specs.Sink.{AppendsFront, IsSent};
ghost use Rattle.dimacs.specs.SinkFault.{failures_told};
ghost use Rattle.trace_semantics.specs.Trace.{operation_count};
ghost use Rattle.clause_blocks.specs.Blocks as blocks;
ghost use Rattle.clause_blocks.specs.LineRuns.{lines_in, neighbours_in};

use crate::line_run::LineRun;
use crate::transitivity::count_transitivity_from;
use dimacs::{CnfWriter, Failed, Sink, SinkFault, VariableTable};
use rayon::prelude::*;
use std::alloc::{AllocError, Global};
use std::thread::Threads;
use var_layout::layout::Layout;

/// With as many clauses a run takes no further operation, so that threads are started few times: some 1.5 MB of lines.
pub(crate) const FULL: usize = 50_000;

/// The operation after the last one of the run that begins with this operation. A run has at least one operation, if one is left.
fn end_of_run(operations: usize, first: usize) -> usize
    requires limit { operations ≤ 160 }
    requires within { first ≤ operations }
    ensures low { first ≤ result }
    ensures some { first < operations → first < result }
    ensures high { result ≤ operations }
{
    let mut clauses: usize = 0;
    for i in first..operations {
        if clauses >= FULL {
            return i;
        }
        clauses = clauses.saturating_add(count_transitivity_from(operations, i));
    }
    operations
}

/// Shares the operations from `first` on among the runs, and returns the first one that is left. Runs that get none become empty, so that
/// the lines of an earlier round are not sent again.
fn share_operations(operations: usize, first: usize, runs: &mut [LineRun]) -> usize
    requires limit { operations ≤ 160 }
    requires within { first ≤ operations }
    requires runs { 0 < length runs.old }
    ensures low { first ≤ result }
    ensures some { first < operations → first < result }
    ensures high { result ≤ operations }
    ensures shared { flat_map neighbours_in runs.new ≡ range_with_len first (result - first) }
{
    let mut start = first;
    for run in runs.iter_mut() {
        let end = end_of_run(operations, start);
        run.begin(start, end);
        start = end;
    }
    start
}

/// Returns whether memory sufficed for all lines of each run.
fn are_whole(runs: &[LineRun]) -> bool
    ensures { IsTrue result → All (λ run. IsTrue run.is_whole) runs.now }
{
    runs.iter().all(LineRun::is_whole)
}

/// Makes the lines of all runs, side by side. If memory runs out in one, the others are made all the same, and nothing of them is sent.
fn make_runs<R: Threads + Sync>(
    rt: &R,
    layout: &Layout,
    table: &VariableTable,
    runs: &mut [LineRun],
) -> Result<(), AllocError>
    ensures { OnOk result (flat_map lines_in runs.new ≡ flat_map clause_line (flat_map (blocks.transitivity_from (operation_count layout.now)) (flat_map neighbours_in runs.old))) }
{
    par_for_each_mut(
        rt,
        runs,
        |_place: usize, run: &mut LineRun|
            ensures { IsTrue run.new.is_whole → lines_in run.new ≡ flat_map clause_line (flat_map (blocks.transitivity_from (operation_count layout.entry.now)) (neighbours_in run.old)) }
        {
            run.make(layout, table);
        },
    );
    if are_whole(runs) {
        return Ok(());
    }
    Err(AllocError)
}

/// Sends the lines of all runs, in their order.
fn put_runs<W: Sink>(runs: &[LineRun], writer: &mut CnfWriter, sink: &mut W) -> Result<(), Failed>
    ensures sent { OnOk result (IsSent (W.written sink.old) (W.written sink.new) writer.new (writer.old ++ flat_map lines_in runs.now)) }
    ensures well { OnOk result (W.failures sink.new ≡ W.failures sink.old) }
    ensures front { OnErr result (AppendsFront (W.written sink.old) (W.written sink.new) (writer.old ++ flat_map lines_in runs.now)) }
    ensures failed { OnErr result (W.failures sink.new ≡ W.failures sink.old + 1) }
    ensures same { W.path sink.new ≡ W.path sink.old }
{
    for run in runs {
        writer.put_text(run.lines(), sink)?;
    }
    Ok(())
}

/// As many runs as there are workers.
fn new_runs(alloc: Global, workers: u32) -> Result<Vec<LineRun>, AllocError>
    ensures { IfOk result (λ runs. length runs.items ≡ workers) }
{
    let mut runs = Vec::new(alloc);
    for _worker in 0..workers {
        runs.push(LineRun::new(alloc))?;
    }
    Ok(runs)
}

/// Writes the clauses of transitivity, round by round: the runs are made side by side, and then sent in their order.
fn put_rounds<R: Threads + Sync, W: Sink>(
    rt: &R,
    layout: &Layout,
    runs: &mut [LineRun],
    writer: &mut CnfWriter,
    sink: &mut W,
) -> Result<(), SinkFault>
    requires { 0 < length runs.old }
    ensures sent { OnOk result (IsSent (W.written sink.old) (W.written sink.new) writer.new (writer.old ++ flat_map clause_line (blocks.transitivity (operation_count layout.now)))) }
    ensures well { OnOk result (W.failures sink.new ≡ W.failures sink.old) }
    ensures front { OnErr result (AppendsFront (W.written sink.old) (W.written sink.new) (writer.old ++ flat_map clause_line (blocks.transitivity (operation_count layout.now)))) }
    ensures failed { IfErr result (λ fault. W.failures sink.new ≡ W.failures sink.old + failures_told fault) }
    ensures same { W.path sink.new ≡ W.path sink.old }
{
    layout.recall_limits();
    let operations = layout.operations();
    let mut first = 0;
    while first < operations {
        let end = share_operations(operations, first, runs);
        make_runs(rt, layout, writer.table(), runs)?;
        put_runs(runs, writer, sink)?;
        first = end;
    }
    Ok(())
}

/// Writes the clauses of transitivity. There is never more than one run of lines for each worker, and which runs there are changes no byte.
/// If memory runs out or the sink fails, the sink has taken a prefix.
pub(crate) fn put_transitivity_in_threads<R: Threads + Sync, W: Sink>(
    alloc: Global,
    rt: &R,
    layout: &Layout,
    workers: u32,
    writer: &mut CnfWriter,
    sink: &mut W,
) -> Result<(), SinkFault>
    requires { 1 ≤ workers }
    ensures sent { OnOk result (IsSent (W.written sink.old) (W.written sink.new) writer.new (writer.old ++ flat_map clause_line (blocks.transitivity (operation_count layout.now)))) }
    ensures well { OnOk result (W.failures sink.new ≡ W.failures sink.old) }
    ensures front { OnErr result (AppendsFront (W.written sink.old) (W.written sink.new) (writer.old ++ flat_map clause_line (blocks.transitivity (operation_count layout.now)))) }
    ensures failed { IfErr result (λ fault. W.failures sink.new ≡ W.failures sink.old + failures_told fault) }
    ensures same { W.path sink.new ≡ W.path sink.old }
{
    let mut runs = new_runs(alloc, workers)?;
    put_rounds(rt, layout, runs.as_mut_slice(), writer, sink)
}
