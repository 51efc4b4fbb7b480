//! Laws of reasons over orders: each clause of some kind holds in each legal schedule, and clauses that do and have no model show that
//! there is no legal schedule.
//!
//! A law's body is empty, or calls other laws: what it says is proved in the folder of its name in `proofs/laws`, or needs no
//! answer. Who calls it has what it says in proofs; the call does nothing when run.

ghost use Rattle.std.specs.Prelude.{ℕ, ℤ, List, []};
ghost use Rattle.dimacs.specs.Models.{HasNoModelIn};
ghost use Rattle.trace_semantics.specs.declared.operation.OpName.{OpName};
ghost use Rattle.trace_semantics.specs.Legal.{HasNoSchedule};
ghost use Rattle.trace_semantics.specs.Trace.{TraceValue};
ghost use Rattle.order_reasons.specs.Counting.{NeedsSource, IsCountingClause};
ghost use Rattle.order_reasons.specs.Orders.{HoldsOfSchedules, AreReasons};
ghost use Rattle.order_reasons.specs.Reasons.{IsCycleClause, IsPairClause, IsTimesClause};
ghost use Rattle.order_reasons.specs.Sources.{ValueSource, IsSourceClause, IsLastClause, IsLostFinal};
ghost use Rattle.order_reasons.specs.Waiting.{IsWaitingClause};

/// No schedule has a cycle: a clause that says of each step that it is turned round holds in each legal schedule.
pub fn cycle_is_turned()
    ensures { (t : TraceValue) (clause : List (OpName × OpName)) (first : OpName) (rest : List OpName) → IsCycleClause t clause first rest → HoldsOfSchedules t clause }
{}

/// A before pair holds in each legal schedule.
pub fn pair_holds()
    ensures { (t : TraceValue) (clause : List (OpName × OpName)) (m n : OpName) → IsPairClause t clause m n → HoldsOfSchedules t clause }
{}

/// What had ended stands before what began after it in each legal schedule.
pub fn ended_is_before()
    ensures { (t : TraceValue) (clause : List (OpName × OpName)) (m n : OpName) → IsTimesClause t clause m n → HoldsOfSchedules t clause }
{}

/// A reading operation has a source: a clause that bars each possible one holds in each legal schedule.
pub fn source_is_barred()
    ensures { (t : TraceValue) (clause : List (OpName × OpName)) (r : OpName) → IsSourceClause t clause r → HoldsOfSchedules t clause }
{}

/// A location that is written has a last writer: a clause that bars each possible one holds in each legal schedule.
pub fn last_is_barred()
    ensures { (t : TraceValue) (clause : List (OpName × OpName)) (location : List ℕ) → IsLastClause t clause location → HoldsOfSchedules t clause }
{}

/// If no operation writes a location, and its final value is not its initial one, there is no legal schedule.
pub fn lost_final_has_no_schedule()
    ensures { (t : TraceValue) (location : List ℕ) → IsLostFinal t location → HasNoSchedule t }
{}

/// Operations that read and write have different sources, so where they are more than the sources that a clause does not bar, it holds in each legal schedule.
pub fn too_few_sources()
    ensures { (t : TraceValue) (clause : List (OpName × OpName)) (members : List NeedsSource) (left : List ValueSource) → IsCountingClause t clause members left → HoldsOfSchedules t clause }
{}

/// Of some operations one comes first: a clause that holds if each waits for another holds in each legal schedule.
pub fn one_comes_first()
    ensures { (t : TraceValue) (clause : List (OpName × OpName)) (members : List OpName) → IsWaitingClause t clause members → HoldsOfSchedules t clause }
{}

/// If each of some clauses holds in each legal schedule, and no assignment makes all of them true, the trace has no legal schedule. `pairs` gives for
/// each variable the two operations of which its positive literal says that the first stands before the second.
pub fn unsatisfiable_has_no_schedule()
    ensures { (t : TraceValue) (pairs : ℕ → OpName × OpName) (clauses : List (List ℤ)) → AreReasons t pairs clauses → HasNoModelIn clauses [] → HasNoSchedule t }
{}
