//! What the clauses mean: their models are the legal schedules of the trace.
//!
//! A law's body is empty, or calls other laws: what it says is proved in the folder of its name in `proofs/meaning`, or needs no
//! answer. Who calls it has what it says in proofs; the call does nothing when run.

ghost use Rattle.std.specs.Prelude.{◌≡◌, ◌↔◌, ℕ, Bool, List};
ghost use Rattle.dimacs.specs.Models.{IsModel};
ghost use Rattle.trace_semantics.specs.declared.operation.OpName.{OpName};
ghost use Rattle.trace_semantics.specs.Legal.{IsLegal};
ghost use Rattle.trace_semantics.specs.Trace.{TraceValue, IsTrace};
ghost use Rattle.clause_blocks.specs.Clauses.{clauses_of};
ghost use Rattle.clause_blocks.specs.ModelOrder.{IsInOrderOf, IsSortedBy};

/// The order in which a model puts the operations is a legal schedule.
pub fn order_of_a_model_is_legal()
    ensures { (t : TraceValue) (value : ℕ → Bool) (names : List OpName) → IsTrace t → IsModel value (clauses_of t) → IsInOrderOf value t names → IsLegal t names }
{}

/// Each model puts the operations in an order.
pub fn each_model_has_an_order()
    ensures { (t : TraceValue) (value : ℕ → Bool) → IsTrace t → IsModel value (clauses_of t) → (names : List OpName) × IsInOrderOf value t names }
{}

/// A list of all names, each once, is in order if each literal of a name and a later one is true.
pub fn in_order_where_sorted()
    ensures { (t : TraceValue) (value : ℕ → Bool) (names : List OpName) → IsTrace t → IsSortedBy value t names → IsInOrderOf value t names }
{}

/// Truth values put the operations in at most one order.
pub fn one_order()
    ensures { (t : TraceValue) (value : ℕ → Bool) (names others : List OpName) → IsTrace t → IsInOrderOf value t names → IsInOrderOf value t others → names ≡ others }
{}

/// Each legal schedule is the order in which some model puts the operations.
pub fn each_legal_schedule_has_a_model()
    ensures { (t : TraceValue) (names : List OpName) → IsTrace t → IsLegal t names → (value : ℕ → Bool) × IsModel value (clauses_of t) × IsInOrderOf value t names }
{}

/// The clauses have a model if and only if the trace has a legal schedule.
pub fn satisfiable_exactly_where_schedulable()
    ensures { (t : TraceValue) → IsTrace t → ((value : ℕ → Bool) × IsModel value (clauses_of t)) ↔ ((names : List OpName) × IsLegal t names) }
{}
