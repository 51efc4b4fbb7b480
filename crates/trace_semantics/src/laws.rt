//! Laws of legal schedules and of what is said of them.
//!
//! A law's body is empty, or calls other laws: what it says is proved in the folder of its name in `proofs/laws`, or needs no
//! answer. Who calls it has what it says in proofs; the call does nothing when run.

ghost use Rattle.std.specs.Prelude.{◌≡◌, ◌↔◌, false, true, List};
ghost use Rattle.std.specs.List.{Contains};
ghost use Rattle.trace_semantics.specs.declared.operation.OpName.{OpName};
ghost use Rattle.trace_semantics.specs.declared.judgement.Judgement.{Judgement};
ghost use Rattle.trace_semantics.specs.declared.judgement.Judgement.TheVariants.{Legal};
ghost use Rattle.trace_semantics.specs.Judgement.{IsJudgement, paired_before, put_before};
ghost use Rattle.trace_semantics.specs.KnownOrder.{ended_before, HasNoTimes, IsKnownBefore};
ghost use Rattle.trace_semantics.specs.Legal.{IsLegal};
ghost use Rattle.trace_semantics.specs.Trace.{TraceValue, IsTrace};

/// A list of names has no fault if and only if it is a legal schedule.
pub fn legal_exactly_where_faultless()
    ensures { (t : TraceValue) (names : List OpName) → IsTrace t → IsJudgement t names Legal ↔ IsLegal t names }
{}

/// A list of names has at most one judgement.
pub fn one_judgement()
    ensures { (t : TraceValue) (names : List OpName) (j k : Judgement) → IsJudgement t names j → IsJudgement t names k → j ≡ k }
{}

/// Each list of names has a judgement.
pub fn always_judged()
    ensures { (t : TraceValue) (names : List OpName) → (j : Judgement) × IsJudgement t names j }
{}

/// Times put no operation before itself, and if they put one before a second and that before a third, they put the first before
/// the third.
pub fn times_are_an_order()
    ensures apart { (t : TraceValue) (n : OpName) → IsTrace t → ended_before t n n ≡ false }
    ensures onwards { (t : TraceValue) (m n o : OpName) → IsTrace t → ended_before t m n ≡ true → ended_before t n o ≡ true → ended_before t m o ≡ true }
{}

/// If no operation has a span, the order that the trace says is that of its `before` pairs, in a legal schedule and in a judgement.
pub fn untimed_as_before()
    ensures order { (t : TraceValue) (m n : OpName) → HasNoTimes t → IsKnownBefore t m n ↔ Contains t.before (m, n) }
    ensures judged { (t : TraceValue) (n : OpName) → HasNoTimes t → put_before t n ≡ paired_before t n }
{}
