//! The law of certificates of reasons.
//!
//! A law's body is empty: what it says is proved in the folder of its name in `proofs/laws`. Who calls it has what it says in proofs; the call
//! does nothing when run.

ghost use Rattle.std.specs.Prelude.{ℕ, List};
ghost use Rattle.trace_semantics.specs.Legal.{HasNoSchedule};
ghost use Rattle.trace_semantics.specs.Trace.{TraceValue, IsTrace};
ghost use Rattle.reason_check.specs.Accepted.{IsAcceptedReasons};

/// A trace of which a certificate of reasons is accepted has no legal schedule.
pub fn accepted_has_no_schedule()
    ensures { (t : TraceValue) (text : List ℕ) (count : ℕ) → IsTrace t → IsAcceptedReasons t text count → HasNoSchedule t }
{}
