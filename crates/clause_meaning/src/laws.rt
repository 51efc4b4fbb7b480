//! Laws of meanings.
//!
//! A law's body is empty: what it says is proved in the folder of its name in `proofs/laws`, or needs no answer. Who calls it has what it says in
//! proofs; the call does nothing when run.

ghost use Rattle.std.specs.Prelude.{◌≡◌, map};
ghost use Rattle.trace_semantics.specs.Trace.{TraceValue};
ghost use Rattle.clause_blocks.specs.Clauses.{clauses_of};
ghost use Rattle.clause_blocks.specs.Examples.{two_updates, late_read, lost_values};
ghost use Rattle.clause_meaning.specs.Examples.{store_buffering_meanings, two_updates_meanings, late_read_meanings, lost_values_meanings};
ghost use Rattle.clause_meaning.specs.Meanings.{clause_of};
ghost use Rattle.clause_meaning.specs.Starts.{meanings};
ghost use Rattle.var_layout.specs.StoreBuffering.{store_buffering};

/// Each clause of a trace's list is the one that says what the meaning at its place does. On this rests what an explanation says of a clause.
pub fn clauses_say_their_meanings()
    ensures { (t : TraceValue) → map (clause_of t) (meanings t) ≡ clauses_of t }
{}

/// What the clauses of small traces say.
pub fn small_traces_have_these_meanings()
    ensures store_buffering { meanings store_buffering ≡ store_buffering_meanings }
    ensures two_updates { meanings two_updates ≡ two_updates_meanings }
    ensures late_read { meanings late_read ≡ late_read_meanings }
    ensures lost_values { meanings lost_values ≡ lost_values_meanings }
{}
