//! Laws of the clauses.
//!
//! A law's body is empty, or calls other laws: what it says is proved in the folder of its name in `proofs/laws`, or needs no
//! answer. Who calls it has what it says in proofs; the call does nothing when run. Proofs give it its premises in the order in which
//! they stand, so another order changes each of these proofs.

ghost use Rattle.std.specs.Prelude.{◌≡◌, ◌↔◌, ◌≤◌, ◌*◌, ◌-◌, ◌/◌, ℕ, Bool, length, IsTrue};
ghost use Rattle.std.specs.List.{list_all};
ghost use Rattle.dimacs.specs.Formula.{is_formula};
ghost use Rattle.dimacs.specs.Literal.{is_clause};
ghost use Rattle.dimacs.specs.Models.{IsModel};
ghost use Rattle.trace_semantics.specs.Trace.{TraceValue, IsTrace, operation_count};
ghost use Rattle.clause_blocks.specs.Blocks.{transitivity};
ghost use Rattle.clause_blocks.specs.Clauses.{clauses_of, formula_of};
ghost use Rattle.clause_blocks.specs.Examples.{store_buffering_formula, two_updates, two_updates_formula, late_read, late_read_formula, write_and_read, early_read_formula, lost_values, lost_values_formula};
ghost use Rattle.clause_blocks.specs.Ranks.{AreRanks, count_before};
ghost use Rattle.var_layout.specs.StoreBuffering.{store_buffering};

/// The formulas of small traces, which stand in `specs/Examples.antt` with a line about each. In `write_and_read` a read of the initial
/// value starts at time 3: a write that ends at 2 stands before it, and one that ends at 3 need not.
pub fn small_traces_have_these_formulas()
    ensures store_buffering { formula_of store_buffering ≡ store_buffering_formula }
    ensures two_updates { formula_of two_updates ≡ two_updates_formula }
    ensures late_read { formula_of late_read ≡ late_read_formula }
    ensures ended { formula_of (write_and_read 2) ≡ late_read_formula }
    ensures not_ended { formula_of (write_and_read 3) ≡ early_read_formula }
    ensures lost_values { formula_of lost_values ≡ lost_values_formula }
{}

/// Each clause of a trace's formula is over the trace's variables.
pub fn formula_is_over_its_variables()
    ensures { (t : TraceValue) → IsTrace t → IsTrue (is_formula (formula_of t)) }
{}

/// The number of clauses of transitivity for n operations.
pub fn transitivity_has_so_many_clauses()
    ensures { (n : ℕ) → length (transitivity n) ≡ n * (n - 1) * (n - 2) / 3 }
{}

/// Truth values that put the operations in the order of some ranks make each clause of transitivity true.
pub fn ranked_without_cycle()
    ensures { (value : ℕ → Bool) (n : ℕ) (rank : ℕ → ℕ) → AreRanks value n rank → IsModel value (transitivity n) }
{}

/// Each clause of transitivity is true if and only if of each two operations the one before which fewer stand stands first. So where the truth
/// values of some two do not agree with these counts, some clause of transitivity is false.
pub fn transitive_exactly_by_counts()
    ensures { (value : ℕ → Bool) (n : ℕ) → IsModel value (transitivity n) ↔ AreRanks value n (count_before value n) }
{}

/// A trace of at most 160 operations has no more clauses than the header of a formula's text may announce.
pub fn few_clauses()
    ensures { (t : TraceValue) → IsTrace t → operation_count t ≤ 160 → length (clauses_of t) ≤ 16777216 }
{}

/// Each clause of a trace of 160 operations at most is a clause of literals.
pub fn clauses_are_clauses()
    ensures { (t : TraceValue) → IsTrace t → operation_count t ≤ 160 → IsTrue (list_all is_clause (clauses_of t)) }
{}
