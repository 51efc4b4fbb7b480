//! Laws of the numbers of variables: each is from 1 to their count, and that is no more than a formula may have.
//!
//! A law's body is empty, or calls other laws: what it says is proved in the folder of its name in `proofs/ranges`, or needs no
//! answer. Who calls it has what it says in proofs; the call does nothing when run.
//!
//! The definitions in `specs/` give each variable its number. These laws are there so that it is proved that the numbers stay in their range.

ghost use Rattle.std.specs.Prelude.{◌≡◌, ◌≢◌, ◌<◌, ◌≤◌, ℕ, List, Some, false, IsTrue, slice_get};
ghost use Rattle.std.specs.List.{Contains};
ghost use Rattle.dimacs.specs.Literal.{is_literal_up_to, most_variable};
ghost use Rattle.trace_semantics.specs.Trace.{TraceValue, IsTrace, operation_count};
ghost use Rattle.var_layout.specs.declared.candidate.Candidate.TheVariants.{Writer};
ghost use Rattle.var_layout.specs.declared.candidate.ReadsFromChoice.{ReadsFromChoice};
ghost use Rattle.var_layout.specs.declared.candidate.FinalChoice.{FinalChoice};
ghost use Rattle.var_layout.specs.declared.layout.ReadsFromOwner.{ReadsFromOwner};
ghost use Rattle.var_layout.specs.ChoiceVariables.{first_choice, choices};
ghost use Rattle.var_layout.specs.FinalVariables.{is_untouched, first_final, final_choices, finals, variable_count};
ghost use Rattle.var_layout.specs.Numbers.{readers, writers, other_writers};
ghost use Rattle.var_layout.specs.OrderVariables.{order_lit};
ghost use Rattle.var_layout.specs.Ranges.{IsVariable, HasLiterals};
ghost use Rattle.var_layout.specs.Tables.{final_writers};
ghost use Rattle.var_layout.specs.VoidVariables.{void_variable};

/// A trace of 160 operations at most has no more variables than a formula may have.
pub fn few_variables()
    ensures { (t : TraceValue) → IsTrace t → operation_count t ≤ 160 → variable_count t ≤ most_variable }
{}

/// Literals of the trace's variables: each variable and its negation are among the literals of a formula that has no other variables.
pub fn variables_have_literals()
    ensures { (t : TraceValue) (v : ℕ) → IsVariable t v → HasLiterals t v }
{}

/// The literal that says that one operation stands before another is of the trace's variables.
pub fn order_literals_are_over_the_variables()
    ensures { (t : TraceValue) (i j : ℕ) → i ≢ j → i < operation_count t → j < operation_count t → IsTrue (is_literal_up_to (variable_count t) (order_lit (operation_count t) i j)) }
{}

/// A choice has one of the trace's variables, and a writer that is a candidate is one of the operation's other writers.
pub fn choices_are_over_the_variables()
    ensures variable { (t : TraceValue) (r : ℕ) (c : ReadsFromChoice) → Contains (choices t r) c → IsVariable t c.variable }
    ensures literals { (t : TraceValue) (r : ℕ) (c : ReadsFromChoice) → Contains (choices t r) c → HasLiterals t c.variable }
    ensures writer { (t : TraceValue) (r : ℕ) (c : ReadsFromChoice) (w : ℕ) → Contains (choices t r) c → c.candidate ≡ Writer w → Contains (other_writers t r) w }
{}

/// A final choice has one of the trace's variables, and its writer is one of the location's.
pub fn finals_are_over_the_variables()
    ensures variable { (t : TraceValue) (k : ℕ) (c : FinalChoice) → Contains (finals t k) c → IsVariable t c.variable }
    ensures literals { (t : TraceValue) (k : ℕ) (c : FinalChoice) → Contains (finals t k) c → HasLiterals t c.variable }
    ensures writer { (t : TraceValue) (k : ℕ) (c : FinalChoice) → Contains (finals t k) c → Contains (final_writers t k) c.writer }
    ensures entry { (t : TraceValue) (k : ℕ) (entry : List ℕ × ℕ) → slice_get t.final_values k ≡ Some entry → finals t k ≡ final_choices t k entry }
{}

/// A void variable is one of the trace's variables, and so is the first one of each reading operation and of each final value
/// that has any.
pub fn void_variables_are_variables()
    ensures void { (t : TraceValue) (chooser : ReadsFromOwner) (v : ℕ) → void_variable t chooser ≡ Some v → IsVariable t v }
    ensures first_choice { (t : TraceValue) (r : ℕ) → Contains (readers t) r → IsVariable t (first_choice t r) }
    ensures first_final { (t : TraceValue) (k : ℕ) (entry : List ℕ × ℕ) → slice_get t.final_values k ≡ Some entry → is_untouched t entry ≡ false → IsVariable t (first_final t k) }
{}
