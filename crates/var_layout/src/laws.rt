//! Laws of variables.
//!
//! A law's body is empty, or calls other laws: what it says is proved in the folder of its name in `proofs/laws`, or needs no
//! answer. Who calls it has what it says in proofs; the call does nothing when run.

ghost use Rattle.std.specs.Prelude.{◌≡◌, ◌≢◌, ◌<◌, ◌⊎◌, ℕ, List, [], ◌∷◌, map, Some, None, IsSome, IsTrue};
ghost use Rattle.std.specs.List.{Contains};
ghost use Rattle.dimacs.specs.Literal.{is_literal_up_to};
ghost use Rattle.trace_semantics.specs.declared.operation.OpName.{OpName};
ghost use Rattle.trace_semantics.specs.KnownOrder.{HasNoTimes, IsKnownBefore};
ghost use Rattle.trace_semantics.specs.Trace.{TraceValue, IsTrace, operation_at, operation_count};
ghost use Rattle.var_layout.specs.ChoiceVariables.{choices, void_choice};
ghost use Rattle.var_layout.specs.FinalVariables.{finals, void_final, variable_count};
ghost use Rattle.var_layout.specs.KnownPairs.{known_pairs, numbers_of};
ghost use Rattle.var_layout.specs.Numbers.{name_at, number_of, writers, other_writers};
ghost use Rattle.var_layout.specs.OrderVariables.{order_count, order_var, order_lit};
ghost use Rattle.var_layout.specs.Split.{splits};
ghost use Rattle.var_layout.specs.StoreBuffering.{store_buffering, initial_choice};

/// The variables of store buffering, by operation: 0 writes x and 1 reads y, in one process; 2 writes y and 3 reads x, in another. The six
/// pairs have the variables 1 to 6, the two reads 7 and 8; 3 and 4 are of the pairs (0, 3) and (1, 2), the only ones in conflict.
pub fn store_buffering_has_these_variables()
    ensures count { variable_count store_buffering ≡ 8 }
    ensures first { choices store_buffering 1 ≡ initial_choice 7 ∷ [] }
    ensures second { choices store_buffering 3 ≡ initial_choice 8 ∷ [] }
    ensures not_void { void_choice store_buffering 1 ≡ None }
    ensures split { splits store_buffering ≡ 3 ∷ 4 ∷ [] }
    ensures no_final { finals store_buffering 0 ≡ [] }
    ensures no_void_final { void_final store_buffering 0 ≡ None }
{}

/// The literal that says that one of n operations stands before another is of one of their order variables.
pub fn order_literals_are_of_order_variables()
    ensures { (n i j : ℕ) → i ≢ j → i < n → j < n → IsTrue (is_literal_up_to (order_count n) (order_lit n i j)) }
{}

/// No two pairs of operations have one order variable.
pub fn pairs_have_order_variables_of_their_own()
    ensures { (n i j k l : ℕ) → i < j → j < n → k < l → l < n → order_var n i j ≡ order_var n k l → (i ≡ k) × (j ≡ l) }
{}

/// Each operation of a trace has one number, and each number below the count of operations is one of an operation.
pub fn operations_have_numbers()
    ensures known { (t : TraceValue) → IsTrace t → (n : OpName) → IsSome (operation_at t n) → (number_of t n < operation_count t) × (name_at t (number_of t n) ≡ Some n) }
    ensures numbered { (t : TraceValue) → IsTrace t → (i : ℕ) (n : OpName) → name_at t i ≡ Some n → (number_of t n ≡ i) × (i < operation_count t) × IsSome (operation_at t n) }
    ensures named { (t : TraceValue) (i : ℕ) → i < operation_count t → IsSome (name_at t i) }
{}

/// The writers of a location are operations of the trace, and so are an operation's other writers, which it is not itself.
pub fn writers_are_operations()
    ensures writers { (t : TraceValue) (location : List ℕ) (w : ℕ) → Contains (writers t location) w → w < operation_count t }
    ensures others { (t : TraceValue) (i w : ℕ) → Contains (other_writers t i) w → (w < operation_count t) × (w ≢ i) }
{}

/// If the trace says that an operation stands before another, the pair of their numbers is known, or program order says so already. What is
/// known the trace says.
pub fn known_pairs_say_the_order()
    ensures listed { (t : TraceValue) (m n : OpName) → IsTrace t → IsKnownBefore t m n → Contains (known_pairs t) (number_of t m, number_of t n) ⊎ ((m.process ≡ n.process) × (m.place < n.place)) }
    ensures known { (t : TraceValue) (i j : ℕ) → IsTrace t → Contains (known_pairs t) (i, j) → (m : OpName) × (n : OpName) × (name_at t i ≡ Some m) × (name_at t j ≡ Some n) × IsKnownBefore t m n }
{}

/// Both numbers of a known pair are of operations of the trace, and these are two.
pub fn known_pairs_are_apart()
    ensures { (t : TraceValue) → IsTrace t → (pair : ℕ × ℕ) → Contains (known_pairs t) pair → (pair.0 < operation_count t) × (pair.1 < operation_count t) × (pair.0 ≢ pair.1) }
{}

/// If no operation has a span, the known pairs are the before pairs.
pub fn known_pairs_without_times()
    ensures { (t : TraceValue) → IsTrace t → HasNoTimes t → known_pairs t ≡ map (numbers_of t) t.before }
{}
