//! The layout of a trace's variables.

ghost use Rattle.std.specs.Prelude.{◌≡◌, ◌≢◌, ◌<◌, ◌≤◌, ℕ, List, [], length, map, take, is_some, IsSome, IfOk, slice_get, false};
ghost use Rattle.std.specs.Option.{option_and_then, option_copied, option_map, option_map_or};
ghost use Rattle.dimacs.specs.Assignment.{makes_true, value_of};
ghost use Rattle.trace_semantics.specs.Trace.{IsTrace, operation_count};
ghost use Rattle.var_layout.specs.ChoiceVariables as choice_variables;
ghost use Rattle.var_layout.specs.FinalVariables as final_variables;
ghost use Rattle.var_layout.specs.KnownPairs.{known_pairs};
ghost use Rattle.var_layout.specs.Numbers as numbers;
ghost use Rattle.var_layout.specs.OrderVariables as order;
ghost use Rattle.var_layout.specs.Split as split;
ghost use Rattle.var_layout.specs.Tables as tables;
ghost use Rattle.var_layout.specs.Tables.{OpTableValue, FinalTableValue};
ghost use Rattle.var_layout.specs.VoidVariables.{void_variable};

use crate::candidate::{FinalChoice, ReadsFromChoice};
use crate::choice_variables::{OpVariables, op_tables};
use crate::final_variables::{FinalTable, final_tables};
use crate::known_pairs::known_pairs;
use crate::numbering::Numbering;
use crate::order_literal::order_lit;
use crate::split_variables::{all_splits, push_first_splits};
use dimacs::{Assignment, Lit};
use reducer::reduced::Reduced;
use std::alloc::{AllocError, Global};
use std::marker::Model;
use std::snapshot::Snapshot;
use trace_semantics::trace::Trace;

/// The most operations of a trace that has a layout, which is the most that reduction keeps. The contracts of these files and of
/// `clause_blocks` say 160 for it: by that the numbers of variables and clauses fit a `u32`.
pub const MAX_LAYOUT_OPERATIONS: usize = 160;

/// The owner of some variables: a reading operation, by its number, or a final value, by its place in the trace's list,
/// from 0.
#[derive(Clone, Copy)]
pub enum ReadsFromOwner {
    Read(usize),
    Final(usize),
}

/// The variables of a reduced trace, in tables. They are the numbers from 1 on without gaps: first the order variables, then the choice
/// variables, operation by operation, and then the final variables. The trace itself is there for contracts alone, and has no bytes.
pub struct Layout {
    trace: Snapshot<Trace>,
    /// By the number of the operation, from 0.
    operations: Vec<OpVariables>,
    /// In the order of the trace's final values.
    final_values: Vec<FinalTable>,
    /// See `before`.
    before: Vec<(usize, usize)>,
    /// The number of variables, which is the last one too.
    count: u32,
}

/// Drops the tables in one call. A derived `Drop` would drop each at every exit of a function that owns a layout, which makes its proof longer.
impl Drop for Layout {
    fn drop(self) {
        let Layout {
            trace: _trace,
            operations: _operations,
            final_values: _final_values,
            before: _before,
            count: _,
        } = self;
    }
}

impl Model for Layout {
    ghost use Rattle.trace_semantics.specs.Trace.{TraceValue};
    ghost use Rattle.var_layout.specs.Tables.{IsLayout};

    ghost Value = { TraceValue };

    ghost view = { λ layout. layout.trace.value };

    ghost invariant = { λ layout. IsLayout layout.trace.value layout.operations.items layout.final_values.items layout.before.items layout.count };
}

impl Layout {
    /// The variables of a reduced trace.
    pub fn of(alloc: Global, reduced: &Reduced) -> Result<Layout, AllocError>
        ensures { IfOk result (λ layout. layout ≡ reduced.now.kept) }
    {
        let trace = reduced.kept();
        let numbering = Numbering::of(alloc, trace)?;
        numbering.recall_invariant();
        let (operations, next) = op_tables(alloc, &numbering, trace)?;
        let (final_values, next) = final_tables(alloc, &numbering, trace, next)?;
        let before = known_pairs(alloc, &numbering, trace)?;
        Ok(Layout {
            trace: Snapshot::of(trace),
            operations,
            final_values,
            before,
            count: next - 1,
        })
    }

    /// Gives what is kept of the operation of this number, if there is one. The other calls look entries up by this one, and those of final values by
    /// `final_table`: the invariant is of whole tables, and these contracts say what follows for one entry.
    fn op_table(&self, i: usize) -> Option<&OpVariables>
        ensures leader { option_map (λ (table : OpTableValue). table.leader) (option_copied result) ≡ tables.leader_at self.now i }
        ensures reads { option_map_or (λ (table : OpTableValue). table.reads) (option_copied result) false ≡ is_some (numbers.read_at self.now i) }
        ensures writers { option_map_or (λ (table : OpTableValue). table.writers) (option_copied result) [] ≡ numbers.other_writers self.now i }
        ensures choices { option_map_or (λ (table : OpTableValue). table.choices) (option_copied result) [] ≡ choice_variables.choices self.now i }
        ensures void { option_and_then (λ (table : OpTableValue). table.void) (option_copied result) ≡ choice_variables.void_choice self.now i }
    {
        self.operations.get(i)
    }

    /// Gives what is kept of the k-th final value, if there is one.
    fn final_table(&self, k: usize) -> Option<&FinalTable>
        ensures writers { option_map_or (λ (table : FinalTableValue). table.writers) (option_copied result) [] ≡ tables.final_writers self.now k }
        ensures choices { option_map_or (λ (table : FinalTableValue). table.choices) (option_copied result) [] ≡ final_variables.finals self.now k }
        ensures void { option_and_then (λ (table : FinalTableValue). table.void) (option_copied result) ≡ final_variables.void_final self.now k }
    {
        self.final_values.get(k)
    }

    /// The first operation of the process of an operation. It stands for the process: two operations are of one process if it is the same.
    #[inline]
    fn leader(&self, i: usize) -> Option<usize>
        ensures { result ≡ tables.leader_at self.now i }
    {
        match self.op_table(i) {
            Some(table) => Some(table.leader),
            None => None,
        }
    }

    /// Hands its caller, in proofs alone, what each layout keeps: its trace is one, with at most 160 operations. Does nothing when run.
    #[inline]
    pub fn recall_limits(&self)
        ensures trace { IsTrace self.now }
        ensures few { operation_count self.now ≤ 160 }
    {
        let _ = &self.operations;
    }

    /// The number of operations of the trace.
    #[inline]
    pub fn operations(&self) -> usize
        ensures { result ≡ operation_count self.now }
    {
        self.operations.len()
    }

    /// The literal that says that operation i stands before operation j.
    #[inline]
    pub fn order_lit(&self, i: usize, j: usize) -> Lit
        requires apart { i ≢ j }
        requires first { i < operation_count self.now }
        requires second { j < operation_count self.now }
        ensures { result ≡ order.order_lit (operation_count self.now) i j }
    {
        self.recall_limits();
        order_lit(self.operations(), i, j)
    }

    /// Returns whether the assignment puts operation i before operation j.
    pub fn is_put_before(&self, assignment: &Assignment, i: usize, j: usize) -> bool
        requires apart { i ≢ j }
        requires first { i < operation_count self.now }
        requires second { j < operation_count self.now }
        ensures { result ≡ makes_true (value_of assignment.now) (order.order_lit (operation_count self.now) i j) }
    {
        assignment.makes(&[self.order_lit(i, j)])
    }

    /// Returns whether both are operations of one process. A number past the last operation is of none.
    #[inline]
    pub fn in_one_process(&self, i: usize, j: usize) -> bool
        ensures { result ≡ numbers.in_one_process self.now i j }
    {
        match (self.leader(i), self.leader(j)) {
            (Some(first), Some(second)) => first == second,
            _ => false,
        }
    }

    /// Returns whether the operation of this number reads.
    pub fn is_reader(&self, r: usize) -> bool
        ensures { result ≡ is_some (numbers.read_at self.now r) }
    {
        match self.op_table(r) {
            Some(table) => table.reads,
            None => false,
        }
    }

    /// The candidates of a reading operation with their variables, in order: the initial value first, if it is one, and then writers by
    /// rising number.
    pub fn choices(&self, r: usize) -> &[ReadsFromChoice]
        requires { IsSome (numbers.read_at self.now r) }
        ensures { result.now ≡ choice_variables.choices self.now r }
    {
        match self.op_table(r) {
            Some(reader) => reader.choices.as_slice(),
            None => &[],
        }
    }

    /// The writers, other than the operation itself, of its location.
    pub fn other_writers(&self, i: usize) -> &[usize]
        ensures { result.now ≡ numbers.other_writers self.now i }
    {
        match self.op_table(i) {
            Some(operation) => operation.writers.as_slice(),
            None => &[],
        }
    }

    /// The number of final values of the trace.
    pub fn final_values(&self) -> usize
        ensures { result ≡ length self.now.final_values }
    {
        self.final_values.len()
    }

    /// The writers that leave the k-th final value, with their variables, in order.
    pub fn finals(&self, k: usize) -> &[FinalChoice]
        requires { k < length self.now.final_values }
        ensures { result.now ≡ final_variables.finals self.now k }
    {
        match self.final_table(k) {
            Some(final_value) => final_value.choices.as_slice(),
            None => &[],
        }
    }

    /// The writers of the k-th final value's location.
    pub fn final_writers(&self, k: usize) -> &[usize]
        requires { k < length self.now.final_values }
        ensures { result.now ≡ option_map_or (λ (entry : List ℕ × ℕ). numbers.writers self.now entry.0) (slice_get self.now.final_values k) [] }
    {
        match self.final_table(k) {
            Some(final_value) => final_value.writers.as_slice(),
            None => &[],
        }
    }

    /// The void variable of a reading operation without a candidate, or of a final value that no operation leaves.
    pub fn void_var(&self, chooser: ReadsFromOwner) -> Option<u32>
        ensures { result ≡ void_variable self.now chooser }
    {
        match chooser {
            ReadsFromOwner::Read(r) => self.op_table(r)?.void,
            ReadsFromOwner::Final(k) => self.final_table(k)?.void,
        }
    }

    /// The pairs of operations, by number, of which the trace says that the first stands before the second: its before pairs, and those
    /// that follow from times and not from program order.
    pub fn before(&self) -> &[(usize, usize)]
        ensures { result.now ≡ known_pairs self.now }
    {
        self.before.as_slice()
    }

    /// The number of variables of the formula of the trace.
    pub fn count(&self) -> u32
        ensures { result ≡ final_variables.variable_count self.now }
    {
        self.count
    }

    /// The split variables, in order: the order variables of operations in conflict, of different processes.
    pub fn splits(&self, alloc: Global) -> Result<Vec<u32>, AllocError>
        ensures { IfOk result (λ variables. variables.items ≡ split.splits self.now) }
    {
        all_splits(alloc, self)
    }

    /// The first of the split variables, at most `most`. Only the rows of pairs that these need are read.
    pub fn first_splits(&self, alloc: Global, most: usize) -> Result<Vec<u32>, AllocError>
        ensures { IfOk result (λ variables. variables.items ≡ take most (split.splits self.now)) }
    {
        let mut variables = Vec::new(alloc);
        push_first_splits(&mut variables, self, most)?;
        variables.truncate(most);
        Ok(variables)
    }
}
