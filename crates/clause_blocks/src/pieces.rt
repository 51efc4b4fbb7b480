//! The clause list of a reduced trace, piece by piece. The order of the families stands here and nowhere else.

ghost use Rattle.std.specs.Prelude.{◌≡◌, ◌<◌, ◌≤◌, ◌+◌, [], length, slice_index_or, IfOk};
ghost use Rattle.trace_semantics.specs.Trace.{IsTrace, operation_count};
ghost use Rattle.clause_blocks.specs.Clauses as list;
ghost use Rattle.clause_blocks.specs.Pieces.{clauses_in};

use crate::final_clauses::clauses_of_finals;
use crate::read_clauses::clauses_of_reads;
use crate::transitivity::count_transitivity_from;
use crate::unit_clauses::{clauses_of_before, clauses_of_program_order};
use dimacs::Clause;
use reducer::reduced::Reduced;
use std::alloc::{AllocError, Global};
use std::marker::Model;
use var_layout::layout::Layout;

/// A piece of a clause list: clauses that are stored, or those of transitivity of which this operation is the lowest of
/// three.
#[derive(Clone, Copy)]
pub enum Piece<'a> {
    Stored(&'a [Clause]),
    TransitivityFrom(usize),
}

/// The pieces of a trace's clause list. All families but transitivity are stored.
pub(crate) struct Pieces {
    layout: Layout,
    program_order: Vec<Clause>,
    reads: Vec<Clause>,
    final_values: Vec<Clause>,
    before: Vec<Clause>,
}

/// Drops the layout and the clauses in one call. A derived `Drop` would drop each at every exit of a function that owns pieces, which makes its proof longer.
impl Drop for Pieces {
    fn drop(self) {
        let Pieces {
            layout: _layout,
            program_order: _program_order,
            reads: _reads,
            final_values: _final_values,
            before: _before,
        } = self;
    }
}

impl Model for Pieces {
    ghost use Rattle.trace_semantics.specs.Trace.{TraceValue};
    ghost use Rattle.clause_blocks.specs.Pieces.{AreStored};

    ghost Value = { TraceValue };

    ghost view = { λ pieces. pieces.layout };

    ghost invariant = { λ pieces. AreStored pieces.layout pieces.program_order.items pieces.reads.items pieces.final_values.items pieces.before.items };
}

impl Pieces {
    /// The pieces of the kept trace.
    pub(crate) fn of(alloc: Global, reduced: &Reduced) -> Result<Pieces, AllocError>
        ensures { IfOk result (λ pieces. pieces ≡ reduced.now.kept) }
    {
        let layout = Layout::of(alloc, reduced)?;
        let program_order = clauses_of_program_order(alloc, &layout)?;
        let reads = clauses_of_reads(alloc, &layout)?;
        let final_values = clauses_of_finals(alloc, &layout)?;
        let before = clauses_of_before(alloc, &layout)?;
        Ok(Pieces {
            layout,
            program_order,
            reads,
            final_values,
            before,
        })
    }

    /// Hands its caller, in proofs alone, what the pieces keep: their trace is one, with at most 160 operations. Does nothing when run.
    #[inline]
    pub(crate) fn recall_limits(&self)
        ensures trace { IsTrace self.now }
        ensures few { operation_count self.now ≤ 160 }
    {
        self.layout.recall_limits();
    }

    /// The variables of the trace.
    #[inline]
    pub(crate) fn layout(&self) -> &Layout
        ensures { result.now ≡ self.now }
    {
        &self.layout
    }

    /// Returns the number of the first piece of transitivity. There is one for each operation, and program order stands before them.
    pub(crate) fn piece_of_transitivity(&self) -> usize
        ensures number { result ≡ 1 }
        ensures within { result < length (list.pieces self.now) }
    {
        1
    }

    /// Returns the number of the piece of what is read, which stands after transitivity.
    pub(crate) fn piece_of_reads(&self) -> usize
        ensures number { result ≡ operation_count self.now + 1 }
        ensures within { result < length (list.pieces self.now) }
    {
        self.recall_limits();
        self.layout().operations() + 1
    }

    /// Returns the number of the piece of final values, which stands after what is read.
    pub(crate) fn piece_of_final_values(&self) -> usize
        ensures number { result ≡ operation_count self.now + 2 }
        ensures within { result < length (list.pieces self.now) }
    {
        self.recall_limits();
        self.layout().operations() + 2
    }

    /// The number of pieces: those of program order, reads, final values and the trace's own order, and one of transitivity for each operation.
    pub(crate) fn count(&self) -> usize
        ensures { result ≡ length (list.pieces self.now) }
    {
        self.recall_limits();
        self.layout().operations() + 4
    }

    /// The piece under this number, counted from 0: program order, then transitivity from the operation k - 1 for each k up to the number of
    /// operations, then reads, final values and the trace's own order.
    pub(crate) fn piece(&self, k: usize) -> Piece<'_>
        requires { k < length (list.pieces self.now) }
        ensures { clauses_in (operation_count self.now) result ≡ slice_index_or (list.pieces self.now) k [] }
    {
        let operations = self.layout().operations();
        if k == 0 {
            return Piece::Stored(self.program_order.as_slice());
        }
        if k <= operations {
            return Piece::TransitivityFrom(k - 1);
        }
        if k - operations == 1 {
            return Piece::Stored(self.reads.as_slice());
        }
        if k - operations == 2 {
            return Piece::Stored(self.final_values.as_slice());
        }
        Piece::Stored(self.before.as_slice())
    }

    /// The number of clauses in the piece under this number.
    pub(crate) fn clauses_of_piece(&self, k: usize) -> usize
        requires { k < length (list.pieces self.now) }
        ensures { result ≡ length (slice_index_or (list.pieces self.now) k []) }
    {
        self.recall_limits();
        match self.piece(k) {
            Piece::Stored(clauses) => clauses.len(),
            Piece::TransitivityFrom(i) => count_transitivity_from(self.layout().operations(), i),
        }
    }
}
