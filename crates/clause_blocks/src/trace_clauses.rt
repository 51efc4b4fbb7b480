//! The clause list of a reduced trace, by its pieces.

ghost use Rattle.std.specs.Prelude.{◌≡◌, ◌<◌, ◌≤◌, ◌+◌, [], length, map, slice_index_or, IfOk};
ghost use Rattle.std.specs.List.{range_with_len};
ghost use Rattle.trace_semantics.specs.Trace.{IsTrace, operation_count};
ghost use Rattle.clause_blocks.specs.Clauses as list;
ghost use Rattle.clause_blocks.specs.Pieces.{clauses_before, clauses_in};

use crate::laws::few_clauses;
use crate::pieces::{Piece, Pieces};
use crate::table_search::Landmarks;
use crate::triple_table::TripleTable;
use reducer::reduced::Reduced;
use std::alloc::{AllocError, Global};
use std::marker::Model;
use var_layout::layout::Layout;

/// The clause list of a reduced trace. The clauses of transitivity, which are almost all, are made when they are asked for;
/// the others are stored.
pub struct TraceClauses {
    pieces: Pieces,
    /// The number of clauses before each piece, and of all after the last one: one entry more than pieces.
    starts: Vec<u32>,
    /// The landmarks of `starts`, by which the piece of a clause is found.
    near: Landmarks,
    triples: TripleTable,
}

/// Drops the tables in one call. A derived `Drop` would drop each at every exit of a function that owns trace clauses, which makes its proof longer.
impl Drop for TraceClauses {
    fn drop(self) {
        let TraceClauses {
            pieces: _pieces,
            starts: _starts,
            near: _near,
            triples: _triples,
        } = self;
    }
}

impl Model for TraceClauses {
    ghost use Rattle.trace_semantics.specs.Trace.{TraceValue};
    ghost use Rattle.clause_blocks.specs.Pieces.{AreTables};

    ghost Value = { TraceValue };

    ghost view = { λ clauses. clauses.pieces };

    ghost invariant = { λ clauses. AreTables clauses.pieces clauses.starts.items clauses.triples };
}

/// The number of clauses before each piece, and at the end the number of all.
fn starts_of(alloc: Global, pieces: &Pieces) -> Result<Vec<u32>, AllocError>
    ensures { IfOk result (λ starts. starts.items ≡ map (clauses_before pieces.now) (range_with_len 0 (length (list.pieces pieces.now) + 1))) }
{
    pieces.recall_limits();
    few_clauses();
    let mut starts = Vec::with_capacity(alloc, pieces.count() + 1)?;
    let mut before = 0;
    for k in 0..pieces.count() {
        starts.push(before)?;
        before += pieces.clauses_of_piece(k) as u32;
    }
    starts.push(before)?;
    Ok(starts)
}

impl TraceClauses {
    /// The clause list of the kept trace.
    pub fn of(alloc: Global, reduced: &Reduced) -> Result<TraceClauses, AllocError>
        ensures { IfOk result (λ clauses. clauses ≡ reduced.now.kept) }
    {
        let pieces = Pieces::of(alloc, reduced)?;
        pieces.recall_limits();
        let starts = starts_of(alloc, &pieces)?;
        let near = Landmarks::of(alloc, starts.as_slice())?;
        let triples = TripleTable::of(alloc, pieces.layout().operations())?;
        Ok(TraceClauses {
            pieces,
            starts,
            near,
            triples,
        })
    }

    /// Hands its caller, in proofs alone, what each clause list keeps: its trace is one, with at most 160 operations. Does nothing when
    /// run.
    #[inline]
    pub fn recall_limits(&self)
        ensures trace { IsTrace self.now }
        ensures few { operation_count self.now ≤ 160 }
    {
        self.pieces.recall_limits();
    }

    /// The variables of the trace.
    #[inline]
    pub fn layout(&self) -> &Layout
        ensures { result.now ≡ self.now }
    {
        self.pieces.layout()
    }

    /// The places of the clauses of transitivity.
    pub(crate) fn triples(&self) -> &TripleTable
        ensures { result.now ≡ operation_count self.now }
    {
        &self.triples
    }

    /// The number of pieces.
    pub fn pieces(&self) -> usize
        ensures { result ≡ length (list.pieces self.now) }
    {
        self.pieces.count()
    }

    /// Returns the number of the first piece of transitivity.
    pub(crate) fn piece_of_transitivity(&self) -> usize
        ensures number { result ≡ 1 }
        ensures within { result < length (list.pieces self.now) }
    {
        self.pieces.piece_of_transitivity()
    }

    /// Returns the number of the piece of what is read.
    pub(crate) fn piece_of_reads(&self) -> usize
        ensures number { result ≡ operation_count self.now + 1 }
        ensures within { result < length (list.pieces self.now) }
    {
        self.pieces.piece_of_reads()
    }

    /// The piece under this number, counted from 0. It is fixed by the trace alone, so pieces may be read in any order.
    pub fn piece(&self, k: usize) -> Piece<'_>
        requires { k < length (list.pieces self.now) }
        ensures { clauses_in (operation_count self.now) result ≡ slice_index_or (list.pieces self.now) k [] }
    {
        self.pieces.piece(k)
    }

    /// The number of clauses before the piece under this number, or of all clauses.
    pub(crate) fn start(&self, k: usize) -> usize
        requires { k ≤ length (list.pieces self.now) }
        ensures { result ≡ clauses_before self.now k }
    {
        let starts = self.starts.as_slice();
        starts[k] as usize
    }

    /// Returns how many clauses stand before those of transitivity.
    pub fn transitivity_start(&self) -> usize
        ensures { result ≡ clauses_before self.now 1 }
    {
        self.start(self.pieces.piece_of_transitivity())
    }

    /// Returns how many clauses stand before those of what is read.
    pub fn reads_start(&self) -> usize
        ensures { result ≡ clauses_before self.now (operation_count self.now + 1) }
    {
        self.start(self.pieces.piece_of_reads())
    }

    /// Returns how many clauses stand before those of the final values.
    pub fn final_values_start(&self) -> usize
        ensures { result ≡ clauses_before self.now (operation_count self.now + 2) }
    {
        self.start(self.pieces.piece_of_final_values())
    }

    /// The number of the piece in which the clause at this place, from 0, stands. It is never an empty piece.
    pub(crate) fn piece_at(&self, place: usize) -> usize
        requires { place < length (list.clauses_of self.now) }
        ensures within { result < length (list.pieces self.now) }
        ensures above { clauses_before self.now result ≤ place }
        ensures below { place < clauses_before self.now (result + 1) }
    {
        self.recall_limits();
        few_clauses();
        self.near
            .reached(self.starts.as_slice(), 0, self.pieces(), place as u32)
    }

    /// The number of clauses. It stands in a table, since each look-up of a clause needs it.
    pub fn clause_count(&self) -> usize
        ensures count { result ≡ length (list.clauses_of self.now) }
        ensures few { result ≤ 16777216 }
    {
        self.recall_limits();
        few_clauses();
        self.start(self.pieces())
    }
}
