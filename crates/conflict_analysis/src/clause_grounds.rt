//! What learned clauses rest on.

use numbered_log::OperationId;
use std::alloc::{AllocError, Global};
use total_tables::{at, piece, size};

/// Lists, one behind the other in one table, since a walk may learn 200,000 clauses.
pub(crate) struct GroundLists<T: Copy> {
    entries: Vec<T>,
    /// The place at which the first list begins, and for each list the place behind it.
    ends: Vec<u32>,
}

/// Drops both tables in one call. A derived `Drop` would drop each at every exit of a function that owns lists, which makes its proof longer.
impl<T: Copy> Drop for GroundLists<T> {
    fn drop(self) {
        let GroundLists {
            entries: _entries,
            ends: _ends,
        } = self;
    }
}

impl<T: Copy> GroundLists<T> {
    fn new(alloc: Global) -> Result<GroundLists<T>, AllocError> {
        Ok(GroundLists {
            entries: Vec::new(alloc),
            ends: vec![in alloc; 0; 1]?,
        })
    }

    /// Adds a list behind all others.
    fn add(&mut self, list: &[T]) -> Result<(), AllocError> {
        for entry in list {
            self.entries.push(*entry)?;
        }
        let end = self.size();
        self.ends.push(end)?;
        Ok(())
    }

    /// The number of entries of all lists.
    fn size(&self) -> u32 {
        size(self.entries.as_slice())
    }

    /// The place of the first entry of the list of this number.
    pub(crate) fn begin(&self, number: u32) -> u32 {
        at(self.ends.as_slice(), number, 0)
    }

    /// The place behind its last entry.
    pub(crate) fn end(&self, number: u32) -> u32 {
        self.begin(number.wrapping_add(1))
    }

    /// The entries of the list of this number.
    pub(crate) fn list(&self, number: u32) -> &[T] {
        piece(
            self.entries.as_slice(),
            self.begin(number),
            self.end(number),
        )
    }

    /// The entry at this place among those of all lists, or the other value past the end.
    pub(crate) fn entry(&self, place: u32, otherwise: T) -> T {
        at(self.entries.as_slice(), place, otherwise)
    }
}

/// The number of operations, or of pairs, in all lists beyond which no list is added. The walk goes on then, and has no core.
const MOST_ENTRIES: u32 = 1 << 21;

/// For each learned clause what its derivation rests on: the operations that it names, the clauses that it uses, and pairs of no decision.
pub(crate) struct ClauseGrounds {
    pub(crate) operations: GroundLists<OperationId>,
    pub(crate) clauses: GroundLists<u32>,
    pub(crate) pairs: GroundLists<u32>,
    /// A list of each kind for each clause, so that the lists of a clause have its number.
    count: u32,
    /// Whether each clause has its lists. If one has none, numbers of later ones would not fit, and no core is made.
    is_whole: bool,
}

/// Drops each table in one call. A derived `Drop` would drop each at every exit of a function that owns grounds, which makes its proof longer.
impl Drop for ClauseGrounds {
    fn drop(self) {
        let ClauseGrounds {
            operations: _operations,
            clauses: _clauses,
            pairs: _pairs,
            count: _,
            is_whole: _,
        } = self;
    }
}

impl ClauseGrounds {
    /// The grounds of no clause.
    pub(crate) fn new(alloc: Global) -> Result<ClauseGrounds, AllocError> {
        Ok(ClauseGrounds {
            operations: GroundLists::new(alloc)?,
            clauses: GroundLists::new(alloc)?,
            pairs: GroundLists::new(alloc)?,
            count: 0,
            is_whole: true,
        })
    }

    /// The number of clauses.
    pub(crate) fn count(&self) -> u32 {
        self.count
    }

    /// Returns whether there was room for all that was added.
    pub(crate) fn is_whole(&self) -> bool {
        self.is_whole
    }

    /// Adds the grounds of the next clause, if there is room.
    pub(crate) fn add(
        &mut self,
        operations: &[OperationId],
        clauses: &[u32],
        pairs: &[u32],
    ) -> Result<(), AllocError> {
        if self.operations.size() > MOST_ENTRIES || self.pairs.size() > MOST_ENTRIES {
            self.is_whole = false;
            return Ok(());
        }
        self.operations.add(operations)?;
        self.clauses.add(clauses)?;
        self.pairs.add(pairs)?;
        self.count = self.count.wrapping_add(1);
        Ok(())
    }
}
