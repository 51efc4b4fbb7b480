//! A formula prepared for the searches of all its cubes.

use crate::wanted::wanted_variables;
use crate::whole::{CubeRefutation, WholeRefutation};
use assignment_trail::Activities;
use clause_database::{EncodingHints, FormulaLoader, SmallClauses, number_of};
use dimacs::{Assignment, ClauseList, Lit};
use proof_log::ClauseId;
use proof_log::codes::{LiteralCode, Variable};
use std::alloc::{AllocError, Global};
use std::sync::atomic::{AtomicU64, Ordering};

/// The clauses of a formula in the form in which every search of one of its cubes begins. It is made once and then only read, but for a
/// count of conflicts, so all cubes share it, in whichever threads they are searched. Nothing is made true in it, though unit clauses could
/// be: a cube's literals come first on a trail, and hints name them.
///
/// Untrusted: using the preparation of a different formula yields answers that the check refuses, and never a wrong verdict (see
/// `EncodingHints`).
pub struct PreparedFormula<'a> {
    /// The caller's hints, if they fit the formula.
    pub(crate) encoding: EncodingHints<'a>,
    /// Largest variable of the formula.
    pub(crate) variables: u32,
    /// Number of clauses of the formula.
    count: usize,
    /// The clauses of which the hints say nothing.
    pub(crate) loader: FormulaLoader,
    /// Those of two and three literals, by the literals that are in them.
    pub(crate) small: SmallClauses,
    /// The variables that can be decided.
    pub(crate) wanted: Vec<Variable>,
    /// The variables that are decided first: those of the splits, once the formula itself is searched.
    pub(crate) leading: Vec<Variable>,
    /// The activities with which the search of the first cube has ended, if it refuted the cube. A search of the formula itself begins with them.
    pub(crate) activities: Option<Activities>,
    /// What refutes the formula itself, if that was found before its cubes are searched.
    pub(crate) refutation: Option<WholeRefutation>,
    /// Cubes that were refuted before all of them are searched.
    pub(crate) refuted_cubes: Vec<CubeRefutation>,
    /// A model of the formula, if one was found before its cubes are searched.
    pub(crate) model: Option<Assignment>,
    /// The conflicts of the searches that have ended, without those that were taken. No answer depends on it.
    conflicts: AtomicU64,
}

/// Drops each table in one call. A derived `Drop` would drop each at every exit of a function that owns a prepared formula, which makes its proof longer.
impl Drop for PreparedFormula<'_> {
    fn drop(self) {
        let PreparedFormula {
            encoding: _,
            variables: _,
            count: _,
            loader: _loader,
            small: _small,
            wanted: _wanted,
            leading: _leading,
            activities: _activities,
            refutation: _refutation,
            refuted_cubes: _refuted_cubes,
            model: _model,
            conflicts: _conflicts,
        } = self;
    }
}

impl<'a> PreparedFormula<'a> {
    /// Loads the formula, with the caller's hints about its structure.
    pub fn of<L: ClauseList>(
        alloc: Global,
        formula: &L,
        encoding: EncodingHints<'a>,
    ) -> Result<PreparedFormula<'a>, AllocError> {
        PreparedFormula::over(alloc, formula.variables(), formula, encoding)
    }

    /// Loads it likewise, over this many variables: a cube may have one that the formula has not.
    pub(crate) fn over<L: ClauseList>(
        alloc: Global,
        variables: u32,
        formula: &L,
        encoding: EncodingHints<'a>,
    ) -> Result<PreparedFormula<'a>, AllocError> {
        let count = formula.count();
        let encoding = encoding.fitting(variables, count);
        let loader = FormulaLoader::of(alloc, variables, formula, encoding)?;
        let literals = LiteralCode::count_over(variables);
        let small = SmallClauses::new(alloc, literals, loader.small.as_slice())?;
        let wanted = wanted_variables(alloc, variables, &loader, encoding)?;
        Ok(PreparedFormula {
            encoding,
            variables,
            count,
            loader,
            small,
            wanted,
            leading: Vec::new(alloc),
            activities: None,
            refutation: None,
            refuted_cubes: Vec::new(alloc),
            model: None,
            conflicts: AtomicU64::new(0),
        })
    }

    /// Counts the conflicts of a search that has ended.
    pub(crate) fn add_conflicts(&self, conflicts: u64) {
        self.conflicts.fetch_add(conflicts, Ordering::SeqCst);
    }

    /// Returns how many conflicts are counted.
    pub(crate) fn conflicts(&self) -> u64 {
        self.conflicts.load(Ordering::SeqCst)
    }

    /// Returns how many conflicts are counted, and begins to count anew.
    pub(crate) fn begin_count(&self) -> u64 {
        self.conflicts.swap(0, Ordering::SeqCst)
    }

    /// Returns the largest variable of the formula and of the cube.
    pub(crate) fn variables_in(&self, cube: &[Lit]) -> u32 {
        let mut variables = self.variables;
        for literal in cube {
            variables = variables.max(literal.variable());
        }
        variables
    }

    /// Returns the id of the unit clause that a cube's literal at this place, counted from 0, stands for: after those of the formula, as the checker
    /// counts. For the number of the cube's literals it is the first free id, which the first step of a derivation has.
    pub(crate) fn id_in_cube(&self, place: usize) -> ClauseId {
        number_of(self.count.saturating_add(place))
    }
}
