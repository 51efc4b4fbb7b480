//! The solver's calls: for one formula, and for one cube of a prepared formula.

ghost use Rattle.std.specs.Prelude.{◌≤◌, ◌+◌, IfOk};
ghost use Rattle.proof_log.specs.Answers.{IsWithin};

use crate::prepared_formula::PreparedFormula;
use crate::schedule_heuristic::{begins_with_a_schedule, suits_a_schedule};
use crate::search::Search;
use clause_database::EncodingHints;
use dimacs::{ClauseList, Lit};
use proof_log::{Answer, Attempt, ClauseId, CubeSolver, TURN, search_alone, take_turns};
use std::alloc::{AllocError, Global};

/// Returns the largest variable of the formula and of the cube.
fn variables_of<L: ClauseList>(formula: &L, cube: &[Lit]) -> u32 {
    let mut variables = formula.variables();
    for literal in cube {
        variables = variables.max(literal.variable());
    }
    variables
}

/// Begins a search of the prepared formula in the cube of these literals. There are two courses: decisions along a schedule, and decisions by
/// activity. It takes the one that is likely to be faster.
pub(crate) fn begin<'a>(
    alloc: Global,
    prepared: &PreparedFormula<'a>,
    cube: &[Lit],
) -> Result<Search<'a>, AllocError> {
    let mut search = Search::new(alloc, prepared.variables_in(cube), prepared, cube)?;
    if begins_with_a_schedule(&search.trail) {
        search.change_course()?;
    }
    Ok(search)
}

/// What is searched: the prepared formula, in the cube of these literals. The first step of a derivation has this number.
#[derive(Clone, Copy)]
pub(crate) struct CubeSearch<'c, 'a> {
    pub alloc: Global,
    pub prepared: &'c PreparedFormula<'a>,
    pub cube: &'c [Lit],
    pub first_id: ClauseId,
}

impl<'c, 'a> CubeSearch<'c, 'a> {
    /// Goes on with an attempt, and begins a second one on the other course, which takes its turns with the first. The conflicts of the second
    /// are counted. Each keeps to clauses of its own: shared ones spoiled both in a trial.
    fn go_on_by_two(
        self,
        first: &mut Attempt<Search<'a>>,
        budget: u64,
    ) -> Result<Answer, AllocError>
        ensures { IfOk result (λ answer. IsWithin (first.old.log + budget) answer) }
    {
        let mut other = begin(self.alloc, self.prepared, self.cube)?;
        other.change_course()?;
        let mut second = Attempt::new(self.alloc, other, self.first_id);
        // The first has had a turn.
        let found = take_turns(&mut second, first, budget);
        self.prepared.add_conflicts(second.log.additions());
        found
    }

    /// Searches the cube by this attempt, which has begun and taken no turn. If there is another course, it is tried too, once the first turn was
    /// not enough.
    fn search_from(self, first: &mut Attempt<Search<'a>>, budget: u64) -> Result<Answer, AllocError>
        ensures { IfOk result (λ answer. IsWithin (first.old.log + budget) answer) }
    {
        let has_another_course = suits_a_schedule(&first.search().trail);
        if !has_another_course {
            return search_alone(first, budget);
        }
        let share = budget.min(TURN);
        let left = budget - share;
        if let Some(answer) = first.take_turn(share, left)? {
            return Ok(answer);
        }
        if left == 0 {
            return Ok(Answer::Open);
        }
        self.go_on_by_two(first, left)
    }

    /// Searches the cube by this attempt, which has begun, counted and taken no turn. The conflicts are counted.
    pub(crate) fn search_begun(
        self,
        first: &mut Attempt<Search<'a>>,
        budget: u64,
    ) -> Result<Answer, AllocError>
        ensures { IfOk result (λ answer. IsWithin (first.old.log + budget) answer) }
    {
        let found = self.search_from(first, budget);
        self.prepared.add_conflicts(first.log.additions());
        found
    }
}

/// Searches the prepared formula in the cube of these literals: counts, and then takes turns. The first step of a derivation has this number.
/// The conflicts are counted.
pub(crate) fn search_cube(
    alloc: Global,
    prepared: &PreparedFormula<'_>,
    cube: &[Lit],
    first_id: ClauseId,
    budget: u64,
) -> Result<Answer, AllocError>
    ensures { IfOk result (λ answer. IsWithin budget answer) }
{
    let mut search = begin(alloc, prepared, cube)?;
    if let Some(counted) = search.count_sources(first_id, budget)? {
        return Ok(counted);
    }
    let mut first = Attempt::new(alloc, search, first_id);
    let searched = CubeSearch {
        alloc,
        prepared,
        cube,
        first_id,
    };
    searched.search_begun(&mut first, budget)
}

/// Does what `solve` does, for one of many cubes of a formula that was prepared. If `count_whole` or `search_whole` has refuted the formula
/// itself, or found a model of it, that gives the answer, and the cube is not searched.
pub fn solve_cube(
    alloc: Global,
    prepared: &PreparedFormula<'_>,
    cube: &[Lit],
    budget: u64,
) -> Result<Answer, AllocError>
    ensures { IfOk result (λ answer. IsWithin budget answer) }
{
    if let Some(known) = prepared.known_answer(alloc, cube, budget)? {
        return Ok(known);
    }
    search_cube(
        alloc,
        prepared,
        cube,
        prepared.id_in_cube(cube.len()),
        budget,
    )
}

impl CubeSolver for PreparedFormula<'_> {
    fn solve(&self, alloc: Global, cube: &[Lit], budget: u64) -> Result<Answer, AllocError> {
        solve_cube(alloc, self, cube, budget)
    }

    fn take_conflicts(&self) -> u64 {
        self.begin_count()
    }
}

/// Looks for a model of the formula that makes all literals of the cube true, or for a derivation that there is none.
///
/// At most `budget` conflicts are analysed, where a conflict is a clause all of whose literals have become false, and each of them makes
/// one addition of the derivation. The next one makes the answer `Open`. Unit propagation runs before the first decision. If counting then
/// finds a Hall violator, readers that cannot all have a source, a derivation of at most `budget` steps refutes it, and nothing is searched. If
/// that derivation is longer, the answer is `Open`; only a budget of at most one turn is searched nevertheless. After each turn of the search
/// the count is repeated, with what has been learned, in at most as many steps as there are conflicts left.
///
/// The hints are what the caller knows of the formula. Neither they nor the answer are trusted: a model is evaluated, a derivation checked.
pub fn solve<L: ClauseList>(
    alloc: Global,
    formula: &L,
    cube: &[Lit],
    encoding: EncodingHints<'_>,
    budget: u64,
) -> Result<Answer, AllocError>
    ensures { IfOk result (λ answer. IsWithin budget answer) }
{
    let variables = variables_of(formula, cube);
    let prepared = PreparedFormula::over(alloc, variables, formula, encoding)?;
    solve_cube(alloc, &prepared, cube, budget)
}
