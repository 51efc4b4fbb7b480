//! The state of a conflict-driven search (CDCL): it decides, propagates, and learns from each conflict.

use crate::first_values::FirstValues;
use crate::prepared_formula::PreparedFormula;
use crate::reductions::{FIRST_REDUCTION, Reductions};
use crate::restart::{Restarts, SHORT_UNIT, UNIT};
use crate::schedule_heuristic::{MAX_STATES, ScheduleHeuristic};
use assignment_trail::{Activities, FALSE, OPEN, OrderedTrail, TRUE};
use clause_database::{
    EncodingHints, Reason, ReasonClause, SmallClause, SmallClauses, Store, StoredClause, Unit,
    Watches,
};
use dimacs::Lit;
use proof_log::codes::{LiteralCode, NEVER, Variable, code_of};
use proof_log::{ClauseId, SharedClauses};
use std::alloc::{AllocError, Global};
use total_tables::{at, put, size};

/// State of one search of one cube.
pub struct Search<'a> {
    pub(crate) alloc: Global,
    pub(crate) variables: u32,
    /// Hints about the encoding.
    pub(crate) encoding: EncodingHints<'a>,

    // The clauses.
    pub(crate) small: SmallClauses,
    pub(crate) store: Store,
    pub(crate) watches: Watches,
    /// The learned clauses. A clause that is not among them is never dropped.
    pub(crate) clauses: Vec<StoredClause>,
    /// A conflict that was found and has not been analysed.
    pub(crate) conflict: Option<ReasonClause>,

    // What is true, and what is decided next.
    pub(crate) trail: OrderedTrail<'a>,
    pub(crate) activities: Activities,
    /// Variables that are decided before all others, each as true first.
    pub(crate) leading: Vec<Variable>,
    /// If it is there, decisions follow a schedule first.
    pub(crate) schedule: Option<ScheduleHeuristic>,
    /// If they are there, decisions take their values, and the saved one of a variable for which they have none.
    pub(crate) first_values: Option<FirstValues>,

    // The conflict at hand.
    /// The learned clause.
    pub(crate) learned: Vec<LiteralCode>,
    /// Its hints.
    pub(crate) hints: Vec<ClauseId>,
    /// Ids of the resolved clauses, the conflict's first.
    pub(crate) resolved: Vec<ClauseId>,
    /// Variables of the literals that minimisation left out.
    pub(crate) removed: Vec<Variable>,
    /// Variables whose reasons are hints: those not visited yet, and the places of the others on the trail.
    pub(crate) pending: Vec<Variable>,
    pub(crate) needed: Vec<u32>,
    /// Variables that minimisation has yet to visit.
    pub(crate) stack: Vec<Variable>,
    /// For each variable what an analysis knows of it, a mark of `analyze`, and the variables that have one: it is 0 for all others.
    pub(crate) marks: Vec<u8>,
    pub(crate) marked: Vec<Variable>,
    /// For each level the last count of levels that has met it, and the number of that count: so nothing is cleared between two.
    pub(crate) level_stamps: Vec<u32>,
    pub(crate) stamp: u32,

    // What others are given.
    /// Short clauses that were learned since some were last given, if this search shares what it learns.
    pub(crate) shared: Option<SharedClauses>,

    // When to restart and to drop clauses.
    pub(crate) conflicts: u32,
    pub(crate) restarts: Restarts,
    /// When clauses are dropped next.
    pub(crate) reductions: Reductions,
}

/// Drops each table. With a derived `Drop` every exit of a function that owns a search would drop its 41 tables one by one, which is most of
/// what the proof of such a function would cost.
impl Drop for Search<'_> {
    fn drop(self) {
        let Search {
            alloc: _,
            variables: _,
            encoding: _,
            small: _small,
            store: _store,
            watches: _watches,
            clauses: _clauses,
            conflict: _,
            trail: _trail,
            activities: _activities,
            leading: _leading,
            schedule: _schedule,
            first_values: _first_values,
            learned: _learned,
            hints: _hints,
            resolved: _resolved,
            removed: _removed,
            pending: _pending,
            needed: _needed,
            stack: _stack,
            marks: _marks,
            marked: _marked,
            level_stamps: _level_stamps,
            stamp: _,
            shared: _shared,
            conflicts: _,
            restarts: _,
            reductions: _,
        } = self;
    }
}

impl<'a> Search<'a> {
    /// Begins a search of the prepared formula in the cube of these literals. Nothing is decided yet.
    pub(crate) fn new(
        alloc: Global,
        variables: u32,
        prepared: &PreparedFormula<'a>,
        cube: &[Lit],
    ) -> Result<Search<'a>, AllocError> {
        let mut search = Search::of_long(alloc, variables, prepared)?;
        if cube.is_empty()
            && let Some(ended) = &prepared.activities
        {
            search.activities = Activities::after(alloc, ended, prepared.wanted.as_slice())?;
        }
        // Nothing has a value yet, so any two literals of a clause may be watched. After the assumptions that would not be so.
        search.attach_long()?;
        search.assume_all(prepared, cube);
        if search.conflict.is_none() {
            search.conflict = search.propagate_by(&prepared.small)?;
            search.leave_out_satisfied(prepared.loader.small.as_slice())?;
        }
        Ok(search)
    }

    /// Begins likewise, before the clauses of one, two and three literals are attached.
    fn of_long(
        alloc: Global,
        variables: u32,
        prepared: &PreparedFormula<'a>,
    ) -> Result<Search<'a>, AllocError> {
        let literals = LiteralCode::count_over(variables);
        let places = variables.wrapping_add(1) as usize;
        Ok(Search {
            alloc,
            variables,
            encoding: prepared.encoding,
            small: SmallClauses::new(alloc, 0, &[])?,
            store: prepared.loader.long.try_clone(alloc)?,
            watches: Watches::new(alloc, literals)?,
            clauses: Vec::new(alloc),
            conflict: None,
            trail: OrderedTrail::new(alloc, variables, prepared.encoding)?,
            activities: Activities::new(alloc, variables, prepared.wanted.as_slice())?,
            leading: Vec::from_slice(alloc, prepared.leading.as_slice())?,
            schedule: None,
            first_values: None,
            learned: Vec::new(alloc),
            hints: Vec::new(alloc),
            resolved: Vec::new(alloc),
            removed: Vec::new(alloc),
            pending: Vec::new(alloc),
            needed: Vec::new(alloc),
            stack: Vec::new(alloc),
            marks: vec![in alloc; 0; places]?,
            marked: Vec::new(alloc),
            level_stamps: vec![in alloc; 0; places.saturating_add(1)]?,
            stamp: 0,
            shared: None,
            conflicts: 0,
            restarts: Restarts::new(UNIT),
            reductions: Reductions::after(FIRST_REDUCTION),
        })
    }

    /// Drops those of these clauses that are true at level 0. In a trace's formula program order alone satisfies many, and they would be
    /// visited again and again.
    fn leave_out_satisfied(&mut self, clauses: &[SmallClause]) -> Result<(), AllocError> {
        let mut left = Vec::new(self.alloc);
        for clause in clauses {
            let is_satisfied = self.trail.value(clause.first) == TRUE
                || self.trail.value(clause.second) == TRUE
                || self.trail.value(clause.third) == TRUE;
            if !is_satisfied {
                left.push(*clause)?;
            }
        }
        let literals = LiteralCode::count_over(self.variables);
        self.small = SmallClauses::new(self.alloc, literals, left.as_slice())?;
        Ok(())
    }
}

impl<'a> Search<'a> {
    /// Attaches the longer clauses to the watch lists of their first two literals.
    fn attach_long(&mut self) -> Result<(), AllocError> {
        let mut clause = StoredClause::FIRST;
        for _ in 0..self.store.end().place() {
            if clause.place() >= self.store.end().place() {
                break;
            }
            self.watches.attach(&self.store, clause)?;
            clause = self.store.next_clause(clause);
        }
        Ok(())
    }

    /// Assigns the literal at level 0. If it is false already, the unit clause is a conflict.
    fn assume(&mut self, unit: Unit) {
        let value = self.trail.value(unit.literal);
        if value == OPEN {
            self.trail.assign(
                unit.literal,
                Reason::Clause {
                    id: unit.id,
                    first: NEVER,
                    second: NEVER,
                },
            );
        } else if value == FALSE {
            self.conflict = Some(ReasonClause::of_literals(unit.id, unit.literal, NEVER, NEVER));
        }
    }

    /// Assigns the unit clauses of the formula, and then the literals of the cube. An empty clause is a conflict.
    fn assume_all(&mut self, prepared: &PreparedFormula<'a>, cube: &[Lit]) {
        for unit in &prepared.loader.units {
            self.assume(*unit);
        }
        for place in 0..cube.len() {
            self.assume(Unit {
                literal: code_of(cube[place]),
                id: prepared.id_in_cube(place),
            });
        }
        let empty = prepared.loader.empty;
        if empty != ClauseId::NONE {
            self.conflict = Some(ReasonClause::of_literals(empty, NEVER, NEVER, NEVER));
        }
    }

    /// Switches between decisions along a schedule and decisions by activity. Along a schedule a learned clause excludes one state, which
    /// would have to be excluded again, so nothing is dropped before there are as many clauses as states.
    pub(crate) fn change_course(&mut self) -> Result<(), AllocError> {
        let mut first = FIRST_REDUCTION;
        let mut unit = UNIT;
        let mut schedule = None;
        if self.schedule.is_none() {
            schedule = Some(ScheduleHeuristic::new(self.alloc, &self.trail)?);
            first = MAX_STATES;
            unit = SHORT_UNIT;
        }
        self.schedule = schedule;
        self.restarts = Restarts::new(unit);
        self.reductions = Reductions::after(first);
        Ok(())
    }

    /// Picks the next of the leading variables. They are those of a tree's splits, at most twenty, so they are looked through each time.
    fn decide_leading(&self) -> Option<LiteralCode> {
        for variable in &self.leading {
            let literal = variable.positive();
            if self.trail.value(literal) == OPEN {
                return Some(literal);
            }
        }
        None
    }

    /// Returns the literal of the variable that is tried first.
    fn tried_first(&self, variable: Variable) -> LiteralCode {
        if let Some(first_values) = &self.first_values
            && let Some(literal) = first_values.target(variable)
        {
            return literal;
        }
        self.trail.trail.tried_first(variable)
    }

    /// Picks the next decision: a leading variable, else along the schedule if there is one, else the most active open variable with its
    /// first value.
    fn decide(&mut self) -> Option<LiteralCode> {
        if let Some(literal) = self.decide_leading() {
            return Some(literal);
        }
        if let Some(schedule) = &mut self.schedule
            && let Some(literal) = schedule.decide(&self.trail)
        {
            return Some(literal);
        }
        for _ in 0..=self.variables {
            let variable = self.activities.pop()?;
            let literal = self.tried_first(variable);
            if self.trail.value(literal) == OPEN {
                return Some(literal);
            }
        }
        None
    }

    /// Decides and propagates until there is a conflict or nothing is left to decide.
    pub(crate) fn propagate_and_decide(&mut self) -> Result<Option<ReasonClause>, AllocError> {
        // Propagation would not find it again: the literal that made its clause false was propagated already, or none watches the clause.
        if let Some(conflict) = self.conflict.take() {
            return Ok(Some(conflict));
        }
        // Each turn but the last decides an open variable, so these are enough. A loop without a bound would need a proof that it ends, and nothing is
        // proved of the trail.
        for _ in 0..=self.variables {
            if let Some(conflict) = self.propagate()? {
                return Ok(Some(conflict));
            }
            let Some(literal) = self.decide() else {
                return Ok(None);
            };
            self.trail.trail.begin_level();
            self.trail.assign(literal, Reason::Decision);
        }
        Ok(None)
    }

    /// Backtracks to level 0 and propagates. Answers whether there is no conflict; one at level 0 is kept. If the search is at level 0 already, what
    /// was assigned there last is left to the next propagation.
    pub(crate) fn resume_at_root(&mut self) -> Result<bool, AllocError> {
        if self.trail.trail.level() == 0 {
            return Ok(self.conflict.is_none());
        }
        self.trail.backtrack(0, &mut self.activities);
        self.conflict = self.propagate()?;
        Ok(self.conflict.is_none())
    }

    /// Returns the level to jump back to: the latest among the other literals of the learned clause, at which the clause is unit. The
    /// literal of that level goes second, to be watched: it is the first of them to become open again. For a clause of one literal the level is 0, and
    /// nothing is exchanged.
    fn level_to_resume(&mut self) -> u32 {
        let mut latest: u32 = 1;
        let mut level: u32 = 0;
        for place in 1..size(self.learned.as_slice()) {
            let literal = at(self.learned.as_slice(), place, NEVER);
            let its_level = self.trail.trail.state(literal.variable()).level;
            if its_level > level {
                level = its_level;
                latest = place;
            }
        }
        let second = at(self.learned.as_slice(), 1, NEVER);
        let literal = at(self.learned.as_slice(), latest, NEVER);
        put(self.learned.as_mut_slice(), latest, second);
        put(self.learned.as_mut_slice(), 1, literal);
        level
    }

    /// Backjumps to the level at which the learned clause is unit, and asserts its first literal. The clause is stored with that literal first and a
    /// literal of that level second, since the first two are watched.
    pub(crate) fn backjump_and_assert(&mut self, id: ClauseId) -> Result<(), AllocError> {
        let lbd = self.lbd_of_learned();
        self.share(id, lbd)?;
        let level = self.level_to_resume();
        self.trail.backtrack(level, &mut self.activities);
        let first = at(self.learned.as_slice(), 0, NEVER);
        // A unit clause is not stored: its reason has all that is asked of it.
        if self.learned.len() == 1 {
            let reason = Reason::Clause {
                id,
                first: NEVER,
                second: NEVER,
            };
            self.trail.assign(first, reason);
            return Ok(());
        }
        let clause = self.store.end();
        self.store
            .add(self.learned.as_slice(), id, lbd, self.conflicts)?;
        self.watches.attach(&self.store, clause)?;
        self.clauses.push(clause)?;
        self.trail.assign(first, Reason::Stored { clause });
        Ok(())
    }

    /// Notes the trail before the level of the conflict.
    pub(crate) fn note_first_values(&mut self) {
        if let Some(first_values) = &mut self.first_values {
            first_values.note(&self.trail.trail);
        }
    }

    /// Goes back to level 0 and changes the values that are tried first, when due.
    fn change_first_values(&mut self) {
        let are_due = match &self.first_values {
            Some(first_values) => first_values.are_to_change(self.conflicts),
            None => false,
        };
        if !are_due {
            return;
        }
        self.trail.backtrack(0, &mut self.activities);
        if let Some(first_values) = &mut self.first_values {
            let order_variables = self.trail.order().variables();
            first_values.change(&mut self.trail.trail, order_variables, self.conflicts);
        }
    }

    /// After a conflict: decays activities, and restarts or reduces the clause database when due.
    pub(crate) fn after_conflict(&mut self) -> Result<(), AllocError> {
        self.conflicts = self.conflicts.wrapping_add(1);
        self.activities.decay();
        if self.restarts.count() {
            self.trail.backtrack(0, &mut self.activities);
            if let Some(schedule) = &mut self.schedule {
                schedule.vary();
            }
        }
        self.change_first_values();
        self.reduce_in_time()
    }
}
