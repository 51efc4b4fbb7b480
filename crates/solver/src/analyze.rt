//! Conflict analysis: resolves from a conflict back to the first unique implication point (1-UIP; Marques-Silva and Sakallah, 1996, and
//! Zhang, Madigan, Moskewicz and Malik, 2001), and learns the clause that is left.

use crate::search::Search;
use clause_database::{ReasonClause, StoredClause};
use proof_log::codes::{NEVER, Variable};
use std::alloc::AllocError;
use total_tables::{at, put};

/// Nothing is known of the variable.
pub const UNSEEN: u8 = 0;
/// It is in the learned clause, or was resolved away.
pub const SEEN: u8 = 1;
/// Its literal is redundant: other literals of the learned clause imply it, so that it can be left out.
pub const REDUNDANT: u8 = 2;
/// Its reason is a hint of the learned clause.
pub const NEEDED: u8 = 3;

impl<'a> Search<'a> {
    /// Returns the mark of the variable. The table has an entry for each variable of the formula.
    #[inline(always)]
    pub(crate) fn mark(&self, variable: Variable) -> u8 {
        at(self.marks.as_slice(), variable.number(), SEEN)
    }

    /// Gives the variable this mark. `marked` stays as it is.
    #[inline(always)]
    pub(crate) fn change_mark(&mut self, variable: Variable, mark: u8) {
        put(self.marks.as_mut_slice(), variable.number(), mark);
    }

    /// Marks a variable that had no mark.
    #[inline(always)]
    pub(crate) fn set_mark(&mut self, variable: Variable, mark: u8) -> Result<(), AllocError> {
        self.change_mark(variable, mark);
        self.marked.push(variable)?;
        Ok(())
    }

    /// Sets all variables that were marked back to `UNSEEN`. `marked` lists them, so this costs as much as was marked, whatever the number
    /// of variables.
    pub(crate) fn clear_marks(&mut self) {
        for variable in &self.marked {
            put(self.marks.as_mut_slice(), variable.number(), UNSEEN);
        }
        self.marked.clear();
    }

    /// Resolves with this clause. Its literals of earlier levels join the learned clause; those of level 0 are false for good: they are
    /// left out, and their reasons become hints. Returns how many new literals are of the current level. A variable that has a mark was met before;
    /// the literal that the clause has implied is passed over so too.
    fn resolve(&mut self, reason: ReasonClause) -> Result<u32, AllocError> {
        self.resolved.push(reason.id)?;
        // A clause that is not in the arena is never dropped, so its use is not noted.
        if reason.stored != StoredClause::NONE {
            self.note_use(reason.stored);
        }
        let mut of_this_level: u32 = 0;
        for number in 0..reason.count {
            let literal = reason.literal(self.store.words(), number);
            let variable = literal.variable();
            if self.mark(variable) != UNSEEN {
                continue;
            }
            let level = self.trail.trail.state(variable).level;
            if level == 0 {
                self.set_mark(variable, NEEDED)?;
                self.pending.push(variable)?;
                continue;
            }
            self.set_mark(variable, SEEN)?;
            self.activities.bump(variable);
            if level == self.trail.trail.level() {
                of_this_level = of_this_level.wrapping_add(1);
            } else {
                self.learned.push(literal)?;
            }
        }
        Ok(of_this_level)
    }

    /// Learns from the conflict: walks back over the trail until one literal of the current level is left, the first unique implication
    /// point, and puts its negation first. At level 0 none is left, and the learned clause is empty. The other literals must be minimised before
    /// hints are gathered, since the reasons of what is left out are hints too; both read the marks.
    pub(crate) fn analyze(&mut self, conflict: ReasonClause) -> Result<(), AllocError> {
        self.learned.clear();
        self.resolved.clear();
        self.pending.clear();
        // Room for the literal of the first unique implication point.
        self.learned.push(NEVER)?;
        // Literals of the current level that were met and are not resolved away yet.
        let mut open = self.resolve(conflict)?;
        if open == 0 {
            // Then the level is 0: nothing is decided before propagation has ended, so above level 0 each conflict has a literal of the current level.
            self.learned.clear();
        }
        for place in (0..self.trail.trail.count()).rev() {
            if open == 0 {
                break;
            }
            let literal = self.trail.trail.literal(place);
            if self.mark(literal.variable()) != SEEN {
                continue;
            }
            open = open.wrapping_sub(1);
            if open == 0 {
                put(self.learned.as_mut_slice(), 0, literal.negated());
                break;
            }
            let reason = self.trail.reason(&self.store, literal);
            open = open.wrapping_add(self.resolve(reason)?);
        }
        self.minimise()?;
        self.gather_hints()?;
        self.clear_marks();
        Ok(())
    }
}
