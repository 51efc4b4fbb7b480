//! Reduction of the clause database: learned clauses that do not help are dropped from time to time.

use crate::search::Search;
use assignment_trail::TRUE;
use clause_database::{DROPPED, Reason, Store, StoredClause};
use std::alloc::AllocError;
use std::mem;
use total_tables::{at, put, size};

/// Learned clauses up to this LBD are kept for ever: they connect two levels, and propagate again and again ("glue clauses").
const TIER1_LBD: u32 = 2;

impl<'a> Search<'a> {
    /// Records that the stored clause was used in this conflict. What is recorded is looked at for learned ones alone: their age is a part of
    /// their scores.
    pub(crate) fn note_use(&mut self, clause: StoredClause) {
        self.store.set_used(clause, self.conflicts);
    }

    /// Returns the LBD (literal block distance, "glue") of the learned clause: how many different levels its literals have (Audemard and
    /// Simon, "Predicting learnt clauses quality in modern SAT solvers", 2009). The fewer, the sooner the clause propagates again.
    pub(crate) fn lbd_of_learned(&mut self) -> u32 {
        self.stamp = self.stamp.wrapping_add(1);
        let mut lbd: u32 = 0;
        for literal in &self.learned {
            let level = self.trail.trail.state(literal.variable()).level;
            if at(self.level_stamps.as_slice(), level, 0) != self.stamp {
                put(self.level_stamps.as_mut_slice(), level, self.stamp);
                lbd = lbd.wrapping_add(1);
            }
        }
        lbd
    }

    /// Returns whether the clause is the reason of its first literal. Such a clause is kept, since later analysis asks for it. Each clause that implies
    /// a literal has it first. The reason of a literal whose value was undone is still there, so its value is asked too.
    fn is_in_use(&self, clause: StoredClause) -> bool {
        let literal = self.store.literal(clause, 0);
        match self.trail.trail.state(literal.variable()).reason {
            Reason::Stored { clause: its_clause } => {
                its_clause == clause && self.trail.value(literal) == TRUE
            }
            _ => false,
        }
    }

    /// Returns the eviction score of each learned clause that may be dropped, in the upper half of a word, with its place in the lower. One level
    /// more of LBD counts as much as 64 conflicts without use. The highest are dropped first. (By LBD alone the search was two to three times
    /// slower.)
    fn eviction_scores(&self) -> Result<Vec<u64>, AllocError> {
        let mut eviction_scores = Vec::with_capacity(self.alloc, self.clauses.len())?;
        for clause in &self.clauses {
            let lbd = self.store.lbd(*clause);
            if lbd > TIER1_LBD && !self.is_in_use(*clause) {
                let idle = self.conflicts.wrapping_sub(self.store.used(*clause));
                let score = lbd.min(1 << 20).wrapping_mul(64).saturating_add(idle);
                eviction_scores.push((u64::from(score) << 32) | u64::from(clause.place()))?;
            }
        }
        Ok(eviction_scores)
    }

    /// Redirects reasons, watches and the list of learned clauses after the clauses have moved from the old store, in which each has its new place,
    /// or none if it was dropped.
    fn follow_moves(&mut self, old: &Store) {
        self.watches.move_all(old);
        for place in 0..self.trail.trail.count() {
            let variable = self.trail.trail.literal(place).variable();
            if let Reason::Stored { clause } = self.trail.trail.state(variable).reason {
                self.trail.trail.move_cause(variable, old.moved(clause));
            }
        }
        let mut kept: u32 = 0;
        for place in 0..size(self.clauses.as_slice()) {
            let clause = at(self.clauses.as_slice(), place, StoredClause::NONE);
            let moved = old.moved(clause);
            if moved != StoredClause::NONE {
                put(self.clauses.as_mut_slice(), kept, moved);
                kept = kept.wrapping_add(1);
            }
        }
        self.clauses.truncate(kept as usize);
    }

    /// Drops the half of the learned clauses with the higher eviction scores.
    fn reduce(&mut self) -> Result<(), AllocError> {
        let mut eviction_scores = self.eviction_scores()?;
        eviction_scores.sort_unstable();
        drop_half(&mut self.store, eviction_scores.as_slice());
        let compact = self.store.compacted(self.alloc)?;
        let old = mem::replace(&mut self.store, compact);
        self.follow_moves(&old);
        Ok(())
    }

    /// Counts a conflict, and reduces the clause database if a reduction is due.
    pub(crate) fn reduce_in_time(&mut self) -> Result<(), AllocError> {
        if self.reductions.count() {
            self.reduce()?;
        }
        Ok(())
    }
}

/// Marks the half with the higher scores, which stands at the end, as dropped.
fn drop_half(store: &mut Store, eviction_scores: &[u64]) {
    for place in eviction_scores.len() / 2..eviction_scores.len() {
        let clause = StoredClause::new((eviction_scores[place] & 0xffff_ffff) as u32);
        store.set_lbd(clause, DROPPED);
    }
}
