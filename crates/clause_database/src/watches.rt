//! Watch lists: which clauses are visited when a literal is falsified.

use crate::store::Store;
use crate::stored_clause::StoredClause;
use proof_log::codes::{LiteralCode, NEVER};
use std::alloc::{AllocError, Global};
use std::mem;
use total_tables::{at, put, size};

/// A watch: the clause, and a blocking literal of it. If that one is true, the clause is satisfied and need not be read, which spares most
/// loads of clause memory (Chu, Harwood and Stuckey, 2009).
#[derive(Clone, Copy)]
pub struct Watch {
    pub clause: StoredClause,
    pub blocker: LiteralCode,
}

/// Watch lists by literal. Each clause watches its first two literals. Most order literals are never watched, so a list is allocated when
/// it is first needed.
#[derive(Drop)]
pub struct Watches {
    alloc: Global,
    /// For each literal the place of its list, plus one, or 0.
    places: Vec<u32>,
    lists: Vec<Vec<Watch>>,
    /// For each literal 1 if its list may have a watch. Propagation asks this for each falsified literal, and 19 of 20 have none, so it stands in a small table
    /// of its own.
    watched: Vec<u8>,
}

/// Returns the watch at this place of the list, or one of no clause past its end.
#[inline(always)]
pub fn watch_at(list: &[Watch], place: u32) -> Watch {
    let nothing = Watch {
        clause: StoredClause::NONE,
        blocker: NEVER,
    };
    at(list, place, nothing)
}

/// Retains the watches whose clauses survived, with their new places.
fn move_list(list: &mut Vec<Watch>, old: &Store) {
    let mut kept: u32 = 0;
    for place in 0..size(list.as_slice()) {
        let watch = watch_at(list.as_slice(), place);
        let clause = old.moved(watch.clause);
        if clause != StoredClause::NONE {
            let blocker = watch.blocker;
            put(list.as_mut_slice(), kept, Watch { clause, blocker });
            kept = kept.wrapping_add(1);
        }
    }
    list.truncate(kept as usize);
}

impl Watches {
    /// Starts without watches, over this number of literals.
    pub fn new(alloc: Global, literals: u32) -> Result<Watches, AllocError> {
        Ok(Watches {
            alloc,
            places: vec![in alloc; 0; literals as usize]?,
            lists: Vec::new(alloc),
            watched: vec![in alloc; 0; literals as usize]?,
        })
    }

    /// Returns the place of the literal's list, or a place past all lists.
    #[inline(always)]
    fn place(&self, literal: LiteralCode) -> usize {
        at(self.places.as_slice(), literal.code(), 0).wrapping_sub(1) as usize
    }

    /// Adds the watch to the list of the literal, which is made if there is none.
    #[inline(always)]
    pub fn add(&mut self, literal: LiteralCode, watch: Watch) -> Result<(), AllocError> {
        // A literal past the table counts as one that has a list, and that list is not found: nothing is added.
        if at(self.places.as_slice(), literal.code(), 1) == 0 {
            self.lists.push(Vec::new(self.alloc))?;
            let place = size(self.lists.as_slice());
            put(self.places.as_mut_slice(), literal.code(), place);
        }
        let place = self.place(literal);
        if place < self.lists.len() {
            self.lists[place].push(watch)?;
            put(self.watched.as_mut_slice(), literal.code(), 1);
        }
        Ok(())
    }

    /// Attaches the clause: it watches its first two literals.
    pub fn attach(&mut self, store: &Store, clause: StoredClause) -> Result<(), AllocError> {
        let first = store.literal(clause, 0);
        let second = store.literal(clause, 1);
        self.add(
            first,
            Watch {
                clause,
                blocker: second,
            },
        )?;
        self.add(
            second,
            Watch {
                clause,
                blocker: first,
            },
        )
    }

    /// Takes the watch list of the literal out, so that other lists can grow while it is iterated over. Until `give_back` none may be added to its own:
    /// that would be lost. Propagation adds none, since the literal is false and a clause goes over to one that is not.
    #[inline(always)]
    pub fn take(&mut self, literal: LiteralCode) -> Vec<Watch> {
        let place = self.place(literal);
        if place < self.lists.len() {
            mem::replace(&mut self.lists[place], Vec::new(self.alloc))
        } else {
            Vec::new(self.alloc)
        }
    }

    /// Puts a list that was taken in its place again. What stands there now is dropped.
    #[inline(always)]
    pub fn give_back(&mut self, literal: LiteralCode, list: Vec<Watch>) {
        if list.is_empty() {
            put(self.watched.as_mut_slice(), literal.code(), 0);
        }
        let place = self.place(literal);
        if place < self.lists.len() {
            self.lists[place] = list;
        }
    }

    /// Returns whether no clause watches the literal. If the last one that did was dropped, it may say so only after the list was taken and given back.
    #[inline(always)]
    pub fn is_empty(&self, literal: LiteralCode) -> bool {
        at(self.watched.as_slice(), literal.code(), 0) == 0
    }

    /// Redirects all watches after the arena was compacted.
    pub fn move_all(&mut self, old: &Store) {
        for list in self.lists.iter_mut() {
            move_list(list, old);
        }
    }
}
