//! Unit propagation: small clauses by occurrence lists, longer ones by two watched literals (Moskewicz, Madigan, Zhao, Zhang and
//! Malik, "Chaff", 2001).

use crate::search::Search;
use assignment_trail::{FALSE, OPEN, OrderedTrail, TRUE};
use clause_database::{
    Others, Reason, ReasonClause, SmallClauses, Store, StoredClause, Watch, Watches, watch_at,
};
use proof_log::codes::{LiteralCode, NEVER};
use std::alloc::AllocError;
use total_tables::{at, piece, put, size};

/// What becomes of a clause when one of its watched literals is falsified.
#[derive(Clone, Copy)]
enum WatchVisit {
    /// It keeps the watch; this is its other watched literal.
    Stays(LiteralCode),
    /// It watches this literal instead.
    Moves(LiteralCode),
    /// It is a conflict: all of its literals are false.
    Fails,
}

/// Returns the place of the first clause, from this place on, that is unit or in conflict: of its two other literals one is false and the
/// other is not true. Most of the time of a search is spent here, finding none, so the loop reads nothing but values, and one `|` asks for both:
/// values are bits, and a clause of two literals has `NEVER` as its second other one, which is false from the start.
#[inline(always)]
fn next_touched(others: &[Others], from: u32, values: &[u8]) -> u32 {
    let length = size(others);
    for place in from..length {
        let nothing = Others {
            first: NEVER,
            second: NEVER,
        };
        let Others { first, second } = at(others, place, nothing);
        if at(values, first.code(), OPEN) | at(values, second.code(), OPEN) == FALSE {
            return place;
        }
    }
    length
}

/// Propagates a falsified literal through the clauses of two and three literals. Returns a conflict, if there is one. The places of `others` begin
/// at 0 for this literal, those of ids at `start`.
#[inline(always)]
fn visit_small(
    trail: &mut OrderedTrail<'_>,
    small: &SmallClauses,
    falsified: LiteralCode,
) -> Option<ReasonClause> {
    if small.is_empty() {
        return None;
    }
    let others = small.others(falsified);
    let start = small.start(falsified);
    let mut place: u32 = 0;
    for _ in 0..=others.len() {
        place = next_touched(others, place, trail.trail.values());
        if place >= size(others) {
            break;
        }
        let id = small.id(start.wrapping_add(place));
        let nothing = Others {
            first: NEVER,
            second: NEVER,
        };
        let Others { first, second } = at(others, place, nothing);
        let (literal, other) = if trail.value(first) == OPEN {
            (first, second)
        } else if trail.value(second) == OPEN {
            (second, first)
        } else {
            return Some(ReasonClause::of_literals(id, falsified, first, second));
        };
        trail.assign(
            literal,
            Reason::Clause {
                id,
                first: falsified,
                second: other,
            },
        );
        place = place.wrapping_add(1);
    }
    None
}

/// Returns how many of these literals, from the first one on, are false.
#[inline(always)]
fn count_false(literals: &[u32], values: &[u8]) -> u32 {
    let length = size(literals);
    for place in 0..length {
        if at(values, at(literals, place, 0), OPEN) != FALSE {
            return place;
        }
    }
    length
}

/// Visits a clause one of whose watched literals has been falsified: it finds another watch, or is unit, or is a conflict. The words are those of
/// the store: its header there begins with the number of its literals.
#[inline(always)]
fn visit_clause(
    trail: &mut OrderedTrail<'_>,
    words: &mut [u32],
    clause: StoredClause,
    falsified: LiteralCode,
) -> WatchVisit {
    let begin = clause.literal_place(0);
    let behind_first = begin.wrapping_add(1);
    let mut first = LiteralCode::new(at(words, begin, 0));
    // The falsified literal goes second: a literal that the clause makes true stands first, where `is_in_use` looks for it.
    if first == falsified {
        first = LiteralCode::new(at(words, behind_first, 0));
        put(words, begin, first.code());
        put(words, behind_first, falsified.code());
    }
    let value = trail.value(first);
    if value == TRUE {
        return WatchVisit::Stays(first);
    }
    let rest = begin.wrapping_add(2);
    let end = begin.wrapping_add(at(words, clause.header_place(0), 0));
    let literals = piece(words, rest, end);
    let count = count_false(literals, trail.trail.values());
    if count < size(literals) {
        let place = rest.wrapping_add(count);
        let literal = at(words, place, 0);
        put(words, behind_first, literal);
        put(words, place, falsified.code());
        return WatchVisit::Moves(LiteralCode::new(literal));
    }
    if value == FALSE {
        return WatchVisit::Fails;
    }
    trail.assign(first, Reason::Stored { clause });
    WatchVisit::Stays(first)
}

/// Propagates a falsified literal through the clauses that watch it. Returns a clause in conflict, or none. Watches
/// that stay are moved up to the front of the list, and one that goes to another literal leaves a gap there.
fn visit_stored(
    trail: &mut OrderedTrail<'_>,
    store: &mut Store,
    watches: &mut Watches,
    falsified: LiteralCode,
) -> Result<StoredClause, AllocError> {
    if watches.is_empty(falsified) {
        return Ok(StoredClause::NONE);
    }
    let mut list = watches.take(falsified);
    let mut kept: u32 = 0;
    let mut conflict = StoredClause::NONE;
    for place in 0..size(list.as_slice()) {
        let mut watch = watch_at(list.as_slice(), place);
        // After a conflict the rest of the list is only moved up, so that no watch is lost.
        if conflict == StoredClause::NONE && trail.value(watch.blocker) != TRUE {
            match visit_clause(trail, store.words_mut(), watch.clause, falsified) {
                WatchVisit::Stays(first) => watch.blocker = first,
                WatchVisit::Moves(literal) => {
                    let clause = watch.clause;
                    // The visit has put the other watched literal first.
                    let word = at(store.words(), clause.literal_place(0), 0);
                    let blocker = LiteralCode::new(word);
                    watches.add(literal, Watch { clause, blocker })?;
                    continue;
                }
                WatchVisit::Fails => conflict = watch.clause,
            }
        }
        put(list.as_mut_slice(), kept, watch);
        kept = kept.wrapping_add(1);
    }
    list.truncate(kept as usize);
    watches.give_back(falsified, list);
    Ok(conflict)
}

/// Propagates all literals of the trail, over this many variables, to a fixed point or to a conflict, which it returns. For each literal the
/// clauses that cost least come first, those that are sets of bits and then the small ones, since a conflict spares the rest. Each variable is on
/// the trail once, so there are no more turns than variables.
pub fn propagate(
    trail: &mut OrderedTrail<'_>,
    small: &SmallClauses,
    store: &mut Store,
    watches: &mut Watches,
    variables: u32,
) -> Result<Option<ReasonClause>, AllocError> {
    for _ in 0..variables {
        let Some(literal) = trail.trail.next() else {
            return Ok(None);
        };
        if let Err(conflict) = trail.follow_reads(literal) {
            return Ok(Some(conflict));
        }
        let falsified = literal.negated();
        if let Some(conflict) = visit_small(trail, small, falsified) {
            return Ok(Some(conflict));
        }
        let clause = visit_stored(trail, store, watches, falsified)?;
        if clause != StoredClause::NONE {
            return Ok(Some(store.reason(clause)));
        }
    }
    Ok(None)
}

impl<'a> Search<'a> {
    /// Propagates to a fixed point or to a conflict, which it returns.
    pub(crate) fn propagate(&mut self) -> Result<Option<ReasonClause>, AllocError> {
        propagate(
            &mut self.trail,
            &self.small,
            &mut self.store,
            &mut self.watches,
            self.variables,
        )
    }

    /// Propagates likewise, with these clauses of two and three literals: at first those of the formula, of which the search then copies only
    /// what is not true for good.
    pub(crate) fn propagate_by(
        &mut self,
        small: &SmallClauses,
    ) -> Result<Option<ReasonClause>, AllocError> {
        propagate(
            &mut self.trail,
            small,
            &mut self.store,
            &mut self.watches,
            self.variables,
        )
    }
}
