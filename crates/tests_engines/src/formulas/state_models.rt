//! Models along schedules that searches of states find.

use crate::expectations::ample;
use crate::traces::{HAND_OFF, STORE_BUFFERING, reduced_of};
use clause_blocks::trace_clauses::TraceClauses;
use dimacs::{Assignment, ClauseList};
use state_model::{StateSearchKind, model_by_states};
use std::alloc::Global;
use std::process::Abort;

/// Each update reads what another has left, and the last value is the first one again.
const UPDATES_IN_A_RING: &str =
    "vsc 1\ninit x 0\nfinal x 0\nproc P\nU x 0 1\nU x 2 3\nproc Q\nU x 1 2\nW y 1\nU x 3 0\nproc R\nR y 1\nR x 3\n";

/// It has a schedule, and says of two operations which stands first.
const WITH_BEFORE: &str = "vsc 2\nproc P\nW x 1\nproc Q\nR x 1\nW x 2\nbefore P 1 Q 2\n";

/// The model that a search of states of this kind finds of the trace, if it makes all clauses true.
fn model_of(
    rt: &impl Abort,
    alloc: Global,
    text: &str,
    kind: StateSearchKind,
) -> Option<Assignment> {
    let reduced = reduced_of(rt, alloc, text);
    let clauses = ample(rt, TraceClauses::of(alloc, &reduced));
    let model = ample(rt, model_by_states(alloc, reduced.kept(), &clauses, kind))?;
    assert!(rt; clauses.eval(&model).is_ok());
    Some(model)
}

const ALL_KINDS: [StateSearchKind; 4] = [
    StateSearchKind::Narrow,
    StateSearchKind::Broad,
    StateSearchKind::Spendthrift,
    StateSearchKind::Patient,
];

#[test]
fn a_model_is_found_where_there_is_a_schedule(rt: HostRuntime) {
    for kind in &ALL_KINDS {
        let Some(model) = model_of(&rt, rt.alloc(), HAND_OFF, *kind) else {
            panic!(rt; "the write comes first, and then the read");
        };
        assert!(rt; model.value(1) && model.value(2));
        assert!(rt; model_of(&rt, rt.alloc(), UPDATES_IN_A_RING, *kind).is_some());
        assert!(rt; model_of(&rt, rt.alloc(), STORE_BUFFERING, *kind).is_none());
    }
}

#[test]
fn known_order_is_left_to_others(rt: HostRuntime) {
    for kind in &ALL_KINDS {
        assert!(rt; model_of(&rt, rt.alloc(), WITH_BEFORE, *kind).is_none());
    }
}
