//! What no clause says: that events are taken with ample memory, and that the clauses say what was meant.

use cube_jobs::Outcome;
use dealing::{Event, EventCause, Machine};
use std::process::Abort;
use text_lines::plain_fault::PlainFault;

/// Asserts that the machine takes the event.
fn assert_takes(rt: &impl Abort, machine: &mut Machine, event: Event) {
    assert!(rt; machine.step(event).is_ok());
}

/// Asserts that the machine refuses the event for this cause, by this number.
fn assert_refuses(
    rt: &impl Abort,
    machine: &mut Machine,
    event: Event,
    cause: EventCause,
    number: u8,
) {
    let Err(found) = machine.step(event) else {
        panic!(rt; "the event is taken");
    };
    assert!(rt; found == PlainFault::For(cause), "{number}");
    assert!(rt; found.number() == number, "{number}");
}

#[test]
fn settles_a_job(rt: HostRuntime) {
    let mut machine = Machine::new(rt.alloc(), 1);
    assert_takes(&rt, &mut machine, Event::Put(0));
    assert_takes(&rt, &mut machine, Event::Take(0));
    assert_takes(&rt, &mut machine, Event::Give(0, Outcome::Open));
    assert!(&rt; machine.outcome(0).is_none());
    assert_takes(&rt, &mut machine, Event::Gather);
    assert!(&rt; matches!(machine.outcome(0), Some(Outcome::Open)));
    assert_refuses(&rt, &mut machine, Event::Take(0), EventCause::NoJob, 3);
    assert_refuses(&rt, &mut machine, Event::Put(0), EventCause::PutTwice, 2);
    assert!(&rt; matches!(machine.outcome(0), Some(Outcome::Open)));
}

#[test]
fn refuses_what_is_not_possible(rt: HostRuntime) {
    let mut machine = Machine::new(rt.alloc(), 1);
    assert_refuses(
        &rt,
        &mut machine,
        Event::Take(1),
        EventCause::NoSuchWorker,
        7,
    );
    let early = Event::Give(0, Outcome::Open);
    assert_refuses(&rt, &mut machine, early, EventCause::HoldsNothing, 5);
    assert_refuses(&rt, &mut machine, Event::Gather, EventCause::NoResult, 6);
    assert_takes(&rt, &mut machine, Event::Put(7));
    assert_takes(&rt, &mut machine, Event::Put(3));
    assert_takes(&rt, &mut machine, Event::Take(0));
    assert_refuses(&rt, &mut machine, Event::Take(0), EventCause::Busy, 4);
    assert_refuses(&rt, &mut machine, Event::Put(7), EventCause::PutTwice, 2);
}

#[test]
fn gathers_in_the_order_of_giving(rt: HostRuntime) {
    let mut machine = Machine::new(rt.alloc(), 8);
    assert_takes(&rt, &mut machine, Event::Put(4));
    assert_takes(&rt, &mut machine, Event::Put(9));
    assert_takes(&rt, &mut machine, Event::Take(7));
    assert_takes(&rt, &mut machine, Event::Take(2));
    assert_takes(&rt, &mut machine, Event::Give(2, Outcome::Skipped));
    assert_takes(&rt, &mut machine, Event::Give(7, Outcome::Open));
    assert_takes(&rt, &mut machine, Event::Gather);
    assert!(&rt; matches!(machine.outcome(9), Some(Outcome::Skipped)));
    assert!(&rt; machine.outcome(4).is_none());
    assert_takes(&rt, &mut machine, Event::Gather);
    assert!(&rt; matches!(machine.outcome(4), Some(Outcome::Open)));
}
