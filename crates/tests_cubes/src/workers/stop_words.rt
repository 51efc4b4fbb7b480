//! What no clause says: that a mark of one seat is seen by another, and that there is an answer with ample memory.
ghost use Rattle.std.specs.Prelude.{◌≡◌, ◌+◌, IfOk};

use std::test::Fail;
use std::thread::join;
use stop_word::{StopSeat, StopWord};

/// A word with two seats.
fn two_seats(rt: &HostRuntime) -> Result<(StopWord, StopSeat, StopSeat), Fail>
    ensures { IfOk result (λ r. (r.1.word ≡ r.0) × (r.2.word ≡ r.0) × (r.1.knows.parts + r.2.knows.parts ≡ 8)) }
{
    let (word, mut seats) = StopWord::open(rt.alloc(), 2)?;
    let Some(second) = seats.pop() else {
        unreachable!()
    };
    let Some(first) = seats.pop() else {
        unreachable!()
    };
    Ok((word, first, second))
}

#[test]
fn shows_what_another_seat_has_marked(rt: HostRuntime) -> Result<(), Fail> {
    let (word, mut first, mut second) = two_seats(&rt)?;
    assert!(rt; word.look(&mut first).is_none());
    word.mark(&mut first, 5);
    assert!(rt; word.look(&mut first) == Some(5));
    join(&rt, || word.mark(&mut second, 2), || ());
    assert!(rt; word.look(&mut first) == Some(2));
    word.mark(&mut first, 7);
    assert!(rt; word.look(&mut first) == Some(2));
    Ok(())
}

#[test]
fn closes_with_the_least_of_all_marks(rt: HostRuntime) -> Result<(), Fail> {
    let (word, mut first, mut second) = two_seats(&rt)?;
    word.mark(&mut first, 4);
    word.mark(&mut second, 9);
    let mut seats = Vec::with_capacity(rt.alloc(), 2)?;
    seats.push(first)?;
    seats.push(second)?;
    assert!(rt; word.close(seats) == Some(4));
    Ok(())
}

#[test]
fn has_nothing_where_nobody_marked(rt: HostRuntime) -> Result<(), Fail> {
    let (word, seats) = StopWord::open(rt.alloc(), 1)?;
    assert!(rt; word.close(seats).is_none());
    Ok(())
}
