//! What no clause says: that jobs are put, taken, settled and gathered with ample memory, on one thread and on two.
ghost use Rattle.std.specs.Prelude.{◌≡◌, ◌<◌, ◌+◌, None, Some, IfOk};
ghost use Rattle.std.specs.List.{All};
ghost use Rattle.job_board.specs.InFlight.{ticket_in};
ghost use Rattle.job_board.specs.Seats.{put_by, IsDealerAt, IsWorkerAt, IsCollectorAt, AreWorkersAt};

use cube_jobs::{Job, Outcome, Settled};
use job_board::{Account, Board, CollectorSeat, DealerSeat, WorkerSeat};
use std::alloc::Global;
use std::process::Abort;
use std::sync::Wait;
use std::test::Fail;
use std::thread::join;

/// A board for two workers and two cubes, at which four jobs may wait, and all seats at it.
fn open_for_two(
    alloc: Global,
) -> Result<(Board, DealerSeat, WorkerSeat, WorkerSeat, CollectorSeat), Fail>
    ensures board { IfOk result (λ r. r.0.workers ≡ 2) }
    ensures dealer { IfOk result (λ r. IsDealerAt r.0 r.1 × All (λ earlier. earlier.ticket < 0) (put_by r.1)) }
    ensures first { IfOk result (λ r. IsWorkerAt r.0 r.2 × (r.2.number ≡ 0) × (ticket_in r.2.hand ≡ None)) }
    ensures second { IfOk result (λ r. IsWorkerAt r.0 r.3 × (r.3.number ≡ 1) × (ticket_in r.3.hand ≡ None)) }
    ensures collector { IfOk result (λ r. IsCollectorAt r.0 r.4) }
{
    let (board, dealer, mut workers, collector) = Board::open(alloc, 2, 2, 4)?;
    let Some(second) = workers.pop() else {
        unreachable!()
    };
    let Some(first) = workers.pop() else {
        unreachable!()
    };
    Ok((board, dealer, first, second, collector))
}

/// The seats of two workers, in the order of their numbers.
#[derive(Drop)]
struct WorkerPair {
    first: WorkerSeat,
    second: WorkerSeat,
}

/// The account of the board with these two workers.
fn close_for_two<R: Wait>(
    alloc: Global,
    rt: &R,
    board: Board,
    dealer: DealerSeat,
    pair: WorkerPair,
    collector: CollectorSeat,
) -> Result<Account, Fail>
    requires board { board.workers ≡ 2 }
    requires dealer { IsDealerAt board dealer }
    requires first { IsWorkerAt board pair.first × (pair.first.number ≡ 0) }
    requires second { IsWorkerAt board pair.second × (pair.second.number ≡ 1) }
    requires collector { IsCollectorAt board collector }
{
    let WorkerPair { first, second } = pair;
    let mut workers = Vec::with_capacity(alloc, 2)?;
    workers.push(first)?;
    workers.push(second)?;
    Ok(board.close(rt, dealer, workers, collector))
}

/// Asserts that the board takes a job under the next ticket. Its cube is empty.
fn assert_puts<R: Wait + Abort>(
    alloc: Global,
    rt: &R,
    board: &Board,
    seat: &mut DealerSeat,
    ticket: u32,
)
    requires seat { IsDealerAt board.now seat.old }
    requires above { All (λ earlier. earlier.ticket < ticket) (put_by seat.old) }
    ensures seat { IsDealerAt board.now seat.new }
    ensures above { All (λ earlier. earlier.ticket < ticket + 1) (put_by seat.new) }
{
    match board.put(rt, seat, Job::new(alloc, ticket, &[])) {
        Ok(()) => (),
        Err(_job) => panic!(rt; "the job comes back"),
    }
}

/// Asserts that the worker takes a job under this ticket, and holds it.
fn assert_takes<R: Wait + Abort>(
    alloc: Global,
    rt: &R,
    board: &Board,
    seat: &mut WorkerSeat,
    ticket: u32,
) -> Job
    requires seat { IsWorkerAt board.now seat.old }
    requires hand { ticket_in seat.old.hand ≡ None }
    ensures seat { IsWorkerAt board.now seat.new × (seat.new.number ≡ seat.old.number) }
{
    let Ok(job) = board.take(alloc, rt, seat) else {
        panic!(rt; "there is no job");
    };
    assert!(rt; job.ticket() == ticket);
    assert!(rt; seat.holds() == Some(ticket));
    job
}

/// Asserts that the worker may give the result, and then holds no job.
fn assert_gives<R: Wait + Abort>(rt: &R, board: &Board, seat: &mut WorkerSeat, settled: Settled)
    requires { IsWorkerAt board.now seat.old }
    ensures seat { IsWorkerAt board.now seat.new × (seat.new.number ≡ seat.old.number) }
    ensures hand { ticket_in seat.new.hand ≡ None }
{
    match board.give(rt, seat, settled) {
        Ok(()) => (),
        Err(_settled) => panic!(rt; "the result comes back"),
    }
}

/// Asserts that the worker gets the result back.
fn assert_gets_back<R: Wait + Abort>(rt: &R, board: &Board, seat: &mut WorkerSeat, settled: Settled)
    requires { IsWorkerAt board.now seat.old }
    ensures { IsWorkerAt board.now seat.new × (seat.new.number ≡ seat.old.number) }
{
    let ticket = settled.ticket();
    match board.give(rt, seat, settled) {
        Ok(()) => panic!(rt; "the result is taken"),
        Err(settled) => assert!(rt; settled.ticket() == ticket),
    }
}

/// Asserts that the worker ends, and holds no job.
fn assert_ends<R: Wait + Abort>(alloc: Global, rt: &R, board: &Board, seat: &mut WorkerSeat)
    requires seat { IsWorkerAt board.now seat.old }
    requires hand { ticket_in seat.old.hand ≡ None }
    ensures { IsWorkerAt board.now seat.new × (seat.new.number ≡ seat.old.number) }
{
    assert!(rt; board.take(alloc, rt, seat).is_err());
    assert!(rt; seat.holds().is_none());
}

/// Asserts that the next result is one under this ticket.
fn assert_gathers<R: Wait + Abort>(rt: &R, board: &Board, seat: &mut CollectorSeat, ticket: u32)
    requires { IsCollectorAt board.now seat.old }
    ensures { IsCollectorAt board.now seat.new }
{
    let Ok(settled) = board.gather(rt, seat) else {
        panic!(rt; "there is no result");
    };
    assert!(rt; settled.ticket() == ticket);
    assert!(rt; matches!(settled.outcome(), Outcome::Open));
}

/// Asserts how many jobs were put and taken, and how many results given and gathered.
fn assert_counts(rt: &impl Abort, account: &Account, wanted: [u32; 4]) {
    let counts = [account.put, account.taken, account.given, account.gathered];
    assert!(rt; counts == wanted);
}

#[test]
fn settles_each_job_once(rt: HostRuntime) -> Result<(), Fail> {
    let alloc = rt.alloc();
    let (board, mut dealer, mut first, mut second, mut collector) = open_for_two(alloc)?;
    assert_puts(alloc, &rt, &board, &mut dealer, 0);
    assert_puts(alloc, &rt, &board, &mut dealer, 1);
    assert_puts(alloc, &rt, &board, &mut dealer, 2);
    assert_puts(alloc, &rt, &board, &mut dealer, 3);
    let job = assert_takes(alloc, &rt, &board, &mut second, 0);
    let other = assert_takes(alloc, &rt, &board, &mut first, 1);
    assert_gives(&rt, &board, &mut first, other.settle(Outcome::Open));
    assert_gives(&rt, &board, &mut second, job.settle(Outcome::Open));
    assert_ends(alloc, &rt, &board, &mut first);
    assert_ends(alloc, &rt, &board, &mut second);
    assert_gathers(&rt, &board, &mut collector, 1);
    assert_gathers(&rt, &board, &mut collector, 0);
    let pair = WorkerPair { first, second };
    let account = close_for_two(alloc, &rt, board, dealer, pair, collector)?;
    assert_counts(&rt, &account, [2, 2, 2, 2]);
    Ok(())
}

#[test]
fn counts_what_is_left(rt: HostRuntime) -> Result<(), Fail> {
    let alloc = rt.alloc();
    let (board, mut dealer, mut first, second, collector) = open_for_two(alloc)?;
    assert_puts(alloc, &rt, &board, &mut dealer, 0);
    assert_puts(alloc, &rt, &board, &mut dealer, 1);
    assert_puts(alloc, &rt, &board, &mut dealer, 2);
    let job = assert_takes(alloc, &rt, &board, &mut first, 0);
    assert_gets_back(
        &rt,
        &board,
        &mut first,
        Job::new(alloc, 1, &[]).settle(Outcome::Open),
    );
    assert_gives(&rt, &board, &mut first, job.settle(Outcome::Open));
    assert_gets_back(
        &rt,
        &board,
        &mut first,
        Job::new(alloc, 0, &[]).settle(Outcome::Open),
    );
    let pair = WorkerPair { first, second };
    let account = close_for_two(alloc, &rt, board, dealer, pair, collector)?;
    assert_counts(&rt, &account, [2, 1, 1, 0]);
    Ok(())
}

/// Settles jobs until there are no more.
fn work<R: Wait + Abort>(alloc: Global, rt: &R, board: &Board, mut seat: WorkerSeat) -> WorkerSeat
    requires seat { IsWorkerAt board.now seat }
    requires hand { ticket_in seat.hand ≡ None }
    ensures { IsWorkerAt board.now result × (result.number ≡ seat.number) }
{
    for _ in rt.forever() {
        let Ok(job) = board.take(alloc, rt, &mut seat) else {
            return seat;
        };
        assert_gives(rt, board, &mut seat, job.settle(Outcome::Open));
    }
    unreachable!()
}

#[test]
fn settles_jobs_in_two_threads(rt: HostRuntime) -> Result<(), Fail> {
    let alloc = rt.alloc();
    let (board, mut dealer, first, second, collector) = open_for_two(alloc)?;
    assert_puts(alloc, &rt, &board, &mut dealer, 0);
    assert_puts(alloc, &rt, &board, &mut dealer, 1);
    assert_puts(alloc, &rt, &board, &mut dealer, 2);
    assert_puts(alloc, &rt, &board, &mut dealer, 3);
    let shared = &board;
    let handle = &rt;
    let (first, second) = join(
        &rt,
        move || work(alloc, handle, shared, first),
        move || work(alloc, handle, shared, second),
    );
    let pair = WorkerPair { first, second };
    let account = close_for_two(alloc, &rt, board, dealer, pair, collector)?;
    assert_counts(&rt, &account, [2, 2, 2, 0]);
    Ok(())
}
