//! The progress of a search or a survey, reported on standard error.
//!
//! A job is the search of one cube, a leaf of the split tree, and its ticket is the number of that leaf. A round searches all leaves that have no answer;
//! between two rounds those that stayed open are split, so each round has its own number of cubes.
use cube_jobs::{Gate, Stage};
use std::io::IsTerminal;
use std::sync::atomic::{AtomicU64, Ordering};
use std::time::Instant;

/// The blanks that clear the line of a terminal: 78 of them, so that a terminal of 80 columns does not go on to a second line.
const CLEARED: &str =
    "                                                                              ";

/// A gate that reports each stage that begins or ends, and each cube that is taken or settled: its number, the worker, the seconds since the
/// start, how many cubes of the round are settled, and how many conflicts there were. If standard error is a terminal, there is one line,
/// which is written anew each time, and cleared when a stage ends or no cube is in work; the worker is left out there, so that the line fits.
/// Nothing depends on it.
#[derive(Drop)]
pub struct Progress<'a> {
    rt: &'a HostRuntime,
    /// When it began, or nothing if the system has no clock.
    start: Option<Instant>,
    is_terminal: bool,
    /// The cubes of this round, as `begin_round` is given them.
    cubes: AtomicU64,
    /// The cubes of this round that a worker has taken, settled ones among them.
    taken: AtomicU64,
    /// The cubes of this round that are settled.
    settled: AtomicU64,
    /// The conflicts of all searches since the start: a round sets the numbers of cubes back, and neither it nor the end of a stage sets these back.
    conflicts: AtomicU64,
}

impl<'a> Progress<'a> {
    /// The progress of what starts now.
    pub fn new(rt: &'a HostRuntime) -> Progress<'a> {
        Progress {
            rt,
            start: Instant::now(rt).ok(),
            is_terminal: rt.stderr().is_terminal(),
            cubes: AtomicU64::new(0),
            taken: AtomicU64::new(0),
            settled: AtomicU64::new(0),
            conflicts: AtomicU64::new(0),
        }
    }

    /// The seconds since the start, and 0 where there is no clock.
    fn seconds(&self) -> u64 {
        match &self.start {
            Some(start) => match start.elapsed(self.rt) {
                Ok(since) => since.as_secs(),
                Err(_) => 0,
            },
            None => 0,
        }
    }

    /// Writes the one line of a terminal anew, or clears it if no cube is in work. Other workers may change the numbers between two loads, so they
    /// need not fit together.
    fn show(&self, what: &str, ticket: u32) {
        let seconds = self.seconds();
        let cubes = self.cubes.load(Ordering::SeqCst);
        let settled = self.settled.load(Ordering::SeqCst);
        let in_work = self.taken.load(Ordering::SeqCst).saturating_sub(settled);
        let conflicts = self.conflicts.load(Ordering::SeqCst);
        let _ = eprint!(self.rt;
            "\r{settled} of {cubes} cubes, {in_work} in work, {seconds} s, {conflicts} conflicts, cube {ticket} {what}   \r"
        );
        // The last worker that comes here finds that all are settled, whatever the others wrote meanwhile.
        if self.settled.load(Ordering::SeqCst) == self.taken.load(Ordering::SeqCst) {
            self.clear();
        }
    }

    /// Clears the one line of a terminal.
    fn clear(&self) {
        let _ = eprint!(self.rt; "\r{CLEARED}\r");
    }

    /// Reports what became of a cube. If standard error fails, nothing is reported. `settled` is what the caller has counted, so that
    /// no two lines of a round on settled cubes have the same number; a terminal is shown the latest one instead.
    fn tell(&self, what: &str, worker: u32, ticket: u32, settled: u64) {
        if self.is_terminal {
            return self.show(what, ticket);
        }
        let seconds = self.seconds();
        let cubes = self.cubes.load(Ordering::SeqCst);
        let conflicts = self.conflicts.load(Ordering::SeqCst);
        let _ = eprintln!(self.rt;
            "cube {ticket} {what} by worker {worker} after {seconds} s, {settled} of {cubes} settled, {conflicts} conflicts"
        );
    }

    /// Reports on one line that a stage has begun or ended.
    fn tell_stage(&self, stage: Stage, what: &str) {
        let seconds = self.seconds();
        let (name, operations) = named(stage);
        let _ = eprintln!(self.rt; "{name} {operations} operations {what} after {seconds} s");
    }

    /// Writes on the one line of a terminal which stage has begun.
    fn show_stage(&self, stage: Stage) {
        let (name, operations) = named(stage);
        let _ = eprint!(self.rt; "\r{name} {operations} operations   \r");
    }
}

/// Names the stage, with the number of its operations.
fn named(stage: Stage) -> (&'static str, usize) {
    match stage {
        Stage::Survey(operations) => ("survey of", operations),
        Stage::Core(operations) => ("search of a core of", operations),
        Stage::Whole(operations) => ("search of all", operations),
    }
}

impl Gate for Progress<'_> {
    fn begin(&self, stage: Stage) {
        if self.is_terminal {
            self.show_stage(stage);
        } else {
            self.tell_stage(stage, "begun");
        }
    }

    fn end(&self, stage: Stage) {
        if self.is_terminal {
            self.clear();
        } else {
            self.tell_stage(stage, "ended");
        }
    }

    fn begin_round(&self, jobs: usize) {
        // All jobs of earlier rounds are settled by now, so no worker counts while these are set.
        self.cubes.store(jobs as u64, Ordering::SeqCst);
        self.taken.store(0, Ordering::SeqCst);
        self.settled.store(0, Ordering::SeqCst);
    }

    fn before(&self, worker: u32, ticket: u32) {
        self.taken.fetch_add(1, Ordering::SeqCst);
        self.tell("taken", worker, ticket, self.settled.load(Ordering::SeqCst));
    }

    fn after(&self, worker: u32, ticket: u32) {
        let settled = self.settled.fetch_add(1, Ordering::SeqCst).wrapping_add(1);
        self.tell("settled", worker, ticket, settled);
    }

    fn conflicts(&self, count: u64) {
        self.conflicts.fetch_add(count, Ordering::SeqCst);
    }
}
