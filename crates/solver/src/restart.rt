//! Restarts: when the search goes back to level 0, with all that it has learned.

/// Unit of the restart interval, in conflicts: restart i comes after UNIT * luby(i) of them. With 100 a search may stay for long with bad
/// first decisions: one trace took eleven times the conflicts of a plain C program, and with 30 none takes twice as many. With 20 and fewer
/// it takes more conflicts on the whole.
pub const UNIT: u64 = 30;

/// Unit of the restart interval along a schedule. It is shorter, since each restart there takes another way.
pub const SHORT_UNIT: u64 = 10;

/// Unit of the restart interval of searches that go on in rounds. What others have learned comes into play as decisions are made anew: for 28 traces without a
/// schedule four searches took 785 thousand conflicts with a unit of 30, 718 with 4 and 678 with 2, and for 22 with one 528, 419 and 542.
pub const ROUNDS_UNIT: u64 = 4;

/// Returns term `place`, counted from 0, of Luby's sequence 1, 1, 2, 1, 1, 2, 4, .. If nothing is known of the distribution of run times,
/// no other sequence is better by more than a constant factor (Luby, Sinclair and Zuckerman, "Optimal speedup of Las Vegas
/// algorithms", 1993).
fn luby(place: u64) -> u64 {
    let mut place = place;
    // The first 2^k - 1 terms are the first 2^(k-1) - 1 twice, and then 2^(k-1). `size` is the least such number above the place, and `power` the
    // last of its terms.
    let mut size: u64 = 1;
    let mut power: u64 = 1;
    for _ in 0..62 {
        if size > place {
            break;
        }
        size = size.wrapping_mul(2).wrapping_add(1);
        power = power.wrapping_mul(2);
    }
    for _ in 0..62 {
        // Unless the place is that of the last term, it lies in one of the two halves, which are alike.
        if size == 0 || size.wrapping_sub(1) == place {
            break;
        }
        size = size.wrapping_sub(1) / 2;
        power /= 2;
        if size != 0 {
            place %= size;
        }
    }
    power
}

/// Counts conflicts from one restart to the next.
#[derive(Clone, Copy)]
pub struct Restarts {
    /// Conflicts of the shortest interval, which all others are multiples of.
    unit: u64,
    /// The number of restarts that were due so far.
    done: u64,
    /// Conflicts up to the next one.
    left: u64,
}

impl Restarts {
    pub fn new(unit: u64) -> Restarts {
        Restarts {
            unit,
            done: 0,
            left: unit,
        }
    }

    /// Counts a conflict, and answers whether a restart is due.
    pub fn count(&mut self) -> bool {
        self.left = self.left.saturating_sub(1);
        if self.left > 0 {
            return false;
        }
        self.done = self.done.wrapping_add(1);
        self.left = luby(self.done).wrapping_mul(self.unit);
        true
    }
}
