//! How many operations of each process have come, while they come in program order.

ghost use Rattle.std.specs.Prelude.{◌≡◌, ◌<◌, ◌==◌, ℕ, [], OnOk, vec_len, if◌then◌else◌};
ghost use Rattle.schedule_judge.specs.Come.{count_in_row, count_of_process, is_within, IsCountSet};

use std::alloc::{AllocError, Global};

/// The number of operations of each process that have come, by the place of the process in the trace. An operation has come if its
/// place is at most that number, so that no table of operations is needed.
#[derive(Drop)]
pub struct Come {
    pub counts: Vec<usize>,
}

/// The count in this row: 0 past the last one.
fn count_at(counts: &[usize], row: usize) -> usize
    ensures { result ≡ count_in_row counts.now row }
{
    if row < counts.len() { counts[row] } else { 0 }
}

/// Makes the table reach to this row. Its counts stay as they are.
fn make_rows(counts: &mut Vec<usize>, row: usize) -> Result<(), AllocError>
    ensures room { OnOk result (row < vec_len counts.new) }
    ensures same { (k : ℕ) → count_in_row counts.new.items k ≡ count_in_row counts.old.items k }
{
    while counts.len() <= row {
        counts.push(0)?;
    }
    Ok(())
}

/// Puts the count into this row.
fn put_count(counts: &mut Vec<usize>, row: usize, count: usize) -> Result<(), AllocError>
    ensures { OnOk result ((k : ℕ) → count_in_row counts.new.items k ≡ (if row == k then count else count_in_row counts.old.items k)) }
{
    make_rows(counts, row)?;
    counts[row] = count;
    Ok(())
}

impl Come {
    /// No operation has come.
    pub fn new(alloc: Global) -> Come
        ensures { result.counts.items ≡ [] }
    {
        Come {
            counts: Vec::new(alloc),
        }
    }

    /// Returns whether the operation at this place of the process in this row has come. Places count from 1, rows from 0.
    pub fn has(&self, row: Option<u64>, place: usize) -> bool
        ensures { result ≡ is_within place (count_of_process self.now.counts.items row) }
    {
        match row {
            Some(row) => 0 < place && place <= count_at(self.counts.as_slice(), row as usize),
            None => false,
        }
    }

    /// Notes that the operation at this place of the process in this row has come, with all before it. The caller has made sure that those
    /// before it came (`OutOfProgramOrder`): the count is set to the place, not raised by 1.
    pub fn take(&mut self, row: Option<u64>, place: usize) -> Result<(), AllocError>
        ensures { OnOk result (IsCountSet self.old.counts.items row place self.new.counts.items) }
    {
        match row {
            Some(row) => put_count(&mut self.counts, row as usize, place),
            None => Ok(()),
        }
    }
}
