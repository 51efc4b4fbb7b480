//! Places of operations by process.

ghost use Rattle.std.specs.Prelude.{◌≡◌, ◌<◌, false, ℕ, IfOk};
ghost use Rattle.std.specs.Bool.{MatchBool};
ghost use Rattle.std.specs.List.{All, Contains};
ghost use Rattle.writer_table.specs.Runs.{AreUpTo, HasOneMore};

use crate::rising_places::RisingPlaces;
use std::alloc::{AllocError, Global};
use std::marker::Model;

/// Places of one process, in order.
#[derive(Drop)]
pub struct Run {
    pub process: u32,
    pub places: RisingPlaces,
}

impl Run {
    ghost use Rattle.writer_table.specs.Longer.{IsLonger};

    /// Appends the place, if it is not below the last, and returns whether it did.
    fn push(&mut self, place: u32) -> Result<bool, AllocError>
        ensures longer { IfOk result (λ done. MatchBool done (IsLonger self.old self.new place) (self.new ≡ self.old)) }
        ensures over { IfOk result (λ done. done ≡ false → (k : ℕ) × Contains self.old.places k × (place < k)) }
    {
        let done = self.places.push(place)?;
        Ok(done)
    }
}

/// Appends the place to the last run, if that is of the process and has no larger place, and returns whether it did.
fn extend_last(runs: &mut Vec<Run>, process: u32, place: u32) -> Result<bool, AllocError>
    ensures more { IfOk result (λ done. MatchBool done (HasOneMore runs.old.items runs.new.items process place) (runs.new.items ≡ runs.old.items)) }
    ensures past { IfOk result (λ done. done ≡ false → (k : ℕ) → k < place → AreUpTo runs.old.items process k → All (λ run. run.process < process) runs.old.items) }
{
    let count = runs.len();
    if count == 0 || runs[count - 1].process != process {
        return Ok(false);
    }
    let done = runs[count - 1].push(place)?;
    Ok(done)
}

/// Some operations: runs of places, one or more for each process that has any. If they are added by process and then by rising place, as `TraceWriters`
/// does, each process has one.
#[derive(Drop)]
pub struct Runs {
    runs: Vec<Run>,
}

impl Model for Runs {
    ghost use Rattle.std.specs.Prelude.{List};
    ghost use Rattle.writer_table.specs.declared.runs.Run.{Run};

    ghost Value = { List Run };

    ghost view = { λ runs. runs.runs.items };
}

impl Runs {
    ghost use Rattle.std.specs.Prelude.{[], OnOk};

    /// No operations.
    pub fn new(alloc: Global) -> Runs
        ensures { result ≡ [] }
    {
        Runs {
            runs: Vec::new(alloc),
        }
    }

    /// The runs as a slice.
    pub fn as_slice(&self) -> &[Run]
        ensures { result.now ≡ self.now }
    {
        self.runs.as_slice()
    }

    /// Adds the operation at this place of this process.
    pub fn add(&mut self, alloc: Global, process: u32, place: u32) -> Result<(), AllocError>
        ensures { OnOk result (HasOneMore self.old self.new process place) }
    {
        if extend_last(&mut self.runs, process, place)? {
            return Ok(());
        }
        let places = RisingPlaces::of_one(alloc, place)?;
        self.runs.push(Run { process, places })?;
        Ok(())
    }
}
