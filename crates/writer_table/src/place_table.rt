//! Operations by classes.

use crate::runs::{Run, Runs};
use std::alloc::{AllocError, Global};
use std::marker::Model;

/// Some operations, by the numbers of their classes. A number that none has is a class of none. A class is all writers of a location, or of a location and a
/// value. `WriterClasses` counts them from 1, and gives 0 for what no operation writes, so the class of number 0 stays empty.
#[derive(Drop)]
pub struct PlaceTable {
    rows: Vec<Runs>,
}

impl Model for PlaceTable {
    ghost use Rattle.std.specs.Prelude.{List};
    ghost use Rattle.writer_table.specs.declared.runs.Run.{Run};

    ghost Value = { List (List Run) };

    ghost view = { λ table. table.rows.items };
}

impl PlaceTable {
    ghost use Rattle.std.specs.Prelude.{◌≡◌, ◌<◌, [], ℕ, length, OnOk, slice_index_or};
    ghost use Rattle.writer_table.specs.PlaceTable.{row, HasOneMoreIn};

    /// A table of no operations.
    pub fn new(alloc: Global) -> PlaceTable
        ensures { result ≡ [] }
    {
        PlaceTable {
            rows: Vec::new(alloc),
        }
    }

    /// The operations of this class.
    pub fn runs(&self, class: usize) -> &[Run]
        ensures { result.now ≡ row self.now class }
    {
        if class < self.rows.len() {
            self.rows[class].as_slice()
        } else {
            &[]
        }
    }

    /// Makes room for the class. Classes are numbered without gaps, so the rows are as many as the classes, and one for the number 0.
    fn reach(&mut self, alloc: Global, class: usize) -> Result<(), AllocError>
        ensures long { OnOk result (class < length self.new) }
        ensures same { OnOk result ((c : ℕ) → row self.new c ≡ row self.old c) }
    {
        while self.rows.len() <= class {
            self.rows.push(Runs::new(alloc))?;
        }
        Ok(())
    }

    /// Adds the operation at this place of this process to the class.
    pub fn add(
        &mut self,
        alloc: Global,
        class: usize,
        process: u32,
        place: u32,
    ) -> Result<(), AllocError>
        ensures { OnOk result (HasOneMoreIn self.old self.new class process place) }
    {
        self.reach(alloc, class)?;
        self.rows[class].add(alloc, process, place)
    }
}
