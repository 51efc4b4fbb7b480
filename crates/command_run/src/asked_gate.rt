//! The gate of a search: the one that shows its progress, if that is asked for.

use cube_jobs::{Gate, Stage};

/// The gate that shows the progress, or none. One call of an engine then serves both.
#[derive(Clone, Copy)]
pub(crate) struct AskedGate<'g, G> {
    gate: Option<&'g G>,
}

impl<'g, G> AskedGate<'g, G> {
    /// The gate, if it is asked for.
    pub(crate) fn new(gate: &'g G, is_asked: bool) -> AskedGate<'g, G> {
        AskedGate {
            gate: if is_asked { Some(gate) } else { None },
        }
    }
}

impl<G: Gate> Gate for AskedGate<'_, G> {
    fn begin(&self, stage: Stage) {
        if let Some(gate) = self.gate {
            gate.begin(stage);
        }
    }

    fn end(&self, stage: Stage) {
        if let Some(gate) = self.gate {
            gate.end(stage);
        }
    }

    fn begin_round(&self, jobs: usize) {
        if let Some(gate) = self.gate {
            gate.begin_round(jobs);
        }
    }

    fn before(&self, worker: u32, ticket: u32) {
        if let Some(gate) = self.gate {
            gate.before(worker, ticket);
        }
    }

    fn after(&self, worker: u32, ticket: u32) {
        if let Some(gate) = self.gate {
            gate.after(worker, ticket);
        }
    }

    fn conflicts(&self, count: u64) {
        if let Some(gate) = self.gate {
            gate.conflicts(count);
        }
    }
}
