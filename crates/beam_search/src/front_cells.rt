//! Cells of states whose processes are about equally far. Often a place of a log can be passed only if some processes are far ahead of others by then.
//! The best states of a layer are alike, and may all be elsewhere. So a beam takes the best of each cell first.

use crate::classed_log::ClassedLog;
use crate::state::{State, mix};

/// How wide a cell is for each process, in sixteenths of an operation.
#[derive(Clone, Copy)]
pub(crate) struct Grain {
    sixteenths: u32,
}

/// The least and the largest width, in sixteenths: 1 operation and 256.
const NARROWEST: u32 = 16;

const WIDEST: u32 = 1 << 12;

/// The number of cells to each side of the middle, so that no number of a cell is negative.
const CELLS_ASIDE: u64 = 1 << 20;

impl Grain {
    /// The width with which a beam begins. It is 8 operations.
    pub(crate) const FIRST: Grain = Grain { sixteenths: 128 };

    /// The width for the next layer: a tenth wider if this one has more cells than its beam has states, a tenth narrower if it has far less.
    pub(crate) fn next(self, cells: u32, width: u32) -> Grain {
        let step = self.sixteenths / 10;
        let sixteenths = if cells > width {
            self.sixteenths.saturating_add(step).saturating_add(1)
        } else if cells < width / 10 * 7 {
            self.sixteenths.saturating_sub(step).saturating_sub(1)
        } else {
            self.sixteenths
        };
        Grain {
            sixteenths: sixteenths.max(NARROWEST).min(WIDEST),
        }
    }

    /// The number of the cell of a process that has this number of operations left, of this share.
    #[inline(always)]
    fn cell(self, left: u64, share: u64) -> u32 {
        let width = self.sixteenths.max(1) as u64;
        let middle = width.wrapping_mul(CELLS_ASIDE).wrapping_add(width / 2);
        // A process with less than its share has a difference below 0, as a complement; the sum with the middle is not below 0.
        let difference = left.wrapping_sub(share).wrapping_mul(16);
        ((middle.wrapping_add(difference) / width) & 0xffff_ffff) as u32
    }
}

impl State {
    /// A number that is the same for the states of one cell, and mostly differs otherwise.
    pub(crate) fn front_cell(&self, log: &ClassedLog, grain: Grain) -> u64 {
        let all = self.left_in_all(log);
        let mut mixed: u64 = 0;
        for process in self.process_ids() {
            let share = self.share_of(log, process, all);
            mixed = mix(mixed, grain.cell(self.left_of(log, process), share));
        }
        mixed
    }
}
