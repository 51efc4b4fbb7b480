//! The results of a search are entered.
ghost use Rattle.std.specs.Prelude.{◌≡◌, Some};
ghost use Rattle.std.specs.List.{slice_get};
ghost use Rattle.result_ledger.specs.Entered.{AreEntered, FitEmptySlots};
ghost use Rattle.result_ledger.specs.Ledger.{cubes_in, empty_slot, Fills};

use crate::ledger::Ledger;
use cube_jobs::Settled;

/// Enters the result of a leaf without an answer.
fn enter_one(ledger: &mut Ledger, settled: Settled)
    requires { slice_get ledger.old settled.ticket ≡ Some (empty_slot settled.cube) }
    ensures { Fills ledger.old ledger.new settled }
{
    let Ok(()) = ledger.enter(settled) else {
        unreachable!();
    };
}

/// Enters the results of leaves without an answer, no two of them of one leaf. Each is then in the slot of its leaf. It takes no memory.
pub fn enter_all(ledger: &mut Ledger, results: Vec<Settled>)
    requires { FitEmptySlots ledger.old results.items }
    ensures entered { AreEntered ledger.old results.items ledger.new }
    ensures cubes { cubes_in ledger.new ≡ cubes_in ledger.old }
{
    for settled in results {
        enter_one(ledger, settled);
    }
}
