//! Whether truth values are a model within a cube.
ghost use Rattle.std.specs.Prelude.{◌↔◌, IsTrue};
ghost use Rattle.cube_jobs.specs.Models.{IsModelIn};
ghost use Rattle.dimacs.specs.Assignment.{value_of};

use dimacs::{Assignment, ClauseList, Lit};

/// Returns whether the assignment is a model of the formula and makes all literals of the cube true.
pub fn is_model_in<L: ClauseList>(formula: &L, cube: &[Lit], assignment: &Assignment) -> bool
    ensures { IsTrue result ↔ IsModelIn (L.formula formula.now).clauses cube.now (value_of assignment.now) }
{
    if !assignment.makes(cube) {
        return false;
    }
    match formula.eval(assignment) {
        Ok(()) => true,
        Err(_) => false,
    }
}
