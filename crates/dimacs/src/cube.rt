//! Cubes: literals that are all assumed to be true. Cube and conquer: Heule, Kullmann, Wieringa, Biere, "Cube and Conquer: Guiding CDCL SAT
//! Solvers by Lookaheads", 2011.

ghost use Rattle.std.specs.Prelude.{◌≡◌, ◌≤◌, ◌<◌, ◌↔◌, [], ◌∷◌, ◌++◌, length, IsTrue};
ghost use Rattle.dimacs.specs.Literal.{is_clause};

use crate::clause::recall_literals;
use crate::literal::Lit;
use smallvec::SmallVec;
use std::alloc::Global;
use std::marker::Model;

/// Maximum number of literals of a cube: no split tree is deeper.
pub const MAX_CUBE_LITERALS: usize = 20;

/// Literals that are assumed together: those of the splits from the root of a tree to a leaf. They stand inside the value, so a cube needs
/// no memory of its own.
pub struct Cube {
    literals: SmallVec<Lit, MAX_CUBE_LITERALS>,
}

/// Drops the literals in one call. A derived `Drop` would drop each at every exit of a function that owns a cube, which makes its proof longer.
impl Drop for Cube {
    fn drop(self) {
        let Cube {
            literals: _literals,
        } = self;
    }
}

impl Model for Cube {
    ghost use Rattle.std.specs.Prelude.{List, ℤ, ◌≤◌, length, IsTrue};
    ghost use Rattle.dimacs.specs.Literal.{is_clause};

    ghost Value = { List ℤ };

    ghost view = { λ cube. cube.literals.items };

    ghost invariant = { λ cube. (length cube.literals.items ≤ 20) × IsTrue (is_clause cube.literals.items) };
}

/// Returns whether these are the same literals in the same order.
pub fn are_same(first: &[Lit], second: &[Lit]) -> bool
    ensures { IsTrue result ↔ (first.now ≡ second.now) }
{
    first == second
}

/// Copies the literals, with room for a whole cube.
fn copy_literals(alloc: Global, literals: &[Lit]) -> SmallVec<Lit, MAX_CUBE_LITERALS>
    requires { length literals.now ≤ MAX_CUBE_LITERALS }
    ensures items { result.items ≡ literals.now }
    ensures room { result.capacity ≡ 20 }
{
    // it fails for lack of memory alone, and a list of up to `MAX_CUBE_LITERALS` takes none
    SmallVec::from_slice(alloc, literals).unwrap()
}

impl Cube {
    /// Returns the cube without literals.
    pub fn empty(alloc: Global) -> Cube
        ensures { result ≡ [] }
    {
        Cube {
            literals: SmallVec::new(alloc),
        }
    }

    /// Copies these literals. It takes no memory.
    pub fn of(alloc: Global, literals: &[Lit]) -> Cube
        requires { length literals.now ≤ MAX_CUBE_LITERALS }
        ensures { result ≡ literals.now }
    {
        // For proofs alone, here and below: no literal is 0, as the invariant says.
        recall_literals(literals);
        Cube {
            literals: copy_literals(alloc, literals),
        }
    }

    /// Returns the cube with one more literal after its own. It takes no memory.
    pub fn with(&self, alloc: Global, literal: Lit) -> Cube
        requires { length self.now < MAX_CUBE_LITERALS }
        ensures { result ≡ self.now ++ literal ∷ [] }
    {
        let mut literals = copy_literals(alloc, self.literals.as_slice());
        literals.push_reserved(literal);
        recall_literals(literals.as_slice());
        Cube { literals }
    }

    /// The literals, none of which is 0.
    pub fn as_slice(&self) -> &[Lit]
        ensures literals { result.now ≡ self.now }
        ensures clause { IsTrue (is_clause result.now) }
        ensures few { length result.now ≤ MAX_CUBE_LITERALS }
    {
        self.literals.as_slice()
    }
}
