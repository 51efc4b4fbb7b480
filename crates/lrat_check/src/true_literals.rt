//! The literals that are true while hints are followed.

ghost use Rattle.std.specs.Prelude.{◌≡◌, [], ◌∷◌, ◌++◌, ◌-◌, length, take, OnOk};
ghost use Rattle.lrat_check.specs.Propagation.{has, is_falsified};

use crate::marks::{LiteralMarks, place_of};
use dimacs::Lit;
use std::alloc::{AllocError, Global};
use std::marker::Model;

/// A literal that became true, and whether it was not true before. `undo` takes the mark away only of one that was new: an earlier entry
/// of the trail still needs the mark of any other.
#[derive(Clone, Copy)]
struct TrueLiteral {
    literal: Lit,
    is_new: bool,
}

/// The literals that are true, in the order in which they became so; one that was true already may have become so again. There is a
/// mark for each of them, so that a look takes the same time however many there are. The last ones can be taken back in the
/// time that it took to make them true.
#[derive(Drop)]
pub struct TrueLiterals {
    trail: Vec<TrueLiteral>,
    marks: LiteralMarks,
}

impl Model for TrueLiterals {
    ghost use Rattle.std.specs.Prelude.{List, ℤ};
    ghost use Rattle.lrat_check.specs.Marks.{is_marked};
    ghost use Rattle.lrat_check.specs.Trail.{literals_of, IsTrail};

    ghost Value = { List ℤ };

    ghost view = { λ trues. literals_of trues.trail.items };

    ghost invariant = { λ trues. IsTrail trues.trail.items (is_marked trues.marks) };
}

impl TrueLiterals {
    /// No literal is true.
    pub fn new(alloc: Global) -> TrueLiterals
        ensures { result ≡ [] }
    {
        TrueLiterals {
            trail: Vec::new(alloc),
            marks: LiteralMarks::new(alloc),
        }
    }

    /// Returns whether the literal is false.
    pub fn is_false(&self, literal: Lit) -> bool
        ensures { result ≡ is_falsified self.now literal }
    {
        self.marks.has(place_of(literal.negated()))
    }

    /// Returns whether the literal is true.
    pub fn holds(&self, literal: Lit) -> bool
        ensures { result ≡ has self.now literal }
    {
        self.marks.has(place_of(literal))
    }

    /// The number of true literals.
    pub fn len(&self) -> usize
        ensures { result ≡ length self.now }
    {
        self.trail.len()
    }

    /// Assigns the literal, for which the trail or the table may have to grow. Calls of this in the midst of [`TrueLiterals::push`] would
    /// make it save registers for each literal.
    #[inline(never)]
    fn push_with_room(&mut self, literal: Lit) -> Result<(), AllocError>
        ensures { OnOk result (self.new ≡ self.old ++ literal ∷ []) }
    {
        let place = place_of(literal);
        let count = self.trail.len();
        let is_new = !self.marks.has(place);
        self.trail.push(TrueLiteral { literal, is_new })?;
        match self.marks.add(place) {
            Ok(()) => Ok(()),
            // An entry of the trail without its mark would break the invariant, even though the caller gives up.
            Err(error) => {
                self.trail.truncate(count);
                Err(error)
            }
        }
    }

    /// Assigns the literal. Almost always neither the trail nor the table must grow, and the tree of marks is empty: then nothing is
    /// allocated and no search is made.
    pub fn push(&mut self, literal: Lit) -> Result<(), AllocError>
        ensures { OnOk result (self.new ≡ self.old ++ literal ∷ []) }
    {
        let place = place_of(literal);
        if self.trail.len() < self.trail.capacity() && self.marks.is_at_hand(place) {
            let is_new = !self.marks.has(place);
            self.trail.push(TrueLiteral { literal, is_new })?;
            self.marks.add_at_hand(place);
            return Ok(());
        }
        self.push_with_room(literal)
    }

    /// Takes the last one back.
    fn undo(&mut self)
        ensures { self.new ≡ take (length self.old - 1) self.old }
    {
        if let Some(last) = self.trail.pop() {
            if last.is_new {
                self.marks.remove(place_of(last.literal));
            }
        }
    }
}

/// Makes no literal true but the first ones, of this count.
pub fn keep_first(trues: &mut TrueLiterals, count: usize)
    ensures { trues.new ≡ take count trues.old }
{
    while trues.len() > count {
        trues.undo();
    }
}
