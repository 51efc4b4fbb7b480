//! Lists that a contract sees as their elements.
//!
//! A contract that speaks of a `Vec` names its `items`, and a struct around one has a `Model` of its own. One type stands for all such structs that add
//! nothing to the list.
#![tactic(auto)]

ghost use Rattle.std.specs.Prelude.{◌≡◌, [], ◌∷◌, ◌++◌, OnOk};

use std::alloc::{AllocError, Global};
use std::marker::Model;

/// A list that is seen as its elements.
#[derive(Drop)]
pub struct PlainList<T> {
    elements: Vec<T>,
}

impl<T> Model for PlainList<T> {
    ghost use Rattle.std.specs.Prelude.{List};

    ghost Value = { List T };

    ghost view = { λ list. list.elements.items };
}

impl<T> PlainList<T> {
    /// The list of these elements.
    pub fn new(elements: Vec<T>) -> PlainList<T>
        ensures { result ≡ elements.items }
    {
        PlainList { elements }
    }

    /// The list without elements.
    pub fn empty(alloc: Global) -> PlainList<T>
        ensures { result ≡ [] }
    {
        PlainList {
            elements: Vec::new(alloc),
        }
    }

    /// The elements, in order.
    pub fn as_slice(&self) -> &[T]
        ensures { result.now ≡ self.now }
    {
        self.elements.as_slice()
    }
}

impl<T: Drop> PlainList<T> {
    /// Adds the element after the others.
    pub fn push(&mut self, element: T) -> Result<(), AllocError>
        ensures { OnOk result (self.new ≡ self.old ++ element ∷ []) }
    {
        self.elements.push(element)?;
        Ok(())
    }
}
