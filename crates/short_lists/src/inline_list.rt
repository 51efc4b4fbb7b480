//! Lists that lie in the value itself.

ghost use Rattle.std.specs.Prelude.{◌≡◌, ◌==◌, ◌<◌, ◌≤◌, [], ◌∷◌, ◌++◌, length, take};

use std::marker::Model;

/// A list of at most `N` elements. They lie in the value itself, so it needs no memory of its own.
#[derive(Drop)]
pub struct InlineList<T, const N: usize> {
    /// The elements, and past `length` values that are never read.
    places: [T; N],
    length: usize,
}

impl<T, const N: usize> Model for InlineList<T, N> {
    ghost use Rattle.std.specs.Prelude.{◌≤◌, List, take};

    ghost Value = { List T };

    ghost view = { λ list. take list.length list.places };

    ghost invariant = { λ list. list.length ≤ N };
}

impl<T: Copy, const N: usize> InlineList<T, N> {
    /// The first elements of these, as many as `length` says.
    pub fn first_of(places: [T; N], length: usize) -> InlineList<T, N>
        requires { length ≤ N }
        ensures { result ≡ take length places }
    {
        InlineList { places, length }
    }

    /// The elements, in order.
    pub fn as_slice(&self) -> &[T]
        ensures elements { result.now ≡ self.now }
        ensures few { length result.now ≤ N }
    {
        &self.places[..self.length]
    }

    /// Returns whether it has no room for one more.
    pub fn is_full(&self) -> bool
        ensures full { result ≡ (length self.now == N) }
        ensures few { length self.now ≤ N }
    {
        self.length == N
    }

    /// Adds the element after the others.
    pub fn push(&mut self, element: T)
        requires { length self.old < N }
        ensures { self.new ≡ self.old ++ element ∷ [] }
    {
        self.places[self.length] = element;
        self.length += 1;
    }
}

impl<T: Copy + Default, const N: usize> InlineList<T, N> {
    /// The list without elements.
    pub fn empty() -> InlineList<T, N>
        ensures { result ≡ [] }
    {
        InlineList {
            places: Default::default(),
            length: 0,
        }
    }

    /// A copy of these elements.
    pub fn copy_of(elements: &[T]) -> InlineList<T, N>
        requires { length elements.now ≤ N }
        ensures { result ≡ elements.now }
    {
        let mut places: [T; N] = Default::default();
        let length = elements.len();
        places[..length].copy_from_slice(elements);
        InlineList { places, length }
    }
}
