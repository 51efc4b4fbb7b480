//! Lists most of which are short.

ghost use Rattle.std.specs.Prelude.{◌≡◌, ◌≤◌, length, IsOk, IfOk};

use crate::inline_list::InlineList;
use std::alloc::{AllocError, Global};
use std::marker::Model;

/// A list whose elements lie in the value itself if there are at most `N` of them, else in an allocation.
#[derive(Drop)]
pub struct ShortList<T, const N: usize> {
    place: Place<T, N>,
}

/// Where the elements lie.
#[derive(Drop)]
pub(crate) enum Place<T, const N: usize> {
    Inline(InlineList<T, N>),
    Allocated(Vec<T>),
}

impl<T, const N: usize> Model for ShortList<T, N> {
    ghost use Rattle.std.specs.Prelude.{List};
    ghost use Rattle.short_lists.specs.Elements.{elements_of};

    ghost Value = { List T };

    ghost view = { λ list. elements_of list.place };
}

impl<T: Copy + Default, const N: usize> ShortList<T, N> {
    /// A copy of these elements. Up to `N` need no memory.
    pub fn from_slice(alloc: Global, elements: &[T]) -> Result<ShortList<T, N>, AllocError>
        ensures ok { IfOk result (λ list. list ≡ elements.now) }
        ensures short { length elements.now ≤ N → IsOk result }
    {
        if elements.len() <= N {
            return Ok(ShortList {
                place: Place::Inline(InlineList::copy_of(elements)),
            });
        }
        Ok(ShortList {
            place: Place::Allocated(Vec::from_slice(alloc, elements)?),
        })
    }
}

impl<T: Copy, const N: usize> ShortList<T, N> {
    /// The list that lies in the value itself.
    pub fn of(list: InlineList<T, N>) -> ShortList<T, N>
        ensures { result ≡ list }
    {
        ShortList {
            place: Place::Inline(list),
        }
    }

    /// The elements, in order.
    pub fn as_slice(&self) -> &[T]
        ensures { result.now ≡ self.now }
    {
        match &self.place {
            Place::Inline(list) => list.as_slice(),
            Place::Allocated(list) => list.as_slice(),
        }
    }
}
