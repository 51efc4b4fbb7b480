//! Lists of ids of clauses.

ghost use Rattle.std.specs.Prelude.{◌≡◌, ◌≤◌, length, IsOk, IfOk};

use short_lists::short_list::ShortList;
use std::alloc::{AllocError, Global};
use std::marker::Model;

/// Lists up to this length are stored inline.
const INLINE: usize = 3;

/// A list of ids of clauses.
pub struct Ids {
    ids: ShortList<u64, INLINE>,
}

/// Drops the ids in one call. A derived `Drop` would drop each at every exit of a function that owns a list of them, which makes its proof longer.
impl Drop for Ids {
    fn drop(self) {
        let Ids { ids: _ids } = self;
    }
}

impl Model for Ids {
    ghost use Rattle.std.specs.Prelude.{List, ℕ};

    ghost Value = { List ℕ };

    ghost view = { λ ids. ids.ids };
}

impl Ids {
    /// A copy of these ids. Up to three need no memory.
    pub fn from_slice(alloc: Global, ids: &[u64]) -> Result<Ids, AllocError>
        ensures ok { IfOk result (λ made. made ≡ ids.now) }
        ensures short { length ids.now ≤ 3 → IsOk result }
    {
        Ok(Ids {
            ids: ShortList::from_slice(alloc, ids)?,
        })
    }

    /// The ids, in order.
    pub fn as_slice(&self) -> &[u64]
        ensures { result.now ≡ self.now }
    {
        self.ids.as_slice()
    }

    /// A copy of this list.
    pub fn copied(&self, alloc: Global) -> Result<Ids, AllocError>
        ensures { IfOk result (λ ids. ids ≡ self.now) }
    {
        Ids::from_slice(alloc, self.ids.as_slice())
    }
}
