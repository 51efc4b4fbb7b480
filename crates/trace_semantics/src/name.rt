//! Names of processes and of locations.

ghost use Rattle.std.specs.Prelude.{◌≡◌, IfOk};
ghost use Rattle.std.specs.List.{list_all};
ghost use Rattle.trace_semantics.specs.Names.{is_name, may_begin_name, may_be_in_name};

use crate::limits::MAX_NAME;
use short_lists::short_list::ShortList;
use std::alloc::{AllocError, Global};
use std::marker::Model;

/// Bytes of the longest name that lies in the value itself; longer ones lie in an allocation.
const INLINE: usize = 16;

/// A name, as its bytes. Names of processes and names of locations are apart from one another.
pub struct Name {
    bytes: ShortList<u8, INLINE>,
}

/// Drops the bytes in one call. A derived `Drop` would drop each at every exit of a function that owns a name, which makes its proof longer.
impl Drop for Name {
    fn drop(self) {
        let Name { bytes: _bytes } = self;
    }
}

impl Model for Name {
    ghost use Rattle.std.specs.Prelude.{List, ℕ};

    ghost Value = { List ℕ };

    ghost view = { λ name. name.bytes };
}

impl Name {
    /// The name of these bytes.
    pub fn copy_of(alloc: Global, bytes: &[u8]) -> Result<Name, AllocError>
        ensures { IfOk result (λ name. name ≡ bytes.now) }
    {
        Ok(Name {
            bytes: ShortList::from_slice(alloc, bytes)?,
        })
    }

    /// Its bytes.
    pub fn as_bytes(&self) -> &[u8]
        ensures { result.now ≡ self.now }
    {
        self.bytes.as_slice()
    }
}

/// Returns whether a name may begin with the byte: a letter or an underscore.
fn may_begin(byte: u8) -> bool
    ensures { result ≡ may_begin_name byte }
{
    byte.is_ascii_alphabetic() || byte == b'_'
}

/// Returns whether the byte may stand in a name: a letter, a digit or an underscore.
fn may_stand(byte: u8) -> bool
    ensures { result ≡ may_be_in_name byte }
{
    may_begin(byte) || byte.is_ascii_digit()
}

fn all_may_stand(word: &[u8]) -> bool
    ensures { result ≡ list_all may_be_in_name word.now }
{
    word.iter().all(|byte| may_stand(*byte))
}

/// Returns whether the word is a name: 1 to 32 bytes, a letter or an underscore and then letters, digits and underscores.
pub fn is_name_word(word: &[u8]) -> bool
    ensures { result ≡ is_name word.now }
{
    1 <= word.len() && word.len() <= MAX_NAME && may_begin(word[0]) && all_may_stand(word)
}
