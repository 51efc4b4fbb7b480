//! Hints of an addition.

ghost use Rattle.std.specs.Prelude.{◌≡◌, ◌↔◌, length, nat_abs, IsTrue, IfOk, IfSome, OnOk};
ghost use Rattle.std.specs.List.{list_all};
ghost use Rattle.lrat_check.specs.HintNumbers.{numbers_in};
ghost use Rattle.lrat_check.specs.LratText.{is_id_number};
ghost use Rattle.lrat_check.specs.OtherCubes.{is_outside};

use crate::lrat_number::is_hint;
use crate::other_cubes::is_outside;
use short_lists::inline_list::InlineList;
use std::alloc::{AllocError, Global};
use std::marker::Model;

/// The most numbers of 32 bits that stand in the value itself. They take no more room there than the header of a list, and need no memory
/// of their own.
const FEW: usize = 4;

/// Numbers, in 32 bits each if all of them fit. A few of those stand in the value itself. `Hints::new` makes a `Long` of any numbers, so
/// the same numbers can be kept in different ways; only `Hints::compact` takes the smallest.
pub enum NumberList {
    Few(InlineList<i32, FEW>),
    Short(Vec<i32>),
    Long(Vec<i64>),
}

/// Drops the numbers in one call. A derived `Drop` would drop each at every exit of a function that owns a list of them, which makes its proof longer.
impl Drop for NumberList {
    fn drop(self) {
        match self {
            NumberList::Few(_few) => {}
            NumberList::Short(_short) => {}
            NumberList::Long(_long) => {}
        }
    }
}

/// The hints of an addition, in the order of their use: ids of clauses, and the negatives of ids, each of which begins a
/// group.
pub struct Hints {
    numbers: NumberList,
}

/// Drops the numbers in one call. A derived `Drop` would drop each at every exit of a function that owns hints, which makes its proof longer.
impl Drop for Hints {
    fn drop(self) {
        let Hints { numbers: _numbers } = self;
    }
}

impl Model for Hints {
    ghost use Rattle.std.specs.Prelude.{List, ℤ};
    ghost use Rattle.lrat_check.specs.HintNumbers.{numbers_in};

    ghost Value = { List ℤ };

    ghost view = { λ hints. numbers_in hints.numbers };
}

/// The number, if it fits 32 bits.
fn shorten(number: i64) -> Option<i32>
    ensures { IfSome result (λ short. short ≡ number) }
{
    i32::try_from(number).ok()
}

/// The numbers, if they are few and each of them fits 32 bits.
fn few_of(numbers: &[i64]) -> Option<InlineList<i32, FEW>>
    ensures { IfSome result (λ few. few ≡ numbers.now) }
{
    let mut few = InlineList::empty();
    for number in numbers {
        if few.is_full() {
            return None;
        }
        few.push(shorten(*number)?);
    }
    Some(few)
}

/// The numbers, if each of them fits 32 bits. They take no more room than they need.
fn shorten_all(alloc: Global, numbers: &[i64]) -> Result<Option<Vec<i32>>, AllocError>
    ensures { IfOk result (λ found. IfSome found (λ short. short.items ≡ numbers.now)) }
{
    let mut short = Vec::with_capacity(alloc, numbers.len())?;
    for number in numbers {
        match shorten(*number) {
            Some(number) => short.push(number)?,
            None => return Ok(None),
        }
    }
    Ok(Some(short))
}

/// Writes these numbers, in 64 bits each, over as many others.
fn lengthen(numbers: &mut [i64], short: &[i32])
    requires { length numbers.old ≡ length short.now }
    ensures { numbers.new ≡ short.now }
{
    for i in 0..short.len() {
        numbers[i] = i64::from(short[i]);
    }
}

/// Puts a copy of these numbers, in 64 bits each, in the place of those that the list has.
fn lengthen_all(numbers: &mut Vec<i64>, short: &[i32]) -> Result<(), AllocError>
    ensures { OnOk result (numbers.new.items ≡ short.now) }
{
    numbers.clear();
    numbers.resize(short.len(), 0)?;
    lengthen(numbers.as_mut_slice(), short);
    Ok(())
}

/// Returns whether these are the same numbers in the same order.
fn are_same_short(first: &[i32], second: &[i32]) -> bool
    ensures { IsTrue result ↔ (first.now ≡ second.now) }
{
    first == second
}

/// Returns whether these are the same numbers in the same order.
fn are_same_long(first: &[i64], second: &[i64]) -> bool
    ensures { IsTrue result ↔ (first.now ≡ second.now) }
{
    first == second
}

impl Hints {
    /// These hints, each in the 64 bits that it has.
    pub fn new(numbers: Vec<i64>) -> Hints
        ensures { result ≡ numbers.items }
    {
        Hints {
            numbers: NumberList::Long(numbers),
        }
    }

    /// A copy of these hints that takes little room, to be kept beside many others.
    pub fn compact(alloc: Global, numbers: &[i64]) -> Result<Hints, AllocError>
        ensures { IfOk result (λ hints. hints ≡ numbers.now) }
    {
        if let Some(few) = few_of(numbers) {
            return Ok(Hints {
                numbers: NumberList::Few(few),
            });
        }
        if let Some(short) = shorten_all(alloc, numbers)? {
            return Ok(Hints {
                numbers: NumberList::Short(short),
            });
        }
        Ok(Hints::new(Vec::from_slice(alloc, numbers)?))
    }

    /// The hints, in order.
    pub fn to_vec(&self, alloc: Global) -> Result<Vec<i64>, AllocError>
        ensures { IfOk result (λ numbers. numbers.items ≡ self.now) }
    {
        let mut numbers = Vec::new(alloc);
        self.copy_to(&mut numbers)?;
        Ok(numbers)
    }

    /// Puts the hints, in order, in the place of the numbers that the list has.
    pub fn copy_to(&self, numbers: &mut Vec<i64>) -> Result<(), AllocError>
        ensures { OnOk result (numbers.new.items ≡ self.now) }
    {
        match &self.numbers {
            NumberList::Few(few) => lengthen_all(numbers, few.as_slice()),
            NumberList::Short(short) => lengthen_all(numbers, short.as_slice()),
            NumberList::Long(long) => {
                numbers.clear();
                numbers.extend_from_slice(long.as_slice())
            }
        }
    }

    /// Returns whether each of them can be written: it is an id or the negative of one.
    pub fn are_ids(&self) -> bool
        ensures { result ≡ list_all is_id_number self.now }
    {
        match &self.numbers {
            NumberList::Few(few) => few
                .as_slice()
                .iter()
                .all(|number| is_hint(i64::from(*number))),
            NumberList::Short(short) => short.iter().all(|number| is_hint(i64::from(*number))),
            NumberList::Long(long) => long.iter().all(|number| is_hint(*number)),
        }
    }

    /// Returns whether none of them is, or is the negative of, an id of a cube of this length, after this many clauses.
    pub(crate) fn are_outside(&self, clauses: usize, cube: usize) -> bool
        ensures { result ≡ list_all (λ hint. is_outside clauses cube (nat_abs hint)) self.now }
    {
        match &self.numbers {
            NumberList::Few(few) => few.as_slice().iter().all(|number| is_outside(
                clauses,
                cube,
                u64::from(number.unsigned_abs()),
            )),
            NumberList::Short(short) => short.iter().all(|number| is_outside(
                clauses,
                cube,
                u64::from(number.unsigned_abs()),
            )),
            NumberList::Long(long) => long
                .iter()
                .all(|number| is_outside(clauses, cube, number.unsigned_abs())),
        }
    }

    /// A copy of these hints. Each takes as much room as here.
    pub fn copied(&self, alloc: Global) -> Result<Hints, AllocError>
        ensures { IfOk result (λ hints. hints ≡ self.now) }
    {
        let numbers = match &self.numbers {
            NumberList::Few(few) => NumberList::Few(InlineList::copy_of(few.as_slice())),
            NumberList::Short(short) => NumberList::Short(Vec::from_slice(
                alloc,
                short.as_slice(),
            )?),
            NumberList::Long(long) => NumberList::Long(Vec::from_slice(alloc, long.as_slice())?),
        };
        Ok(Hints { numbers })
    }

    /// Returns whether these are the same hints in the same order, kept in the same way. The same hints may be kept in another. It is asked whether the
    /// derivation for one cube is a copy (`copied`) of that for another, which then needs no check; so a wrong no costs time alone.
    pub fn are_same(&self, other: &Hints) -> bool
        ensures { IsTrue result → self.now ≡ other.now }
    {
        match &self.numbers {
            NumberList::Few(few) => other.are_few(few.as_slice()),
            NumberList::Short(short) => other.are_short(short.as_slice()),
            NumberList::Long(long) => other.are_long(long.as_slice()),
        }
    }

    /// Returns whether these are those few numbers.
    fn are_few(&self, numbers: &[i32]) -> bool
        ensures { IsTrue result → numbers.now ≡ self.now }
    {
        match &self.numbers {
            NumberList::Few(few) => are_same_short(few.as_slice(), numbers),
            NumberList::Short(_) => false,
            NumberList::Long(_) => false,
        }
    }

    /// Returns whether these are those numbers, and kept in 32 bits each.
    fn are_short(&self, numbers: &[i32]) -> bool
        ensures { IsTrue result → numbers.now ≡ self.now }
    {
        match &self.numbers {
            NumberList::Few(_) => false,
            NumberList::Short(short) => are_same_short(short.as_slice(), numbers),
            NumberList::Long(_) => false,
        }
    }

    /// Returns whether these are those numbers, and kept in 64 bits each.
    fn are_long(&self, numbers: &[i64]) -> bool
        ensures { IsTrue result → numbers.now ≡ self.now }
    {
        match &self.numbers {
            NumberList::Few(_) => false,
            NumberList::Short(_) => false,
            NumberList::Long(long) => are_same_long(long.as_slice(), numbers),
        }
    }
}
