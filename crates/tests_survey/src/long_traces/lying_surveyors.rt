//! Surveyors that lie.

use std::alloc::{AllocError, Global};
use surveyor::{Extent, Finding, Overview, Surveyor};
use trace_semantics::name::Name;
use trace_semantics::operation::OpName;
use trace_semantics::trace::Trace;

/// What a surveyor says of every trace.
#[derive(Clone, Copy)]
pub enum Lie {
    /// The schedule of these places of the process P.
    Schedule(u32, u32),
    /// The core of these places of the process P.
    Core(u32, u32),
    /// A certificate that counts a value at this location.
    Reasons(u8),
    /// This text as a certificate of reasons.
    Certificate(&'static [u8]),
    /// Nothing.
    Nothing,
}

/// A surveyor that says the same of every trace.
#[derive(Clone, Copy)]
pub struct Liar {
    pub lie: Lie,
    pub otherwise: Lie,
}

impl Liar {
    /// A surveyor that says this, and knows nothing otherwise.
    pub fn of(lie: Lie) -> Liar {
        Liar {
            lie,
            otherwise: Lie::Nothing,
        }
    }
}

/// The operation of P at this place.
fn name_at(alloc: Global, place: u32) -> Result<OpName, AllocError> {
    Ok(OpName {
        process: Name::copy_of(alloc, b"P")?,
        place,
    })
}

/// The operations of P at these places.
fn names_at(alloc: Global, first: u32, second: u32) -> Result<Vec<OpName>, AllocError> {
    let mut names = Vec::new(alloc);
    names.push(name_at(alloc, first)?)?;
    names.push(name_at(alloc, second)?)?;
    Ok(names)
}

/// The text of a certificate that there are too few sources of 0 at this location.
fn counting_text(alloc: Global, location: u8) -> Result<Vec<u8>, AllocError> {
    let mut text = Vec::new(alloc);
    text.extend_from_slice(b"vsc-reasons 1\nN ")?;
    text.push(location)?;
    text.extend_from_slice(b" 0\n")?;
    Ok(text)
}

/// A copy of the text.
fn copy_of(alloc: Global, text: &[u8]) -> Result<Vec<u8>, AllocError> {
    let mut copy = Vec::new(alloc);
    copy.extend_from_slice(text)?;
    Ok(copy)
}

/// What the lie says.
fn finding_of(alloc: Global, lie: Lie) -> Result<Finding, AllocError> {
    match lie {
        Lie::Schedule(first, second) => Ok(Finding::Schedule(names_at(alloc, first, second)?)),
        Lie::Core(first, second) => Ok(Finding::Core(names_at(alloc, first, second)?)),
        Lie::Reasons(location) => Ok(Finding::Reasons(counting_text(alloc, location)?)),
        Lie::Certificate(text) => Ok(Finding::Reasons(copy_of(alloc, text)?)),
        Lie::Nothing => Ok(Finding::Nothing),
    }
}

impl Surveyor for Liar {
    ghost budget = { λ _. 0 };

    fn survey(
        &self,
        alloc: Global,
        _trace: &Trace,
        _hint: &[OpName],
    ) -> Result<Overview, AllocError> {
        Ok(Overview {
            finding: finding_of(alloc, self.lie)?,
            otherwise: finding_of(alloc, self.otherwise)?,
            extent: Extent {
                placed: 7,
                undecided: 3,
                steps: 0,
            },
        })
    }
}
