//! Certificates of reasons by counting: more updates want a value than operations leave.
ghost use Rattle.std.specs.Prelude.{◌≡◌};

use std::alloc::{AllocError, Global};
use std::collections::HashMap;
use surveyor::{Finding, Overview};
use trace_semantics::name::Name;
use trace_semantics::name_table::NameTable;
use trace_semantics::operation::Op;
use trace_semantics::trace::Trace;

/// The most updates and sources of a value that are left to the search for a core, which names them. The proof for the part of a core
/// grows with the cube of its operations.
const MAX_OF_CORE: u64 = 8;

/// A value at a location, by the location's number.
#[derive(Clone, Copy, Debug, PartialEq, Eq, Hash)]
struct PlacedValue {
    location: u64,
    value: u64,
}

/// How many want a value at a location, each from a source of its own, and how many leave it there.
#[derive(Clone, Copy)]
struct ValueCount<'a> {
    location: &'a [u8],
    value: u64,
    wanting: u64,
    leaving: u64,
}

/// The counts of all values of a trace.
#[derive(Drop)]
struct ValueCounts<'a> {
    locations: NameTable<'a>,
    /// For each value the place of its count.
    places: HashMap<PlacedValue, usize>,
    counts: Vec<ValueCount<'a>>,
}

/// A certificate of reasons, and whether it counts more operations than a core is to have.
#[derive(Drop)]
pub(crate) struct CountedReasons {
    text: Vec<u8>,
    /// Then it is given alone, and no core is looked for.
    pub(crate) are_many: bool,
}

impl<'a> ValueCounts<'a> {
    /// The number of the location, which it gets now unless it has one.
    fn number(&mut self, location: &'a [u8]) -> Result<u64, AllocError> {
        if let Some(number) = self.locations.get(location) {
            return Ok(number);
        }
        // A location without a number has no count yet either, and gets one right after this: so no other has this number.
        let number = self.counts.len() as u64;
        self.locations.insert(location, number)?;
        Ok(number)
    }

    /// The place of the count of the value, which it gets now unless it has one.
    fn place(&mut self, location: &'a Name, value: u64) -> Result<usize, AllocError> {
        let placed = PlacedValue {
            location: self.number(location.as_bytes())?,
            value,
        };
        if let Some(place) = self.places.get(&placed) {
            return Ok(*place);
        }
        let place = self.counts.len();
        self.places.insert(placed, place)?;
        self.counts.push(ValueCount {
            location: location.as_bytes(),
            value,
            wanting: 0,
            leaving: 0,
        })?;
        Ok(place)
    }

    /// Counts one more that wants the value.
    fn add_wanting(&mut self, location: &'a Name, value: u64) -> Result<(), AllocError> {
        let place = self.place(location, value)?;
        if let Some(count) = self.counts.get_mut(place) {
            count.wanting = count.wanting.saturating_add(1);
        }
        Ok(())
    }

    /// Counts one more that leaves the value.
    fn add_leaving(&mut self, location: &'a Name, value: u64) -> Result<(), AllocError> {
        let place = self.place(location, value)?;
        if let Some(count) = self.counts.get_mut(place) {
            count.leaving = count.leaving.saturating_add(1);
        }
        Ok(())
    }

    /// Counts what the operation wants and leaves. Plain reads take no source away, so they are not counted.
    fn add_operation(&mut self, op: &'a Op) -> Result<(), AllocError> {
        let Some(left) = op.written_value() else {
            return Ok(());
        };
        self.add_leaving(op.location(), left)?;
        match op.value_read() {
            Some(needed) => self.add_wanting(op.location(), needed),
            None => Ok(()),
        }
    }

    /// Counts the initial values, and those final ones whose location is written.
    fn add_ends(&mut self, trace: &'a Trace) -> Result<(), AllocError> {
        // Before the initial values, since these give their location a number too, and it would look as if it were written.
        for entry in trace.final_values() {
            if self.locations.get(entry.0.as_bytes()).is_some() {
                self.add_wanting(&entry.0, entry.1)?;
            }
        }
        for entry in trace.initial() {
            self.add_leaving(&entry.0, entry.1)?;
        }
        Ok(())
    }

    /// The counts of the trace.
    fn of(alloc: Global, trace: &'a Trace) -> Result<ValueCounts<'a>, AllocError> {
        let mut counts = ValueCounts {
            locations: NameTable::new(alloc),
            places: HashMap::new(alloc),
            counts: Vec::new(alloc),
        };
        for process in trace.processes() {
            for op in process.operations.as_slice() {
                counts.add_operation(op)?;
            }
        }
        counts.add_ends(trace)?;
        Ok(counts)
    }

    /// The count of the value of which most are missing, if any are.
    fn shortest(&self) -> Option<ValueCount<'a>> {
        let mut shortest: Option<ValueCount<'a>> = None;
        let mut most: u64 = 0;
        for count in self.counts.as_slice() {
            let missing = count.wanting.saturating_sub(count.leaving);
            if missing > most {
                most = missing;
                shortest = Some(*count);
            }
        }
        shortest
    }
}

/// The certificate with the one line that counts the value.
fn text_of(alloc: Global, count: ValueCount<'_>) -> Result<Vec<u8>, AllocError> {
    let mut text = Vec::new(alloc);
    text.extend_from_slice(b"vsc-reasons 1\nN ")?;
    text.extend_from_slice(count.location)?;
    let value = count.value;
    let end = format!(in alloc; " {value}\n")?;
    text.extend_from_slice(end.as_bytes())?;
    Ok(text)
}

/// A certificate that there are too few sources of a value, if the trace has such a value.
pub(crate) fn counted_reasons(
    alloc: Global,
    trace: &Trace,
) -> Result<Option<CountedReasons>, AllocError> {
    let counts = ValueCounts::of(alloc, trace)?;
    let Some(count) = counts.shortest() else {
        return Ok(None);
    };
    Ok(Some(CountedReasons {
        text: text_of(alloc, count)?,
        are_many: count.wanting.saturating_add(count.leaving) > MAX_OF_CORE,
    }))
}

/// Returns whether it is a core of few operations.
fn is_small_core(finding: &Finding) -> bool {
    match finding {
        Finding::Core(names) => names.len() as u64 <= MAX_OF_CORE,
        Finding::Schedule(_) => false,
        Finding::Reasons(_) => false,
        Finding::Nothing => false,
    }
}

impl CountedReasons {
    /// The certificate as a finding.
    pub(crate) fn into_finding(self) -> Finding {
        let CountedReasons { text, are_many: _ } = self;
        Finding::Reasons(text)
    }

    /// Puts the certificate behind a small core, and else before what was found first. A core names its operations, which this certificate does not.
    /// What was found second is dropped: an overview has room for two findings, of which the caller takes the first that shows something.
    pub(crate) fn beside(self, overview: Overview) -> Overview
        ensures { result.extent ≡ overview.extent }
    {
        let Overview {
            finding,
            otherwise: _otherwise,
            extent,
        } = overview;
        if is_small_core(&finding) {
            Overview {
                finding,
                otherwise: self.into_finding(),
                extent,
            }
        } else {
            Overview {
                finding: self.into_finding(),
                otherwise: finding,
                extent,
            }
        }
    }
}
