//! Which writes a read of a log may have read from: for each process an interval of its writers of the value.
//!
//! Nothing here is believed. So nothing is proved of it but that it is safe and comes to an end, and a look past the end of a table
//! reads a fixed value.
#![tactic(auto)]

mod earlier_sources;
mod hiding_accesses;
mod interval_ends;
mod reader_classes;
mod source_intervals;
mod time;
mod value_classes;

pub use earlier_sources::{EarlierBound, EarlierInterval, EarlierSources};
pub use hiding_accesses::{HidingAccesses, HidingQuery};
pub use reader_classes::ReaderClasses;
pub use source_intervals::{
    INITIAL_VALUE, LossCause, LostBound, LostPart, SourceIntervals, SourceLoss,
};
pub use time::Time;
pub use value_classes::{ClassId, ClassIds, ValueClasses};
