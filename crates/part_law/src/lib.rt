//! Parts of traces: what some operations of a trace say by themselves.
//!
//! A part is made of chosen operations. It keeps what a chosen operation reads only if each operation is chosen too from which the
//! value may be, by an order that every legal schedule of the trace obeys. So every legal schedule of the trace, restricted to what
//! remains, is a legal schedule of the part, and if the part has none, the trace has none. Any operations may be chosen.
#![tactic(auto)]

pub mod laws;
