//! Where before pairs stand in a trace.

use order_clauses::order_pair::OrderPair;
use reason_text::operation_table::OperationTable;
use std::alloc::{AllocError, Global};
use std::collections::HashMap;
use trace_semantics::operation::OpName;
use trace_semantics::trace::Trace;
use writer_table::operation_place::OperationPlace;

/// For each before pair of a trace its place in the trace's list. Who relies on a place looks at the list again.
#[derive(Drop)]
pub struct BeforePlaces {
    places: HashMap<OrderPair, usize>,
}

/// The operation of this name.
fn place_of<'a>(table: &OperationTable<'a>, name: &'a OpName) -> Option<OperationPlace> {
    table.find(name.process.as_bytes(), name.place)
}

/// The pair of operations of these names.
fn pair_of<'a>(table: &OperationTable<'a>, pair: &'a (OpName, OpName)) -> Option<OrderPair> {
    let first = place_of(table, &pair.0)?;
    let second = place_of(table, &pair.1)?;
    Some(OrderPair { first, second })
}

impl BeforePlaces {
    /// The places of the trace's before pairs.
    pub fn of<'a>(
        alloc: Global,
        trace: &'a Trace,
        table: &OperationTable<'a>,
    ) -> Result<BeforePlaces, AllocError> {
        let pairs = trace.before();
        let mut places = HashMap::with_capacity(alloc, pairs.len())?;
        for k in 0..pairs.len() {
            if let Some(pair) = pair_of(table, &pairs[k]) {
                places.insert(pair, k)?;
            }
        }
        Ok(BeforePlaces { places })
    }

    /// The place of the pair, counted from 0 in the trace's list; one past all places if the trace does not have it.
    pub fn place(&self, pair: OrderPair) -> usize {
        match self.places.get(&pair) {
            Some(place) => *place,
            None => usize::MAX,
        }
    }
}
