//! Certificates of reasons of what the order engine has refuted.

use crate::local_reads::ReducedLog;
use numbered_log::{NumberedLog, OperationId};
use order_certificate::{
    LogNames, NamedPlace, OrderCertificate, certificate_of_conflict, certificate_of_learning,
    certificate_of_takers,
};
use order_propagation::Propagation;
use schedule_search::ScheduleSearch;
use std::alloc::{AllocError, Global};
use trace_log::location_names;
use trace_semantics::trace::Trace;

/// The names of the log that is made of the trace, of its operations those of these numbers.
fn log_names<'a>(
    alloc: Global,
    trace: &'a Trace,
    log: &NumberedLog,
    operations: &[OperationId],
) -> Result<LogNames<'a>, AllocError> {
    let mut names = LogNames {
        processes: Vec::new(alloc),
        locations: location_names(alloc, trace)?,
        operations: Vec::new(alloc),
    };
    for number in operations {
        let operation = log.operation(*number);
        names.operations.push(NamedPlace {
            process: operation.process,
            place: operation.place,
        })?;
    }
    for process in trace.processes() {
        names.processes.push(process.name.as_bytes())?;
    }
    Ok(names)
}

/// A certificate of the log without repeated local reads, which is one of the whole: the reads that were left out are in none of its lines.
#[derive(Drop)]
pub(crate) struct TraceCertificate {
    certificate: OrderCertificate,
    /// For each operation of that log its number in the whole.
    numbers: Vec<OperationId>,
}

impl TraceCertificate {
    /// The text, with the names of the trace, of which the log is made.
    pub(crate) fn text(
        &self,
        alloc: Global,
        trace: &Trace,
        log: &NumberedLog,
    ) -> Result<Vec<u8>, AllocError> {
        let names = log_names(alloc, trace, log, self.numbers.as_slice())?;
        self.certificate.text(alloc, &names)
    }
}

/// The certificate of a log that the search has refuted; none if a reason has no line, or if the budget is spent before.
pub(crate) fn certificate_of(
    alloc: Global,
    reduced: &ReducedLog,
    order: &mut Propagation<'_>,
    search: &ScheduleSearch,
) -> Result<Option<TraceCertificate>, AllocError> {
    let Some(certificate) = certificate_by_numbers(alloc, reduced, order, search)? else {
        return Ok(None);
    };
    let mut operations = Vec::new(alloc);
    for number in reduced.log.operation_ids() {
        operations.push(number)?;
    }
    Ok(Some(TraceCertificate {
        certificate,
        numbers: reduced.in_whole(alloc, operations.as_slice())?,
    }))
}

/// The certificate, by the numbers of the log without repeated local reads.
///
/// Pairs may rest on what walks have learned, so if there is any of that it is derived anew, in an order of its own, which has this one's budget meanwhile.
/// Else the log was refuted by takers, which are updates and last writes with too few sources, or by the conflict in which propagation ended. If counting
/// by value refuted it before anything was propagated, there is neither, and no certificate comes of it here.
fn certificate_by_numbers(
    alloc: Global,
    reduced: &ReducedLog,
    order: &mut Propagation<'_>,
    search: &ScheduleSearch,
) -> Result<Option<OrderCertificate>, AllocError> {
    if let Some(learned) = search.learned() {
        let mut budget = order.budget();
        let core = search.core();
        let certificate = certificate_of_learning(alloc, &reduced.log, learned, core, &mut budget)?;
        order.set_budget(budget);
        return Ok(certificate);
    }
    match search.takers() {
        Some(takers) => certificate_of_takers(alloc, order, takers),
        None => certificate_of_conflict(alloc, order),
    }
}
