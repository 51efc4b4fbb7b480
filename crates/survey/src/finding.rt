//! What a survey finds.
//!
//! A core is operations, mostly few, whose part, what they say by themselves, should have no legal schedule; then the whole has none. It is not believed:
//! the caller makes the part of the trace and refutes its formula, which has room for few operations.
ghost use Rattle.std.specs.Prelude.{◌≤◌, IfOk};

use crate::another::make_smaller;
use crate::counting_first::counted_reasons;
use crate::engine_reasons::{TraceCertificate, certificate_of};
use crate::given_order::GivenOrder;
use crate::local_reads::ReducedLog;
use crate::purse::Purse;
use crate::shrinking::Core;
use numbered_log::{Budget, NumberedLog, OperationId};
use order_propagation::Propagation;
use schedule_search::{ScheduleSearch, SearchEnding};
use std::alloc::{AllocError, Global};
use surveyor::{Extent, Finding, Overview, Surveyor};
use total_tables::size;
use trace_log::{log_of, names_of, numbers_of_names};
use trace_semantics::operation::OpName;
use trace_semantics::trace::Trace;

/// The finding, as numbers.
#[derive(Drop)]
enum NumberedFinding {
    Schedule(Vec<OperationId>),
    Core(Vec<OperationId>),
    Nothing,
}

/// The finding, by names.
#[derive(Drop)]
struct NamedFinding {
    finding: Finding,
    /// Whether it is a schedule, or a core that the survey has refuted and that a formula can decide.
    is_shown: bool,
}

/// Two findings, in the order in which they are asked. The caller judges the second only if the first shows nothing.
#[derive(Drop)]
struct OrderedFindings {
    finding: Finding,
    otherwise: Finding,
}

/// A core that was made smaller, and whether it is refuted in what the survey makes of its part.
#[derive(Drop)]
struct SmallCore {
    operations: Vec<OperationId>,
    is_refuted: bool,
}

/// A walk's end, and how far it came.
#[derive(Drop)]
struct Walked {
    numbers: NumberedFinding,
    /// The certificate of the contradiction, if there is one.
    certificate: Option<TraceCertificate>,
    /// The most operations that were placed.
    placed: u32,
    /// The readers that have more than one possible source.
    undecided: u32,
}

/// The looks at entries of tables that are one step.
const LOOKS: u64 = 4;

/// The entries of the rows of a log for which a step has one look more.
const ENTRIES_OF_LOOK: u64 = 1 << 22;

/// The looks that are one step in this log. A large one takes more for the same work: each pass goes over all rows.
fn looks_of_step(log: &NumberedLog) -> u64 {
    let entries = (log.count() as u64).wrapping_mul(log.processes() as u64);
    LOOKS.saturating_add(entries / ENTRIES_OF_LOOK)
}

/// The steps that these looks are, of which each step has this number. Looks that make no whole step are left out, so what is left never counts for more
/// than it is.
fn steps_of(looks: u64, of_each: u64) -> u64 {
    if of_each == 0 {
        return 0;
    }
    looks / of_each
}

/// The most operations of a part that is decided by its formula. A larger core is not counted as shown, and a certificate of reasons goes before it.
const MAX_OF_FORMULA: u32 = 160;

/// The progress of a survey that has taken no step.
const NO_EXTENT: Extent = Extent {
    placed: 0,
    undecided: 0,
    steps: 0,
};

/// The survey that counts, saturates an order and walks from the front, until it has found something or its budget of steps is spent.
#[derive(Clone, Copy)]
pub struct BySaturation {
    /// The most steps that it takes. A step is several looks, by `looks_of_step`.
    pub budget: u64,
}

impl Surveyor for BySaturation {
    ghost budget = { λ s. s.budget };

    fn survey(
        &self,
        alloc: Global,
        trace: &Trace,
        hint: &[OpName],
    ) -> Result<Overview, AllocError> {
        let counted = counted_reasons(alloc, trace)?;
        match counted {
            None => self.saturate(alloc, trace, hint),
            Some(reasons) if reasons.are_many => Ok(Overview {
                finding: reasons.into_finding(),
                otherwise: Finding::Nothing,
                extent: NO_EXTENT,
            }),
            Some(reasons) => {
                let overview = self.saturate(alloc, trace, hint)?;
                Ok(reasons.beside(overview))
            }
        }
    }
}

impl BySaturation {
    /// The finding of saturation and of walks.
    fn saturate(
        &self,
        alloc: Global,
        trace: &Trace,
        hint: &[OpName],
    ) -> Result<Overview, AllocError>
        ensures { IfOk result (λ overview. overview.extent.steps ≤ self.now.budget) }
    {
        let log = log_of(alloc, trace)?;
        let hint = numbers_of_names(alloc, trace, hint)?;
        let mut purse = Purse::new(self.budget);
        let looks = looks_of_step(&log);
        let mut budget = Budget::new(purse.left().saturating_mul(looks));
        let walked = walk_over(alloc, &log, hint.as_slice(), &mut budget)?;
        purse.settle(steps_of(budget.left(), looks));
        // In looks again, as what the search for other cores may take.
        let spent = purse.taken().saturating_mul(looks);
        let mut budget = Budget::new(purse.left().saturating_mul(looks));
        let Walked {
            numbers,
            certificate,
            placed,
            undecided,
        } = walked;
        let found = finding_of(alloc, trace, &log, numbers, spent, &mut budget)?;
        purse.settle(steps_of(budget.left(), looks));
        let certificate = reasons_of(alloc, trace, &log, certificate)?;
        let OrderedFindings { finding, otherwise } = found.with_reasons(certificate);
        Ok(Overview {
            finding,
            otherwise,
            extent: Extent {
                placed,
                undecided,
                steps: purse.taken(),
            },
        })
    }
}

/// The finding, by names. A core is made smaller. Finding it took the `spent` looks, on which depends how long another one is looked for.
fn finding_of(
    alloc: Global,
    trace: &Trace,
    log: &NumberedLog,
    numbers: NumberedFinding,
    spent: u64,
    budget: &mut Budget,
) -> Result<NamedFinding, AllocError> {
    match numbers {
        NumberedFinding::Schedule(operations) => {
            let names = names_of(alloc, trace, log, operations.as_slice())?;
            Ok(NamedFinding {
                finding: Finding::Schedule(names),
                is_shown: true,
            })
        }
        NumberedFinding::Core(operations) => {
            let core = smallest_core(alloc, log, operations, spent, budget)?;
            let names = names_of(alloc, trace, log, core.operations.as_slice())?;
            Ok(NamedFinding {
                finding: Finding::Core(names),
                is_shown: core.is_refuted && size(core.operations.as_slice()) <= MAX_OF_FORMULA,
            })
        }
        NumberedFinding::Nothing => Ok(NamedFinding {
            finding: Finding::Nothing,
            is_shown: false,
        }),
    }
}

/// The certificate as a finding, if there is one.
fn reasons_of(
    alloc: Global,
    trace: &Trace,
    log: &NumberedLog,
    certificate: Option<TraceCertificate>,
) -> Result<Finding, AllocError> {
    match certificate {
        Some(certificate) => Ok(Finding::Reasons(certificate.text(alloc, trace, log)?)),
        None => Ok(Finding::Nothing),
    }
}

impl NamedFinding {
    /// The finding and the certificate of reasons, if that is one. The certificate comes first where the finding shows nothing, or is a core
    /// whose part is hardly refuted.
    fn with_reasons(self, reasons: Finding) -> OrderedFindings {
        let NamedFinding { finding, is_shown } = self;
        match reasons {
            Finding::Reasons(text) if !is_shown => OrderedFindings {
                finding: Finding::Reasons(text),
                otherwise: finding,
            },
            reasons => OrderedFindings {
                finding,
                otherwise: reasons,
            },
        }
    }
}

/// A schedule, or the operations from which a contradiction follows. A quarter of the budget is kept for what comes after: a certificate, which
/// takes a small part of what the walks have taken, and then a smaller core, since one that stays as it is is often too large to be refuted.
fn walk_over(
    alloc: Global,
    log: &NumberedLog,
    hint: &[OperationId],
    budget: &mut Budget,
) -> Result<Walked, AllocError> {
    let kept = budget.share(budget.left() / 4);
    let reduced = ReducedLog::of(alloc, log)?;
    let hint = reduced.kept_of(alloc, log, hint)?;
    // The order has a copy of the budget. What is left of it is read back whenever work of the order has ended.
    let mut order = Propagation::new(alloc, &reduced.log, *budget)?;
    let mut search = ScheduleSearch::new(alloc);
    let ending = search.run(alloc, &mut order, hint.as_slice())?;
    *budget = order.budget();
    budget.give_back(kept);
    order.set_budget(*budget);
    let mut certificate = None;
    if ending == SearchEnding::Refuted {
        certificate = certificate_of(alloc, &reduced, &mut order, &search)?;
    }
    *budget = order.budget();
    Ok(Walked {
        numbers: numbers_of(alloc, log, &reduced, &search, ending)?,
        certificate,
        placed: search.most_placed(),
        undecided: undecided_of(&order),
    })
}

/// The number of reads and final values that have more than one possible source.
fn undecided_of(order: &Propagation<'_>) -> u32 {
    let mut count: u32 = 0;
    for reader in OperationId::first(order.sources().readers()) {
        if order.sources().has_several(reader) {
            count = count.wrapping_add(1);
        }
    }
    count
}

/// The finding of a search that has ended so. It went over the reduced log: `expand` puts what that lacks back into a schedule, and of a core only the numbers
/// change. A search keeps a core where it has met a contradiction.
fn numbers_of(
    alloc: Global,
    log: &NumberedLog,
    reduced: &ReducedLog,
    search: &ScheduleSearch,
    ending: SearchEnding,
) -> Result<NumberedFinding, AllocError> {
    if ending == SearchEnding::Scheduled {
        let schedule = reduced.expand(alloc, log, search.schedule())?;
        return Ok(NumberedFinding::Schedule(schedule));
    }
    match search.core() {
        Some(core) => Ok(NumberedFinding::Core(reduced.in_whole(alloc, core)?)),
        None => Ok(NumberedFinding::Nothing),
    }
}

/// Makes the core smaller while saturation, or a walk, still refutes it. The formula of its part grows with the cube of its operations, so
/// a core that stays large is never refuted. The order is made here and lent, since a function that owned it would drop it at each of its exits,
/// which makes a proof longer.
fn smallest_core(
    alloc: Global,
    log: &NumberedLog,
    operations: Vec<OperationId>,
    spent: u64,
    budget: &mut Budget,
) -> Result<SmallCore, AllocError> {
    let forced = GivenOrder::new(alloc, log, budget)?;
    smallest_core_of(alloc, &forced, operations, spent, budget)
}

/// Makes the core smaller, given the order that program order and known pairs force.
fn smallest_core_of<'a>(
    alloc: Global,
    forced: &'a GivenOrder<'a>,
    operations: Vec<OperationId>,
    spent: u64,
    budget: &mut Budget,
) -> Result<SmallCore, AllocError> {
    let mut core = Core::new(alloc, forced, operations)?;
    let is_refuted = make_smallest(alloc, forced, &mut core, spent, budget)?;
    Ok(SmallCore {
        operations: Vec::from_slice(alloc, core.operations())?,
        is_refuted,
    })
}

/// Makes the core smaller, after it was completed so that saturation or a walk refutes it. Returns whether one does. If the pairs of the log are cyclic,
/// the core only gets the writers that keep its reads, and counts as refuted.
fn make_smallest<'a>(
    alloc: Global,
    forced: &'a GivenOrder<'a>,
    core: &mut Core<'a>,
    spent: u64,
    budget: &mut Budget,
) -> Result<bool, AllocError> {
    if forced.is_cyclic() {
        core.add_writers(budget)?;
        return Ok(true);
    }
    core.complete(budget)?;
    if core.is_refuted(budget)? {
        make_smaller(alloc, forced, core, spent, budget)?;
        return Ok(true);
    }
    core.refute_by_walks();
    if core.is_refuted(budget)? {
        core.shrink(budget)?;
        return Ok(true);
    }
    Ok(false)
}
