//! The engines that read two texts and write to the standard output alone.
ghost use Rattle.std.specs.Prelude.{◌≡◌};
ghost use Rattle.command_run.specs.TextEngines.{IsRunOfTexts};
ghost use Rattle.verdict_report.specs.Runs.{source_run, sink_run};

use dimacs::Sink;
use part_report::run_part;
use std::alloc::Global;
use verdict_report::{Fault, Source, Status, run_decode, run_judge, run_lrat, run_recheck};

/// An engine of two texts.
#[derive(Clone, Copy)]
pub(crate) enum TwoTextEngine {
    /// Judges a schedule of a trace.
    Judge,
    /// Makes the schedule of a trace of a model.
    Decode,
    /// Checks a proof for a formula.
    Lrat,
    /// Checks a certificate for a trace.
    Recheck,
    /// Makes the part of a trace, or lists its names.
    Part {
        /// Whether names are listed.
        shows_names: bool,
    },
}

/// Runs the engine on these two sources.
pub(crate) fn run_on_texts<A: Source, B: Source, W: Sink>(
    alloc: Global,
    engine: TwoTextEngine,
    first: &mut A,
    second: &mut B,
    out: &mut W,
) -> Result<Status, Fault>
    ensures run { IsRunOfTexts engine
        (source_run A.handed_out A.is_at_end A.failures first.old first.new) (source_run B.handed_out B.is_at_end B.failures second.old second.new)
        (sink_run W.written W.failures out.old out.new) result }
    ensures same_first { A.path first.new ≡ A.path first.old }
    ensures same_second { B.path second.new ≡ B.path second.old }
{
    match engine {
        TwoTextEngine::Judge => run_judge(alloc, first, second, out),
        TwoTextEngine::Decode => run_decode(alloc, first, second, out),
        TwoTextEngine::Lrat => run_lrat(alloc, first, second, out),
        TwoTextEngine::Recheck => run_recheck(alloc, first, second, out),
        TwoTextEngine::Part { shows_names } => run_part(alloc, first, second, shows_names, out),
    }
}
