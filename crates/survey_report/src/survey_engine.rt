//! The engine that decides whether a long trace has a legal schedule, from bytes to bytes.

ghost use Rattle.std.specs.Prelude.{◌≡◌, ◌+◌, [], ◌∷◌, ◌++◌, IfOk, IfErr, OnErr, OnOk, Ok};
ghost use Rattle.dimacs.specs.Sink.{AppendsFront};
ghost use Rattle.dimacs.specs.SinkFault.{failures_told};
ghost use Rattle.survey_verdict.specs.Surveyed.{core_names, core_part, survey_report};
ghost use Rattle.survey_report.specs.SurveyEngine.{AnswersSurvey, CertifiesSurvey, FollowsFromTexts, IsRunOfCertifiedSurvey, IsRunOfSurvey, IsSaidOfSurvey, IsSurveyedFrom, TellsExtent, status_of_survey};
ghost use Rattle.verdict_report.specs.Engine.{IsRunOfWriting, TakeNothing};
ghost use Rattle.verdict_report.specs.RecheckEngine.{InputHasNoLegalSchedule};
ghost use Rattle.verdict_report.specs.Runs.{source_run, sink_run};
ghost use Rattle.verdict_report.specs.VerifyEngine.{ReportsLegalSchedule};
ghost use Rattle.verdict_report.specs.declared.status.Status.{Status};
ghost use Rattle.verdict_report.specs.declared.status.Status.TheVariants.{No, Unknown, Yes};

use crate::core_sinks::CoreSinks;
use cube_jobs::{Gate, SearchRun};
use dimacs::{Sink, SinkFault, write_whole};
use schedule_text::schedule_reader::read_schedule;
use std::alloc::Global;
use std::sync::Wait;
use std::thread::Threads;
use survey_verdict::laws::{
    core_certificate_is_accepted, core_names_spell, core_part_is_a_trace, core_part_spells,
};
use survey_verdict::{
    Surveyed, decide_with_hint, names_of_core, part_of_core, report_of_survey,
    write_survey_certificate,
};
use surveyor::Surveyor;
use trace_decision::laws::certificate_is_accepted;
use trace_semantics::trace_size::limits_for;
use trace_text::trace_reader::read_trace;
use verdict_report::laws::written_schedule_spells;
use verdict_report::{Fault, Source, Status, read_two, status_of as status_of_decision};

/// Decides whether the trace that the source hands out, of whatever length a trace may have, has a legal schedule, and writes the report:
/// CONSISTENT and a legal schedule of the whole trace, which was judged or is one by the search of the whole; INCONSISTENT and the names
/// of a core, the part of which the search refutes; INCONSISTENT and the operations that the lines of an accepted certificate of reasons
/// name, if they are few (that these are the ones is tested, and no clause says it); INCONSISTENT alone if the search refutes the whole and
/// no part; or UNKNOWN and how far the survey came, if neither was shown. Nothing that the surveyor finds is taken on trust. If at most 160 operations are left of the
/// whole trace, the search of the whole has the last word, so UNKNOWN is said of such a trace only if a search with these options can leave
/// cubes open.
///
/// The second source hands out a hint, a schedule of all or some operations, or no byte, which is none. If it is a legal schedule of the whole
/// trace, it is the answer. Else the surveyor is given it, and nothing that is said rests on it: it may be wrong.
///
/// Both texts are read whole, the trace first, before either is parsed. The first refusal stands: of a source that fails, an input past the
/// limit, the trace's text, the hint's text, the search, lack of memory, or the sink. Before the last a prefix of the report may have been
/// written, and before the others nothing.
pub fn run_survey<
    R: Threads + Wait + Sync,
    T: Source,
    U: Source,
    S: Surveyor,
    G: Gate + Sync,
    W: Sink,
>(
    run: &SearchRun<'_, R, G>,
    surveyor: &S,
    trace: &mut T,
    hint: &mut U,
    out: &mut W,
) -> Result<Status, Fault>
    ensures run { IsRunOfSurvey
        (source_run T.handed_out T.is_at_end T.failures trace.old trace.new)
        (source_run U.handed_out U.is_at_end U.failures hint.old hint.new)
        (sink_run W.written W.failures out.old out.new)
        result }
    ensures consistent { result ≡ Ok Yes → ReportsLegalSchedule
        (source_run T.handed_out T.is_at_end T.failures trace.old trace.new)
        (sink_run W.written W.failures out.old out.new) }
    ensures inconsistent { result ≡ Ok No → InputHasNoLegalSchedule (source_run T.handed_out T.is_at_end T.failures trace.old trace.new) }
    ensures unknown { result ≡ Ok Unknown → TellsExtent run.now.options.now
        (source_run T.handed_out T.is_at_end T.failures trace.old trace.new)
        (sink_run W.written W.failures out.old out.new) }
    ensures answered { (status : Status) → result ≡ Ok status → AnswersSurvey run.now.options.now (S.finds surveyor.now)
        (source_run T.handed_out T.is_at_end T.failures trace.old trace.new)
        (source_run U.handed_out U.is_at_end U.failures hint.old hint.new)
        (sink_run W.written W.failures out.old out.new)
        status }
    ensures same_trace { T.path trace.new ≡ T.path trace.old }
    ensures same_hint { U.path hint.new ≡ U.path hint.old }
    ensures same_out { W.path out.new ≡ W.path out.old }
{
    written_schedule_spells();
    let texts = read_two(run.alloc, trace, hint)?;
    let surveyed = survey_texts(run, surveyor, texts.0.as_slice(), texts.1.as_slice())?;
    write_report(run.alloc, &surveyed, out)
}

/// Does what [`run_survey`] does, and before the report writes three texts of an INCONSISTENT, each to a sink of its own: the certificate,
/// the names of the core, and its part, as a trace's text with the names of its operations in the whole. The certificate is accepted for
/// this part. If the search refutes the whole trace and not the part of all its operations, there are no names and no part, and the
/// certificate is that of the whole. If a certificate of reasons is accepted, it is the certificate, and there are no names and no part. With
/// another report these sinks take nothing.
///
/// If memory runs out or a sink fails while something is written, a prefix of the four texts may have been written: the certificate,
/// the names, the part, and the report. Before the other refusals, which are those of `run_survey`, nothing was.
pub fn run_certified_survey<
    R: Threads + Wait + Sync,
    T: Source,
    U: Source,
    S: Surveyor,
    G: Gate + Sync,
    C: Sink,
    N: Sink,
    P: Sink,
    W: Sink,
>(
    run: &SearchRun<'_, R, G>,
    surveyor: &S,
    trace: &mut T,
    hint: &mut U,
    sinks: &mut CoreSinks<C, N, P>,
    out: &mut W,
) -> Result<Status, Fault>
    ensures run { IsRunOfCertifiedSurvey
        (source_run T.handed_out T.is_at_end T.failures trace.old trace.new)
        (source_run U.handed_out U.is_at_end U.failures hint.old hint.new)
        (sink_run C.written C.failures sinks.old.cert sinks.new.cert)
        (sink_run N.written N.failures sinks.old.names sinks.new.names)
        (sink_run P.written P.failures sinks.old.part sinks.new.part)
        (sink_run W.written W.failures out.old out.new)
        result }
    ensures consistent { result ≡ Ok Yes → ReportsLegalSchedule
        (source_run T.handed_out T.is_at_end T.failures trace.old trace.new)
        (sink_run W.written W.failures out.old out.new) }
    ensures certified { result ≡ Ok No → CertifiesSurvey run.now.options.now
        (source_run T.handed_out T.is_at_end T.failures trace.old trace.new)
        (sink_run C.written C.failures sinks.old.cert sinks.new.cert)
        (sink_run N.written N.failures sinks.old.names sinks.new.names)
        (sink_run P.written P.failures sinks.old.part sinks.new.part)
        (sink_run W.written W.failures out.old out.new) }
    ensures unknown { result ≡ Ok Unknown → TellsExtent run.now.options.now
        (source_run T.handed_out T.is_at_end T.failures trace.old trace.new)
        (sink_run W.written W.failures out.old out.new) }
    ensures silent { (status : Status) → result ≡ Ok status → (status ≡ No → ⊥) → TakeNothing (
        sink_run C.written C.failures sinks.old.cert sinks.new.cert
        ∷ sink_run N.written N.failures sinks.old.names sinks.new.names
        ∷ sink_run P.written P.failures sinks.old.part sinks.new.part ∷ []) }
    ensures answered { (status : Status) → result ≡ Ok status → AnswersSurvey run.now.options.now (S.finds surveyor.now)
        (source_run T.handed_out T.is_at_end T.failures trace.old trace.new)
        (source_run U.handed_out U.is_at_end U.failures hint.old hint.new)
        (sink_run W.written W.failures out.old out.new)
        status }
    ensures same_trace { T.path trace.new ≡ T.path trace.old }
    ensures same_hint { U.path hint.new ≡ U.path hint.old }
    ensures same_cert { C.path sinks.new.cert ≡ C.path sinks.old.cert }
    ensures same_names { N.path sinks.new.names ≡ N.path sinks.old.names }
    ensures same_part { P.path sinks.new.part ≡ P.path sinks.old.part }
    ensures same_out { W.path out.new ≡ W.path out.old }
{
    written_schedule_spells();
    certificate_is_accepted();
    core_certificate_is_accepted();
    core_part_spells();
    core_names_spell();
    core_part_is_a_trace();
    let texts = read_two(run.alloc, trace, hint)?;
    let surveyed = survey_texts(run, surveyor, texts.0.as_slice(), texts.1.as_slice())?;
    write_survey_certificate(run.alloc, &surveyed, &mut sinks.cert)?;
    write_names(run.alloc, &surveyed, &mut sinks.names)?;
    write_core_part(run.alloc, &surveyed, &mut sinks.part)?;
    write_report(run.alloc, &surveyed, out)
}

/// Gives what is decided of the trace that one text spells, with the hint that the other spells.
fn survey_texts<R: Threads + Wait + Sync, S: Surveyor, G: Gate + Sync>(
    run: &SearchRun<'_, R, G>,
    surveyor: &S,
    text: &[u8],
    hint: &[u8],
) -> Result<Surveyed, Fault>
    ensures said { IsSaidOfSurvey text.now hint.now result }
    ensures surveyed { IfOk result (λ surveyed. IsSurveyedFrom run.now.options.now text.now surveyed) }
    ensures follows { IfOk result (λ surveyed. FollowsFromTexts run.now.options.now (S.finds surveyor.now) text.now hint.now surveyed) }
{
    let trace = read_trace(run.alloc, text)?;
    let names = read_schedule(run.alloc, limits_for(&trace), hint)?;
    Ok(decide_with_hint(run, &trace, names, surveyor)?)
}

/// The status that goes with what is decided.
fn status_of(surveyed: &Surveyed) -> Status
    ensures { result ≡ status_of_survey surveyed.now }
{
    match surveyed {
        Surveyed::Decided(decision) => status_of_decision(decision),
        Surveyed::Refuted(_) => Status::No,
        Surveyed::Reasoned(_) => Status::No,
        Surveyed::Undecided(_) => Status::Unknown,
    }
}

/// Writes the names of the core, if there is one.
fn write_names<N: Sink>(alloc: Global, surveyed: &Surveyed, names: &mut N) -> Result<(), SinkFault>
    ensures whole { OnOk result (N.written names.new ≡ N.written names.old ++ core_names surveyed.now) }
    ensures well { OnOk result (N.failures names.new ≡ N.failures names.old) }
    ensures front { OnErr result (AppendsFront (N.written names.old) (N.written names.new) (core_names surveyed.now)) }
    ensures failed { IfErr result (λ fault. N.failures names.new ≡ N.failures names.old + failures_told fault) }
    ensures same { N.path names.new ≡ N.path names.old }
{
    let text = names_of_core(alloc, surveyed)?;
    write_whole(names, text.as_slice())?;
    Ok(())
}

/// Writes the part that the core makes up, if there is one.
fn write_core_part<P: Sink>(
    alloc: Global,
    surveyed: &Surveyed,
    part: &mut P,
) -> Result<(), SinkFault>
    ensures whole { OnOk result (P.written part.new ≡ P.written part.old ++ core_part surveyed.now) }
    ensures well { OnOk result (P.failures part.new ≡ P.failures part.old) }
    ensures front { OnErr result (AppendsFront (P.written part.old) (P.written part.new) (core_part surveyed.now)) }
    ensures failed { IfErr result (λ fault. P.failures part.new ≡ P.failures part.old + failures_told fault) }
    ensures same { P.path part.new ≡ P.path part.old }
{
    let text = part_of_core(alloc, surveyed)?;
    write_whole(part, text.as_slice())?;
    Ok(())
}

/// Writes the report, and gives the status for it.
fn write_report<W: Sink>(alloc: Global, surveyed: &Surveyed, out: &mut W) -> Result<Status, Fault>
    ensures run { IsRunOfWriting (survey_report surveyed.now) (status_of_survey surveyed.now)
        (sink_run W.written W.failures out.old out.new)
        result }
    ensures same { W.path out.new ≡ W.path out.old }
{
    let text = report_of_survey(alloc, surveyed)?;
    write_whole(out, text.as_slice())?;
    Ok(status_of(surveyed))
}
