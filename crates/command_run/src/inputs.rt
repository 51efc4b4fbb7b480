//! The files that a line reads.
ghost use Rattle.std.specs.Prelude.{◌≡◌, false};
ghost use Rattle.clap.specs.Walk.{texts};
ghost use Rattle.command_run.specs.Inputs.{inputs_of, is_given_input, is_input, no_input, one_input, one_or_two_inputs, reads_input_twice, repeats_among, repeats_input, several_inputs};

use command_line::Line;

/// The path that stands for standard input where a file is read.
const STANDARD_INPUT: &str = "-";

/// The paths of the files that a line reads, in the order in which they are handed out, but for those of a batch.
#[derive(Clone, Copy)]
pub struct InputPaths<'p> {
    /// The first one: the trace, or a formula.
    pub first: Option<&'p str>,
    /// The second one.
    pub second: Option<&'p str>,
    /// The third one.
    pub third: Option<&'p str>,
}

/// The paths of the files that a survey reads.
#[derive(Clone, Copy)]
pub struct SurveyInputs<'p> {
    /// The trace.
    pub trace: &'p str,
    /// The hint, if there is one.
    pub hint: Option<&'p str>,
}

impl<'p> InputPaths<'p> {
    // No path.
    fn none() -> InputPaths<'p>
        ensures { result ≡ no_input }
    {
        InputPaths {
            first: None,
            second: None,
            third: None,
        }
    }

    // One path.
    fn one(first: &'p str) -> InputPaths<'p>
        ensures { result ≡ one_input first.entry }
    {
        InputPaths {
            first: Some(first),
            second: None,
            third: None,
        }
    }

    // One path, and a second one if it is given.
    fn one_or_two(first: &'p str, second: Option<&'p str>) -> InputPaths<'p>
        ensures { result ≡ one_or_two_inputs first.entry second.entry }
    {
        InputPaths {
            first: Some(first),
            second,
            third: None,
        }
    }

    // Two paths, and a third one if it is given.
    fn several(first: &'p str, second: &'p str, third: Option<&'p str>) -> InputPaths<'p>
        ensures { result ≡ several_inputs first.entry second.entry third.entry }
    {
        InputPaths {
            first: Some(first),
            second: Some(second),
            third,
        }
    }
}

/// The paths of the files that the line reads, but for those of a batch.
fn inputs_of<'p>(line: &Line<'p>) -> InputPaths<'p>
    ensures { result ≡ inputs_of line.now }
{
    match line {
        Line::Judge { trace, schedule } => InputPaths::several(*trace, *schedule, None),
        Line::Cnf { trace, .. } => InputPaths::one(*trace),
        Line::Decode { trace, model } => InputPaths::several(*trace, *model, None),
        Line::Lrat { cnf, proof } => InputPaths::several(*cnf, *proof, None),
        Line::Recheck { trace, cert, part } => InputPaths::several(*trace, *cert, *part),
        Line::Part { trace, names, .. } => InputPaths::several(*trace, *names, None),
        Line::Verify { trace, .. } => InputPaths::one(*trace),
        Line::Survey { trace, files, .. } => InputPaths::one_or_two(*trace, files.hint),
        Line::Batch { .. } => InputPaths::none(),
        Line::Refusals => InputPaths::none(),
    }
}

/// Returns whether the path is that of standard input.
fn is_standard_input(path: &str) -> bool
    ensures { result ≡ is_input path.now }
{
    path == STANDARD_INPUT
}

// Whether there is a path, and it is that of standard input.
fn is_given_input(path: Option<&str>) -> bool
    ensures { result ≡ is_given_input path.entry }
{
    match path {
        Some(path) => is_standard_input(path),
        None => false,
    }
}

/// Returns whether more than one of the three paths is that of standard input. The second reader would find nothing left of it.
fn repeats_input(paths: &InputPaths<'_>) -> bool
    ensures { result ≡ repeats_input paths.now }
{
    let first = is_given_input(paths.first);
    let second = is_given_input(paths.second);
    let third = is_given_input(paths.third);
    (first && second) || ((first || second) && third)
}

/// Returns whether more than one of the paths is that of standard input.
fn repeats_among(paths: &[&str]) -> bool
    ensures { result ≡ repeats_among false (texts paths.now) }
{
    let mut was_met = false;
    for path in paths {
        let is_input = is_standard_input(path);
        if was_met && is_input {
            return true;
        }
        was_met = was_met || is_input;
    }
    false
}

/// Returns whether the line would read standard input twice.
pub(crate) fn reads_input_twice(line: &Line<'_>) -> bool
    ensures { result ≡ reads_input_twice line.now }
{
    match line {
        Line::Batch { traces, .. } => repeats_among(traces.as_slice()),
        _ => repeats_input(&inputs_of(line)),
    }
}
