//! Why a line is refused before anything is opened.
ghost use Rattle.std.specs.Prelude.{◌≡◌, ◌&&◌, None, Some, false, if◌then◌else◌, not};
ghost use Rattle.command_run.specs.Clashes.{AreOneFile, ClashesBy, ClashesIf, ClashesIfOne, ClashesOfBatch, ClashesOfFolder, ClashesOfOutput, ClashesOfOutputIf, ClashesOfWritten, Compares, FindsClash, IsOneFile, clash_line, pairings_of, pairings_of_picture, pairings_of_picture_and_survey, pairings_of_picture_and_verify, pairings_of_survey, pairings_of_verify};
ghost use Rattle.command_run.specs.CommandRun.{Prints};
ghost use Rattle.verdict_report.specs.Runs.{sink_run};

use crate::inputs::reads_input_twice;
use crate::telling::{REFUSED, print_text};
use command_host::Host;
use command_line::{BatchOutput, CommandLine, Line, SurveyFiles};
use dimacs::Sink;

/// Why a line is refused before anything is opened: two of its files are one, or a batch cannot write what is asked for.
#[derive(Clone, Copy)]
pub enum Clash {
    /// Two files that are read are standard input.
    InputTwice,
    /// The certificate would overwrite the trace.
    CertIsTrace,
    /// The names of the core would overwrite the trace.
    NamesIsTrace,
    /// The part that the core makes up would overwrite the trace.
    PartIsTrace,
    /// Certificate and names have one file.
    CertIsNames,
    /// Certificate and part have one file.
    CertIsPart,
    /// Names and part have one file.
    NamesIsPart,
    /// The picture would overwrite the trace.
    PictureIsTrace,
    /// Picture and certificate have one file.
    PictureIsCert,
    /// Picture and names have one file.
    PictureIsNames,
    /// Picture and part have one file.
    PictureIsPart,
    /// The certificate would overwrite the hint.
    CertIsHint,
    /// The names would overwrite the hint.
    NamesIsHint,
    /// The part would overwrite the hint.
    PartIsHint,
    /// The picture would overwrite the hint.
    PictureIsHint,
    /// The folder for what is kept has something.
    FolderIsUsed,
    /// Schedules are asked for, and no objects of JSON in which they would stand.
    SchedulesWithoutJson,
}

/// The line that reports the clash.
fn text_of_clash(clash: Clash) -> &'static [u8]
    ensures { result.now ≡ clash_line clash }
{
    match clash {
        Clash::InputTwice => b"error: more than one file is '-', standard input\n",
        Clash::CertIsTrace => b"error: --cert names the file of TRACE\n",
        Clash::NamesIsTrace => b"error: --names names the file of TRACE\n",
        Clash::PartIsTrace => b"error: --part names the file of TRACE\n",
        Clash::CertIsNames => b"error: --cert and --names name one file\n",
        Clash::CertIsPart => b"error: --cert and --part name one file\n",
        Clash::NamesIsPart => b"error: --names and --part name one file\n",
        Clash::PictureIsTrace => b"error: --picture names the file of TRACE\n",
        Clash::PictureIsCert => b"error: --picture and --cert name one file\n",
        Clash::PictureIsNames => b"error: --picture and --names name one file\n",
        Clash::PictureIsPart => b"error: --picture and --part name one file\n",
        Clash::CertIsHint => b"error: --cert and --hint name one file\n",
        Clash::NamesIsHint => b"error: --names and --hint name one file\n",
        Clash::PartIsHint => b"error: --part and --hint name one file\n",
        Clash::PictureIsHint => b"error: --picture and --hint name one file\n",
        Clash::FolderIsUsed => b"error: --keep names no folder that is new or empty\n",
        Clash::SchedulesWithoutJson => b"error: --schedules wants --json\n",
    }
}

/// Reports the clash on standard error, and gives the exit status.
pub(crate) fn print_clash<E: Sink>(clash: Clash, err: &mut E) -> u8
    ensures { Prints (sink_run E.written E.failures err.old err.new) (clash_line clash) 2 result }
{
    let text = text_of_clash(clash);
    print_text(text, REFUSED, err)
}

/// Returns whether the files at these paths are one. The first is that of a file that is written: the host takes `-` as standard input in the
/// second place alone. Equal paths are one file without asking the host, as the file may not be there yet.
fn is_one_file<'p, H: Host<'p>>(host: &mut H, first: &str, second: &str) -> bool
    ensures { IsOneFile H.calls host.old first.now second.now result host.new }
{
    if first == second {
        return true;
    }
    host.is_same_file(first, second)
}

/// Returns whether there are both paths, and the files at them are one.
fn are_one_file<'p, H: Host<'p>>(host: &mut H, first: Option<&str>, second: Option<&str>) -> bool
    ensures { AreOneFile H.calls host.old first.entry second.entry result host.new }
{
    match first {
        Some(first) => match second {
            Some(second) => is_one_file(host, first, second),
            None => false,
        },
        None => false,
    }
}

/// The clash, if two files are one.
fn clash_if_one(is_one: bool, clash: Clash) -> Option<Clash>
    ensures { result ≡ (if is_one then Some clash else None) }
{
    if is_one { Some(clash) } else { None }
}

/// The clash, if there are both paths and the files at them are one.
fn clash_of_two<'p, H: Host<'p>>(
    host: &mut H,
    first: Option<&str>,
    second: Option<&str>,
    clash: Clash,
) -> Option<Clash>
    ensures { ClashesIfOne H.calls host.old first.entry second.entry clash result host.new }
{
    let is_one = are_one_file(host, first, second);
    clash_if_one(is_one, clash)
}

/// The clash that was found before, or else this one if there are both paths and the files at them are one. After a first clash the host is not
/// asked about further files, so the order of the calls is the order in which clashes are reported.
fn or_clash<'p, H: Host<'p>>(
    host: &mut H,
    found: Option<Clash>,
    first: Option<&str>,
    second: Option<&str>,
    clash: Clash,
) -> Option<Clash>
    ensures { Compares H.calls host.old found first.entry second.entry clash result host.new }
{
    match found {
        Some(found) => Some(found),
        None => clash_of_two(host, first, second, clash),
    }
}

/// The clash of the files of a search: its certificate would overwrite its trace.
fn clash_of_verify<'p, H: Host<'p>>(
    host: &mut H,
    trace: &'p str,
    cert: Option<&'p str>,
) -> Option<Clash>
    ensures { FindsClash H.calls host.old None (pairings_of_verify trace.entry cert.entry) result host.new }
{
    or_clash(host, None, cert, Some(trace), Clash::CertIsTrace)
}

/// The first clash of the files of a survey.
fn clash_of_survey<'p, H: Host<'p>>(
    host: &mut H,
    trace: &'p str,
    files: SurveyFiles<'p>,
) -> Option<Clash>
    ensures { FindsClash H.calls host.old None (pairings_of_survey trace.entry files.entry) result host.new }
{
    let whole = Some(trace);
    let found = or_clash(host, None, files.cert, whole, Clash::CertIsTrace);
    let found = or_clash(host, found, files.names, whole, Clash::NamesIsTrace);
    let found = or_clash(host, found, files.part, whole, Clash::PartIsTrace);
    let found = or_clash(host, found, files.cert, files.names, Clash::CertIsNames);
    let found = or_clash(host, found, files.cert, files.part, Clash::CertIsPart);
    let found = or_clash(host, found, files.names, files.part, Clash::NamesIsPart);
    let found = or_clash(host, found, files.cert, files.hint, Clash::CertIsHint);
    let found = or_clash(host, found, files.names, files.hint, Clash::NamesIsHint);
    or_clash(host, found, files.part, files.hint, Clash::PartIsHint)
}

/// The first clash of a file that the engine of the line writes, but for the picture. `batch` makes its files in a folder, which is
/// looked at by itself, and the others write to the standard output alone.
fn clash_of_files<'p, H: Host<'p>>(host: &mut H, line: &Line<'p>) -> Option<Clash>
    ensures { FindsClash H.calls host.old None (pairings_of line.now) result host.new }
{
    match line {
        Line::Verify { trace, cert, .. } => clash_of_verify(host, *trace, *cert),
        Line::Survey { trace, files, .. } => clash_of_survey(host, *trace, *files),
        Line::Judge { .. } => None,
        Line::Cnf { .. } => None,
        Line::Decode { .. } => None,
        Line::Lrat { .. } => None,
        Line::Recheck { .. } => None,
        Line::Part { .. } => None,
        Line::Refusals => None,
        Line::Batch { .. } => None,
    }
}

/// The first clash of a picture with the files of a search, after what was found before.
fn clash_with_verify<'p, H: Host<'p>>(
    host: &mut H,
    found: Option<Clash>,
    picture: Option<&'p str>,
    trace: &'p str,
    cert: Option<&'p str>,
) -> Option<Clash>
    ensures { FindsClash H.calls host.old found (pairings_of_picture_and_verify picture.entry trace.entry cert.entry) result host.new }
{
    let found = or_clash(host, found, picture, Some(trace), Clash::PictureIsTrace);
    or_clash(host, found, picture, cert, Clash::PictureIsCert)
}

/// The first clash of a picture with the files of a survey, after what was found before.
fn clash_with_survey<'p, H: Host<'p>>(
    host: &mut H,
    found: Option<Clash>,
    picture: Option<&'p str>,
    trace: &'p str,
    files: SurveyFiles<'p>,
) -> Option<Clash>
    ensures { FindsClash H.calls host.old found (pairings_of_picture_and_survey picture.entry trace.entry files.entry) result host.new }
{
    let found = or_clash(host, found, picture, Some(trace), Clash::PictureIsTrace);
    let found = or_clash(host, found, picture, files.cert, Clash::PictureIsCert);
    let found = or_clash(host, found, picture, files.names, Clash::PictureIsNames);
    let found = or_clash(host, found, picture, files.part, Clash::PictureIsPart);
    or_clash(host, found, picture, files.hint, Clash::PictureIsHint)
}

/// The first clash of a picture with the files of the line, after what was found before.
fn clash_of_picture<'p, H: Host<'p>>(
    host: &mut H,
    found: Option<Clash>,
    picture: Option<&'p str>,
    line: &Line<'p>,
) -> Option<Clash>
    ensures { FindsClash H.calls host.old found (pairings_of_picture picture.entry line.now) result host.new }
{
    match line {
        Line::Verify { trace, cert, .. } => clash_with_verify(host, found, picture, *trace, *cert),
        Line::Survey { trace, files, .. } => clash_with_survey(
            host, found, picture, *trace, *files,
        ),
        _ => found,
    }
}

/// The first clash of a file that is written: of those of the line, and then of the picture.
fn clash_of_written<'p, H: Host<'p>>(host: &mut H, asked: &CommandLine<'p>) -> Option<Clash>
    ensures { ClashesOfWritten H.calls host.old asked.now result host.new }
{
    let found = clash_of_files(host, &asked.line);
    clash_of_picture(host, found, asked.picture, &asked.line)
}

/// The clash, if there is a path for a folder, and it is neither new nor empty. Nothing is made yet.
fn clash_of_folder<'p, H: Host<'p>>(host: &mut H, folder: Option<&'p str>) -> Option<Clash>
    ensures { ClashesOfFolder H.calls host.old folder.entry result host.new }
{
    match folder {
        Some(folder) => {
            if host.is_free(folder) {
                None
            } else {
                Some(Clash::FolderIsUsed)
            }
        }
        None => None,
    }
}

/// The clash of what a batch writes beside its verdicts.
fn clash_of_output<'p, H: Host<'p>>(host: &mut H, output: BatchOutput<'p>) -> Option<Clash>
    ensures { ClashesOfOutputIf (output.entry.schedules && not output.entry.json) H.calls host.old output.entry result host.new }
{
    if output.schedules && !output.json {
        Some(Clash::SchedulesWithoutJson)
    } else {
        clash_of_folder(host, output.keep)
    }
}

/// The clash that was found before, or else that of what a batch writes.
fn or_output<'p, H: Host<'p>>(
    host: &mut H,
    found: Option<Clash>,
    output: BatchOutput<'p>,
) -> Option<Clash>
    ensures { ClashesOfOutput H.calls host.old found output.entry result host.new }
{
    match found {
        Some(found) => Some(found),
        None => clash_of_output(host, output),
    }
}

/// The clash that was found before, or else that of a batch.
fn clash_of_batch<'p, H: Host<'p>>(
    host: &mut H,
    found: Option<Clash>,
    line: &Line<'p>,
) -> Option<Clash>
    ensures { ClashesOfBatch H.calls host.old found line.now result host.new }
{
    match line {
        Line::Batch { output, .. } => or_output(host, found, *output),
        _ => found,
    }
}

/// The first clash of what is written: of files, and then of a batch.
fn clash_of_all<'p, H: Host<'p>>(host: &mut H, asked: &CommandLine<'p>) -> Option<Clash>
    ensures { ClashesIf false H.calls host.old asked.now result host.new }
{
    let found = clash_of_written(host, asked);
    clash_of_batch(host, found, &asked.line)
}

/// Why the line is refused before anything is opened, or nothing. That standard input is read twice is found first, without the host.
pub(crate) fn clash_of<'p, H: Host<'p>>(host: &mut H, asked: &CommandLine<'p>) -> Option<Clash>
    ensures { ClashesBy H.calls host.old asked.now result host.new }
{
    if reads_input_twice(&asked.line) {
        Some(Clash::InputTwice)
    } else {
        clash_of_all(host, asked)
    }
}
