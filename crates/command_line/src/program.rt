//! The command line of the program, as `clap` takes it.

ghost use Rattle.std.specs.Prelude.{◌≡◌, IfOk, false};
ghost use Rattle.clap.specs.Words.{App, app_of, with_subcommand};
ghost use Rattle.clap.specs.declared.builder.command.Command.TheViews.{out-Command};
ghost use Rattle.command_line.specs.CommandLine.{explained, program_app, vsc_app};

use crate::batch_command::new_batch_command;
use crate::building::with_explanation;
use crate::cnf_command::new_cnf_command;
use crate::part_command::new_part_command;
use crate::path_commands::{DECODE, JUDGE, LRAT, new_path_command};
use crate::recheck_command::new_recheck_command;
use crate::refusals_command::new_refusals_command;
use crate::survey_command::new_survey_command;
use crate::verify_command::new_verify_command;
use clap::Command;
use std::alloc::{AllocError, Global};

/// The version, and in brackets what `rt version` says: the kit and the logic by which the program was proved. `tests/manual` compares the logic, since machines
/// come with different kits.
const VERSION: &str = "0.2.0 (rattle-kit-13f logic dac8208d650f15bf)";

const ABOUT: &str = "Checks memory traces against sequential consistency: whether one order of all
operations explains what each process read.";

const AFTER_HELP: &str =
    "'vsc COMMAND --help' says what the files of a command are, with an example.
'-' in place of a file that is read is standard input. If standard error is a
terminal, a command also says there why it answers as it does. --explain, or
--explain=always, has it do so elsewhere too, and --no-explain, or
--explain=never, keeps it from that.

Exit status:
    0  CONSISTENT, LEGAL or ACCEPTED, or a text was written
    1  INCONSISTENT or ILLEGAL
    2  the command line or a file is refused
    3  UNKNOWN
    4  a file or a standard stream failed";

/// What the help of a command says of `--explain`, if it writes notes.
const EXPLAINS: &str = "Explains the answer or the refusal, on standard error";

/// And if it writes none. It takes the option too, so that a script can give it to each command.
const NO_NOTES: &str = "Changes nothing: this command writes no notes";

// The program without its commands. `clap` would take its name in usage and errors from the first word; with `bin_name` these are the same texts
// by whatever name it was called.
fn bare_program<'a>(alloc: Global) -> Result<Command<'a>, AllocError>
    ensures { IfOk result (λ c. app_of c ≡ program_app) }
{
    let program = Command::new(alloc, "vsc").bin_name("vsc")?;
    Ok(
        program
            .version(VERSION)
            .about(ABOUT)
            .after_help(AFTER_HELP)
            .subcommand_required(true),
    )
}

// The program with one more command, to which `--explain` is added with this help, if all could be made. It takes Results, so that
// `new_program` has no exit of its own at which a program would be dropped.
fn with_command<'a>(
    alloc: Global,
    program: Result<Command<'a>, AllocError>,
    command: Result<Command<'a>, AllocError>,
    help: &'a str,
) -> Result<Command<'a>, AllocError>
    requires { IfOk command (λ c. (out-Command c).has_globals ≡ false) }
    ensures { (before added : App) → IfOk program.entry (λ c. app_of c ≡ before) → IfOk command.entry (λ c. app_of c ≡ added) →
        IfOk result (λ c. app_of c ≡ with_subcommand before (explained added).top) }
{
    program?.subcommand(with_explanation(alloc, command?, help)?)
}

/// The program with its commands.
pub fn new_program<'a>(alloc: Global) -> Result<Command<'a>, AllocError>
    ensures { IfOk result (λ c. app_of c ≡ vsc_app) }
{
    let program = with_command(
        alloc,
        bare_program(alloc),
        new_verify_command(alloc),
        EXPLAINS,
    );
    let program = with_command(alloc, program, new_path_command(alloc, JUDGE), EXPLAINS);
    let program = with_command(alloc, program, new_cnf_command(alloc), EXPLAINS);
    let program = with_command(alloc, program, new_path_command(alloc, DECODE), EXPLAINS);
    let program = with_command(alloc, program, new_path_command(alloc, LRAT), EXPLAINS);
    let program = with_command(alloc, program, new_recheck_command(alloc), EXPLAINS);
    let program = with_command(alloc, program, new_part_command(alloc), EXPLAINS);
    let program = with_command(alloc, program, new_survey_command(alloc), EXPLAINS);
    let program = with_command(alloc, program, new_refusals_command(alloc), NO_NOTES);
    with_command(alloc, program, new_batch_command(alloc), NO_NOTES)
}
