//! The words of a command line, and why there are none.
ghost use Rattle.std.specs.Prelude.{◌≡◌, IfOk, map, option_map, string_bytes};
ghost use Rattle.command_run.specs.ArgumentFault.{line_of};
ghost use Rattle.command_run.specs.CommandRun.{Takes};
ghost use Rattle.command_run.specs.Spelling.{spelled, spelled_out};
ghost use Rattle.verdict_report.specs.Runs.{sink_run};

use crate::telling::{NO_MEMORY, REFUSED};
use dimacs::{Sink, write_whole};
use std::alloc::{AllocError, Global};

/// Why there are no words.
#[derive(Clone, Copy)]
pub enum ArgumentFault {
    /// An argument is not UTF-8 text.
    NotText,
    /// There was no memory for them.
    OutOfMemory,
}

/// The flag that says what the word says, the word itself if it is not `--explain=WHEN`, and nothing in place of `--explain=auto`. The
/// contracts of the kit's `clap` have no option whose value can be left out.
fn spelled_option(word: &str) -> Option<&str>
    ensures { option_map (λ word. word.now) result ≡ spelled word.now }
{
    match word {
        "--explain=always" => Some("--explain"),
        "--explain=never" => Some("--no-explain"),
        "--explain=auto" => None,
        _ => Some(word),
    }
}

/// The texts as words for `clap`, in which flags stand for `--explain=WHEN`.
pub fn words_of<'t>(alloc: Global, texts: &'t Vec<String>) -> Result<Vec<&'t str>, AllocError>
    ensures { IfOk result (λ words. map (λ word. word.now) words.items ≡ spelled_out (map string_bytes texts.now.items)) }
{
    let mut words = Vec::with_capacity(alloc, texts.len())?;
    // Behind `--` each word is a path, also one that is spelled as an option.
    let mut may_be_option = true;
    for text in texts {
        let word = text.as_str();
        if word == "--" {
            may_be_option = false;
        }
        if !may_be_option {
            words.push(word)?;
        } else if let Some(option) = spelled_option(word) {
            words.push(option)?;
        }
    }
    Ok(words)
}

/// Refuses a command line of which there are no words: reports that on standard error, and gives the exit status.
pub fn refuse<E: Sink>(fault: ArgumentFault, err: &mut E) -> u8
    ensures status { result ≡ 2 }
    ensures told { Takes (sink_run E.written E.failures err.old err.new) (line_of fault) }
{
    let line: &[u8] = match fault {
        ArgumentFault::NotText => b"error: an argument is not UTF-8 text\n",
        ArgumentFault::OutOfMemory => NO_MEMORY,
    };
    // If standard error is closed too, only the exit status says so.
    let _ = write_whole(err, line);
    REFUSED
}
