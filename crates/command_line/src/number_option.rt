//! Options whose value is a number, and the first of them that has none of its range.

use clap::error::ErrorKind;
use std::fmt;

/// An option whose value is a number. Its `Display` says which numbers it takes.
#[derive(Clone, Copy, Debug)]
pub enum NumberOption {
    Workers,
    Split,
    Budget,
    Rounds,
}

impl NumberOption {
    // The option of this name, if the command has it.
    fn of(command: &str, name: &str) -> Option<NumberOption> {
        let splits = command == "verify" || command == "batch";
        let searches = splits || command == "survey";
        if name == "workers" && (searches || command == "cnf") {
            return Some(NumberOption::Workers);
        }
        if name == "budget" && searches {
            return Some(NumberOption::Budget);
        }
        if name == "split" && splits {
            return Some(NumberOption::Split);
        }
        if name == "rounds" && command == "verify" {
            return Some(NumberOption::Rounds);
        }
        None
    }

    fn name(self) -> &'static str {
        match self {
            NumberOption::Workers => "workers",
            NumberOption::Split => "split",
            NumberOption::Budget => "budget",
            NumberOption::Rounds => "rounds",
        }
    }

    // The least and the most. `numbers.rt` gives `clap` the same.
    fn range(self) -> (u64, u64) {
        match self {
            NumberOption::Workers => (1, 8),
            NumberOption::Split => (0, 10),
            NumberOption::Budget => (0, 1_000_000_000),
            NumberOption::Rounds => (1, 4),
        }
    }

    // Returns whether the value is a number of the range.
    fn takes(self, value: &str) -> bool {
        let (least, most) = self.range();
        match value.parse::<u64>() {
            Ok(number) => least <= number && number <= most,
            Err(_) => false,
        }
    }
}

impl fmt::Display for NumberOption {
    fn fmt<W: fmt::Write>(&self, f: &mut fmt::Formatter<W>) -> fmt::Result {
        let name = self.name();
        let (least, most) = self.range();
        write!(
            f,
            "the value of --{name} is a number from {least} to {most}"
        )
    }
}

/// The first option of a command line with a value that it does not take, if `clap` may have found this kind of fault there.
///
/// `clap` takes a word that begins with a hyphen for an option, and so finds an unknown one in `--budget -1`.
pub fn missed_number(words: &[&str], kind: ErrorKind) -> Option<NumberOption> {
    match kind {
        ErrorKind::ValueValidation | ErrorKind::InvalidValue => first_missed(words, ""),
        ErrorKind::UnknownArgument => first_missed(words, "-"),
        _ => None,
    }
}

// The first one whose value begins so. The first two words are the program and the command. After `--` there are no options.
fn first_missed(words: &[&str], begin: &str) -> Option<NumberOption> {
    let command: &str = words.get(1)?;
    for at in 2..words.len() {
        if words[at] == "--" {
            return None;
        }
        let next: &str = if at + 1 < words.len() {
            words[at + 1]
        } else {
            ""
        };
        let missed = missed_in(command, words[at], next, begin);
        if missed.is_some() {
            return missed;
        }
    }
    None
}

// The option that the word names, if its value, in this word or the next, begins so and is not taken.
fn missed_in(command: &str, word: &str, next: &str, begin: &str) -> Option<NumberOption> {
    let text = word.strip_prefix("--")?;
    let (name, value) = text.split_once('=').unwrap_or((text, next));
    let option = NumberOption::of(command, name)?;
    if value.starts_with(begin) && !option.takes(value) {
        Some(option)
    } else {
        None
    }
}
