//! What a line of a trace text says.

ghost use Rattle.std.specs.Prelude.{◌≡◌, ◌≤◌, ◌&&◌, codes, false, true, length, map, option_map, None, if◌then◌else◌};
ghost use Rattle.std.specs.Str.{bytes_eq};
ghost use Rattle.trace_text.specs.Said.{said, said_source};
ghost use Rattle.trace_text.specs.Statement.{untimed_statement, timed_statement, statement_of};
ghost use Rattle.trace_text.specs.Statement as statement_spec;
ghost use Rattle.trace_text.specs.Version.{has_times};

use crate::version::Version;
use text_lines::words::is_word;

/// The origin that a line gives to a value.
#[derive(Clone, Copy)]
pub enum ReadsFrom<'a> {
    /// Nothing is said.
    Unsaid,
    /// It is the initial value.
    FromInit,
    /// An operation left it, which is named by its process and its place there.
    FromOp(&'a [u8], &'a [u8]),
}

/// When an operation is said to have been under way.
#[derive(Clone, Copy)]
pub enum TimesSaid<'a> {
    /// Nothing is said.
    Untimed,
    /// It started at the first of these times, and had ended by the second.
    At(&'a [u8], &'a [u8]),
}

/// What a line says, its names and numbers as they are written. They stand in the order of the line: a location before its value, a process before
/// a place.
#[derive(Clone, Copy)]
pub enum Statement<'a> {
    /// The initial value of a location.
    Init(&'a [u8], &'a [u8]),
    /// The final value of a location.
    Final(&'a [u8], &'a [u8]),
    /// Begins the process of this name.
    Proc(&'a [u8]),
    /// A plain read at a location of a value.
    Read(&'a [u8], &'a [u8], ReadsFrom<'a>, TimesSaid<'a>),
    /// A write to a location of a value.
    Write(&'a [u8], &'a [u8], TimesSaid<'a>),
    /// A read-and-write at a location: the value that it reads, and the one that it leaves.
    Update(&'a [u8], &'a [u8], &'a [u8], ReadsFrom<'a>, TimesSaid<'a>),
    /// The first operation stands before the second. Each is named by its process and its place there.
    Before(&'a [u8], &'a [u8], &'a [u8], &'a [u8]),
}

/// Gives what three words say.
fn of_three_words<'a>(words: &[&'a [u8]]) -> Option<Statement<'a>>
    requires { length words.now ≡ 3 }
    ensures { option_map said result ≡ untimed_statement false (map (λ word. word.now) words.now) }
{
    if is_word(words[0], "init") {
        Some(Statement::Init(words[1], words[2]))
    } else if is_word(words[0], "final") {
        Some(Statement::Final(words[1], words[2]))
    } else if is_word(words[0], "R") {
        Some(Statement::Read(words[1], words[2], ReadsFrom::Unsaid, TimesSaid::Untimed))
    } else if is_word(words[0], "W") {
        Some(Statement::Write(words[1], words[2], TimesSaid::Untimed))
    } else {
        None
    }
}

/// Returns whether a word is this text and another one `from`.
fn is_key_from(key: &[u8], text: &str, from: &[u8]) -> bool
    ensures { result ≡ (bytes_eq key.now text.now && bytes_eq from.now (codes "from")) }
{
    is_word(key, text) && is_word(from, "from")
}

/// Returns whether a word is this text, and two others are `from` and `init`.
fn is_key_from_init(key: &[u8], text: &str, from: &[u8], init: &[u8]) -> bool
    ensures { result ≡ (bytes_eq key.now text.now && bytes_eq from.now (codes "from") && bytes_eq init.now (codes "init")) }
{
    is_key_from(key, text, from) && is_word(init, "init")
}

/// Gives what five words say in version 2.
fn of_five_words<'a>(words: &[&'a [u8]]) -> Option<Statement<'a>>
    requires { length words.now ≡ 5 }
    ensures { option_map said result ≡ untimed_statement true (map (λ word. word.now) words.now) }
{
    if is_key_from_init(words[0], "R", words[3], words[4]) {
        Some(Statement::Read(words[1], words[2], ReadsFrom::FromInit, TimesSaid::Untimed))
    } else if is_word(words[0], "before") {
        Some(Statement::Before(words[1], words[2], words[3], words[4]))
    } else {
        None
    }
}

/// The statement of an update that says no times.
fn untimed_update<'a>(
    location: &'a [u8],
    read: &'a [u8],
    left: &'a [u8],
    source: ReadsFrom<'a>,
) -> Statement<'a>
    ensures { said result ≡ statement_spec.Update location.now read.now left.now (said_source source.entry) statement_spec.Untimed }
{
    Statement::Update(location, read, left, source, TimesSaid::Untimed)
}

/// Gives what six words say in version 2.
fn of_six_words<'a>(words: &[&'a [u8]]) -> Option<Statement<'a>>
    requires { length words.now ≡ 6 }
    ensures { option_map said result ≡ untimed_statement true (map (λ word. word.now) words.now) }
{
    if is_key_from(words[0], "R", words[3]) {
        Some(Statement::Read(
            words[1],
            words[2],
            ReadsFrom::FromOp(words[4], words[5]),
            TimesSaid::Untimed,
        ))
    } else if is_key_from_init(words[0], "U", words[4], words[5]) {
        Some(untimed_update(words[1], words[2], words[3], ReadsFrom::FromInit))
    } else {
        None
    }
}

/// Gives what five words or more say in version 2.
fn read_long_statement<'a>(words: &[&'a [u8]]) -> Option<Statement<'a>>
    requires { 5 ≤ length words.now }
    ensures { option_map said result ≡ untimed_statement true (map (λ word. word.now) words.now) }
{
    if words.len() == 5 {
        of_five_words(words)
    } else if words.len() == 6 {
        of_six_words(words)
    } else if words.len() == 7 && is_key_from(words[0], "U", words[4]) {
        Some(untimed_update(
            words[1],
            words[2],
            words[3],
            ReadsFrom::FromOp(words[5], words[6]),
        ))
    } else {
        None
    }
}

/// Gives what the words of a line say, if they are of a form that version 1 has.
fn read_plain_statement<'a>(words: &[&'a [u8]]) -> Option<Statement<'a>>
    ensures { option_map said result ≡ untimed_statement false (map (λ word. word.now) words.now) }
{
    if words.len() == 2 && is_word(words[0], "proc") {
        Some(Statement::Proc(words[1]))
    } else if words.len() == 3 {
        of_three_words(words)
    } else if words.len() == 4 && is_word(words[0], "U") {
        Some(untimed_update(words[1], words[2], words[3], ReadsFrom::Unsaid))
    } else {
        None
    }
}

/// Gives what the words of a line say without times, if they are of a form that there is in version 1, or, if `two` says so, in the
/// later ones.
fn read_untimed_statement<'a>(two: bool, words: &[&'a [u8]]) -> Option<Statement<'a>>
    ensures { option_map said result ≡ untimed_statement two (map (λ word. word.now) words.now) }
{
    if two && words.len() >= 5 {
        read_long_statement(words)
    } else {
        read_plain_statement(words)
    }
}

/// Gives an operation that says no times, with these.
fn with_times<'a>(statement: Statement<'a>, start: &'a [u8], end: &'a [u8]) -> Option<Statement<'a>>
    ensures { option_map said result ≡ statement_spec.with_times (said statement.entry) start.now end.now }
{
    let times = TimesSaid::At(start, end);
    match statement {
        Statement::Read(location, value, source, earlier) => match earlier {
            TimesSaid::Untimed => Some(Statement::Read(location, value, source, times)),
            TimesSaid::At(_, _) => None,
        },
        Statement::Write(location, value, earlier) => match earlier {
            TimesSaid::Untimed => Some(Statement::Write(location, value, times)),
            TimesSaid::At(_, _) => None,
        },
        Statement::Update(location, read, left, source, earlier) => match earlier {
            TimesSaid::Untimed => Some(Statement::Update(location, read, left, source, times)),
            TimesSaid::At(_, _) => None,
        },
        _ => None,
    }
}

/// Gives what the words of a line say that are an operation and `at START END` after it. `first_words` gives no more than 11 words of a line. If it
/// has cut one off, 8 words stand before the last three here, and no untimed line has 8.
fn read_timed_statement<'a>(words: &[&'a [u8]]) -> Option<Statement<'a>>
    ensures { option_map said result ≡ timed_statement (map (λ word. word.now) words.now) }
{
    if words.len() < 3 {
        return None;
    }
    let front = words.len() - 3;
    if !is_word(words[front], "at") {
        return None;
    }
    match read_untimed_statement(true, &words[..front]) {
        Some(statement) => with_times(statement, words[front + 1], words[front + 2]),
        None => None,
    }
}

/// Gives the same, if the version has such lines.
fn read_timed_in<'a>(version: Version, words: &[&'a [u8]]) -> Option<Statement<'a>>
    ensures { option_map said result ≡ (if has_times version then timed_statement (map (λ word. word.now) words.now) else None) }
{
    if version.has_times() {
        read_timed_statement(words)
    } else {
        None
    }
}

/// Returns what the words of a line say, if they are of a form that the version has.
pub fn read_statement<'a>(version: Version, words: &[&'a [u8]]) -> Option<Statement<'a>>
    ensures { option_map said result ≡ statement_of version (map (λ word. word.now) words.now) }
{
    match read_untimed_statement(version.has_version_2_lines(), words) {
        Some(statement) => Some(statement),
        None => read_timed_in(version, words),
    }
}
