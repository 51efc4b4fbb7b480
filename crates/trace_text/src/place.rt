//! What is wrong with the place of a line and with its names.

ghost use Rattle.std.specs.Prelude.{◌≡◌};
ghost use Rattle.std.specs.List.{list_all};
ghost use Rattle.trace_semantics.specs.Names.{is_name};
ghost use Rattle.trace_text.specs.Said.{said, said_source};
ghost use Rattle.trace_text.specs.Seen.{early_fault, names_of_source};
ghost use Rattle.trace_text.specs.TraceFault.{is_operation, is_value_line, names_of};

use crate::statement::{ReadsFrom, Statement};
use crate::trace_fault::TraceCause;
use trace_semantics::name::is_name_word;

fn is_of_value(statement: Statement<'_>) -> bool
    ensures { result ≡ is_value_line (said statement.entry) }
{
    matches!(statement, Statement::Init(_, _) | Statement::Final(_, _))
}

fn is_of_operation(statement: Statement<'_>) -> bool
    ensures { result ≡ is_operation (said statement.entry) }
{
    matches!(
        statement,
        Statement::Read(_, _, _, _) | Statement::Write(_, _, _) | Statement::Update(_, _, _, _, _)
    )
}

/// Returns whether the process that a source names is a name. The place beside it is a number, which is read later.
fn source_is_named(source: ReadsFrom<'_>) -> bool
    ensures { result ≡ list_all is_name (names_of_source (said_source source.entry)) }
{
    match source {
        ReadsFrom::FromOp(process, _) => is_name_word(process),
        ReadsFrom::Unsaid => true,
        ReadsFrom::FromInit => true,
    }
}

/// Returns whether the words that should be names are names.
fn is_named(statement: Statement<'_>) -> bool
    ensures { result ≡ list_all is_name (names_of (said statement.entry)) }
{
    match statement {
        Statement::Init(location, _) => is_name_word(location),
        Statement::Final(location, _) => is_name_word(location),
        Statement::Proc(name) => is_name_word(name),
        Statement::Read(location, _, source, _) => {
            is_name_word(location) && source_is_named(source)
        }
        Statement::Write(location, _, _) => is_name_word(location),
        Statement::Update(location, _, _, source, _) => {
            is_name_word(location) && source_is_named(source)
        }
        Statement::Before(process, _, other, _) => is_name_word(process) && is_name_word(other),
    }
}

/// Gives what is wrong with the place of a line, where a process has begun before it or not, and with its names.
pub fn fault_of_place(begun: bool, statement: Statement<'_>) -> Option<TraceCause>
    ensures { result ≡ early_fault begun (said statement.entry) }
{
    if begun && is_of_value(statement) {
        Some(TraceCause::LateHeaderLine)
    } else if !begun && is_of_operation(statement) {
        Some(TraceCause::OpOutsideProc)
    } else if !is_named(statement) {
        Some(TraceCause::BadName)
    } else {
        None
    }
}
