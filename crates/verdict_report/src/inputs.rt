//! Reading the inputs of an engine, one after the other.

ghost use Rattle.std.specs.Prelude.{◌≡◌, [], ◌∷◌, IfOk, IfErr};
ghost use Rattle.verdict_report.specs.Engine.{HandOut, IsStopOfReading};
ghost use Rattle.verdict_report.specs.Runs.{source_run};

use crate::reading::{ReadFault, read_whole};
use crate::source::Source;
use std::alloc::Global;

/// Reads the text of the source.
pub fn read_one<S: Source>(alloc: Global, source: &mut S) -> Result<Vec<u8>, ReadFault>
    ensures read { IfOk result (λ text. HandOut
        (source_run S.handed_out S.is_at_end S.failures source.old source.new ∷ [])
        (text.items ∷ [])) }
    ensures stopped { IfErr result (λ fault. IsStopOfReading
        (source_run S.handed_out S.is_at_end S.failures source.old source.new ∷ []) fault) }
    ensures same { S.path source.new ≡ S.path source.old }
{
    read_whole(alloc, source)
}

/// Reads the text of the first source, and then that of the second one.
pub fn read_two<S: Source, T: Source>(
    alloc: Global,
    first: &mut S,
    second: &mut T,
) -> Result<(Vec<u8>, Vec<u8>), ReadFault>
    ensures read { IfOk result (λ texts. HandOut
        (source_run S.handed_out S.is_at_end S.failures first.old first.new
        ∷ source_run T.handed_out T.is_at_end T.failures second.old second.new ∷ [])
        (texts.0.items ∷ texts.1.items ∷ [])) }
    ensures stopped { IfErr result (λ fault. IsStopOfReading
        (source_run S.handed_out S.is_at_end S.failures first.old first.new
        ∷ source_run T.handed_out T.is_at_end T.failures second.old second.new ∷ []) fault) }
    ensures same_first { S.path first.new ≡ S.path first.old }
    ensures same_second { T.path second.new ≡ T.path second.old }
{
    let first_text = read_one(alloc, first)?;
    let second_text = read_one(alloc, second)?;
    Ok((first_text, second_text))
}

/// Reads the texts of three sources, one after the other.
pub fn read_three<S: Source, T: Source, U: Source>(
    alloc: Global,
    first: &mut S,
    second: &mut T,
    third: &mut U,
) -> Result<(Vec<u8>, Vec<u8>, Vec<u8>), ReadFault>
    ensures read { IfOk result (λ texts. HandOut
        (source_run S.handed_out S.is_at_end S.failures first.old first.new
        ∷ source_run T.handed_out T.is_at_end T.failures second.old second.new
        ∷ source_run U.handed_out U.is_at_end U.failures third.old third.new ∷ [])
        (texts.0.items ∷ texts.1.items ∷ texts.2.items ∷ [])) }
    ensures stopped { IfErr result (λ fault. IsStopOfReading
        (source_run S.handed_out S.is_at_end S.failures first.old first.new
        ∷ source_run T.handed_out T.is_at_end T.failures second.old second.new
        ∷ source_run U.handed_out U.is_at_end U.failures third.old third.new ∷ []) fault) }
    ensures same_first { S.path first.new ≡ S.path first.old }
    ensures same_second { T.path second.new ≡ T.path second.old }
    ensures same_third { U.path third.new ≡ U.path third.old }
{
    let text = read_one(alloc, first)?;
    let (next_text, last_text) = read_two(alloc, second, third)?;
    Ok((text, next_text, last_text))
}
