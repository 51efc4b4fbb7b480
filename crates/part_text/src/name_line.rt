//! The line on which a name stands.

ghost use Rattle.std.specs.Prelude.{◌≡◌, ◌≤◌, length};
ghost use Rattle.text_lines.specs.Kept.{kept, is_skipped};
ghost use Rattle.text_lines.specs.Lines.{lines_of};
ghost use Rattle.text_lines.specs.Words.{words_of};
ghost use Rattle.part_text.specs.NameLine.{StandsAt};

use text_lines::comments::begins_comment;
use text_lines::lines::cut_line;
use text_lines::words::cut_word;

/// Returns whether the line is blank or a comment.
fn is_passed_over(line: &[u8]) -> bool
    ensures { result ≡ is_skipped (words_of line.now) }
{
    match cut_word(line) {
        Some((word, _rest)) => begins_comment(word),
        None => true,
    }
}

/// The number, counted from 1, of the line that has this place among the lines that say something. A reader of names counts those
/// alone, and a fault is reported by its line. The place counts from 1 too; if there is no such place, this is the number of lines.
pub fn line_of_place(text: &[u8], place: usize) -> usize
    ensures { 1 ≤ place → place ≤ length (kept (lines_of text.now)) → StandsAt text.now place result }
{
    let mut number = 0usize;
    let mut said = 0usize;
    let mut rest = text;
    while let Some((line, after)) = cut_line(rest) {
        number += 1;
        if !is_passed_over(line) {
            said += 1;
            if said == place {
                return number;
            }
        }
        rest = after;
    }
    number
}
