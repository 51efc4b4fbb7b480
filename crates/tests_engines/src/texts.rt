//! Short lists, lines and words, sinks and sources, traces and schedules, exit statuses, and verdicts of workers that are held.

mod canonical_texts;
mod devices;
mod exit_statuses;
mod held_verdicts;
mod inline_lists;
mod lines_and_words;
mod reductions;
