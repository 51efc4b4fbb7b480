//! The host of a command: what is outside of the program.
ghost use Rattle.std.specs.Prelude.{◌≡◌, [], false, true, IfOk, OnErr, OnOk};
ghost use Rattle.command_host.specs.HostCalls.{HostCalls};

use crate::device_failure::{FailedFile, TellsFailure};
use crate::search_request::SearchRequest;
use dimacs::{Failed, Sink};
use verdict_report::Source;

/// What a command asks of the outside beside its two standard streams: files. Each search is reported to it, too.
///
/// A run over any host says in its contract what it asked of it, as a chain of `calls` from the host before to the host after, and
/// that is all that it asked.
pub trait Host<'p> {
    /// A file that is read.
    type Input: Source + TellsFailure + Drop;

    /// A file that is written.
    type Output: Sink + Drop;

    /// What the calls say of the host before and after them.
    ghost calls: { HostCalls Self Self.Input Self.Output };

    /// Hands out the file at this path, of which nothing is read yet. A file that cannot be opened fails when it is read.
    fn source(&mut self, path: &'p str) -> Self::Input
        ensures opens { calls.opens self.old path.now result self.new }
        ensures path { Self.Input.path result ≡ path.now }
        ensures handed_out { Self.Input.handed_out result ≡ [] }
        ensures is_at_end { Self.Input.is_at_end result ≡ false }
        ensures failures { Self.Input.failures result ≡ 0 };

    /// Makes the file at this path, or opens the one that is there, to be written in place of what it has. That is lost at once with
    /// `is_emptied`, and else when something is written.
    fn create(&mut self, path: &'p str, is_emptied: bool) -> Result<Self::Output, Failed>
        ensures makes { IfOk result (λ file. calls.makes self.old path.now is_emptied file self.new) }
        ensures path { IfOk result (λ file. Self.Output.path file ≡ path.now) }
        ensures written { IfOk result (λ file. Self.Output.written file ≡ []) }
        ensures failures { IfOk result (λ file. Self.Output.failures file ≡ 0) }
        ensures failed { OnErr result (calls.fails_to_make self.old path.now self.new) };

    /// Takes back a file that was to be written.
    fn close(&mut self, file: Self::Output)
        ensures { calls.closes self.old file self.new };

    /// Returns whether what is written at the first path would be the file that the second one names, also if it is still to be made.
    fn is_same_file(&mut self, first: &str, second: &str) -> bool
        ensures { calls.compares self.old first.now second.now result self.new };

    /// Returns whether nothing is at this path, or a folder that has nothing.
    fn is_free(&mut self, folder: &str) -> bool
        ensures { calls.looks self.old folder.now result self.new };

    /// Makes the folder at this path, and those above it, unless it is there.
    fn make_folder(&mut self, folder: &'p str) -> Result<(), Failed>
        ensures makes { OnOk result (calls.makes_folder self.old folder.now self.new) }
        ensures failed { OnErr result (calls.fails_to_make self.old folder.now self.new) };

    /// Makes a file of this name in the folder at this path, with these bytes. The answer is whether it is new: one that is there already is
    /// left as it is. After an error a file of this name may have a prefix of the bytes.
    fn keep(&mut self, folder: &'p str, name: &str, bytes: &[u8]) -> Result<bool, Failed>
        ensures keeps { IfOk result (λ is_new. is_new ≡ true → calls.keeps self.old folder.now name.now bytes.now self.new) }
        ensures leaves { IfOk result (λ is_new. is_new ≡ false → calls.leaves self.old folder.now name.now self.new) }
        ensures failed { OnErr result (calls.fails_to_keep self.old folder.now name.now self.new) };

    /// Takes the report of a search before it is run. No answer depends on the number of workers, so the contract of a run says by this report with which
    /// options it searched. The host of the system does nothing with it.
    fn begin_search(&mut self, search: &SearchRequest)
        ensures { calls.searches self.old search.now self.new };

    /// Gives what failed of a file that was to be made or written, if that is known. Explanations alone ask, so nothing is promised of the answer.
    fn failed_file(&self) -> Option<FailedFile<'p>>;
}
