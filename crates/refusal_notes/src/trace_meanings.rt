//! What each cause for which a trace is refused means: a note below the refusal, which gives the rule or the fault. Limits stand here in
//! words, as in `trace_text` in numbers.

use crate::meanings::Explained;
use trace_text::trace_fault::TraceCause;

impl Explained for TraceCause {
    fn meaning(&self) -> &'static str {
        match self {
            TraceCause::NotAscii => "a byte is above 127: only comments may have other than ASCII",
            TraceCause::Header =>
                "the first line that is no comment is not `vsc 1`, `vsc 2` or `vsc 3`",
            TraceCause::UnknownLine => "a trace has no line of this form",
            TraceCause::BadName => {
                "a name is a letter or _, then letters, digits and _, at most 32 bytes"
            }
            TraceCause::BadNumber => {
                "a value or a time is decimal, 0 to 18446744073709551615, and a place 1 to 65535 (4294967295 in version 3), without a leading zero"
            }
            TraceCause::InitTwice => "a location has at most one `init` line",
            TraceCause::FinalTwice => "a location has at most one `final` line",
            TraceCause::ProcTwice => {
                "a process has one `proc` line, and all its operations stand below it"
            }
            TraceCause::OpOutsideProc => {
                "an operation stands below the `proc` line of its process"
            }
            TraceCause::LateHeaderLine => {
                "`init` and `final` lines stand above the first `proc` line"
            }
            TraceCause::TooManyProcs => "a trace has at most 64 processes",
            TraceCause::TooManyOps => "a trace has at most 4096 operations, in version 3 1048576",
            TraceCause::TooManyLocations => {
                "a trace has at most 4096 locations, in version 3 65536"
            }
            TraceCause::NoSuchOp => "the trace has no operation that the line names",
            TraceCause::BeforeItself => "an operation does not stand before itself",
            TraceCause::TooManyBefore => {
                "a trace has at most 4096 `before` lines, in version 3 4194304"
            }
            TraceCause::EndsBeforeStart => "an operation does not end before it starts",
        }
    }
}
