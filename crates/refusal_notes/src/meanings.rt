//! What each cause of a refusal means, but for those of a trace.

use certificate::CertCause;
use cnf_text::CnfCause;
use cube_jobs::SearchCause;
use lrat_check::lrat_fault::LratCause;
use lrat_check::refusal::StepFault;
use model_text::ModelCause;
use reason_clauses::cause::ReasonCause;
use reducer::reduce_fault::ReduceCause;
use schedule_decode::decode_fault::DecodeCause;
use schedule_text::schedule_fault::ScheduleCause;
use text_lines::fault::FaultCause;
use trace_part::part_fault::PartCause;

/// A cause that is explained.
pub(crate) trait Explained: FaultCause {
    /// Gives what it means, in a sentence.
    fn meaning(&self) -> &'static str;
}

impl Explained for ScheduleCause {
    fn meaning(&self) -> &'static str {
        match self {
            ScheduleCause::BadName => {
                "a line has one word, the name of an operation: its process, a dot and its place, as P.1"
            }
            ScheduleCause::BadNumber => {
                "after the dot stands the place of an operation in its process: decimal, 1 to 65535 (4294967295 if the trace has more than 4096 operations), without a leading zero"
            }
            ScheduleCause::TooMany => {
                "a schedule has at most 4096 names, or 1048576 if its trace has more than 4096 operations"
            }
        }
    }
}

impl Explained for PartCause {
    fn meaning(&self) -> &'static str {
        match self {
            PartCause::UnknownOp => "the trace has no operation of this name",
            PartCause::RepeatedOp => "an earlier line has the same name",
        }
    }
}

impl Explained for ModelCause {
    fn meaning(&self) -> &'static str {
        match self {
            ModelCause::SaysUnsatisfiable => "the solver says that there is no model",
            ModelCause::BadLine => {
                "a line of a model is `s SATISFIABLE`, begins with `v` or `c`, or is blank, and nothing follows the 0 that ends the model"
            }
            ModelCause::BadNumber => {
                "a word after `v` is a variable from 1 to 4194304 or its negation, or the 0 that ends the model"
            }
            ModelCause::Clash => "a variable is both true and false",
            ModelCause::Unended => "no 0 ends the model: is the text cut off?",
        }
    }
}

impl Explained for CnfCause {
    fn meaning(&self) -> &'static str {
        match self {
            CnfCause::NoHeader => "the first line that is no comment is not `p cnf V C`",
            CnfCause::BadHeader => {
                "the header is `p cnf V C`, with at most 4194304 variables and at most 16777216 clauses"
            }
            CnfCause::BadNumber => "a word is no literal and no 0",
            CnfCause::VariableTooLarge => "a variable is above the number in the header",
            CnfCause::CountMismatch => "the text has fewer clauses than the header says",
            CnfCause::Unended => "no 0 ends the last clause: is the text cut off?",
            CnfCause::Trailing => "the text has more clauses than the header says",
        }
    }
}

impl Explained for LratCause {
    fn meaning(&self) -> &'static str {
        match self {
            LratCause::BadLine => "a number follows the last 0 of the line",
            LratCause::BadNumber => {
                "a word is no number or is out of its range: is the proof in the binary form, or of another format?"
            }
            LratCause::Unended => {
                "the line ends before its last 0: a step is an id, literals, 0, hints, 0"
            }
        }
    }
}

impl Explained for ReduceCause {
    fn meaning(&self) -> &'static str {
        match self {
            ReduceCause::StillTooLarge => "more than 160 operations are left after reduction",
        }
    }
}

impl Explained for DecodeCause {
    fn meaning(&self) -> &'static str {
        match self {
            DecodeCause::NotAModel => {
                "the model makes a clause of the trace false: it is no model of what `vsc cnf` prints of this trace"
            }
        }
    }
}

impl Explained for StepFault {
    fn meaning(&self) -> &'static str {
        match self {
            StepFault::UnknownHint => {
                "a hint is the number of no active clause: it was deleted, or never added"
            }
            StepFault::NotUnit => "two or more literals of a hint's clause are not false",
            StepFault::NoConflict => "the hints end before all literals of a clause are false",
            StepFault::IdInUse => "the id of the added clause is that of an active one",
            StepFault::NoEmptyClause => "the derivation ends without the empty clause",
            StepFault::NotOpposed => {
                "the clause of a negative hint lacks the negation of the added clause's first literal"
            }
            StepFault::NoPivot => "the empty clause has a negative hint",
            StepFault::GroupMissing => {
                "an active clause with the negation of the added clause's first literal has no negative hint"
            }
        }
    }
}

impl Explained for CertCause {
    fn meaning(&self) -> &'static str {
        match self {
            CertCause::Header => "the first line that is no comment is not `vsc-cert 1`",
            CertCause::BadTree => {
                "a line of the tree is `leaf`, or `split` and a variable from 1 to 4194304"
            }
            CertCause::TooDeep => "a leaf has more than 20 splits above it",
            CertCause::TooManyLeaves => "the tree has more than 1024 leaves",
            CertCause::BadLine => {
                "after the tree stand sections: `proof` and the number of a leaf, the steps, and `end`"
            }
            CertCause::BadLrat => {
                "a line of a section is a step of a derivation (LRAT in text form), or `end`"
            }
            CertCause::Stranger => "the tree has no leaf of a section's number",
            CertCause::Double => "a leaf has two sections",
            CertCause::Missing => "a leaf has no section",
            CertCause::Derivation => "the proof of a leaf is not accepted for this trace",
        }
    }
}

impl Explained for ReasonCause {
    fn meaning(&self) -> &'static str {
        match self {
            ReasonCause::NoOperation => "the trace has no such operation",
            ReasonCause::NoReader => {
                "the operation reads nothing, or is no update where updates are counted"
            }
            ReasonCause::NoWitness => {
                "a witness writes the location or reads another value there, and is not the reader itself"
            }
            ReasonCause::HidesItself => "the witness is the source that it is to hide",
            ReasonCause::InitialLeft => {
                "the reader may read the initial value, and no piece takes it"
            }
            ReasonCause::BadCycle => {
                "a cycle has an operation or more, and no step from an operation to itself; none waits for itself"
            }
            ReasonCause::NoPair => {
                "no before line of the trace puts the first operation before the second, or of a line `t` no times do"
            }
            ReasonCause::EnoughSources => "there are enough sources",
            ReasonCause::AlwaysTrue => "the clause of the line always holds",
            ReasonCause::TooManyVariables => "there are more than 4194304 variables",
            ReasonCause::BadHeader => "the first line is not `vsc-reasons 1`",
            ReasonCause::BadLine => "the line has none of the forms of a certificate of reasons",
            ReasonCause::OneProcess => "both operations of a variable are of one process",
            ReasonCause::SecondPiece => {
                "a second piece for a process, for the initial value, or for all others; or a member that stands there before"
            }
            ReasonCause::NoWriter => {
                "nobody writes the location, and its end is counted, or its final value is the initial one, or none"
            }
            ReasonCause::LastLeft => "an operation may be the last writer, and no piece takes it",
            ReasonCause::SourceBefore => {
                "an operation that is waited for may come before all of those that wait"
            }
        }
    }
}

impl Explained for SearchCause {
    fn meaning(&self) -> &'static str {
        match self {
            SearchCause::Cut => "the result of a worker did not come",
            SearchCause::NoThread => {
                "no thread could be started for a worker, for lack of memory or by a limit of the system"
            }
        }
    }
}
