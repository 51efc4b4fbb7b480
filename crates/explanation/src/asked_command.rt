//! What was asked.

use note_text::{AskedTexts, NamedText};
use verdict_notes::SearchEffort;

/// A command, with the files that it read.
#[derive(Clone, Copy)]
pub enum AskedCommand<'t> {
    /// To judge a schedule against a trace.
    Judge {
        trace: NamedText<'t>,
        schedule: NamedText<'t>,
    },
    /// To write the formula of a trace.
    Cnf {
        trace: NamedText<'t>,
    },
    /// To turn a model of the formula of a trace into a schedule.
    Decode {
        trace: NamedText<'t>,
        model: NamedText<'t>,
    },
    /// To check a proof that a formula has no model.
    Lrat {
        cnf: NamedText<'t>,
        proof: NamedText<'t>,
    },
    /// To check a certificate of a trace, or of the part of it that these names make up.
    Recheck {
        trace: NamedText<'t>,
        cert: NamedText<'t>,
        names: Option<NamedText<'t>>,
    },
    /// To write a part of a trace.
    Part {
        trace: NamedText<'t>,
        names: NamedText<'t>,
    },
    /// To decide whether a trace has a legal schedule. The report, and the length of the certificate, stand here if they are known.
    Verify {
        trace: NamedText<'t>,
        effort: SearchEffort,
        report: Option<&'t [u8]>,
        certificate_length: Option<u64>,
    },
    /// To decide whether a long trace has a legal schedule, with a hint or without one. The report stands here if it is known.
    Survey {
        trace: NamedText<'t>,
        hint: Option<NamedText<'t>>,
        report: Option<&'t [u8]>,
    },
}

impl<'t> AskedCommand<'t> {
    /// The files that it read, and what failed of what it wrote.
    pub(crate) fn texts(&self, written: Option<&'t [u8]>) -> AskedTexts<'t> {
        let mut texts = AskedTexts::none();
        texts.written = written;
        match self {
            AskedCommand::Judge { trace, schedule } => {
                texts.trace = Some(*trace);
                texts.schedule = Some(*schedule);
            }
            AskedCommand::Cnf { trace } => texts.trace = Some(*trace),
            AskedCommand::Decode { trace, model } => {
                texts.trace = Some(*trace);
                texts.model = Some(*model);
            }
            AskedCommand::Lrat { cnf, proof } => {
                texts.cnf = Some(*cnf);
                texts.proof = Some(*proof);
            }
            AskedCommand::Recheck { trace, cert, names } => {
                texts.trace = Some(*trace);
                texts.certificate = Some(*cert);
                texts.names = *names;
            }
            AskedCommand::Part { trace, names } => {
                texts.trace = Some(*trace);
                texts.names = Some(*names);
            }
            AskedCommand::Verify { trace, .. } => texts.trace = Some(*trace),
            AskedCommand::Survey { trace, hint, .. } => {
                texts.trace = Some(*trace);
                texts.schedule = *hint;
            }
        }
        texts
    }
}
