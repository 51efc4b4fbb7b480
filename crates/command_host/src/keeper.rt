//! A source that passes on what it hands out, and keeps it.
ghost use Rattle.std.specs.Prelude.{◌≡◌};

use crate::device_failure::{DeviceFailure, TellsFailure};
use dimacs::Failed;
use std::alloc::Global;
use verdict_report::{MAX_INPUT_BYTES, Source};

/// What is known of a text that was read.
#[derive(Drop)]
pub struct KeptText {
    /// Its bytes, if it was asked to be kept, and was read to its end.
    pub bytes: Option<Vec<u8>>,
    /// Whether it was asked to be kept, and there was no memory for it.
    pub is_lost: bool,
    /// What failed of its source, if that is known.
    pub failure: Option<DeviceFailure>,
}

impl KeptText {
    /// Nothing is known of it.
    pub fn unread() -> KeptText {
        KeptText {
            bytes: None,
            is_lost: false,
            failure: None,
        }
    }
}

/// What is kept of the bytes that a source hands out: all of them, as long as there is memory, and they are no more than an engine reads.
#[derive(Drop)]
struct Copied {
    bytes: Vec<u8>,
    /// Whether further bytes are added. Once false, it stays so, and `bytes` is a front that is not handed out.
    is_kept: bool,
    /// Whether memory ran out. A text that is too long is not lost: the engine refuses it by itself.
    is_lost: bool,
    /// Whether the source has handed out no byte once, which is how it says its end. A front alone is never given.
    is_ended: bool,
}

impl Copied {
    /// No byte yet, and none later if they are not to be kept.
    fn new(alloc: Global, keeps: bool) -> Copied {
        Copied {
            bytes: Vec::new(alloc),
            is_kept: keeps,
            is_lost: false,
            is_ended: false,
        }
    }

    /// Adds these bytes, or notes the end if there is none.
    fn add(&mut self, bytes: &[u8]) {
        if !self.is_kept {
            return;
        }
        if bytes.is_empty() {
            self.is_ended = true;
        } else if self.bytes.len() > MAX_INPUT_BYTES {
            self.is_kept = false;
        } else if self.bytes.extend_from_slice(bytes).is_err() {
            self.is_kept = false;
            self.is_lost = true;
        }
    }

    /// Gives what is known of the text, if this failed of its source.
    fn into_text(self, failure: Option<DeviceFailure>) -> KeptText {
        let Copied {
            bytes,
            is_kept,
            is_lost,
            is_ended,
        } = self;
        KeptText {
            bytes: if is_kept && is_ended {
                Some(bytes)
            } else {
                None
            },
            is_lost,
            failure,
        }
    }
}

/// A source that passes on what another one hands out, and keeps it for an explanation or a picture, if that is asked. So no file is read twice,
/// and a pipe can be explained as well as a file.
#[derive(Drop)]
pub struct Keeper<S> {
    source: S,
    copied: Copied,
}

impl<S: Source> Keeper<S> {
    /// A source that passes on what this one hands out, and keeps it or not.
    pub fn new(alloc: Global, source: S, keeps: bool) -> Keeper<S>
        ensures { result.source ≡ source }
    {
        Keeper {
            source,
            copied: Copied::new(alloc, keeps),
        }
    }
}

impl<S: Source + TellsFailure + Drop> Keeper<S> {
    /// Gives what is known of the text. Explanations and pictures alone ask, so nothing is promised of the answer.
    pub fn into_text(self) -> KeptText {
        let failure = self.source.failure();
        self.copied.into_text(failure)
    }
}

impl<S: Source> Source for Keeper<S> {
    ghost handed_out = { λ k. S.handed_out k.source };

    ghost is_at_end = { λ k. S.is_at_end k.source };

    ghost failures = { λ k. S.failures k.source };

    ghost path = { λ k. S.path k.source };

    fn read(&mut self, buffer: &mut [u8]) -> Result<usize, Failed> {
        match self.source.read(buffer) {
            Ok(count) => {
                self.copied.add(&buffer[..count]);
                Ok(count)
            }
            Err(failed) => Err(failed),
        }
    }
}
