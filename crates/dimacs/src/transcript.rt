//! What only clauses see of a device: the bytes that went through it, and how often it failed.
ghost use Rattle.std.specs.Prelude.{◌≡◌, ◌+◌, ℕ, List, [], ◌++◌};
ghost use Rattle.std.specs.Borrow.{ftrue};

use std::marker::{Model, PhantomData};

/// The bytes that a device has taken or has handed out, in their order. It takes no memory: only clauses read it.
#[derive(Drop)]
pub struct Transcript {
    marker: PhantomData<u8>,
    pub ghost bytes: { List ℕ },
}

impl Model for Transcript {
    ghost also_owns = { λ _. ftrue };
}

impl Transcript {
    /// The transcript of a device that nothing went through yet.
    pub fn new() -> Transcript
        ensures { result.bytes ≡ [] }
    {
        Transcript {
            marker: PhantomData,
        }
    }

    /// Notes the bytes that went through the device.
    pub fn extend(&mut self, _bytes: &[u8])
        ensures { self.new.bytes ≡ self.old.bytes ++ _bytes.now }
    {}
}

/// The number of failures of a device. It takes no memory: only clauses read it.
#[derive(Drop)]
pub struct FailureCount {
    marker: PhantomData<u8>,
    pub ghost count: { ℕ },
}

impl Model for FailureCount {
    ghost also_owns = { λ _. ftrue };
}

impl FailureCount {
    /// The count of a device that has not failed yet.
    pub fn new() -> FailureCount
        ensures { result.count ≡ 0 }
    {
        FailureCount {
            marker: PhantomData,
        }
    }

    /// Notes one more failure.
    pub fn rise(&mut self)
        ensures { self.new.count ≡ self.old.count + 1 }
    {}
}
