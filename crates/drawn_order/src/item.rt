//! What stands in a box of a picture.

use forced_order::numbered::OperationNumber;
use trace_semantics::operation::{Op, Origin};

/// What a box is of.
#[derive(Clone, Copy)]
pub enum ItemKind {
    /// The initial value of a location.
    Initial,
    /// An operation that the picture is of.
    Chosen,
    /// An operation that is drawn beside those, for what it excludes.
    Beside,
    /// The final value of a location.
    Final,
}

/// A box of a picture: an operation, or an initial or a final value, which is seen as a write or a read.
#[derive(Clone, Copy)]
pub struct PictureItem<'t> {
    pub kind: ItemKind,
    pub location: &'t [u8],
    /// The value that it reads: of a read, an update or a final value.
    pub read: Option<u64>,
    /// The value that it leaves: of a write, an update or an initial value.
    pub left: Option<u64>,
    /// The number of its column. That of the initial values is 0, that of a process one more than its number from 0, and that of the final
    /// values the last.
    pub column: usize,
    /// The number of its row, counted from 0.
    pub row: usize,
    /// The name of its process, if it is an operation; else no bytes.
    pub process: &'t [u8],
    /// Its number, if it is an operation; else process 0 and place 0, which no operation has, as places count from 1.
    pub number: OperationNumber,
    /// Its line, if it is an operation. `is_operation` goes by it.
    pub op: Option<&'t Op>,
}

impl<'t> PictureItem<'t> {
    /// Returns whether it is an initial value.
    pub fn is_initial(&self) -> bool {
        match self.kind {
            ItemKind::Initial => true,
            _ => false,
        }
    }

    /// Returns whether it is a final value.
    pub fn is_final(&self) -> bool {
        match self.kind {
            ItemKind::Final => true,
            _ => false,
        }
    }

    /// Returns whether it is drawn for what it excludes alone.
    pub fn is_beside(&self) -> bool {
        match self.kind {
            ItemKind::Beside => true,
            _ => false,
        }
    }

    /// Returns whether it is an operation.
    pub fn is_operation(&self) -> bool {
        self.op.is_some()
    }

    /// Returns whether it needs a source of its own: two updates never read one write, and the last write of a location is read by none.
    pub fn takes_its_source(&self) -> bool {
        self.read.is_some() && (self.left.is_some() || self.is_final())
    }

    /// Returns whether it is the operation at this place of the process.
    pub fn is_named(&self, process: &[u8], place: u32) -> bool {
        self.op.is_some() && self.number.place == place && self.process == process
    }

    /// Returns whether it leaves a value at the location.
    pub fn writes_at(&self, location: &[u8]) -> bool {
        self.left.is_some() && self.location == location
    }

    /// The origin that its line names.
    pub(crate) fn origin(&self) -> Option<&'t Origin> {
        match self.op? {
            Op::Read { origin, .. } => Some(origin),
            Op::Write { .. } => None,
            Op::Update { origin, .. } => Some(origin),
        }
    }

    /// Returns whether its line lets it read from the other one.
    fn allows(&self, writer: &PictureItem<'t>) -> bool {
        match self.origin() {
            Some(Origin::Any) => true,
            Some(Origin::Initial) => writer.is_initial(),
            Some(Origin::Operation(name)) => writer.is_named(name.process.as_bytes(), name.place),
            None => true,
        }
    }

    /// Returns whether it may have its value from the other one, but for their order.
    pub(crate) fn may_read_from(&self, writer: &PictureItem<'t>) -> bool {
        self.read.is_some()
            && self.read == writer.left
            && self.location == writer.location
            && self.allows(writer)
    }
}
