//! Operations on memory, and how one is named.

use crate::name::Name;

/// The name of an operation: its process, and its place there, counted from 1.
pub struct OpName {
    pub process: Name,
    pub place: u32,
}

/// Drops the process's name in one call. A derived `Drop` would drop each at every exit of a function that owns the name of an operation, which makes its proof longer.
impl Drop for OpName {
    fn drop(self) {
        let OpName {
            process: _process,
            place: _,
        } = self;
    }
}

/// What a trace says of where a reading operation has its value from.
pub enum Origin {
    /// Nothing is said.
    Any,
    /// It reads the initial value: no operation has written the location before it.
    Initial,
    /// The last operation before it that writes the location is this one.
    Operation(OpName),
}

/// Drops the operation's name in one call. A derived `Drop` would drop each at every exit of a function that owns an origin, which makes its proof longer.
impl Drop for Origin {
    fn drop(self) {
        match self {
            Origin::Any => {}
            Origin::Initial => {}
            Origin::Operation(_operation) => {}
        }
    }
}

/// When an operation was under way, by the clocks of its machine: it began at one time, and had ended by the other.
#[derive(Clone, Copy)]
pub struct Span {
    pub start: u64,
    pub end: u64,
}

/// An operation. Each is one point of a schedule, within its span if it has one.
pub enum Op {
    /// Reads this value at the location.
    Read {
        location: Name,
        value: u64,
        origin: Origin,
        span: Option<Span>,
    },
    /// Writes this value to the location.
    Write {
        location: Name,
        value: u64,
        span: Option<Span>,
    },
    /// Reads one value at the location and leaves another there.
    Update {
        location: Name,
        read: u64,
        left: u64,
        origin: Origin,
        span: Option<Span>,
    },
}

/// Drops the names in one call. A derived `Drop` would drop each at every exit of a function that owns an operation, which makes its proof longer.
impl Drop for Op {
    fn drop(self) {
        match self {
            Op::Read {
                location: _location,
                value: _,
                origin: _origin,
                span: _,
            } => {}
            Op::Write {
                location: _location,
                value: _,
                span: _,
            } => {}
            Op::Update {
                location: _location,
                read: _,
                left: _,
                origin: _origin,
                span: _,
            } => {}
        }
    }
}

impl Op {
    ghost use Rattle.std.specs.Prelude.{◌≡◌};
    ghost use Rattle.trace_semantics.specs.Operation.{location_of, value_read, written_value, span_of};

    /// The location on which it works.
    pub fn location(&self) -> &Name
        ensures { result.now ≡ location_of self.now }
    {
        match self {
            Op::Read { location, .. } => location,
            Op::Write { location, .. } => location,
            Op::Update { location, .. } => location,
        }
    }

    /// The value that it reads, if it is a reading operation.
    pub fn value_read(&self) -> Option<u64>
        ensures { result ≡ value_read self.now }
    {
        match self {
            Op::Read { value, .. } => Some(*value),
            Op::Write { .. } => None,
            Op::Update { read, .. } => Some(*read),
        }
    }

    /// The value that it leaves, if it writes.
    pub fn written_value(&self) -> Option<u64>
        ensures { result ≡ written_value self.now }
    {
        match self {
            Op::Read { .. } => None,
            Op::Write { value, .. } => Some(*value),
            Op::Update { left, .. } => Some(*left),
        }
    }

    /// When it was under way, if the trace says so.
    pub fn span(&self) -> Option<Span>
        ensures { result ≡ span_of self.now }
    {
        match self {
            Op::Read { span, .. } => *span,
            Op::Write { span, .. } => *span,
            Op::Update { span, .. } => *span,
        }
    }
}
