//! The end of a channel.

/// The channel's end: a stop ticket was received, or the channel ended.
#[derive(Clone, Copy)]
pub struct Ended;
