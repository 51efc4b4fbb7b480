//! The system as the host of a command: files, standard streams, progress.
#![tactic(auto)]

mod file_sink;
mod file_source;
mod folder;
mod held_numbers;
mod progress;
mod stream_sink;
mod system_host;

pub use held_numbers::HeldNumbers;
pub use progress::Progress;
pub use stream_sink::StreamSink;
pub use system_host::SystemHost;
