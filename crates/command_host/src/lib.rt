//! The host of a command: the files and streams it reads and writes, what failed of them, and how a search is asked for.
#![tactic(auto)]

mod device_failure;
mod host;
mod keeper;
mod recorder;
mod search_request;

pub use device_failure::{DeviceCall, DeviceFailure, FailedFile, TellsFailure};
pub use host::Host;
pub use keeper::{Keeper, KeptText};
pub use recorder::{Recalls, Recorder};
pub use search_request::SearchRequest;
