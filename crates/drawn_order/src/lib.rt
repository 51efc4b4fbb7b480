//! What a picture of a trace has in it: which operations, what is known of their order, and what contradicts it.
//!
//! Nothing that is claimed rests on it, so nothing is proved of it but that it is safe and comes to an end. What it says of the
//! operations it has looked up itself: no survey's word is passed on.
#![tactic(auto)]

mod beside;
mod candidates;
mod choice;
mod found_order;
mod item;
mod items;
mod known_order;
mod paths;
mod relation;
mod saturation;
mod schedule_sources;
mod shortage;
mod too_few;
mod used_arrows;

pub use choice::DrawnChoice;
pub use found_order::{
    ArrowKind, DerivedBy, DerivedRule, Exclusion, FoundOrder, OrderArrow, WhyExcluded,
};
pub use item::{ItemKind, PictureItem};
pub use items::{count_operations, count_rows, items_of_choice, items_of_schedule};
pub use known_order::PartTrace;
pub use paths::cycle_of;
pub use saturation::DrawnPart;
pub use schedule_sources::order_of_schedule;
pub use shortage::Shortage;
pub use too_few::too_few_sources;
