// Strips read back: opened in place over the caller's bytes, asked, and replayed into a log.
#![tactic(auto)]

mod asking;
mod bits;
mod cursor;
mod fault;
mod laws;
mod octet;
mod opened;
mod opening;
mod replays;

pub use fault::{QuestionFault, StripFault};
pub use laws::{
    accepted_strips_are_of_logs, known_firings, strips_and_shapes_correspond,
    written_strips_are_accepted,
};
pub use opened::Strip;
pub use replays::{ReplayFault, replay};
