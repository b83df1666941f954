// The log of one firing: readings in memory that is handed to each call,
// with an index that answers where the stone was first coldest in a fixed number of steps.
#![tactic(auto)]

mod append;
mod backed;
mod candidate;
mod coldest;
mod cut;
mod fault;
mod memory;
mod open;
mod resume;
mod row;
mod runs;
mod sheet;
mod space;
mod strip;
mod view;

pub use fault::LogFault;
pub use memory::Memory;
pub use runs::{logs_agree, logs_keep_what_is_defined, runs_are_right};
pub use sheet::Sheet;
pub use space::Space;
pub use view::LogView;
