// Bakes: a clearance says that the stone was warm enough, one bake is loaded on it, and unloading gives the bake's record.
// A clearance and a bake are made by these calls alone and cannot be copied, and a bake has to be unloaded or abandoned.
#![tactic(auto)]

mod clearing;
mod fault;
mod loading;
mod runs;
mod tokens;
mod unloading;

pub use clearing::{clear, kept_count};
pub use fault::{BakeFault, Refused};
pub use loading::start_at;
pub use runs::bakes_are_right;
pub use tokens::{Bake, Clearance};
pub use unloading::{Record, record_from};
