// The panel of the bench: three logs of one firing, and what each command answers and leaves.
#![tactic(auto)]

mod answer;
mod bench;
mod log_name;
mod panel;
mod refusal;
mod roll;
mod written;

pub use answer::Answer;
pub use bench::Bench;
pub use log_name::LogName;
pub use panel::Panel;
pub use refusal::Refusal;
pub use roll::Roll;
pub use written::WrittenStrip;
