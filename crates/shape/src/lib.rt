// Shape numbers of blocks of eight readings, and the two answerers that turn a number into the first coldest place of a range.
#![tactic(auto)]

mod answerer;
mod ballot;
mod block;
mod fault;
mod mask_table;
mod number;
mod question;
mod walk;

pub use answerer::Answerer;
pub use ballot::{ballot_by_rule, ballot_number, ballot_numbers_follow_their_rule};
pub use block::{
    answers_are_first_coldest, cells_are_paths, equal_numbers_equal_answers, first_coldest_of,
    numbers_are_exact,
};
pub use fault::{RangeFault, TableFault};
pub use mask_table::{MaskTable, fill_masks};
pub use number::{shape_number, shape_number_with};
pub use question::Question;
pub use walk::BallotWalk;
