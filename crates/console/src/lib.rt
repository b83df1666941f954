// The text side of the bench program: what a line asks for, the reader of a line, and the replies. Nothing here allocates.
#![tactic(auto)]

mod buffer;
mod command;
mod hex;
mod line;
mod number;
mod numerals;
mod reader;
mod reply;
mod state;

pub use buffer::LineBuffer;
pub use command::{Command, Malformed};
pub use hex::Hex;
pub use line::parse;
pub use numerals::{read_number, read_signed};
pub use reader::LineReader;
pub use reply::{Done, Found};

#[cfg(test)]
mod tests;
