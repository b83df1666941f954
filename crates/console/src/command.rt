// What a line of the bench program asks for, and the refusal of a line that asks for nothing.
ghost use Rattle.std.specs.Prelude.{◌≡◌, Some};
ghost use Rattle.console.specs.Refusal.{malformed_code, refused_text};

use std::fmt;

// Ranges are from one place to another, both ends included.
#[derive(Clone, Copy, Debug, PartialEq, Eq)]
pub enum Command {
    Append { tenths: i32 },
    AppendProbe { margin: i32, number: u32 },
    Cut { length: u32 },
    Coldest { from: u32, to: u32 },
    Hottest { from: u32, to: u32 },
    Weakest { from: u32, to: u32 },
    Strip,
}

// The line is none of the grammar.
#[derive(Clone, Copy, Debug, PartialEq, Eq)]
pub struct Malformed;

impl Malformed {
    pub fn code(self) -> u8
        ensures { result ≡ malformed_code }
    {
        23
    }
}

impl fmt::Display for Malformed {
    ghost output = { λ _. Some (refused_text malformed_code) };

    fn fmt<W: fmt::Write>(&self, f: &mut fmt::Formatter<W>) -> fmt::Result {
        write!(f, "no {}", self.code())
    }
}
