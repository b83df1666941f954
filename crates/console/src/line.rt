// A whole line at once.
ghost use Rattle.console.specs.Grammar.{Answers};

use crate::command::{Command, Malformed};
use crate::reader::LineReader;

// What a line asks for. The byte that ends a line is no byte of it.
pub fn parse(line: &[u8]) -> Result<Command, Malformed>
    ensures { Answers line.now result }
{
    let mut reader = LineReader::new();
    for &byte in line {
        reader.step(byte);
    }
    reader.finish()
}
