// What a shift answers to a line that it does not refuse.
ghost use Rattle.shift.specs.Replies.{shown_reply};

use bake::Record;
use std::fmt;

#[derive(Clone, Copy, Debug, PartialEq, Eq)]
pub enum Reply {
    Count(usize),
    Clear { count: usize },
    Loaded { start: usize },
    Unloaded(Record),
    Abandoned { start: usize },
}

impl fmt::Display for Reply {
    ghost output = { shown_reply };

    fn fmt<W: fmt::Write>(&self, f: &mut fmt::Formatter<W>) -> fmt::Result {
        match self {
            Reply::Count(count) => write!(f, "ok {count}"),
            Reply::Clear { count } => write!(f, "clear {count}"),
            Reply::Loaded { start } => write!(f, "bake {start}"),
            Reply::Unloaded(record) => {
                write!(f, "{} {} {}", record.start, record.last, record.coldest)
            }
            Reply::Abandoned { start } => write!(f, "ended {start}"),
        }
    }
}
